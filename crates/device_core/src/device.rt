// A device end without received bytes.
ghost use Rattle.std.specs.Prelude.{◌≡◌, ◌+◌, ◌*◌, ◌<◌, ◌≤◌, ◌++◌, true, false, Some, None, IfOk, IfErr, OnOk, OnErr};

use crate::answers::{answer_by_value, answer_sync};
use crate::fault::HearFault;
use crate::replies::reply_from;
use crate::requests::{put_line, put_want};
use cos_api::{Call, Calls, Device, plain};
use cos_base::{NoMemory, Octets};
use cosim_model::{Access, Answer, Event, Reply, Role, SessionFault, Ticket, Want};
use end_answers::{answer_by_code, bare_reply, refuse_read};
use end_packets::{BusPlace, access_of, is_served, put_packet};
use ends_model::OpenSync;
use rp_packet::{BusAccess, Packet};
use rp_session::{Caps, Session};
use std::alloc::Global;
use std::marker::Model;

/// The most bytes that are sent for one packet: the answer to a read of 4,096 bytes, the lines of 4,096 wants, the request of a
/// want and the answer to a sync.
pub const MOST_SENT: usize = 172_348;

/// The most calls of one packet: an access, and 4,096 wants.
pub const MOST_CALLS: usize = 4097;

/// The bytes of the longest hello of an end.
const HELLO: usize = 44;

/// The most data bytes of an answer.
const MOST_DATA: usize = 4096;

/// A device and its side of the session.
#[derive(Drop)]
pub struct DeviceCore<D: Device> {
    alloc: Global,
    device: D,
    answered_lines: bool,
    session: Session,
    // the sync that was taken and not answered
    open_sync: Option<OpenSync>,
    // the want whose request awaits its answer
    own: Option<Want>,
    calls: Calls,
    place: BusPlace,
}

impl<D: Device> Model for DeviceCore<D> {
    ghost use Rattle.std.specs.Prelude.{◌≤◌, None};
    ghost use Rattle.device_core.specs.Cores.{Core, IsCore};

    ghost Value = { Core D };

    ghost view = { λ c. record {
      end = record {
        device = c.device;
        answered_lines = c.answered_lines;
        session = c.session;
        open_sync = c.open_sync;
        own = c.own;
        calls = c.calls.calls;
        fault = None;
      };
      room = c.calls.spare;
    } };

    ghost invariant = { λ c. (4096 ≤ c.place.room) × IsCore D.model (record {
      device = c.device;
      answered_lines = c.answered_lines;
      session = c.session;
      open_sync = c.open_sync;
      own = c.own;
      calls = c.calls.calls;
      fault = None;
    }) };
}

impl<D: Device> DeviceCore<D> {
    ghost use Rattle.std.specs.Prelude.{[], ◌∷◌, is_some, length};
    ghost use Rattle.cosim_model.specs.declared.session.Role.TheVariants.{Device};
    ghost use Rattle.cosim_model.specs.declared.session.Command.TheVariants as command;
    ghost use Rattle.cosim_model.specs.Packets.{Packet as PacketValue};
    ghost use Rattle.cosim_model.specs.Packets.Body.{Read, Write};
    ghost use Rattle.cosim_model.specs.Sessions.{fresh_session, hello_of, hello_sent, take_packet};
    ghost use Rattle.ends_model.specs.DeviceTurn.{fresh_device, settle_one, settled, settle_as, with_kind, acts, accessed, answer_at, answered_own, answer_read, answer_write, do_posted, fed, is_device_size, told, asked, own_request};
    ghost use Rattle.cosim_model.specs.declared.session.Event.TheVariants as Event;
    ghost use Rattle.cosim_model.specs.declared.values.Want.TheVariants as Want;
    ghost use Rattle.end_packets.specs.Places.{IsNarrow};
    ghost use Rattle.rp_busaccess.specs.Bits.{fields_of};
    ghost use Rattle.rp_packet.specs.Spelling.{packet_bytes};
    ghost use Rattle.rp_packet.specs.Values.{value_of};
    ghost use Rattle.end_answers.specs.Packets.{IsRead};
    ghost use Rattle.device_core.specs.Cores.{Does, Hears, IsTaken, Settled, spelled};

    /// An end that has sent and taken nothing. `offer` is what its hello offers, and `answered_lines` says whether it sends a line so
    /// that it is answered, where that is in common.
    pub fn make(
        alloc: Global,
        device: D,
        offer: Caps,
        answered_lines: bool,
    ) -> Result<DeviceCore<D>, NoMemory>
        requires { D.model.seen device ≡ 0 }
        ensures { IfOk result (λ c. c.end ≡ fresh_device device answered_lines (fresh_session Device offer (D.model.needs device))) }
    {
        let place = BusPlace::make(alloc, MOST_DATA)?;
        let session = Session::make(Role::Device, offer, device.needs(), 0);
        Ok(DeviceCore {
            alloc,
            device,
            answered_lines,
            session,
            open_sync: None,
            own: None,
            calls: Calls::make(alloc),
            place,
        })
    }

    /// The device.
    pub fn device(&self) -> &D
        ensures { result.now ≡ self.now.end.device }
    {
        &self.device
    }

    /// The calls of the device so far, with port 0.
    pub fn calls(&self) -> &Calls
        ensures calls { result.now.calls ≡ self.now.end.calls }
        ensures spare { result.now.spare ≡ self.now.room }
    {
        &self.calls
    }

    /// What the own hello offers.
    pub fn offer(&self) -> Caps
        ensures { result ≡ self.now.end.session.offers }
    {
        self.session.offer()
    }

    /// Whether a line is sent so that it is answered, where that is in common.
    pub fn answered_lines(&self) -> bool
        ensures { result ≡ self.now.end.answered_lines }
    {
        self.answered_lines
    }

    /// Whether the own hello was sent.
    pub fn has_greeted(&self) -> bool
        ensures { result ≡ self.now.end.session.hello_went }
    {
        self.session.has_greeted()
    }

    /// Whether the peer's hello came.
    pub fn has_met(&self) -> bool
        ensures { result ≡ self.now.end.session.hello_came }
    {
        self.session.has_met()
    }

    /// Whether a sync was taken that isn't answered.
    pub fn has_open_sync(&self) -> bool
        ensures { result ≡ is_some self.now.end.open_sync }
    {
        self.open_sync.is_some()
    }

    /// Whether an own request awaits its answer.
    pub fn awaits(&self) -> bool
        ensures { result ≡ is_some self.now.end.own }
    {
        self.own.is_some()
    }

    /// Makes room for the calls of one packet.
    pub fn reserve_calls(&mut self) -> Result<(), NoMemory>
        ensures end { self.new.end ≡ self.old.end }
        ensures ok { OnOk result (4097 ≤ self.new.room) }
        ensures err { OnErr result (self.new ≡ self.old) }
    {
        self.calls.reserve(MOST_CALLS)
    }

    /// Sends the own hello.
    pub fn greet(&mut self, out: &mut Octets) -> Result<(), NoMemory>
        requires { self.old.end.session.hello_went ≡ false }
        ensures end { OnOk result (self.new.end ≡ record self.old.end { session = hello_sent self.old.end.session }) }
        ensures bytes { OnOk result (out.new.bytes ≡ out.old.bytes ++ packet_bytes (hello_of self.old.end.session)) }
        ensures err { OnErr result ((self.new ≡ self.old) × (out.new.bytes ≡ out.old.bytes)) }
    {
        out.reserve(HELLO)?;
        let hello = self.session.hello(self.alloc)?;
        put_packet(&hello, out);
        Ok(())
    }

    /// Takes a packet that was read, acts and settles. It appends what it sends.
    pub fn hear(&mut self, packet: &Packet, out: &mut Octets) -> Result<(), HearFault>
        requires greeted { self.old.end.session.hello_went ≡ true }
        requires read { IsRead (value_of packet.now) }
        requires calls { 4097 ≤ self.old.room }
        requires room { 172348 ≤ out.old.spare }
        ensures hears { Hears D.model self.old self.new out.old.bytes out.new.bytes (value_of packet.now) result }
        ensures clear { self.new.end.fault ≡ None }
    {
        let before = self.session;
        let event = match self.take(packet) {
            Ok(event) => event,
            Err(fault) => return Err(HearFault::Session(fault)),
        };
        match self.act(packet, event, out) {
            Ok(()) => {}
            Err(NoMemory) => {
                self.session = before;
                return Err(HearFault::NoMemory);
            }
        }
        self.settle(out);
        self.is_clear();
        Ok(())
    }

    /// No fault is kept here.
    fn is_clear(&self)
        ensures { self.now.end.fault ≡ None }
    {
        let _device = &self.device;
    }

    /// Takes a packet into the session.
    fn take(&mut self, packet: &Packet) -> Result<Event, SessionFault>
        ensures end { self.new.end ≡ record self.old.end { session = (take_packet self.old.end.session (value_of packet.now)).0 } }
        ensures room { self.new.room ≡ self.old.room }
        ensures event { result ≡ (take_packet self.old.end.session (value_of packet.now)).1 }
        ensures taken { IfOk result (IsTaken self.new.end.session (value_of packet.now)) }
        ensures greeted { self.new.end.session.hello_went ≡ self.old.end.session.hello_went }
    {
        self.session.take(packet)
    }

    /// Does what a packet asks for that was taken.
    fn act(&mut self, packet: &Packet, event: Event, out: &mut Octets) -> Result<(), NoMemory>
        requires taken { IsTaken self.old.end.session (value_of packet.now) event }
        requires read { IsRead (value_of packet.now) }
        requires calls { 1 ≤ self.old.room }
        requires room { 4176 ≤ out.old.spare }
        ensures ok { OnOk result (Does (acts D.model self.old.end (value_of packet.now).body event) self.new out.old.bytes out.new.bytes) }
        ensures calls { OnOk result (self.old.room ≤ self.new.room + 1) }
        ensures room { OnOk result (out.old.spare ≤ out.new.spare + 4176) }
        ensures greeted { self.new.end.session.hello_went ≡ self.old.end.session.hello_went }
        ensures err { OnErr result ((self.new ≡ self.old) × (out.new.bytes ≡ out.old.bytes)) }
    {
        match event {
            Event::Asked(ticket) => self.answer(packet, ticket, out),
            Event::Told => self.obey(packet),
            Event::Answered => {
                self.hear_answer(packet);
                Ok(())
            }
            Event::Nothing | Event::Met | Event::SyncDone => Ok(()),
        }
    }

    /// Answers a request, or opens a sync.
    fn answer(&mut self, packet: &Packet, ticket: Ticket, out: &mut Octets) -> Result<(), NoMemory>
        requires taken { IsTaken self.old.end.session (value_of packet.now) (Event.Asked ticket) }
        requires read { IsRead (value_of packet.now) }
        requires calls { 1 ≤ self.old.room }
        requires room { 4176 ≤ out.old.spare }
        ensures ok { OnOk result (Does (acts D.model self.old.end (value_of packet.now).body (Event.Asked ticket)) self.new out.old.bytes out.new.bytes) }
        ensures calls { OnOk result (self.old.room ≤ self.new.room + 1) }
        ensures room { OnOk result (out.old.spare ≤ out.new.spare + 4176) }
        ensures greeted { self.new.end.session.hello_went ≡ self.old.end.session.hello_went }
        ensures err { OnErr result ((self.new ≡ self.old) × (out.new.bytes ≡ out.old.bytes)) }
    {
        match packet {
            Packet::Read(_, bus) => self.answer_read(ticket, bus, out),
            Packet::Write(_, bus) => self.answer_write(ticket, bus, out),
            Packet::Sync(_, sync) => {
                self.begin_sync(ticket, sync.time);
                Ok(())
            }
            Packet::Nop(_) | Packet::Hello(..) | Packet::Cfg(..) | Packet::Interrupt(..) => Ok(()),
        }
    }

    /// Brings the device to a sync's time, and keeps the sync open.
    fn begin_sync(&mut self, ticket: Ticket, time: u64)
        requires sync { ticket.cmd ≡ command.Sync }
        requires asked { self.old.end.session.peer_sync ≡ Some ticket }
        requires time { self.old.end.session.peer_time ≡ time }
        ensures { self.new ≡ record self.old {
          end = record self.old.end {
            device = D.model.advance self.old.end.device time;
            open_sync = Some (record { ticket = ticket; time = time });
          };
        } }
    {
        self.device.advance(time);
        self.open_sync = Some(OpenSync { ticket, time });
    }

    /// Answers a read.
    fn answer_read(
        &mut self,
        ticket: Ticket,
        bus: &BusAccess,
        out: &mut Octets,
    ) -> Result<(), NoMemory>
        requires asked { self.old.end.session.peer_other ≡ Some ticket }
        requires read { ticket.cmd ≡ command.Read }
        requires time { self.old.end.session.peer_time ≡ bus.now.time }
        requires narrow { IsNarrow (fields_of bus.now) }
        requires none { length bus.now.payload.bytes ≡ 0 }
        requires calls { 1 ≤ self.old.room }
        requires room { 4176 ≤ out.old.spare }
        ensures ok { OnOk result (Does (answer_read D.model self.old.end ticket (fields_of bus.now) (is_device_size (fields_of bus.now))) self.new out.old.bytes out.new.bytes) }
        ensures calls { OnOk result (self.old.room ≤ self.new.room + 1) }
        ensures room { OnOk result (out.old.spare ≤ out.new.spare + 4176) }
        ensures greeted { self.new.end.session.hello_went ≡ self.old.end.session.hello_went }
        ensures err { OnErr result ((self.new ≡ self.old) × (out.new.bytes ≡ out.old.bytes)) }
    {
        if !is_served(bus) {
            refuse_read(&mut self.session, &mut self.place, ticket, bus, out);
            return Ok(());
        }
        let answer = self.access(bus.time, access_of(false, false, bus))?;
        answer_by_value(&mut self.session, &mut self.place, ticket, bus, answer, out);
        Ok(())
    }

    /// Answers a write.
    fn answer_write(
        &mut self,
        ticket: Ticket,
        bus: &BusAccess,
        out: &mut Octets,
    ) -> Result<(), NoMemory>
        requires asked { self.old.end.session.peer_other ≡ Some ticket }
        requires write { ticket.cmd ≡ command.Write }
        requires time { self.old.end.session.peer_time ≡ bus.now.time }
        requires narrow { IsNarrow (fields_of bus.now) }
        requires data { length bus.now.payload.bytes ≡ bus.now.len }
        requires calls { 1 ≤ self.old.room }
        requires room { 4176 ≤ out.old.spare }
        ensures ok { OnOk result (Does (answer_write D.model self.old.end ticket (fields_of bus.now) (is_device_size (fields_of bus.now))) self.new out.old.bytes out.new.bytes) }
        ensures calls { OnOk result (self.old.room ≤ self.new.room + 1) }
        ensures room { OnOk result (out.old.spare ≤ out.new.spare + 4176) }
        ensures greeted { self.new.end.session.hello_went ≡ self.old.end.session.hello_went }
        ensures err { OnErr result ((self.new ≡ self.old) × (out.new.bytes ≡ out.old.bytes)) }
    {
        if !is_served(bus) {
            answer_by_code(&mut self.session, &mut self.place, ticket, bus, 1, out);
            return Ok(());
        }
        let answer = self.access(bus.time, access_of(true, false, bus))?;
        answer_by_code(
            &mut self.session,
            &mut self.place,
            ticket,
            bus,
            answer.code,
            out,
        );
        Ok(())
    }

    /// Does a posted write, which has no answer.
    fn obey(&mut self, packet: &Packet) -> Result<(), NoMemory>
        requires taken { IsTaken self.old.end.session (value_of packet.now) Event.Told }
        requires read { IsRead (value_of packet.now) }
        requires calls { 1 ≤ self.old.room }
        ensures ok { OnOk result ((acts D.model self.old.end (value_of packet.now).body Event.Told) ≡ (self.new.end, [])) }
        ensures calls { OnOk result (self.old.room ≤ self.new.room + 1) }
        ensures greeted { self.new.end.session.hello_went ≡ self.old.end.session.hello_went }
        ensures err { OnErr result (self.new ≡ self.old) }
    {
        match packet {
            Packet::Write(_, bus) => self.write_posted(bus),
            Packet::Nop(_)
            | Packet::Hello(..)
            | Packet::Cfg(..)
            | Packet::Read(..)
            | Packet::Interrupt(..)
            | Packet::Sync(..) => Ok(()),
        }
    }

    /// Does a posted write of the registers, where a device serves it.
    fn write_posted(&mut self, bus: &BusAccess) -> Result<(), NoMemory>
        requires time { self.old.end.session.peer_time ≡ bus.now.time }
        requires data { length bus.now.payload.bytes ≡ bus.now.len }
        requires calls { 1 ≤ self.old.room }
        ensures ok { OnOk result ((do_posted D.model self.old.end (fields_of bus.now) (is_device_size (fields_of bus.now))) ≡ (self.new.end, [])) }
        ensures calls { OnOk result (self.old.room ≤ self.new.room + 1) }
        ensures greeted { self.new.end.session.hello_went ≡ self.old.end.session.hello_went }
        ensures err { OnErr result (self.new ≡ self.old) }
    {
        if !is_served(bus) {
            return Ok(());
        }
        self.access(bus.time, access_of(true, true, bus))?;
        Ok(())
    }

    /// Reads or writes a register, and keeps the call.
    fn access(&mut self, tick: u64, access: Access) -> Result<Answer, NoMemory>
        requires time { self.old.end.session.peer_time ≡ tick }
        requires size { access.size ≤ 8 }
        requires calls { 1 ≤ self.old.room }
        ensures end { OnOk result (self.new.end ≡ accessed D.model self.old.end tick access) }
        ensures answer { IfOk result (λ a. a ≡ answer_at D.model self.old.end tick access) }
        ensures code { IfOk result (λ a. a.code < 16) }
        ensures calls { OnOk result (self.new.room + 1 ≡ self.old.room) }
        ensures err { OnErr result (self.new ≡ self.old) }
    {
        let answer = match self.device.access(tick, access) {
            Ok(answer) => plain(access, answer),
            Err(NoMemory) => return Err(NoMemory),
        };
        self.calls.push_spare(Call::Access {
            tick,
            port: 0,
            access,
            answer,
        });
        Ok(answer)
    }

    /// Feeds the device what the own request was answered.
    fn hear_answer(&mut self, packet: &Packet)
        requires free { self.old.end.session.own_other ≡ None }
        requires read { IsRead (value_of packet.now) }
        requires calls { 1 ≤ self.old.room }
        ensures end { answered_own D.model self.old.end (value_of packet.now).body self.old.end.own ≡ (self.new.end, []) }
        ensures calls { self.old.room ≤ self.new.room + 1 }
    {
        match self.own {
            None => {}
            Some(want) => self.feed(want, reply_from(want, packet)),
        }
    }

    /// Feeds the device the reply to its want, and keeps the call.
    fn feed(&mut self, want: Want, reply: Reply)
        requires want { D.model.want self.old.end.device ≡ Some want }
        requires free { self.old.end.session.own_other ≡ None }
        requires calls { 1 ≤ self.old.room }
        ensures end { self.new.end ≡ fed D.model self.old.end want reply }
        ensures calls { self.new.room + 1 ≡ self.old.room }
    {
        self.calls.push_spare(Call::Served {
            tick: self.device.seen(),
            port: 0,
            due: self.device.due(),
            want,
            reply,
        });
        self.device.feed(reply);
        self.own = None;
    }

    /// Asks for what the device wants, and answers the open sync, as far as it can.
    fn settle(&mut self, out: &mut Octets)
        requires greeted { self.old.end.session.hello_went ≡ true }
        requires calls { 4096 ≤ self.old.room }
        requires room { 168172 ≤ out.old.spare }
        ensures { Does (settled D.model self.old.end) self.new out.old.bytes out.new.bytes }
    {
        'wants: while self.settle_one(out) {}
    }

    /// One settling. It says whether another may follow.
    fn settle_one(&mut self, out: &mut Octets) -> bool
        requires greeted { self.old.end.session.hello_went ≡ true }
        requires calls { D.model.left self.old.end.device ≤ self.old.room }
        requires room { 208 ≤ out.old.spare }
        ensures settles { Settled (settle_one D.model self.old.end) self.new out.old.bytes out.new.bytes result }
        ensures left { result ≡ true → D.model.left self.new.end.device < D.model.left self.old.end.device }
        ensures calls { result ≡ true → self.old.room ≤ self.new.room + 1 }
        ensures room { result ≡ true → out.old.spare ≤ out.new.spare + 41 }
        ensures greeted { self.new.end.session.hello_went ≡ true }
    {
        if !self.session.has_met() || self.own.is_some() {
            return false;
        }
        match self.device.want() {
            Some(want) => self.serve(want, out),
            None => {
                self.close(out);
                false
            }
        }
    }

    /// Asks for what is wanted, where it can.
    fn serve(&mut self, want: Want, out: &mut Octets) -> bool
        requires greeted { self.old.end.session.hello_went ≡ true }
        requires free { self.old.end.own ≡ None }
        requires wanted { D.model.want self.old.end.device ≡ Some want }
        requires calls { 1 ≤ self.old.room }
        requires room { 208 ≤ out.old.spare }
        ensures settles { Settled (settle_as D.model self.old.end true (Some (with_kind D.model self.old.end want)) self.old.end.open_sync) self.new out.old.bytes out.new.bytes result }
        ensures left { result ≡ true → D.model.left self.new.end.device < D.model.left self.old.end.device }
        ensures calls { result ≡ true → self.old.room ≤ self.new.room + 1 }
        ensures room { result ≡ true → out.old.spare ≤ out.new.spare + 41 }
        ensures greeted { self.new.end.session.hello_went ≡ true }
    {
        match want {
            Want::Fetch { .. } => {
                self.ask(want, out);
                false
            }
            Want::Store { .. } => {
                self.ask(want, out);
                false
            }
            Want::Line { line, level } => self.serve_line(line, level, out),
        }
    }

    /// Sends a line: answered where that is in common, else posted while a sync is open.
    fn serve_line(&mut self, line: u32, level: bool, out: &mut Octets) -> bool
        requires greeted { self.old.end.session.hello_went ≡ true }
        requires free { self.old.end.own ≡ None }
        requires wanted { D.model.want self.old.end.device ≡ Some (Want.Line line level) }
        requires calls { 1 ≤ self.old.room }
        requires room { 208 ≤ out.old.spare }
        ensures settles { Settled (settle_as D.model self.old.end true (Some (with_kind D.model self.old.end (Want.Line line level))) self.old.end.open_sync) self.new out.old.bytes out.new.bytes result }
        ensures left { result ≡ true → D.model.left self.new.end.device < D.model.left self.old.end.device }
        ensures calls { result ≡ true → self.old.room ≤ self.new.room + 1 }
        ensures room { result ≡ true → out.old.spare ≤ out.new.spare + 41 }
        ensures greeted { self.new.end.session.hello_went ≡ true }
    {
        if self.session.common().posted && self.answered_lines {
            self.ask(Want::Line { line, level }, out);
            return false;
        }
        if self.open_sync.is_none() {
            return false;
        }
        self.tell(line, level, out);
        true
    }

    /// Sends a want's request, which is answered.
    fn ask(&mut self, want: Want, out: &mut Octets)
        requires greeted { self.old.end.session.hello_went ≡ true }
        requires free { self.old.end.own ≡ None }
        requires wanted { D.model.want self.old.end.device ≡ Some want }
        requires room { 208 ≤ out.old.spare }
        ensures end { self.new.end ≡ asked D.model self.old.end want }
        ensures bytes { out.new.bytes ≡ out.old.bytes ++ packet_bytes (own_request D.model self.old.end false want) }
        ensures greeted { self.new.end.session.hello_went ≡ true }
    {
        let due = self.device.due();
        put_want(&mut self.session, &mut self.place, due, want, out);
        self.own = Some(want);
    }

    /// Sends a line that is posted, and feeds the device.
    fn tell(&mut self, line: u32, level: bool, out: &mut Octets)
        requires greeted { self.old.end.session.hello_went ≡ true }
        requires free { self.old.end.own ≡ None }
        requires wanted { D.model.want self.old.end.device ≡ Some (Want.Line line level) }
        requires calls { 1 ≤ self.old.room }
        requires room { 41 ≤ out.old.spare }
        ensures end { self.new.end ≡ told D.model self.old.end (Want.Line line level) }
        ensures bytes { out.new.bytes ≡ out.old.bytes ++ packet_bytes (own_request D.model self.old.end true (Want.Line line level)) }
        ensures left { D.model.left self.new.end.device < D.model.left self.old.end.device }
        ensures calls { self.new.room + 1 ≡ self.old.room }
        ensures room { out.old.spare ≤ out.new.spare + 41 }
        ensures greeted { self.new.end.session.hello_went ≡ true }
    {
        let due = self.device.due();
        put_line(&mut self.session, due, true, line, level, out);
        self.feed(Want::Line { line, level }, bare_reply(0));
    }

    /// Answers the open sync, where there is one.
    fn close(&mut self, out: &mut Octets)
        requires room { 28 ≤ out.old.spare }
        ensures settles { Settled (settle_as D.model self.old.end true None self.old.end.open_sync) self.new out.old.bytes out.new.bytes false }
        ensures greeted { self.new.end.session.hello_went ≡ self.old.end.session.hello_went }
    {
        if let Some(sync) = self.open_sync {
            answer_sync(&mut self.session, sync, out);
            self.open_sync = None;
        }
    }
}
