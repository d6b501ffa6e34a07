// A machine end without received bytes.
ghost use Rattle.std.specs.Prelude.{◌≡◌, ◌↔◌, ◌+◌, ◌<◌, ◌≤◌, true, false, Some, None, IfOk, OnOk, OnErr};

use crate::answers::heard_answer;
use crate::boundaries::{ends_sync, first_phase, is_due, is_over, phase_after};
use crate::fault::HearFault;
use crate::port::MachinePort;
use crate::ports::{begin_waits, first_held, first_unknown, fresh_ports};
use crate::services::service_turn;
use crate::units::{take_units, units_ahead};
use cos_api::{Call, Calls, Master, plain};
use cos_base::{NoMemory, Octets};
use cosim_model::{Access, Answer, Event, Plan, SessionFault};
use end_packets::BusPlace;
use ends_model::{Phase, Turn};
use rp_packet::Packet;
use std::alloc::Global;
use std::marker::Model;

/// The most bytes that are sent in a turn: the answer to a read of 4,096 bytes.
pub const MOST_SENT: usize = 4176;

/// The most data bytes of an answer.
const MOST_DATA: usize = 4096;

/// A master and its side of each port.
#[derive(Drop)]
pub struct MachineCore<M: Master> {
    alloc: Global,
    plan: Plan,
    phase: Phase,
    master: M,
    ports: Vec<MachinePort>,
    calls: Calls,
    tick: u64,
    // the boundary at this tick is done
    marked: bool,
    place: BusPlace,
}

impl<M: Master> Model for MachineCore<M> {
    ghost use Rattle.std.specs.Prelude.{◌≤◌, None};
    ghost use Rattle.machine_core.specs.Machines.{Core, IsMachine};

    ghost Value = { Core M };

    ghost view = { λ c. record {
      end = record {
        plan = c.plan;
        phase = c.phase;
        master = c.master;
        ports = c.ports.items;
        calls = c.calls.calls;
        tick = c.tick;
        marked = c.marked;
        fault = None;
      };
      room = c.calls.spare;
    } };

    ghost invariant = { λ c. (4096 ≤ c.place.room) × IsMachine M.model (record {
      plan = c.plan;
      phase = c.phase;
      master = c.master;
      ports = c.ports.items;
      calls = c.calls.calls;
      tick = c.tick;
      marked = c.marked;
      fault = None;
    }) };
}

impl<M: Master> MachineCore<M> {
    ghost use Rattle.std.specs.Prelude.{ℕ, slice_get, is_some, length, map};
    ghost use Rattle.ends_model.specs.World.{machine_start};
    ghost use Rattle.ends_model.specs.declared.ends.Phase.TheVariants as Phase;
    ghost use Rattle.ends_model.specs.MachineTurn.{PortEnd, machine_acts, at_port, greets, syncs, runs, works, accesses, finished, gathers, serves_held, met, answered, hold_request, machine_takes, first_true, is_unknown, is_due as is_boundary, is_last as is_end};
    ghost use Rattle.cosim_model.specs.Packets.Decoded.{Valid};
    ghost use Rattle.cosim_model.specs.Parts.{IsAccess};
    ghost use Rattle.end_answers.specs.Packets.{IsRead};
    ghost use Rattle.rp_packet.specs.Values.{value_of};
    ghost use Rattle.rp_packet.specs.declared.fault.Cause.{Cause};
    ghost use Rattle.machine_core.specs.Machines.{Acts, ActsBy, Becomes, Does, Hears, MayAnswer, MayHold, Took, awaited, is_late};
    ghost use Rattle.machine_core.specs.Units.{Advances};

    /// An end that has done nothing, with so many ports. It offers all capabilities, and needs none.
    pub fn make(
        alloc: Global,
        master: M,
        ports: u32,
        plan: Plan,
    ) -> Result<MachineCore<M>, NoMemory>
        requires free { M.model.issued master ≡ None }
        requires reach { M.model.reach master ≤ ports }
        requires quantum { 0 < plan.quantum }
        ensures { IfOk result (λ c. c.end ≡ machine_start Cause master ports plan) }
    {
        let place = BusPlace::make(alloc, MOST_DATA)?;
        let list = fresh_ports(alloc, ports)?;
        Ok(MachineCore {
            alloc,
            plan,
            phase: first_phase(ports),
            master,
            ports: list,
            calls: Calls::make(alloc),
            tick: 0,
            marked: false,
            place,
        })
    }

    /// The master.
    pub fn master(&self) -> &M
        ensures { result.now ≡ self.now.end.master }
    {
        &self.master
    }

    /// The calls so far.
    pub fn calls(&self) -> &Calls
        ensures calls { result.now.calls ≡ self.now.end.calls }
        ensures spare { result.now.spare ≡ self.now.room }
    {
        &self.calls
    }

    /// How many units are done.
    pub fn ticks(&self) -> u64
        ensures { result ≡ self.now.end.tick }
    {
        self.tick
    }

    /// Whether all is done.
    pub fn is_done(&self) -> bool
        ensures { (result ≡ true) ↔ (self.now.end.phase ≡ Phase.Done) }
    {
        matches!(self.phase, Phase::Done)
    }

    /// Makes room for the call of one turn.
    pub fn reserve_calls(&mut self) -> Result<(), NoMemory>
        ensures end { self.new.end ≡ self.old.end }
        ensures ok { OnOk result (1 ≤ self.new.room) }
        ensures err { OnErr result (self.new ≡ self.old) }
    {
        self.calls.reserve(1)
    }

    /// The port of which a packet is awaited, where one is.
    pub fn awaits(&self) -> Option<u32>
        ensures is { result ≡ awaited (machine_acts M.model self.now.end) }
        ensures there { (p : ℕ) → awaited (machine_acts M.model self.now.end) ≡ Some p → p < length self.now.end.ports }
    {
        self.is_there();
        match self.phase {
            Phase::Meet { port } => Some(port),
            Phase::AnswerFrom { port, .. } => Some(port),
            Phase::Gather => match first_unknown(self.ports.as_slice()) {
                Some(port) => Some(port as u32),
                None => None,
            },
            Phase::Greet { .. } => None,
            Phase::Run => None,
            Phase::SyncTo { .. } => None,
            Phase::Done => None,
        }
    }

    /// A port of which a packet is awaited is there.
    fn is_there(&self)
        ensures { (p : ℕ) → awaited (machine_acts M.model self.now.end) ≡ Some p → p < length self.now.end.ports }
    {
        let _tick = self.tick;
    }

    /// Takes a turn that takes no packet, and appends what it sends. Where a packet is awaited it says so. `NoMemory` leaves all as
    /// it was.
    pub fn act(&mut self, out: &mut Octets) -> Result<Turn, NoMemory>
        requires calls { 1 ≤ self.old.room }
        requires room { 4176 ≤ out.old.spare }
        ensures acts { Acts M.model self.old self.new out.old.bytes out.new.bytes result }
        ensures clear { self.new.end.fault ≡ None }
        ensures few { length out.new.bytes ≤ length out.old.bytes + 4176 }
    {
        match self.phase {
            Phase::Greet { port } => self.greet(port, out),
            Phase::Meet { port } => Ok(Turn::NotYet { port }),
            Phase::Run => {
                let turn = self.run(out);
                self.is_clear();
                turn
            }
            Phase::AnswerFrom { port, .. } => Ok(Turn::NotYet { port }),
            Phase::SyncTo { port } => Ok(self.sync(port, out)),
            Phase::Gather => self.gather(out),
            Phase::Done => Ok(Turn::Done),
        }
    }

    /// Takes the local units that come next, up to the next boundary or access, and then one turn as `act` does. In
    /// `units` it tells how many units came before that turn. `NoMemory` leaves the end behind the units that were done.
    pub fn advance(&mut self, out: &mut Octets, units: &mut u64) -> Result<Turn, NoMemory>
        requires calls { 1 ≤ self.old.room }
        requires room { 4176 ≤ out.old.spare }
        ensures advances { Advances M.model units.new self.old self.new out.old.bytes out.new.bytes result }
        ensures clear { self.new.end.fault ≡ None }
        ensures few { length out.new.bytes ≤ length out.old.bytes + 4176 }
    {
        match self.phase {
            Phase::Run => {
                let turn = self.run_on(out, units);
                self.is_clear();
                turn
            }
            _ => {
                *units = 0;
                self.act(out)
            }
        }
    }

    /// No fault is kept here.
    fn is_clear(&self)
        ensures { self.now.end.fault ≡ None }
    {
        let _tick = self.tick;
    }

    /// Sends the hello of a port.
    fn greet(&mut self, port: u32, out: &mut Octets) -> Result<Turn, NoMemory>
        requires phase { self.old.end.phase ≡ Phase.Greet port }
        requires room { 44 ≤ out.old.spare }
        ensures { ActsBy (at_port (slice_get self.old.end.ports port) (greets M.model self.old.end port)) self.old self.new out.old.bytes out.new.bytes result }
    {
        let at = port as usize;
        self.ports[at].greet(self.alloc, out)?;
        if at + 1 < self.ports.len() {
            self.phase = Phase::Greet { port: port + 1 };
        } else {
            self.ports[0].begin_wait();
            self.phase = Phase::Meet { port: 0 };
        }
        Ok(Turn::Sent { port })
    }

    /// A unit, or the beginning of a boundary.
    fn run(&mut self, out: &mut Octets) -> Result<Turn, NoMemory>
        requires phase { self.old.end.phase ≡ Phase.Run }
        requires calls { 1 ≤ self.old.room }
        requires room { 208 ≤ out.old.spare }
        ensures { ActsBy (runs M.model self.old.end (is_boundary M.model self.old.end) self.old.end.ports) self.old self.new out.old.bytes out.new.bytes result }
    {
        if !is_due(&self.master, self.plan, self.tick, self.marked) {
            return self.work(out);
        }
        if self.ports.is_empty() {
            self.phase = phase_after(&self.master, self.plan, self.tick);
            self.marked = true;
            return Ok(Turn::Marked);
        }
        self.phase = Phase::SyncTo { port: 0 };
        Ok(self.sync(0, out))
    }

    /// Local units up to the next boundary or access, and the turn that comes then.
    fn run_on(&mut self, out: &mut Octets, units: &mut u64) -> Result<Turn, NoMemory>
        requires phase { self.old.end.phase ≡ Phase.Run }
        requires calls { 1 ≤ self.old.room }
        requires room { 4176 ≤ out.old.spare }
        ensures advances { Advances M.model units.new self.old self.new out.old.bytes out.new.bytes result }
        ensures few { length out.new.bytes ≤ length out.old.bytes + 4176 }
    {
        let ahead = units_ahead(&self.master, self.plan, self.tick, self.marked);
        let mut left = ahead;
        let issued = take_units(&mut self.master, &mut left);
        *units = ahead - left;
        self.tick += *units;
        self.marked &= left == ahead;
        match issued? {
            Some(bus) => {
                self.phase = Phase::AnswerFrom {
                    port: bus.port,
                    access: bus.access,
                };
                Ok(self.send(bus.port, bus.access, out))
            }
            None => self.act(out),
        }
    }

    /// Sends a boundary's sync on a port.
    fn sync(&mut self, port: u32, out: &mut Octets) -> Turn
        requires phase { self.old.end.phase ≡ Phase.SyncTo port }
        requires room { 28 ≤ out.old.spare }
        ensures { Does (at_port (slice_get self.old.end.ports port) (syncs M.model self.old.end port)) self.old self.new out.old.bytes out.new.bytes result }
    {
        let at = port as usize;
        self.ports[at].sync(self.tick, out);
        if at + 1 < self.ports.len() {
            self.phase = Phase::SyncTo { port: port + 1 };
        } else {
            begin_waits(&mut self.ports);
            self.phase = Phase::Gather;
        }
        Turn::Sent { port }
    }

    /// A unit of the master: it is done, or its access is sent.
    fn work(&mut self, out: &mut Octets) -> Result<Turn, NoMemory>
        requires phase { self.old.end.phase ≡ Phase.Run }
        requires on { is_end M.model self.old.end ≡ false }
        requires calls { 1 ≤ self.old.room }
        requires room { 208 ≤ out.old.spare }
        ensures { ActsBy (works M.model self.old.end (M.model.issue self.old.end.master).0 (M.model.issue self.old.end.master).1) self.old self.new out.old.bytes out.new.bytes result }
    {
        match self.master.issue() {
            Ok(None) => {
                self.tick += 1;
                self.marked = false;
                Ok(Turn::Unit)
            }
            Ok(Some(bus)) => {
                self.phase = Phase::AnswerFrom {
                    port: bus.port,
                    access: bus.access,
                };
                Ok(self.send(bus.port, bus.access, out))
            }
            Err(NoMemory) => Err(NoMemory),
        }
    }

    /// Sends an access that was issued. One that is posted is finished.
    fn send(&mut self, port: u32, access: Access, out: &mut Octets) -> Turn
        requires phase { self.old.end.phase ≡ Phase.AnswerFrom port access }
        requires access { IsAccess access }
        requires free { (q : PortEnd) → slice_get self.old.end.ports port ≡ Some q → q.session.own_other ≡ None }
        requires calls { 1 ≤ self.old.room }
        requires room { 208 ≤ out.old.spare }
        ensures { Does (at_port (slice_get self.old.end.ports port) (accesses M.model self.old.end self.old.end.master port access access.posted)) self.old self.new out.old.bytes out.new.bytes result }
    {
        let at = port as usize;
        self.ports[at].ask(&mut self.place, self.tick, access, out);
        if access.posted {
            self.finish(port, access, plain(access, Answer { code: 0, value: 0 }));
        } else {
            self.ports[at].begin_wait();
        }
        Turn::Sent { port }
    }

    /// Ends the unit of an access by its answer, and keeps the call.
    fn finish(&mut self, port: u32, access: Access, answer: Answer)
        requires phase { self.old.end.phase ≡ Phase.AnswerFrom port access }
        requires free { (q : PortEnd) → slice_get self.old.end.ports port ≡ Some q → q.session.own_other ≡ None }
        requires calls { 1 ≤ self.old.room }
        ensures { self.new.end ≡ finished M.model self.old.end port access answer }
    {
        self.master.finish(answer);
        self.calls.push_spare(Call::Access {
            tick: self.tick,
            port,
            access,
            answer,
        });
        self.phase = Phase::Run;
        self.tick += 1;
        self.marked = false;
    }

    /// In a boundary: awaits a packet, or serves the held request that comes first.
    fn gather(&mut self, out: &mut Octets) -> Result<Turn, NoMemory>
        requires phase { self.old.end.phase ≡ Phase.Gather }
        requires calls { 1 ≤ self.old.room }
        requires room { 4176 ≤ out.old.spare }
        ensures few { length out.new.bytes ≤ length out.old.bytes + 4176 }
        ensures acts { ActsBy (gathers M.model self.old.end (first_true (map is_unknown self.old.end.ports)))
            self.old self.new out.old.bytes out.new.bytes result }
    {
        if let Some(port) = first_unknown(self.ports.as_slice()) {
            return Ok(Turn::NotYet { port: port as u32 });
        }
        match first_held(self.ports.as_slice()) {
            Some(port) => self.serve(port as u32, out),
            None => unreachable!(),
        }
    }

    /// Serves the request that a port holds.
    fn serve(&mut self, port: u32, out: &mut Octets) -> Result<Turn, NoMemory>
        requires phase { self.old.end.phase ≡ Phase.Gather }
        requires held { (q : PortEnd) × (slice_get self.old.end.ports port ≡ Some q) × (is_some q.held ≡ true) }
        requires calls { 1 ≤ self.old.room }
        requires room { 4176 ≤ out.old.spare }
        ensures few { length out.new.bytes ≤ length out.old.bytes + 4176 }
        ensures acts { ActsBy
            (at_port (slice_get self.old.end.ports port) (λ q. serves_held M.model self.old.end port q q.held))
            self.old self.new out.old.bytes out.new.bytes result }
    {
        let at = port as usize;
        let answered = self.ports[at].serve(
            &mut self.place,
            &mut self.master,
            &mut self.calls,
            self.tick,
            port,
            out,
        )?;
        Ok(service_turn(port, answered))
    }

    /// Takes a packet of the awaited port that was read. It sends nothing.
    pub fn hear(&mut self, port: u32, packet: Packet) -> Result<(), HearFault>
        requires awaited { awaited (machine_acts M.model self.old.end) ≡ Some port }
        requires read { IsRead (value_of packet) }
        requires calls { 1 ≤ self.old.room }
        ensures hears { Hears M.model self.old self.new port (value_of packet) result }
        ensures clear { self.new.end.fault ≡ None }
    {
        let event = match self.take(port, &packet) {
            Ok(event) => event,
            Err(fault) => {
                self.is_clear();
                return Err(HearFault::Session(fault));
            }
        };
        let result = match event {
            Event::Nothing => Ok(()),
            Event::SyncDone => Ok(()),
            Event::Met => {
                self.meet();
                Ok(())
            }
            Event::Answered => {
                self.answer(port, &packet);
                Ok(())
            }
            Event::Asked(_) => self.hold(port, packet),
            Event::Told => self.hold(port, packet),
        };
        self.is_clear();
        result
    }

    /// Takes a packet into the session of the awaited port. With the last answer to its syncs a boundary ends.
    fn take(&mut self, port: u32, packet: &Packet) -> Result<Event, SessionFault>
        requires awaited { awaited (machine_acts M.model self.old.end) ≡ Some port }
        requires read { IsRead (value_of packet.now) }
        ensures took { Took M.model (machine_takes M.model self.old.end port (Valid (value_of packet.now))) self.new.end port (value_of packet.now) result }
        ensures room { self.new.room ≡ self.old.room }
    {
        let at = port as usize;
        let result = self.ports[at].take(packet);
        if !ends_sync(&result) {
            return result;
        }
        if !is_over(self.phase, self.ports.as_slice()) {
            return result;
        }
        self.phase = phase_after(&self.master, self.plan, self.tick);
        self.marked = true;
        result
    }

    /// Holds a request that was taken, where it is no late one.
    fn hold(&mut self, port: u32, packet: Packet) -> Result<(), HearFault>
        requires { (q : PortEnd) × MayHold self.old.end port (value_of packet) q }
        ensures { (q : PortEnd) → slice_get self.old.end.ports port ≡ Some q → Becomes (hold_request M.model self.old.end port q (value_of packet) (is_late q (value_of packet))) self.new.end port result }
    {
        let at = port as usize;
        self.ports[at].hold(packet)
    }

    /// Ends the unit whose access was answered.
    fn answer(&mut self, port: u32, packet: &Packet)
        requires read { IsRead (value_of packet.now) }
        requires answer { MayAnswer self.old.end port (value_of packet.now) }
        requires calls { 1 ≤ self.old.room }
        ensures { self.new.end ≡ answered M.model self.old.end (value_of packet.now).body self.old.end.phase }
    {
        if let Phase::AnswerFrom { access, .. } = self.phase {
            let answer = heard_answer(access, packet);
            self.finish(port, access, answer);
        }
    }

    /// A hello came: that of the next port is awaited, or the units begin.
    fn meet(&mut self)
        ensures { self.new.end ≡ met M.model self.old.end self.old.end.phase }
    {
        if let Phase::Meet { port } = self.phase {
            let next = port as usize + 1;
            if next < self.ports.len() {
                self.ports[next].begin_wait();
                self.phase = Phase::Meet { port: port + 1 };
            } else {
                self.phase = Phase::Run;
            }
        }
    }
}
