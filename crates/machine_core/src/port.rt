// A port of the machine end.
ghost use Rattle.std.specs.Prelude.{◌≡◌, ◌+◌, ◌≤◌, ◌++◌, length, true, false, Some, None, is_some, nat_lt};
ghost use Rattle.std.specs.Prelude.{IfOk, IfErr, OnOk, OnErr};
ghost use Rattle.ends_model.specs.MachineTurn.{time_of as request_time};
ghost use Rattle.rp_packet.specs.Values.{value_of};

use crate::fault::HearFault;
use crate::requests::put_access;
use crate::services::serve_packet;
use cos_api::{Calls, Master};
use cos_base::{NoMemory, Octets};
use cosim_model::{Access, Command, Event, Role, SessionFault};
use end_packets::{BusPlace, put_packet};
use rp_control::Sync;
use rp_packet::Packet;
use rp_session::{Caps, Session};
use std::alloc::Global;
use std::marker::Model;

const ALL: Caps = Caps {
    base: true,
    enables: true,
    posted: true,
};

const NONE: Caps = Caps {
    base: false,
    enables: false,
    posted: false,
};

/// What the machine end keeps of a port.
#[derive(Drop)]
pub struct MachinePort {
    session: Session,
    // a request that was taken and isn't served
    held: Option<Packet>,
    // the time of the latest request that was sent
    last: u64,
}

impl Model for MachinePort {
    ghost use Rattle.std.specs.Prelude.{option_map};
    ghost use Rattle.ends_model.specs.MachineTurn.{PortEnd};
    ghost use Rattle.rp_packet.specs.Values.{value_of};
    ghost use Rattle.machine_core.specs.Ports.{IsPort};

    ghost Value = { PortEnd };

    ghost view = { λ p. record { session = p.session; held = option_map value_of p.held; last = p.last } };

    ghost invariant = { λ p. IsPort (record { session = p.session; held = option_map value_of p.held; last = p.last }) };
}

impl MachinePort {
    ghost use Rattle.cosim_model.specs.Packets.{Packet as PacketValue};
    ghost use Rattle.cosim_model.specs.Packets.Body.{Sync as SyncBody};
    ghost use Rattle.cosim_model.specs.Sessions.{fresh_session, hello_of, request_of, take_packet};
    ghost use Rattle.cosim_model.specs.Values.{all_caps, no_caps};
    ghost use Rattle.cosim_model.specs.declared.session.Role.TheVariants.{Machine};
    ghost use Rattle.ends_model.specs.MachineTurn.{access_body, greeted, held_time, is_clear, is_unknown, requested, with_wait};
    ghost use Rattle.end_answers.specs.Packets.{IsRead};
    ghost use Rattle.rp_packet.specs.Spelling.{packet_bytes};
    ghost use Rattle.machine_core.specs.declared.fault.HearFault.TheVariants as hear;
    ghost use Rattle.machine_core.specs.Ports.{IsHeld, IsTakenOr, Keeps};
    ghost use Rattle.machine_core.specs.Services.{Serves};

    /// A port on which nothing went or came.
    pub fn make() -> MachinePort
        ensures { result ≡ record { session = fresh_session Machine all_caps no_caps; held = None; last = 0 } }
    {
        MachinePort {
            session: Session::make(Role::Machine, ALL, NONE, 0),
            held: None,
            last: 0,
        }
    }

    /// Whether it holds no request and its sync isn't answered.
    pub fn is_unknown(&self) -> bool
        ensures { result ≡ is_unknown self.now }
    {
        self.held.is_none() && self.session.awaits_sync()
    }

    /// Whether it holds no request, and no sync is out.
    pub fn is_clear(&self) -> bool
        ensures { result ≡ is_clear self.now }
    {
        self.held.is_none() && !self.session.awaits_sync()
    }

    /// The time of the request that it holds.
    pub fn held_time(&self) -> Option<u64>
        ensures { result ≡ held_time self.now }
    {
        match &self.held {
            Some(packet) => Some(time_of(packet)),
            None => None,
        }
    }

    /// Starts the count of a wait for the peer at 0.
    pub fn begin_wait(&mut self)
        ensures { self.new ≡ with_wait self.old }
    {
        self.session.begin_wait();
    }

    /// Sends the own hello.
    pub fn greet(&mut self, alloc: Global, out: &mut Octets) -> Result<(), NoMemory>
        requires fresh { self.old.session.hello_went ≡ false }
        requires room { 44 ≤ out.old.spare }
        ensures port { OnOk result (self.new ≡ greeted self.old) }
        ensures bytes { OnOk result (out.new.bytes ≡ out.old.bytes ++ packet_bytes (hello_of self.old.session)) }
        ensures err { OnErr result ((self.new ≡ self.old) × (out.new ≡ out.old)) }
    {
        let hello = self.session.hello(alloc)?;
        put_packet(&hello, out);
        Ok(())
    }

    /// Sends a boundary's sync.
    pub fn sync(&mut self, tick: u64, out: &mut Octets)
        requires greeted { self.old.session.hello_went ≡ true }
        requires free { self.old.session.own_sync ≡ None }
        requires room { 28 ≤ out.old.spare }
        ensures port { self.new ≡ requested self.old false (SyncBody tick) 0 tick }
        ensures bytes { out.new.bytes ≡ out.old.bytes ++ packet_bytes (request_of self.old.session false (SyncBody tick)) }
    {
        let tag = self.session.request(Command::Sync, false, 0);
        put_packet(&Packet::Sync(tag, Sync { time: tick }), out);
        self.last = tick;
    }

    /// Sends the request of an access.
    pub fn ask(&mut self, place: &mut BusPlace, tick: u64, access: Access, out: &mut Octets)
        requires greeted { self.old.session.hello_went ≡ true }
        requires free { self.old.session.own_other ≡ None }
        requires size { access.size ≤ 8 }
        requires fits { 64 ≤ place.old.room }
        requires room { 208 ≤ out.old.spare }
        ensures port { self.new ≡ requested self.old access.posted (access_body self.old.session.common tick access) access.size tick }
        ensures bytes { out.new.bytes ≡ out.old.bytes ++ packet_bytes (request_of self.old.session access.posted (access_body self.old.session.common tick access)) }
        ensures place { place.old.room ≤ place.new.room }
    {
        put_access(&mut self.session, place, tick, access, out);
        self.last = tick;
    }

    /// Takes a packet into the session.
    pub fn take(&mut self, packet: &Packet) -> Result<Event, SessionFault>
        requires read { IsRead (value_of packet.now) }
        ensures port { self.new ≡ record self.old { session = (take_packet self.old.session (value_of packet.now)).0 } }
        ensures event { result ≡ (take_packet self.old.session (value_of packet.now)).1 }
        ensures taken { IsTakenOr self.old.session self.new.session (value_of packet.now) result }
        ensures keeps { Keeps self.old.session self.new.session }
    {
        self.session.take(packet)
    }

    /// Holds a request that was taken, until it is served. One that arose after the latest request that was sent is refused.
    pub fn hold(&mut self, packet: Packet) -> Result<(), HearFault>
        requires { IsHeld self.old.session (value_of packet) }
        ensures ok { OnOk result ((nat_lt self.old.last (request_time (value_of packet).body) ≡ false) × (self.new ≡ record self.old { held = Some (value_of packet) })) }
        ensures err { IfErr result (λ fault. (nat_lt self.old.last (request_time (value_of packet).body) ≡ true) × (fault ≡ hear.LateWant self.old.last (request_time (value_of packet).body)) × (self.new ≡ self.old)) }
    {
        let got = time_of(&packet);
        if self.last < got {
            return Err(HearFault::LateWant { at: self.last, got });
        }
        self.held = Some(packet);
        Ok(())
    }

    /// Serves the request that it holds, and answers it where it isn't posted. Was it answered?
    pub fn serve<M: Master>(
        &mut self,
        place: &mut BusPlace,
        master: &mut M,
        calls: &mut Calls,
        tick: u64,
        port: u32,
        out: &mut Octets,
    ) -> Result<bool, NoMemory>
        requires held { is_some self.old.held ≡ true }
        requires fits { 4096 ≤ place.old.room }
        requires calls { 1 ≤ calls.old.spare }
        requires room { 4176 ≤ out.old.spare }
        ensures served { IfOk result (λ a. (m : PacketValue) → self.old.held ≡ Some m → Serves M.model tick port self.old m master.old calls.old.calls out.old.bytes self.new master.new calls.new.calls out.new.bytes a) }
        ensures place { place.old.room ≤ place.new.room }
        ensures few { length out.new.bytes ≤ length out.old.bytes + 4176 }
        ensures err { OnErr result ((self.new ≡ self.old) × (master.new ≡ master.old) × (calls.new ≡ calls.old) × (out.new.bytes ≡ out.old.bytes)) }
    {
        let answered = match &self.held {
            Some(packet) => serve_packet(
                &mut self.session,
                place,
                master,
                calls,
                tick,
                port,
                packet,
                out,
            )?,
            None => unreachable!(),
        };
        self.held = None;
        Ok(answered)
    }
}

/// The time of a request.
fn time_of(packet: &Packet) -> u64
    ensures { result ≡ request_time (value_of packet.now).body }
{
    match packet {
        Packet::Read(_, bus) => bus.time,
        Packet::Write(_, bus) => bus.time,
        Packet::Interrupt(_, interrupt) => interrupt.time,
        Packet::Sync(_, sync) => sync.time,
        Packet::Nop(_) => 0,
        Packet::Hello(..) => 0,
        Packet::Cfg(..) => 0,
    }
}
