// A device end with the bytes that it received.
ghost use Rattle.std.specs.Prelude.{◌≡◌, ◌++◌, ◌≤◌, ℕ, List, None, Some, true, false, length, Err, IsOk, IsSome, IfOk, OnOk, OnErr};

use cos_api::{Calls, Device};
use cos_base::{Link, NoMemory, Octets};
use cosim_model::Caps;
use device_core::{DeviceCore, HearFault, MOST_SENT};
use ends_model::DeviceTurn;
use rp_framing::{FrameFault, Framer, Pulled, ReceiveFault, pull};
use rp_packet::Packet;
use rp_session::EndFault;
use std::alloc::Global;
use std::marker::Model;

/// A device end: a device, its side of the session, and the bytes that it received.
#[derive(Drop)]
pub struct DeviceEnd<D: Device> {
    core: DeviceCore<D>,
    framer: Framer,
    fault: Option<EndFault>,
}

impl<D: Device> Model for DeviceEnd<D> {
    ghost use Rattle.std.specs.Prelude.{◌≡◌, ◌≤◌, None};
    ghost use Rattle.device_turns.specs.Ends.{End};

    ghost Value = { End D };

    ghost view = { λ e. record { clear = e.core.end; kept = e.fault; taken = e.framer.taken; held = e.framer.held } };

    ghost invariant = { λ e. (e.framer.kept ≡ None) × (e.framer.taken ≤ 18446744073709551615) × (e.core.end.fault ≡ None) };
}

impl<D: Device> DeviceEnd<D> {
    ghost use Rattle.cosim_model.specs.declared.session.Role.TheVariants.{Device};
    ghost use Rattle.cosim_model.specs.Packets.Decoded.{Valid};
    ghost use Rattle.cosim_model.specs.Sessions.{fresh_session};
    ghost use Rattle.ends_model.specs.DeviceTurn.{fresh_device};
    ghost use Rattle.rp_packet.specs.Refusals.{first};
    ghost use Rattle.rp_packet.specs.Spelling.{Spells};
    ghost use Rattle.rp_packet.specs.Values.{value_of};
    ghost use Rattle.end_answers.specs.Packets.{IsRead};
    ghost use Rattle.device_turns.specs.Ends.{Fault, fresh, Feeds, GoesOn, IsWaiting, Pulls, RunsOn, SendsAll, Turns, answer_of, is_clean, kept_after, moves};
    ghost use Rattle.rp_framing.specs.Receiving.{ReceiveCounts, ReceiveSound};

    /// An end that has taken no turn. `offer` is what its hello offers, and `answered_lines` says whether a line is sent so that it is
    /// answered, where that is in common.
    pub fn make(
        alloc: Global,
        device: D,
        offer: Caps,
        answered_lines: bool,
    ) -> Result<DeviceEnd<D>, NoMemory>
        requires { D.model.seen device ≡ 0 }
        ensures { IfOk result (λ e. e ≡ fresh (fresh_device device answered_lines (fresh_session Device offer (D.model.needs device)))) }
    {
        let core = DeviceCore::make(alloc, device, offer, answered_lines)?;
        Ok(DeviceEnd {
            core,
            framer: Framer::make(alloc),
            fault: None,
        })
    }

    /// The device.
    pub fn device(&self) -> &D
        ensures { result.now ≡ self.now.clear.device }
    {
        self.core.device()
    }

    /// The calls of the device so far, with port 0.
    pub fn calls(&self) -> &Calls
        ensures { result.now.calls ≡ self.now.clear.calls }
    {
        self.core.calls()
    }

    /// What the own hello offers.
    pub fn offer(&self) -> Caps
        ensures { result ≡ self.now.clear.session.offers }
    {
        self.core.offer()
    }

    /// Whether a line is sent so that it is answered, where that is in common.
    pub fn answered_lines(&self) -> bool
        ensures { result ≡ self.now.clear.answered_lines }
    {
        self.core.answered_lines()
    }

    /// Receives bytes. Those that come after a fault are dropped.
    pub fn feed(&mut self, bytes: &[u8]) -> Result<(), NoMemory>
        ensures kept { IsSome self.old.kept → IsOk result × (self.new ≡ self.old) }
        ensures ok { OnOk result (Feeds bytes.now self.old self.new) }
        ensures err { OnErr result (self.new ≡ self.old) }
        ensures runs { OnOk result (RunsOn D.model bytes.now self.old self.new) }
    {
        match self.hold(bytes) {
            Ok(()) => Ok(()),
            Err(NoMemory) => Err(NoMemory),
        }
    }

    /// Holds bytes, unless a fault is kept.
    fn hold(&mut self, bytes: &[u8]) -> Result<(), NoMemory>
        ensures kept { IsSome self.old.kept → IsOk result × (self.new ≡ self.old) }
        ensures ok { OnOk result (Feeds bytes.now self.old self.new) }
        ensures err { OnErr result (self.new ≡ self.old) }
    {
        match self.fault {
            Some(_) => Ok(()),
            None => self.framer.feed(bytes),
        }
    }

    /// Reads once from a link, for an end that waits for bytes, and takes in what came. It may wait for the other side.
    pub fn pull<L: Link>(&mut self, link: &mut L) -> Result<Pulled, ReceiveFault>
        requires { IsWaiting D.model self.old }
        ensures pulls { Pulls (L.told link.old) (L.told link.new) self.old self.new result }
        ensures counts { ReceiveCounts (L.count link.old) (L.count link.new) result }
        ensures is_sound { L.sound link.old → L.sound link.new × ReceiveSound result }
    {
        pull(&mut self.framer, link)
    }

    /// How many bytes it holds that it didn't take.
    pub fn held(&self) -> usize
        ensures { result ≡ length self.now.held }
    {
        self.framer.held()
    }

    /// How many bytes it has taken, up to 18,446,744,073,709,551,615.
    pub fn taken(&self) -> u64
        ensures { result ≡ self.now.taken }
    {
        self.framer.taken()
    }

    /// Whether an input may end here: the peer's hello came, nothing that was asked awaits its answer, and no sync is open.
    pub fn is_clean(&self) -> bool
        ensures { result ≡ is_clean self.now.clear }
    {
        self.core.has_met() && !self.core.awaits() && !self.core.has_open_sync()
    }

    /// Keeps a fault, so that each later turn answers it. Want of memory isn't kept.
    pub fn keep(&mut self, fault: EndFault)
        ensures { self.new ≡ record self.old { kept = kept_after self.old.kept fault } }
    {
        match fault {
            EndFault::NoMemory => {}
            _ => self.fault = Some(fault),
        }
    }

    /// Whether `turn` would answer otherwise than `NotYet`. It takes no memory.
    pub fn ready(&self) -> bool
        ensures { result ≡ moves (answer_of D.model self.now) }
    {
        self.fault.is_some() || !self.core.has_greeted() || self.framer.ready()
    }

    /// Takes one turn, and appends what it sends to `out`. Where no packet is whole it answers `NotYet` and does nothing. A fault is
    /// kept: each later call answers it and does nothing. Want of memory leaves end and output as they were.
    pub fn turn(&mut self, out: &mut Octets) -> Result<DeviceTurn, EndFault>
        ensures turns { Turns D.model self.old self.new out.old.bytes out.new.bytes result }
        ensures kept { (f : Fault) → self.old.kept ≡ Some f → result ≡ Err f }
        ensures runs { GoesOn D.model self.old self.new out.old.bytes out.new.bytes }
        ensures all { SendsAll D.model result self.new }
    {
        if let Some(fault) = self.fault {
            return Err(fault);
        }
        if !self.core.has_greeted() {
            return self.greet(out);
        }
        self.hear_front(out)
    }

    /// The first turn: its hello.
    fn greet(&mut self, out: &mut Octets) -> Result<DeviceTurn, EndFault>
        requires kept { self.old.kept ≡ None }
        requires greeted { self.old.clear.session.hello_went ≡ false }
        ensures { Turns D.model self.old self.new out.old.bytes out.new.bytes result }
    {
        match self.core.greet(out) {
            Ok(()) => {}
            Err(NoMemory) => return Err(EndFault::NoMemory),
        }
        Ok(DeviceTurn::Greeted)
    }

    /// A later turn: it takes the packet at the front, if one is whole.
    fn hear_front(&mut self, out: &mut Octets) -> Result<DeviceTurn, EndFault>
        requires kept { self.old.kept ≡ None }
        requires greeted { self.old.clear.session.hello_went ≡ true }
        ensures { Turns D.model self.old self.new out.old.bytes out.new.bytes result }
    {
        match self.framer.front() {
            Ok(None) => Ok(DeviceTurn::NotYet),
            Ok(Some((packet, size))) => self.hear(&packet, size, out),
            Err(FrameFault::Malformed(fault)) => {
                let fault = EndFault::Malformed(fault);
                self.fault = Some(fault);
                Err(fault)
            }
            Err(FrameFault::NoMemory) => Err(EndFault::NoMemory),
        }
    }

    /// Takes a packet that stands at the front. All room that it can need is made first.
    fn hear(
        &mut self,
        packet: &Packet,
        size: usize,
        out: &mut Octets,
    ) -> Result<DeviceTurn, EndFault>
        requires kept { self.old.kept ≡ None }
        requires greeted { self.old.clear.session.hello_went ≡ true }
        requires front { first self.old.held ≡ Some (Valid (value_of packet.now), size) }
        requires within { size ≤ length self.old.held }
        requires read { IsRead (value_of packet.now) }
        ensures { Turns D.model self.old self.new out.old.bytes out.new.bytes result }
    {
        match out.reserve(MOST_SENT) {
            Ok(()) => {}
            Err(NoMemory) => return Err(EndFault::NoMemory),
        }
        match self.core.reserve_calls() {
            Ok(()) => {}
            Err(NoMemory) => return Err(EndFault::NoMemory),
        }
        match self.core.hear(packet, out) {
            Ok(()) => {
                self.framer.skip(size);
                Ok(DeviceTurn::Took)
            }
            Err(HearFault::Session(fault)) => {
                let fault = EndFault::Session(fault);
                self.fault = Some(fault);
                Err(fault)
            }
            Err(HearFault::NoMemory) => Err(EndFault::NoMemory),
        }
    }
}
