// A machine end with the bytes that it received.
ghost use Rattle.std.specs.Prelude.{ℕ, List, ◌≡◌, ◌↔◌, ◌+◌, ◌<◌, ◌≤◌, true, Some, None, Err, IfOk, OnOk, OnErr};

use crate::fault::{PortFault, TurnFault, end_fault};
use crate::framers::fresh_framers;
use cos_api::{Calls, Master};
use cos_base::{Link, NoMemory, Octets};
use cosim_model::Plan;
use ends_model::Turn;
use machine_core::{MOST_SENT, MachineCore};
use rp_framing::{FrameFault, Framer, Pulled, ReceiveFault, pull};
use rp_packet::Packet;
use rp_session::EndFault;
use std::alloc::Global;
use std::marker::Model;

/// A machine end: a master, its side of each port's session, and the bytes that it received.
#[derive(Drop)]
pub struct MachineEnd<M: Master> {
    core: MachineCore<M>,
    // by port
    framers: Vec<Framer>,
    fault: Option<PortFault>,
}

impl<M: Master> Model for MachineEnd<M> {
    ghost use Rattle.std.specs.Prelude.{◌≡◌, None, All, length, map};
    ghost use Rattle.machine_turns.specs.Ends.{End, IsOpen, received};

    ghost Value = { End M };

    ghost view = { λ e. record { clear = e.core.end; kept = e.fault; ports = map received e.framers.items } };

    ghost invariant = { λ e. All IsOpen e.framers.items × (e.core.end.fault ≡ None) × (length e.framers.items ≡ length e.core.end.ports) };
}

impl<M: Master> MachineEnd<M> {
    ghost use Rattle.std.specs.Prelude.{is_some, length};
    ghost use Rattle.cosim_model.specs.Packets.Decoded.{Valid};
    ghost use Rattle.ends_model.specs.declared.ends.Phase.TheVariants as Phase;
    ghost use Rattle.ends_model.specs.MachineTurn.{machine_acts};
    ghost use Rattle.ends_model.specs.World.{machine_start};
    ghost use Rattle.rp_packet.specs.declared.fault.Cause.{Cause};
    ghost use Rattle.rp_packet.specs.Refusals.{first};
    ghost use Rattle.rp_packet.specs.Values.{value_of};
    ghost use Rattle.end_answers.specs.Packets.{IsRead};
    ghost use Rattle.machine_core.specs.Machines.{awaited};
    ghost use Rattle.machine_turns.specs.declared.fault.PortFault.{PortFault};
    ghost use Rattle.machine_turns.specs.declared.fault.TurnFault.TheVariants as turn_fault;
    ghost use Rattle.machine_turns.specs.Ends.{Advances, GoesOn, IsAtFront, IsWaiting, Pulls, RunsOn, SendsAll, Turns};
    ghost use Rattle.machine_turns.specs.Ends.{answer_of, fed_at, fresh, held_at, kept_after, moves, taken_at};
    ghost use Rattle.rp_framing.specs.Receiving.{ReceiveCounts, ReceiveSound};

    /// An end that has taken no turn and received nothing, with so many ports. It offers all capabilities, and needs none.
    pub fn make(alloc: Global, master: M, ports: u32, plan: Plan) -> Result<MachineEnd<M>, NoMemory>
        requires free { M.model.issued master ≡ None }
        requires reach { M.model.reach master ≤ ports }
        requires quantum { 0 < plan.quantum }
        ensures { IfOk result (λ e. e ≡ fresh (machine_start Cause master ports plan) ports) }
    {
        let core = MachineCore::make(alloc, master, ports, plan)?;
        let framers = fresh_framers(alloc, ports)?;
        Ok(MachineEnd {
            core,
            framers,
            fault: None,
        })
    }

    /// The master.
    pub fn master(&self) -> &M
        ensures { result.now ≡ self.now.clear.master }
    {
        self.core.master()
    }

    /// The calls so far.
    pub fn calls(&self) -> &Calls
        ensures { result.now.calls ≡ self.now.clear.calls }
    {
        self.core.calls()
    }

    /// How many units are done.
    pub fn ticks(&self) -> u64
        ensures { result ≡ self.now.clear.tick }
    {
        self.core.ticks()
    }

    /// Whether all is done.
    pub fn is_done(&self) -> bool
        ensures { (result ≡ true) ↔ (self.now.clear.phase ≡ Phase.Done) }
    {
        self.core.is_done()
    }

    /// Receives bytes of a port. Those of a port that isn't there, and those that come after a fault, are dropped.
    pub fn feed(&mut self, port: u32, bytes: &[u8]) -> Result<(), NoMemory>
        ensures ok { OnOk result (self.new ≡ fed_at self.old.kept port bytes.now self.old) }
        ensures err { OnErr result (self.new ≡ self.old) }
        ensures runs { OnOk result (RunsOn M.model port bytes.now self.old self.new) }
    {
        match self.hold(port, bytes) {
            Ok(()) => Ok(()),
            Err(NoMemory) => Err(NoMemory),
        }
    }

    /// Holds bytes of a port that is there, unless a fault is kept.
    fn hold(&mut self, port: u32, bytes: &[u8]) -> Result<(), NoMemory>
        ensures ok { OnOk result (self.new ≡ fed_at self.old.kept port bytes.now self.old) }
        ensures err { OnErr result (self.new ≡ self.old) }
    {
        let at = port as usize;
        if self.fault.is_some() || at >= self.framers.len() {
            return Ok(());
        }
        self.framers[at].feed(bytes)
    }

    /// Reads once from the link of a port, for an end that waits for bytes of that port, and takes in what came. It may
    /// wait for the other side.
    pub fn pull<L: Link>(&mut self, port: u32, link: &mut L) -> Result<Pulled, ReceiveFault>
        requires there { port < length self.old.ports }
        requires waits { IsWaiting M.model port self.old }
        ensures pulls { Pulls (L.told link.old) (L.told link.new) port self.old self.new result }
        ensures counts { ReceiveCounts (L.count link.old) (L.count link.new) result }
        ensures is_sound { L.sound link.old → L.sound link.new × ReceiveSound result }
    {
        let at = port as usize;
        pull(&mut self.framers[at], link)
    }

    /// How many bytes of a port it holds that it didn't take.
    pub fn held(&self, port: u32) -> usize
        ensures { result ≡ length (held_at self.now port) }
    {
        match self.framers.get(port as usize) {
            Some(framer) => framer.held(),
            None => 0,
        }
    }

    /// How many bytes of a port it has taken, up to 18,446,744,073,709,551,615.
    pub fn taken(&self, port: u32) -> u64
        ensures { result ≡ taken_at self.now port }
    {
        match self.framers.get(port as usize) {
            Some(framer) => framer.taken(),
            None => 0,
        }
    }

    /// Keeps a fault of a port, so that each later turn answers it. Want of memory isn't kept.
    pub fn keep(&mut self, port: u32, fault: EndFault)
        ensures { self.new ≡ record self.old { kept = kept_after self.old.kept port fault } }
    {
        match fault {
            EndFault::NoMemory => {}
            _ => self.fault = Some(PortFault { port, fault }),
        }
    }

    /// Whether `turn` would answer otherwise than `NotYet`. It takes no memory.
    pub fn ready(&self) -> bool
        ensures { result ≡ moves (answer_of M.model self.now) }
    {
        if self.fault.is_some() {
            return true;
        }
        match self.core.awaits() {
            Some(port) => self.is_whole(port),
            None => true,
        }
    }

    /// Whether a packet stands whole at the front of a port's bytes, or a fault.
    fn is_whole(&self, port: u32) -> bool
        ensures { result ≡ is_some (first (held_at self.now port)) }
    {
        let at = port as usize;
        at < self.framers.len() && self.framers[at].ready()
    }

    /// Takes one turn, and appends what it sends to `out`; the answer names its port. Where a packet of a port is awaited and none is
    /// whole it answers `NotYet` and does nothing. A fault is kept: each later call answers it and does nothing. Want of memory leaves
    /// end and output as they were.
    pub fn turn(&mut self, out: &mut Octets) -> Result<Turn, TurnFault>
        ensures turns { Turns M.model self.old self.new out.old.bytes out.new.bytes result }
        ensures kept { (f : PortFault) → self.old.kept ≡ Some f → result ≡ Err (turn_fault.Port f) }
        ensures front { self.old.kept ≡ None → IsAtFront self.old result }
        ensures runs { GoesOn M.model self.old self.new out.old.bytes out.new.bytes result }
        ensures all { SendsAll M.model result self.new }
        ensures few { length out.new.bytes ≤ length out.old.bytes + 4176 }
    {
        if let Some(fault) = self.fault {
            return Err(TurnFault::Port(fault));
        }
        match self.core.awaits() {
            Some(port) => self.hear_front(port),
            None => self.act(out),
        }
    }

    /// Takes the local units that come next, up to the next boundary or access, and then one turn, as `turn` does. In
    /// `units` it tells how many units came before that turn. Want of memory leaves the end behind the units that were taken.
    pub fn advance(&mut self, out: &mut Octets, units: &mut u64) -> Result<Turn, TurnFault>
        ensures advances { Advances M.model units.new self.old self.new out.old.bytes out.new.bytes result }
        ensures kept { (f : PortFault) → self.old.kept ≡ Some f → result ≡ Err (turn_fault.Port f) }
        ensures front { self.old.kept ≡ None → IsAtFront self.old result }
        ensures runs { GoesOn M.model self.old self.new out.old.bytes out.new.bytes result }
        ensures all { SendsAll M.model result self.new }
        ensures few { length out.new.bytes ≤ length out.old.bytes + 4176 }
    {
        *units = 0;
        if let Some(kept) = self.fault {
            return Err(TurnFault::Port(kept));
        }
        match self.core.awaits() {
            Some(port) => self.hear_front(port),
            None => self.act_on(out, units),
        }
    }

    /// Local units, and a turn that takes no packet. All room that they can need is made first.
    fn act_on(&mut self, out: &mut Octets, units: &mut u64) -> Result<Turn, TurnFault>
        requires kept { self.old.kept ≡ None }
        requires acts { awaited (machine_acts M.model self.old.clear) ≡ None }
        ensures advances { Advances M.model units.new self.old self.new out.old.bytes out.new.bytes result }
        ensures front { IsAtFront self.old result }
        ensures few { length out.new.bytes ≤ length out.old.bytes + 4176 }
    {
        *units = 0;
        match out.reserve(MOST_SENT) {
            Ok(()) => {}
            Err(NoMemory) => return Err(TurnFault::NoMemory),
        }
        match self.core.reserve_calls() {
            Ok(()) => {}
            Err(NoMemory) => return Err(TurnFault::NoMemory),
        }
        let turn = match self.core.advance(out, units) {
            Ok(turn) => turn,
            Err(NoMemory) => return Err(TurnFault::NoMemory),
        };
        Ok(turn)
    }

    /// A turn that takes no packet. All room that it can need is made first.
    fn act(&mut self, out: &mut Octets) -> Result<Turn, TurnFault>
        requires kept { self.old.kept ≡ None }
        requires acts { awaited (machine_acts M.model self.old.clear) ≡ None }
        ensures turns { Turns M.model self.old self.new out.old.bytes out.new.bytes result }
        ensures front { IsAtFront self.old result }
        ensures few { length out.new.bytes ≤ length out.old.bytes + 4176 }
    {
        match out.reserve(MOST_SENT) {
            Ok(()) => {}
            Err(NoMemory) => return Err(TurnFault::NoMemory),
        }
        match self.core.reserve_calls() {
            Ok(()) => {}
            Err(NoMemory) => return Err(TurnFault::NoMemory),
        }
        let turn = match self.core.act(out) {
            Ok(turn) => turn,
            Err(NoMemory) => return Err(TurnFault::NoMemory),
        };
        Ok(turn)
    }

    /// A turn that takes the packet at the front of a port's bytes, if one is whole. It sends nothing.
    fn hear_front(&mut self, port: u32) -> Result<Turn, TurnFault>
        requires kept { self.old.kept ≡ None }
        requires awaited { awaited (machine_acts M.model self.old.clear) ≡ Some port }
        requires there { port < length self.old.ports }
        ensures turns { (sent : List ℕ) → Turns M.model self.old self.new sent sent result }
        ensures front { IsAtFront self.old result }
    {
        let at = port as usize;
        match self.framers[at].front() {
            Ok(None) => Ok(Turn::NotYet { port }),
            Ok(Some((packet, size))) => self.hear(port, packet, size),
            Err(FrameFault::Malformed(fault)) => {
                let fault = PortFault {
                    port,
                    fault: EndFault::Malformed(fault),
                };
                self.fault = Some(fault);
                Err(TurnFault::Port(fault))
            }
            Err(FrameFault::NoMemory) => Err(TurnFault::NoMemory),
        }
    }

    /// Takes a packet that stands at the front of a port's bytes. Room for the call is made first.
    fn hear(&mut self, port: u32, packet: Packet, size: usize) -> Result<Turn, TurnFault>
        requires kept { self.old.kept ≡ None }
        requires awaited { awaited (machine_acts M.model self.old.clear) ≡ Some port }
        requires there { port < length self.old.ports }
        requires front { first (held_at self.old port) ≡ Some (Valid (value_of packet), size) }
        requires within { size ≤ length (held_at self.old port) }
        requires read { IsRead (value_of packet) }
        ensures turns { (sent : List ℕ) → Turns M.model self.old self.new sent sent result }
        ensures front { IsAtFront self.old result }
    {
        match self.core.reserve_calls() {
            Ok(()) => {}
            Err(NoMemory) => return Err(TurnFault::NoMemory),
        }
        match self.core.hear(port, packet) {
            Ok(()) => {
                let at = port as usize;
                self.framers[at].skip(size);
                Ok(Turn::Took { port })
            }
            Err(fault) => {
                let fault = PortFault {
                    port,
                    fault: end_fault(fault),
                };
                self.fault = Some(fault);
                Err(TurnFault::Port(fault))
            }
        }
    }
}
