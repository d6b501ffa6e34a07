// A machine end over its links.
ghost use Rattle.std.specs.Prelude.{◌≡◌, ◌<◌, All, IfOk, None, Ok, OnOk, length, map};
ghost use Rattle.machine_turns.specs.Ends.{IsWaiting, SendsAll};
ghost use Rattle.end_machine.specs.Wires.{said_on};
ghost use Rattle.end_machine.specs.Talk.{ByTalk};
ghost use Rattle.end_machine.specs.Driving.{AllFresh, DriveCounts, DrivesDirectly, HasFinished, IsFreshEnd, Leaves, NotLink, WhereTold, kept_by};
ghost use Rattle.end_machine.specs.Going.{Fed, FinishesBy, KeepsGoing, KeepsReading, KeepsRun, KeptInRun, OnlyLink, SendsOn, Turned};
ghost use Rattle.end_machine.specs.Going.{need_of, port_of};

use cos_api::{Device, Master};
use cos_base::{Link, NoMemory, Octets};
use machine_turns::{MachineEnd, PortFault, Turn, TurnFault};
use rp_framing::{Pulled, ReceiveFault, SendFault, send};
use rp_session::EndFault;
use std::alloc::Global;

/// Sends bytes on the link of a port.
fn send_on<L: Link>(links: &mut [L], port: u32, bytes: &[u8]) -> Result<(), TurnFault>
    requires there { port < length links.old }
    ensures counts { DriveCounts (map L.count links.old) (map L.count links.new) result }
    ensures is_sound { All L.sound links.old → All L.sound links.new × NotLink result }
    ensures sends { SendsOn (map L.told links.old) (map L.told links.new) port bytes.now result }
    ensures blames { OnlyLink result }
{
    match send(bytes, &mut links[port as usize]) {
        Ok(()) => Ok(()),
        Err(SendFault::Link { count }) => Err(TurnFault::Port(PortFault {
            port,
            fault: EndFault::Link { count },
        })),
        Err(SendFault::NoMemory) => Err(TurnFault::NoMemory),
    }
}

/// The port that a turn sends to, if it sends.
fn sent_port(turn: Turn) -> Option<u32>
    ensures { result ≡ port_of turn }
{
    match turn {
        Turn::Sent { port } => Some(port),
        _ => None,
    }
}

/// What an end needs after a turn.
enum Need {
    /// Another turn.
    Turn,
    /// Bytes of a port.
    Bytes { port: u32 },
    /// All is done.
    Nothing,
}

/// What an end needs after a turn that answered this.
fn need_after(turn: Turn) -> Need
    ensures { result ≡ need_of turn }
{
    match turn {
        Turn::NotYet { port } => Need::Bytes { port },
        Turn::Done => Need::Nothing,
        _ => Need::Turn,
    }
}

/// Takes the local units that come next and then one turn, and sends what that sends.
fn step<M: Master, L: Link>(
    end: &mut MachineEnd<M>,
    links: &mut [L],
    out: &mut Octets,
) -> Result<Turn, TurnFault>
    requires kept { end.old.kept ≡ None }
    requires ports { length links.old ≡ length end.old.ports }
    ensures ports { length links.new ≡ length end.new.ports }
    ensures kept { KeptInRun result end.new.kept }
    ensures turned { IfOk result (λ t. Turned M.model end.old end.new t) }
    ensures rests { IfOk result (λ t. SendsAll M.model (Ok t) end.new) }
    ensures runs { OnOk result (KeepsRun M.model end.old end.new) }
    ensures counts { DriveCounts (map L.count links.old) (map L.count links.new) result }
    ensures is_sound { All L.sound links.old → All L.sound links.new × NotLink result }
    ensures goes { KeepsGoing M.model (length links.old) end.old end.new (map L.told links.old) (map L.told links.new) result }
{
    out.clear();
    let mut units = 0;
    let turn = match end.advance(out, &mut units) {
        Ok(turn) => turn,
        Err(fault) => return Err(fault),
    };
    match sent_port(turn) {
        Some(port) => match send_on(links, port, out.as_slice()) {
            Ok(()) => Ok(turn),
            Err(fault) => Err(fault),
        },
        None => Ok(turn),
    }
}

/// Reads once from the link of a port, for an end that waits for bytes of it.
fn read_on<M: Master, L: Link>(
    end: &mut MachineEnd<M>,
    links: &mut [L],
    port: u32,
) -> Result<Pulled, TurnFault>
    requires there { port < length end.old.ports }
    requires ports { length links.old ≡ length end.old.ports }
    requires waits { IsWaiting M.model port end.old }
    ensures ports { length links.new ≡ length end.new.ports }
    ensures kept { KeptInRun result end.new.kept }
    ensures fed { Fed port end.old end.new result }
    ensures counts { DriveCounts (map L.count links.old) (map L.count links.new) result }
    ensures is_sound { All L.sound links.old → All L.sound links.new × NotLink result }
    ensures goes { KeepsReading M.model (length links.old) port end.old end.new (map L.told links.old) (map L.told links.new) result }
{
    match end.pull(port, &mut links[port as usize]) {
        Ok(pulled) => Ok(pulled),
        Err(ReceiveFault::Link { count }) => Err(TurnFault::Port(PortFault {
            port,
            fault: EndFault::Link { count },
        })),
        Err(ReceiveFault::NoMemory) => Err(TurnFault::NoMemory),
        Err(ReceiveFault::Malformed(_)) => unreachable!(),
        Err(ReceiveFault::Truncated(_)) => unreachable!(),
    }
}

/// How the stream of an awaited port ends for an end that has taken every turn.
fn finish<M: Master>(end: &MachineEnd<M>, port: u32) -> EndFault
    ensures { FinishesBy end.now port result }
{
    let held = end.held(port) as u64;
    let taken = end.taken(port);
    if held > 0 {
        EndFault::Truncated { start: taken, held }
    } else {
        EndFault::Ended { taken }
    }
}

/// Takes turns and reads what they wait for, until all is done or a fault comes.
fn run<M: Master, L: Link>(
    end: &mut MachineEnd<M>,
    links: &mut [L],
    out: &mut Octets,
) -> Result<(), TurnFault>
    requires fresh { IsFreshEnd (length links.old) end.old }
    requires unused { AllFresh (map L.told links.old) }
    ensures kept { KeptInRun result end.new.kept }
    ensures counts { DriveCounts (map L.count links.old) (map L.count links.new) result }
    ensures is_sound { All L.sound links.old → All L.sound links.new × NotLink result }
    ensures ran { OnOk result (HasFinished M.model end.old.clear (length links.old) end.new.clear) }
    ensures leaves { WhereTold (map L.told links.old)
        (λ ws. Leaves M.model end.old.clear (said_on ws) end.new.clear result (map L.told links.new)) }
{
    'turns: loop {
        match step(end, links, out) {
            Ok(turn) => match need_after(turn) {
                Need::Turn => {}
                Need::Bytes { port } => match read_on(end, links, port) {
                    Ok(Pulled::More) => {}
                    Ok(Pulled::End) => {
                        let fault = finish(end, port);
                        return Err(TurnFault::Port(PortFault { port, fault }));
                    }
                    Err(fault) => return Err(fault),
                },
                Need::Nothing => return Ok(()),
            },
            Err(fault) => return Err(fault),
        }
    }
}

/// Drives a fresh machine end over its links, one a port, on which nothing was sent or received, until its master's run is done
/// or a fault comes. It may wait for the peers; it reads from the link of a port only while the end awaits a packet of it and
/// holds none whole. The end keeps a fault with its port.
///
/// `honest` is the promise over links that give what device ends send: the master, the calls and the ticks are then those of the
/// machine that calls its devices directly. `D` is the kind of these devices, which the contract alone names.
pub fn drive<M: Master, D: Device, L: Link>(
    alloc: Global,
    end: &mut MachineEnd<M>,
    links: &mut [L],
) -> Result<(), TurnFault>
    requires fresh { IsFreshEnd (length links.old) end.old }
    requires unused { AllFresh (map L.told links.old) }
    ensures counts { DriveCounts (map L.count links.old) (map L.count links.new) result }
    ensures is_sound { All L.sound links.old → All L.sound links.new × NotLink result }
    ensures keeps { end.new.kept ≡ kept_by result }
    ensures ran { OnOk result (HasFinished M.model end.old.clear (length links.old) end.new.clear) }
    ensures leaves { WhereTold (map L.told links.old)
        (λ ws. Leaves M.model end.old.clear (said_on ws) end.new.clear result (map L.told links.new)) }
    ensures talk { WhereTold (map L.told links.old)
        (λ ws. ByTalk M.model end.old.clear (length ws) (said_on ws) end.new.clear result) }
    ensures honest { WhereTold (map L.told links.old) (DrivesDirectly M.model D.model end.old.clear end.new.clear result) }
{
    let mut out = Octets::make(alloc);
    match run(end, links, &mut out) {
        Ok(()) => Ok(()),
        Err(TurnFault::Port(fault)) => {
            end.keep(fault.port, fault.fault);
            Err(TurnFault::Port(fault))
        }
        Err(TurnFault::NoMemory) => Err(TurnFault::NoMemory),
    }
}
