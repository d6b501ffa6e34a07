// A machine's end whose one peer says fixed bytes.
ghost use Rattle.std.specs.Prelude.{◌≡◌, None, IfOk};
ghost use Rattle.cos_parts.specs.AnyMasters.{any_issued, any_reach};

use crate::cut_link::CutLink;
use crate::stopped::Stopped;
use cos_api::Master;
use cos_base::{NoMemory, Numbers, Octets, Sink};
use cos_memory::{MemLink, Said};
use cos_parts::{AnyDevice, AnyMaster};
use cos_script::{ScriptFault, ScriptMaster};
use cos_text::push_bytes;
use cosim_model::Plan;
use end_machine::drive;
use machine_turns::{MachineEnd, Turn, TurnFault};
use statuses::{Status, tell_status};
use std::alloc::Global;
use std::str;
use sys_ram::Ram;

/// A link to a peer that says fixed bytes.
type SaidLink = CutLink<MemLink<Said>>;

/// Where the memory begins.
const FRONT: u64 = 0x8000_0000;

/// How many bytes of memory there are.
const SIZE: u32 = 4096;

/// How many bytes are spelled at once.
const PIECE: usize = 256;

/// How many units there are between two boundaries.
const QUANTUM: u64 = 10;

/// The master of a script, with one port.
fn make_master(alloc: Global, script: &[u8]) -> Result<AnyMaster, Stopped>
    ensures issued { IfOk result (λ m. any_issued m ≡ None) }
    ensures reach { IfOk result (λ m. any_reach m ≡ 1) }
{
    let ram = Ram::make(alloc, SIZE)?;
    let text = match str::from_utf8(script) {
        Ok(text) => text,
        Err(_) => return Err(Stopped::Files),
    };
    match ScriptMaster::make(alloc, text, 1, ram) {
        Ok(master) => Ok(AnyMaster::Script(master)),
        Err(ScriptFault::Line { .. }) => Err(Stopped::Files),
        Err(ScriptFault::NoMemory) => Err(Stopped::NoMemory),
    }
}

/// Prints a line of a name and a number.
fn put_number<K: Sink>(alloc: Global, name: &str, number: u64, out: &mut K) -> Result<(), Stopped> {
    let line = match format!(in alloc; "{name} {number}\n") {
        Ok(line) => line,
        Err(_) => return Err(Stopped::NoMemory),
    };
    Ok(out.put(line.as_bytes())?)
}

/// Prints a line of a name and bytes.
fn put_bytes<K: Sink>(alloc: Global, name: &str, bytes: &[u8], out: &mut K) -> Result<(), Stopped> {
    let mut digits = Octets::make(alloc);
    out.put(name.as_bytes())?;
    for piece in bytes.chunks(PIECE) {
        digits.clear();
        digits.reserve(2 * PIECE)?;
        push_bytes(&mut digits, piece);
        out.put(digits.as_slice())?;
    }
    Ok(out.put(b"\n")?)
}

/// Prints the first 8 bytes of the memory.
fn put_memory<K: Sink>(alloc: Global, master: &AnyMaster, out: &mut K) -> Result<(), Stopped> {
    let mut bytes = [0u8; 8];
    let _code = master.read(FRONT, &mut bytes);
    put_bytes(alloc, "ram ", &bytes, out)
}

/// Prints a fault, as the program tells it.
fn put_fault<K: Sink>(fault: TurnFault, out: &mut K) -> Result<(), Stopped> {
    match fault {
        TurnFault::Port(fault) => {
            let status = Status::Peer {
                port: fault.port,
                fault: fault.fault,
            };
            tell_status(out, &status);
            Ok(())
        }
        TurnFault::NoMemory => Err(Stopped::NoMemory),
    }
}

/// Prints what a further turn answers, and how many bytes it sends.
fn put_further<K: Sink>(
    alloc: Global,
    end: &mut MachineEnd<AnyMaster>,
    out: &mut K,
) -> Result<(), Stopped> {
    let mut sent = Octets::make(alloc);
    match end.turn(&mut sent) {
        Ok(Turn::Done) => out.put(b"done\n")?,
        Ok(_) => out.put(b"a turn\n")?,
        Err(fault) => put_fault(fault, out)?,
    }
    put_number(alloc, "further", sent.len() as u64, out)
}

/// Prints how a run ended, what it sent and did, and what a further turn does.
fn put_ended<K: Sink>(
    alloc: Global,
    ended: Result<(), TurnFault>,
    end: &mut MachineEnd<AnyMaster>,
    link: &SaidLink,
    out: &mut K,
) -> Result<(), Stopped> {
    match ended {
        Ok(()) => out.put(b"done\n")?,
        Err(fault) => put_fault(fault, out)?,
    }
    let heard = link.link().peer().heard();
    put_number(alloc, "sent", heard.len() as u64, out)?;
    put_bytes(alloc, "heard ", heard, out)?;
    put_number(alloc, "calls", end.calls().len() as u64, out)?;
    put_number(alloc, "ticks", end.ticks(), out)?;
    put_memory(alloc, end.master(), out)?;
    put_further(alloc, end, out)
}

/// Drives the end of a machine over a link to a peer that says these bytes, cut into pieces of so many bytes, and prints how it ended.
pub fn run_said<K: Sink>(
    alloc: Global,
    script: &[u8],
    units: u64,
    said: Octets,
    piece: usize,
    out: &mut K,
) -> Result<(), Stopped> {
    let master = make_master(alloc, script)?;
    let plan = Plan {
        quantum: QUANTUM,
        units,
    };
    let mut end = MachineEnd::make(alloc, master, 1, plan)?;
    let peer = Said::make(alloc, said);
    let link = MemLink::make(alloc, peer, Numbers::make(alloc), Numbers::make(alloc));
    let mut links = [CutLink::make(link, piece)];
    let ended = drive::<AnyMaster, AnyDevice, SaidLink>(alloc, &mut end, &mut links);
    put_ended(alloc, ended, &mut end, &links[0], out)
}
