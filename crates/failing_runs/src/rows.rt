// A row: a run over objects of which some fail, and what is printed of it.
ghost use Rattle.std.specs.Prelude.{◌<◌, All, IfOk};

use crate::links::{list_of, net_of};
use cos_base::{Failed, NoMemory, Numbers, Octets, Sink};
use cos_children::{MemSpawner, Spawner};
use cos_memory::{MemFiles, MemSink};
use cosim_cli::cosim;
use std::alloc::{AllocError, Global};
use std::str;

/// A machine with two timers, each behind a socket.
const CONFIG: &[u8] = b"\
[machine]
kind = \"script\"
script = \"script\"
ram = 4096
quantum = 10
units = 20
[[port]]
kind = \"timer\"
socket = \"p0\"
base = 268435456
size = 4096
line = 0
[[port]]
kind = \"timer\"
socket = \"p1\"
base = 268439552
size = 4096
line = 1
";

/// One timer is set, and one is read.
const SCRIPT: &[u8] = b"write 0 0x4 4 0x5\nread 1 0x0 4\n";

/// The most bytes that are printed of a run, and of a line of it.
const ROOM: usize = 1000;

/// What fails in a run, by the numbers of calls, and with which statuses the children end.
#[derive(Drop)]
pub struct Row {
    pub name: &'static str,
    pub net: Option<u32>,
    pub children: Option<u32>,
    /// Of the link of port 0.
    pub link: Option<u32>,
    pub first: u8,
    pub second: u8,
    /// How many links are to come.
    pub links: u32,
}

/// Why a row isn't printed.
#[derive(Drop)]
pub enum Stopped {
    NoMemory,
    /// Standard output didn't take it, or it isn't UTF-8.
    Out,
}

impl From<NoMemory> for Stopped {
    fn from(_: NoMemory) -> Self {
        Stopped::NoMemory
    }
}

impl From<AllocError> for Stopped {
    fn from(_: AllocError) -> Self {
        Stopped::NoMemory
    }
}

impl From<Failed> for Stopped {
    fn from(_: Failed) -> Self {
        Stopped::Out
    }
}

/// The files of the machine.
fn files_of(alloc: Global) -> Result<MemFiles, NoMemory> {
    let mut files = MemFiles::make(alloc, Numbers::make(alloc));
    for (name, bytes) in [("config", CONFIG), ("script", SCRIPT)] {
        let mut held = Octets::make(alloc);
        held.push_all(bytes)?;
        files.add(name, held)?;
    }
    Ok(files)
}

/// Two statuses.
fn statuses(alloc: Global, first: u8, second: u8) -> Result<Numbers, NoMemory>
    ensures { IfOk result (λ n. All (λ s. s < 256) n) }
{
    let mut statuses = Numbers::make(alloc);
    statuses.push(u32::from(first))?;
    statuses.push(u32::from(second))?;
    Ok(statuses)
}

/// The words of the command.
fn words(alloc: Global) -> Result<Vec<String>, Stopped> {
    let mut words = Vec::new(alloc);
    for text in ["run", "config", "program"] {
        match words.push(String::from_str(alloc, text)?) {
            Ok(()) => {}
            Err(_) => return Err(Stopped::NoMemory),
        }
    }
    Ok(words)
}

/// How many children were started, which the number of a further one tells; 99 where it can't be started.
fn started<S: Spawner>(children: &mut S) -> u32 {
    match children.start(&[]) {
        Ok(number) => number,
        Err(_) => 99,
    }
}

/// How many of the first children still run, which waiting for them tells.
fn running<S: Spawner>(count: u32, children: &mut S) -> u32 {
    let mut running = 0;
    let mut child = 0;
    'children: while child < count {
        if children.wait(child).is_ok() {
            running += 1;
        }
        child += 1;
    }
    running
}

/// Runs a row, and prints its line.
pub fn put_row<K: Sink>(alloc: Global, row: &Row, to: &mut K) -> Result<(), Stopped> {
    let mut files = files_of(alloc)?;
    let mut net = net_of(alloc, row.links, row.net, row.link)?;
    let statuses = statuses(alloc, row.first, row.second)?;
    let mut children = MemSpawner::make(alloc, statuses, list_of(alloc, row.children)?);
    let mut out = MemSink::make(alloc, ROOM, Numbers::make(alloc))?;
    let mut err = MemSink::make(alloc, ROOM, Numbers::make(alloc))?;
    let words = words(alloc)?;
    let status = cosim(
        alloc,
        &words,
        &mut files,
        &mut out,
        &mut err,
        &mut net,
        &mut children,
    );
    let code = status.code();
    let printed = out.bytes().len();
    let started = started(&mut children);
    let running = running(started, &mut children);
    let name = row.name;
    let Ok(line) = str::from_utf8(err.bytes()) else {
        return Err(Stopped::Out);
    };
    let line = line.trim_end();
    let text = format!(in alloc;
        "{name}: {code}, started {started}, running {running}, printed {printed} {line}\n"
    )?;
    Ok(to.put(text.as_bytes())?)
}
