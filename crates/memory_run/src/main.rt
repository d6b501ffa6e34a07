//! A machine's end, driven over links in memory, to be tried: what it prints is compared by scripts in tests/.
//!
//! `memory_run config FILE CUT` makes the master and the devices of a configuration, drives the machine's end over a link to the end
//! of each device, cut into pieces of CUT bytes both ways (0: whole), and prints the text of the run, as `cosim direct FILE` does.
//!
//! `memory_run said FILE CUT UNITS [SCRIPT]` drives the end of a machine with one port, whose peer says the bytes of FILE whatever it
//! hears. The machine does what the script says (`read 0 0x0 4` where none is named), in UNITS units. It prints how that ended, how
//! many bytes were sent and which, the numbers of calls and of ticks, the first 8 bytes of its memory, and what a further turn answers
//! and how many bytes it sends.
#![tactic(auto)]

mod configured;
mod cut_link;
mod saying;
mod stopped;
mod texts;

use crate::configured::run_config;
use crate::saying::run_said;
use crate::stopped::Stopped;
use cos_adapters::{DiskFiles, StdSink};
use cos_base::{FileFault, Files, Octets, Sink};
use statuses::{Status, tell_status};
use std::alloc::Global;
use std::env;
use std::process::ExitCode;

/// What the machine does where no script is named.
const SCRIPT: &str = "read 0 0x0 4\n";

/// The bytes of a file.
fn bytes_of<F: Files>(name: &str, files: &mut F) -> Result<Octets, Stopped> {
    match files.read(name) {
        Ok(bytes) => Ok(bytes),
        Err(FileFault::Failed) => Err(Stopped::Files),
        Err(FileFault::NoMemory) => Err(Stopped::NoMemory),
    }
}

/// The number that a word is.
fn number_of(word: Option<&String>) -> Result<u32, Stopped> {
    match word {
        Some(text) => text.parse::<u32>().or(Err(Stopped::Words)),
        None => Err(Stopped::Words),
    }
}

/// The script that is named, or the one where none is.
fn script_of<F: Files>(
    alloc: Global,
    word: Option<&String>,
    files: &mut F,
) -> Result<Octets, Stopped> {
    match word {
        Some(name) => bytes_of(name.as_str(), files),
        None => {
            let mut script = Octets::make(alloc);
            script.push_all(SCRIPT.as_bytes())?;
            Ok(script)
        }
    }
}

/// Does what the words say.
fn run<F: Files, K: Sink>(
    alloc: Global,
    words: &[String],
    files: &mut F,
    out: &mut K,
) -> Result<(), Stopped> {
    let (Some(command), Some(name)) = (words.get(0), words.get(1)) else {
        return Err(Stopped::Words);
    };
    let piece = number_of(words.get(2))? as usize;
    match command.as_str() {
        "config" => run_config(alloc, name.as_str(), piece, files, out),
        "said" => {
            let units = number_of(words.get(3))?;
            let said = bytes_of(name.as_str(), files)?;
            let script = script_of(alloc, words.get(4), files)?;
            run_said(alloc, script.as_slice(), u64::from(units), said, piece, out)
        }
        _ => Err(Stopped::Words),
    }
}

/// The words after the program's name.
fn words_of(rt: &HostRuntime) -> Result<Vec<String>, Stopped> {
    let mut words = Vec::new(rt.alloc());
    let Ok(args) = env::args(rt) else {
        return Err(Stopped::Words);
    };
    for word in args.skip(1) {
        if words.push(word).is_err() {
            return Err(Stopped::NoMemory);
        }
    }
    Ok(words)
}

/// The line that tells why no more was printed, of those that aren't the program's own.
fn line_of(stopped: &Stopped) -> &'static str {
    match stopped {
        Stopped::Words => "Words\n",
        Stopped::Files => "Files\n",
        Stopped::Lines => "Lines\n",
        Stopped::NoMemory => "NoMemory\n",
        Stopped::Out | Stopped::Peer(_) => "",
    }
}

/// Prints why no more was printed.
fn tell<K: Sink>(stopped: &Stopped, out: &mut K) {
    if let Stopped::Peer(fault) = stopped {
        let (port, fault) = (fault.port, fault.fault);
        tell_status(out, &Status::Peer { port, fault });
    } else {
        let _put = out.put(line_of(stopped).as_bytes());
    }
}

/// The number that the program ends with.
fn code_of(stopped: &Stopped) -> u8 {
    match stopped {
        Stopped::Words => 1,
        Stopped::Files => 2,
        Stopped::Lines => 3,
        Stopped::Peer(_) => 4,
        Stopped::Out => 5,
        Stopped::NoMemory => 6,
    }
}

fn main(rt: HostRuntime) -> ExitCode {
    let mut files = DiskFiles::make(rt.alloc(), &rt);
    let mut out = StdSink::make(rt.stdout());
    let ended = match words_of(&rt) {
        Ok(words) => run(rt.alloc(), words.as_slice(), &mut files, &mut out),
        Err(stopped) => Err(stopped),
    };
    match ended {
        Ok(()) => ExitCode::SUCCESS,
        Err(stopped) => {
            tell(&stopped, &mut out);
            ExitCode::from(code_of(&stopped))
        }
    }
}
