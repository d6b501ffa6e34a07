//! A timer behind framer and session, to be timed: `bench_device RUNS PIECE` feeds so many fresh ends of a timer the bytes of one
//! stream of 7,001 packets, in pieces of that size, and takes the turns of each. It prints how many packets were fed, how many bytes were
//! sent, and a checksum of what the last end sent.
#![tactic(auto)]

mod stream;

ghost use Rattle.std.specs.Prelude.{◌<◌};

use crate::stream::{PACKETS, make_stream};
use cos_base::{NoMemory, Octets};
use dev_timer::Timer;
use device_turns::{Caps, DeviceEnd, DeviceTurn};
use std::alloc::Global;
use std::{env, io};

/// What the timer's end offers.
const ALL: Caps = Caps {
    base: true,
    enables: true,
    posted: true,
};

/// What ends sent.
#[derive(Clone, Copy)]
struct Sent {
    bytes: u64,
    checksum: u64,
}

/// Why a run stopped before its stream was fed.
enum Stopped {
    /// The end kept a fault.
    Fault,
    NoMemory,
}

/// Takes every turn that an end can take, and appends what it sends.
fn settle(end: &mut DeviceEnd<Timer>, out: &mut Octets) -> Result<(), Stopped> {
    'turns: for _turn in 0..u32::MAX {
        match end.turn(out) {
            Ok(DeviceTurn::NotYet) => break,
            Ok(DeviceTurn::Greeted | DeviceTurn::Took) => {}
            Err(_) => return Err(Stopped::Fault),
        }
    }
    Ok(())
}

/// A checksum that is continued by some bytes.
fn continued(checksum: u64, bytes: &[u8]) -> u64 {
    let mut sum = checksum;
    for byte in bytes {
        sum = sum.wrapping_mul(31).wrapping_add(u64::from(*byte));
    }
    sum
}

/// Feeds a fresh end the stream in pieces, and takes its turns. What it sends is counted, and its checksum is taken where that is wanted.
fn run(
    alloc: Global,
    stream: &[u8],
    piece: usize,
    is_checked: bool,
    sent: &mut Sent,
) -> Result<(), Stopped>
    requires { 0 < piece }
{
    let mut end = match DeviceEnd::make(alloc, Timer::make(3), ALL, false) {
        Ok(end) => end,
        Err(NoMemory) => return Err(Stopped::NoMemory),
    };
    let mut out = Octets::make(alloc);
    for bytes in stream.chunks(piece) {
        match end.feed(bytes) {
            Ok(()) => {}
            Err(NoMemory) => return Err(Stopped::NoMemory),
        }
        settle(&mut end, &mut out)?;
        sent.bytes = sent.bytes.wrapping_add(out.len() as u64);
        if is_checked {
            sent.checksum = continued(sent.checksum, out.as_slice());
        }
        out.clear();
    }
    Ok(())
}

/// So many runs over the stream.
fn run_all(alloc: Global, runs: u32, piece: usize) -> Result<Sent, Stopped>
    requires { 0 < piece }
{
    let mut sent = Sent {
        bytes: 0,
        checksum: 0,
    };
    let stream = match make_stream(alloc) {
        Ok(stream) => stream,
        Err(NoMemory) => return Err(Stopped::NoMemory),
    };
    for left in 0..runs {
        run(alloc, stream.as_slice(), piece, left + 1 == runs, &mut sent)?;
    }
    Ok(sent)
}

/// The number that a word is, or another where there is no word or it is no number.
fn number_or(word: Option<String>, other: u32) -> u32 {
    match &word {
        Some(text) => text.parse::<u32>().unwrap_or(other),
        None => other,
    }
}

fn main(rt: HostRuntime) -> io::Result<()> {
    let mut words = env::args(&rt)?;
    let _program = words.next();
    let runs = number_or(words.next(), 2);
    let piece = number_or(words.next(), 4096).max(1) as usize;
    match run_all(rt.alloc(), runs, piece) {
        Ok(sent) => {
            let packets = u64::from(runs) * u64::from(PACKETS);
            let bytes = sent.bytes;
            let checksum = sent.checksum;
            println!(rt; "{packets} {bytes} {checksum}")
        }
        Err(Stopped::Fault) => println!(rt; "a fault"),
        Err(Stopped::NoMemory) => println!(rt; "no memory"),
    }
}
