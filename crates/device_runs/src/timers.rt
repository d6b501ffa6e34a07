// A device end in memory behind a link, whose bytes were worked out by hand.
ghost use Rattle.std.specs.Prelude.{◌≡◌, ◌<◌, ◌≤◌, IfOk};
ghost use Rattle.device_turns.specs.Ends.{fresh};

use cos_base::{Got, Link, NoMemory, Numbers, Octets, Put};
use cosim_model::Caps;
use dev_timer::Timer;
use device_peer::{DeviceEnd, DevicePeer};
use std::alloc::Global;

/// A machine's hello with all capabilities, and old-layout requests of a timer: a write of 5 to COMPARE at time 100, reads of
/// COMPARE, COUNT and CONTROL at 101 to 103, and a read of three bytes at 104.
const REQUESTS: [u8; 338] = [
    0, 0, 0, 1, 0, 0, 0, 24, 0, 0, 0, 0, 0, 0, 0, 0, 0, 0, 0, 0, 0, 4, 0, 3, 0, 0, 0, 32, 0, 3, 0,
    0, 0, 0, 0, 1, 0, 0, 0, 2, 0, 0, 0, 3, 0, 0, 0, 4, 0, 0, 0, 42, 0, 0, 0, 1, 0, 0, 0, 0, 0, 0,
    0, 0, 0, 0, 0, 0, 0, 0, 0, 100, 0, 0, 0, 0, 0, 0, 0, 0, 0, 0, 0, 0, 0, 0, 0, 4, 0, 0, 0, 4, 0,
    0, 0, 0, 0, 0, 0, 4, 0, 0, 5, 0, 0, 0, 0, 0, 0, 3, 0, 0, 0, 38, 0, 0, 0, 2, 0, 0, 0, 0, 0, 0,
    0, 0, 0, 0, 0, 0, 0, 0, 0, 101, 0, 0, 0, 0, 0, 0, 0, 0, 0, 0, 0, 0, 0, 0, 0, 4, 0, 0, 0, 4, 0,
    0, 0, 0, 0, 0, 0, 4, 0, 0, 0, 0, 0, 3, 0, 0, 0, 38, 0, 0, 0, 3, 0, 0, 0, 0, 0, 0, 0, 0, 0, 0,
    0, 0, 0, 0, 0, 102, 0, 0, 0, 0, 0, 0, 0, 0, 0, 0, 0, 0, 0, 0, 0, 0, 0, 0, 0, 4, 0, 0, 0, 0, 0,
    0, 0, 4, 0, 0, 0, 0, 0, 3, 0, 0, 0, 38, 0, 0, 0, 4, 0, 0, 0, 0, 0, 0, 0, 0, 0, 0, 0, 0, 0, 0,
    0, 103, 0, 0, 0, 0, 0, 0, 0, 0, 0, 0, 0, 0, 0, 0, 0, 8, 0, 0, 0, 4, 0, 0, 0, 0, 0, 0, 0, 4, 0,
    0, 0, 0, 0, 3, 0, 0, 0, 38, 0, 0, 0, 5, 0, 0, 0, 0, 0, 0, 0, 0, 0, 0, 0, 0, 0, 0, 0, 104, 0, 0,
    0, 0, 0, 0, 0, 0, 0, 0, 0, 0, 0, 0, 0, 0, 0, 0, 0, 3, 0, 0, 0, 0, 0, 0, 0, 3, 0, 0,
];

/// The timer's hello, its answer to each request, and of the last one code 1.
const ANSWERS: [u8; 349] = [
    0, 0, 0, 1, 0, 0, 0, 24, 0, 0, 0, 0, 0, 0, 0, 0, 0, 0, 0, 0, 0, 4, 0, 3, 0, 0, 0, 32, 0, 3, 0,
    0, 0, 0, 0, 1, 0, 0, 0, 2, 0, 0, 0, 3, 0, 0, 0, 4, 0, 0, 0, 38, 0, 0, 0, 1, 0, 0, 0, 2, 0, 0,
    0, 0, 0, 0, 0, 0, 0, 0, 0, 100, 0, 0, 0, 0, 0, 0, 0, 0, 0, 0, 0, 0, 0, 0, 0, 4, 0, 0, 0, 4, 0,
    0, 0, 0, 0, 0, 0, 4, 0, 0, 0, 0, 0, 3, 0, 0, 0, 42, 0, 0, 0, 2, 0, 0, 0, 2, 0, 0, 0, 0, 0, 0,
    0, 0, 0, 0, 0, 101, 0, 0, 0, 0, 0, 0, 0, 0, 0, 0, 0, 0, 0, 0, 0, 4, 0, 0, 0, 4, 0, 0, 0, 0, 0,
    0, 0, 4, 0, 0, 5, 0, 0, 0, 0, 0, 0, 3, 0, 0, 0, 42, 0, 0, 0, 3, 0, 0, 0, 2, 0, 0, 0, 0, 0, 0,
    0, 0, 0, 0, 0, 102, 0, 0, 0, 0, 0, 0, 0, 0, 0, 0, 0, 0, 0, 0, 0, 0, 0, 0, 0, 4, 0, 0, 0, 0, 0,
    0, 0, 4, 0, 0, 102, 0, 0, 0, 0, 0, 0, 3, 0, 0, 0, 42, 0, 0, 0, 4, 0, 0, 0, 2, 0, 0, 0, 0, 0, 0,
    0, 0, 0, 0, 0, 103, 0, 0, 0, 0, 0, 0, 0, 0, 0, 0, 0, 0, 0, 0, 0, 8, 0, 0, 0, 4, 0, 0, 0, 0, 0,
    0, 0, 4, 0, 0, 0, 0, 0, 0, 0, 0, 0, 3, 0, 0, 0, 41, 0, 0, 0, 5, 0, 0, 0, 2, 0, 0, 0, 0, 0, 0,
    0, 0, 0, 0, 0, 104, 0, 0, 0, 0, 0, 0, 1, 0, 0, 0, 0, 0, 0, 0, 0, 0, 0, 0, 0, 3, 0, 0, 0, 0, 0,
    0, 0, 3, 0, 0, 0, 0, 0,
];

/// More reads than there are pieces of one byte.
const MOST_READS: u32 = 400;

/// A fresh timer's end that offers all capabilities.
fn timer_end(alloc: Global) -> Result<DeviceEnd<Timer>, NoMemory>
    ensures { IfOk result (λ e. e ≡ fresh e.clear) }
{
    let offer = Caps {
        base: true,
        enables: true,
        posted: true,
    };
    DeviceEnd::make(alloc, Timer::make(0), offer, true)
}

/// Writes the requests in pieces of that size.
fn is_asked<L: Link>(link: &mut L, size: usize) -> bool
    requires { 0 < size }
{
    for piece in REQUESTS.chunks(size) {
        match link.write(piece) {
            Put::Bytes { count: _ } => {}
            Put::Failed => return false,
            Put::NoMemory => return false,
        }
    }
    true
}

/// Reads in pieces of at most that size until all was read.
fn is_read<L: Link>(link: &mut L, size: usize, said: &mut Octets) -> bool
    requires some { 0 < size }
    requires most { size ≤ 400 }
{
    let mut buffer = [0u8; 400];
    let (into, _) = buffer.split_at_mut(size);
    for _ in 0..MOST_READS {
        match link.read(into) {
            Got::Bytes { count } => {
                let (piece, _) = into.split_at(count);
                if said.push_all(piece).is_err() {
                    return false;
                }
            }
            Got::End => return true,
            Got::Failed => return false,
            Got::NoMemory => return false,
        }
    }
    false
}

/// Whether the timer answers each request, with the link cut into pieces of that size both ways.
fn is_answered(alloc: Global, size: usize) -> Result<bool, NoMemory>
    requires some { 0 < size }
    requires most { size ≤ 400 }
{
    let end = timer_end(alloc)?;
    let mut link = DevicePeer::link(alloc, end, Numbers::make(alloc), Numbers::make(alloc))?;
    let mut said = Octets::make(alloc);
    let is_asked = is_asked(&mut link, size);
    let is_read = is_read(&mut link, size, &mut said);
    Ok(is_asked && is_read && said.as_slice() == ANSWERS.as_slice())
}

#[test]
fn a_timer_answers_alike_however_its_link_is_cut(rt: HostRuntime) {
    assert!(rt; matches!(is_answered(rt.alloc(), 1), Ok(true)));
    assert!(rt; matches!(is_answered(rt.alloc(), 7), Ok(true)));
    assert!(rt; matches!(is_answered(rt.alloc(), 400), Ok(true)));
}
