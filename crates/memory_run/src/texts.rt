// The text of a run that is over.
ghost use Rattle.std.specs.Prelude.{◌≡◌, ◌≤◌, All, length, true};
ghost use Rattle.transcript.specs.CallLines.{HasLine, IsShort};

use crate::stopped::Stopped;
use cos_api::{Call, Want};
use cos_base::Sink;
use cos_config::PortConfig;
use cos_parts::AnyMaster;
use machine_turns::MachineEnd;
use run_texts::{ending_of, make_piece, uarts_of};
use std::alloc::Global;
use transcript::put_lines;

/// The most bytes that a line shows of a want, or of its reply.
const SHOWN: u8 = 64;

/// Whether a line can show a want.
fn is_short(want: &Want) -> bool
    ensures { result ≡ true → IsShort want.now }
{
    match want {
        Want::Fetch { size, .. } => *size <= SHOWN,
        Want::Store { size, .. } => *size <= SHOWN,
        Want::Line { .. } => true,
    }
}

/// Whether a call has a line.
fn has_line(call: &Call) -> bool
    ensures { result ≡ true → HasLine call.now }
{
    match call {
        Call::Access { .. } => true,
        Call::Served { want, reply, .. } => is_short(want) && reply.size <= SHOWN,
    }
}

/// Whether each call has a line.
fn have_lines(calls: &[Call]) -> bool
    ensures { result ≡ true → All HasLine calls.now }
{
    for call in calls {
        if !has_line(call) {
            return false;
        }
    }
    true
}

/// Prints a line for each call of a machine's end, and the closing lines.
pub fn put_run<K: Sink>(
    alloc: Global,
    ports: &[PortConfig],
    end: &MachineEnd<AnyMaster>,
    out: &mut K,
) -> Result<(), Stopped>
    requires { length ports.now ≤ 16 }
{
    let uarts = uarts_of(alloc, ports)?;
    let ending = ending_of(
        alloc,
        uarts.as_slice(),
        end.master(),
        end.calls(),
        end.ticks(),
    )?;
    let mut piece = make_piece(alloc)?;
    if !have_lines(end.calls().as_slice()) {
        return Err(Stopped::Lines);
    }
    put_lines(end.calls(), &ending, &mut piece, out)?;
    Ok(())
}
