// The summary of a run.
ghost use Rattle.std.specs.Prelude.{◌≡◌, ◌++◌, length, IfOk, OnOk};
ghost use Rattle.transcript.specs.ClosingLines.{closing_text};
ghost use Rattle.cosim_gen.specs.Generated.{head_lines};

use cos_base::{NoMemory, Octets};
use cosim_local::Finished;
use std::alloc::Global;
use transcript::{Piece, closing_lines};

/// What the lines of the number and of the calls have at most, in bytes.
const HEAD_ROOM: usize = 52;

/// The lines of the number and of how many calls there were.
fn make_head(alloc: Global, number: u32, calls: u64) -> Result<Octets, NoMemory>
    ensures { IfOk result (λ text. text.bytes ≡ head_lines number calls) }
{
    let mut text = Octets::make(alloc);
    text.reserve(HEAD_ROOM)?;
    Piece::push_all(
        &mut text,
        &[
            Piece::Text("gen "),
            Piece::Decimal(u64::from(number)),
            Piece::Text("\ncalls "),
            Piece::Decimal(calls),
            Piece::Text("\n"),
        ],
    );
    Ok(text)
}

/// The summary of a number's run that is over: the number, how many calls there were, the closing lines, those of the
/// links, and that of the steps.
pub fn make_summary(alloc: Global, number: u32, finished: &Finished) -> Result<Octets, NoMemory>
    ensures { IfOk result (λ text. text.bytes ≡ head_lines number (length finished.now.world.now.hub.core.calls)
        ++ closing_text finished.now.end ++ finished.now.traffic.bytes) }
{
    let calls = finished.world.machine().calls().len();
    let mut text = make_head(alloc, number, calls as u64)?;
    closing_lines(&finished.end, &mut text)?;
    text.push_all(finished.traffic.as_slice())?;
    Ok(text)
}
