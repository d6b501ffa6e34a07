// The command.
ghost use Rattle.std.specs.Prelude.{◌≡◌, ◌++◌, ◌≤◌, [], All, IfOk, IfErr, length};
ghost use Rattle.outcomes.specs.Seen.{seen};
ghost use Rattle.outcomes.specs.Asked.{asking, AsksEach, AsksFor};
ghost use Rattle.outcomes.specs.Outcomes.{Performs};
ghost use Rattle.outcomes.specs.Steps.{IsPrinted, IsRoomFor, ComesUnread, ComesLacking};
ghost use Rattle.transcript.specs.CallLines.{HasLine};
ghost use Rattle.transcript.specs.ClosingLines.{run_text};
ghost use Rattle.cosim_local.specs.Locals.{LocalComes, local_names, result_names};
ghost use Rattle.cosim_local.specs.Steps.{IsRun};

use crate::finished::{Finished, run};
use crate::order::Order;
use crate::parts::read_planned;
use crate::refusal::LocalRefusal;
use crate::results::write_results;
use cos_base::{Failed, Files, NoMemory, Sink};
use outcomes::{OutFailure, ReadFault, Stop, put_text};
use std::alloc::Global;
use transcript::put_lines;

/// Reads what a run begins with, and runs it.
fn finish<F: Files>(
    alloc: Global,
    name: &str,
    order: Order<'_>,
    files: &mut F,
) -> Result<Finished, ReadFault<LocalRefusal>>
    ensures ok { IfOk result (IsRun (seen F.count F.told files.old files.new) name.now order.entry) }
    ensures few { IfOk result (λ done. length done.config.ports ≤ 16) }
    ensures ports { IfOk result (λ done. length done.config.ports ≡ length done.world.start.ports) }
    ensures lines { IfOk result (λ done. All HasLine done.world.now.hub.core.calls) }
    ensures empty { IfOk result (λ done. done.piece.bytes ≡ []) }
    ensures room { IfOk result (λ done. 512 ≤ done.piece.spare) }
    ensures err { IfErr result (λ e.
        ComesUnread (LocalComes (F.told files.old) name.now order.entry) (seen F.count F.told files.old files.new) e) }
    ensures asks { AsksEach (local_names name.now order.entry) (asking F.told F.asked files.old files.new) result }
    ensures is_sound { F.sound files.old → F.sound files.new
        × IfErr result (λ e. ComesLacking (LocalComes (F.told files.old) name.now order.entry) e) }
{
    let planned = match read_planned(alloc, name, order, files) {
        Ok(planned) => planned,
        Err(fault) => return Err(fault),
    };
    match run(alloc, planned) {
        Ok(finished) => Ok(finished),
        Err(NoMemory) => Err(ReadFault::NoMemory),
    }
}

/// Prints the lines of a run that is over, and then those of its links and steps.
fn put_finished<K: Sink>(finished: Finished, out: &mut K) -> Result<(), OutFailure>
    requires lines { All HasLine finished.world.now.hub.core.calls }
    requires empty { finished.piece.bytes ≡ [] }
    requires room { 512 ≤ finished.piece.spare }
    ensures puts { IsPrinted (seen K.count K.told out.old out.new)
        (run_text finished.world.now.hub.core.calls finished.end ++ finished.traffic.bytes) result }
    ensures is_sound { K.sound out.old → IsRoomFor (K.room out.old)
        (run_text finished.world.now.hub.core.calls finished.end ++ finished.traffic.bytes) result }
{
    let mut finished = finished;
    let calls = finished.world.machine().calls();
    match put_lines(calls, &finished.end, &mut finished.piece, out) {
        Ok(()) => put_text(out, finished.traffic.as_slice()),
        Err(Failed) => Err(OutFailure {
            count: out.faults(),
        }),
    }
}

/// Runs the machine of a configuration as ends that exchange packets, in one process, and prints the lines that `direct`
/// prints, a line for each link and one for the effective steps. The sectors of disks are written before.
///
/// The configuration is read and judged, then the files that it names, in this order: image, script, and the UART inputs
/// and disk images by port, each read and then judged; then the file of steps, where the order names one. Behind the run
/// the sectors of each disk are written to the file that its port names for them, by port. All memory is taken before
/// anything is written or printed, but for what writing a file takes.
pub fn local<F: Files, K: Sink>(
    alloc: Global,
    name: &str,
    order: Order<'_>,
    files: &mut F,
    out: &mut K,
) -> Result<(), Stop<LocalRefusal>>
    ensures performs { Performs (LocalComes (F.told files.old) name.now order.entry)
        (seen F.count F.told files.old files.new) (seen K.count K.told out.old out.new)
        (F.sound files.old × K.sound out.old) (K.room out.old) result }
    // It asks for the files that it reads and then for those that it writes, each once, up to the first that something
    // stands against.
    ensures asks { AsksFor (local_names name.now order.entry) (result_names name.now)
        (asking F.told F.asked files.old files.new) result }
{
    let finished = finish(alloc, name, order, files)?;
    write_results(finished.config.ports.as_slice(), &finished.world, files)?;
    put_finished(finished, out)?;
    Ok(())
}
