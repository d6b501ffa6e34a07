// The command.
ghost use Rattle.std.specs.Prelude.{◌≡◌, ◌≤◌, [], All, IfOk, IfErr};
ghost use Rattle.outcomes.specs.Seen.{seen};
ghost use Rattle.outcomes.specs.Asked.{asking, AsksEach, AsksFor};
ghost use Rattle.outcomes.specs.Outcomes.{Performs};
ghost use Rattle.outcomes.specs.Steps.{IsPrinted, IsRoomFor, ComesUnread, ComesLacking};
ghost use Rattle.transcript.specs.CallLines.{HasLine};
ghost use Rattle.transcript.specs.ClosingLines.{run_text};
ghost use Rattle.cosim_direct.specs.Directs.{DirectComes, direct_names};
ghost use Rattle.cosim_direct.specs.Steps.{IsRun};

use crate::finished::{Finished, run};
use cos_base::{Failed, Files, NoMemory, Sink};
use cos_config::Sockets;
use cosim_inputs::{InputsRefusal, read_config, read_machine};
use cosim_model::Plan;
use outcomes::{OutFailure, ReadFault, Stop};
use std::alloc::Global;
use transcript::put_lines;

/// Reads a configuration and its files, and runs its machine.
fn finish<F: Files>(
    alloc: Global,
    name: &str,
    files: &mut F,
) -> Result<Finished, ReadFault<InputsRefusal>>
    ensures ok { IfOk result (IsRun (seen F.count F.told files.old files.new) name.now) }
    ensures lines { IfOk result (λ f. All HasLine f.calls.calls) }
    ensures empty { IfOk result (λ f. f.piece.bytes ≡ []) }
    ensures room { IfOk result (λ f. 512 ≤ f.piece.spare) }
    ensures err { IfErr result (λ e. ComesUnread (DirectComes (F.told files.old) name.now) (seen F.count F.told files.old files.new) e) }
    ensures asks { AsksEach (direct_names name.now) (asking F.told F.asked files.old files.new) result }
    ensures is_sound { F.sound files.old → IfErr result (λ e. ComesLacking (DirectComes (F.told files.old) name.now) e) }
{
    let config = match read_config(alloc, files, name, Sockets::Unneeded) {
        Ok(config) => config,
        Err(fault) => return Err(fault),
    };
    let machine = match read_machine(alloc, files, &config) {
        Ok(machine) => machine,
        Err(fault) => return Err(fault),
    };
    let plan = Plan {
        quantum: config.quantum,
        units: config.units,
    };
    let ports = config.ports.as_slice();
    match run(alloc, ports, machine.master, machine.devices, plan) {
        Ok(finished) => Ok(finished),
        Err(NoMemory) => Err(ReadFault::NoMemory),
    }
}

/// Prints the text of a run that is over.
fn put_finished<K: Sink>(finished: Finished, out: &mut K) -> Result<(), OutFailure>
    requires lines { All HasLine finished.calls.calls }
    requires empty { finished.piece.bytes ≡ [] }
    requires room { 512 ≤ finished.piece.spare }
    ensures puts { IsPrinted (seen K.count K.told out.old out.new) (run_text finished.calls.calls finished.end) result }
    ensures is_sound { K.sound out.old → IsRoomFor (K.room out.old) (run_text finished.calls.calls finished.end) result }
{
    let mut finished = finished;
    match put_lines(&finished.calls, &finished.end, &mut finished.piece, out) {
        Ok(()) => Ok(()),
        Err(Failed) => Err(OutFailure {
            count: out.faults(),
        }),
    }
}

/// Runs the machine of a configuration without packets, and prints a line for each call and the closing lines.
///
/// The configuration is read and judged, then the files that it names, in this order: image, script, and the UART inputs and disk
/// images by port, each read and then judged. Nothing is printed before the run is over.
pub fn direct<F: Files, K: Sink>(
    alloc: Global,
    name: &str,
    files: &mut F,
    out: &mut K,
) -> Result<(), Stop<InputsRefusal>>
    ensures performs { Performs (DirectComes (F.told files.old) name.now) (seen F.count F.told files.old files.new)
        (seen K.count K.told out.old out.new) (F.sound files.old × K.sound out.old) (K.room out.old) result }
    // It asks for the configuration and then for the files that this names, each once, up to the first that something stands against.
    ensures asks { AsksFor (direct_names name.now) (λ m. []) (asking F.told F.asked files.old files.new) result }
{
    let finished = finish(alloc, name, files)?;
    put_finished(finished, out)?;
    Ok(())
}
