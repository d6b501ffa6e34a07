// The command.
ghost use Rattle.std.specs.Prelude.{◌≡◌, ◌≤◌, [], All, IfOk, IfErr, length};
ghost use Rattle.configured_machine.specs.Configured.{MayRun};
ghost use Rattle.outcomes.specs.Asked.{asking};
ghost use Rattle.outcomes.specs.Seen.{seen};
ghost use Rattle.transcript.specs.CallLines.{HasLine};
ghost use Rattle.transcript.specs.ClosingLines.{run_text};
ghost use Rattle.outcomes.specs.Steps.{IsPrinted, IsRoomFor};
ghost use Rattle.run_texts.specs.Endings.{IsEnding};
ghost use Rattle.run_texts.specs.Texts.{uarts_from};
ghost use Rattle.cosim_run.specs.Conversations.{StopsSoundly};
ghost use Rattle.cosim_run.specs.Runs.{Runs, unended};
ghost use Rattle.cosim_run.specs.Steps.{IsFinished, RanIll, RanWell, unread};

use crate::conversation::{Driven, converse};
use crate::refusal::RunRefusal;
use configured_machine::{Parts, read_parts};
use cos_base::{Failed, Files, Network, NoMemory, Octets, Sink};
use cos_children::Spawner;
use cos_config::{PortConfig, Sockets};
use cos_parts::AnyMaster;
use cosim_inputs::InputsRefusal;
use machine_turns::MachineEnd;
use outcomes::{Object, OutFailure, ReadFault, Stop};
use port_children::{WaitFault, wait_for_all};
use run_texts::{ending_of, make_piece, uarts_of};
use std::alloc::Global;
use transcript::{Ending, put_lines};

/// A run that is over, how it ended, and room for the pieces of its text.
#[derive(Drop)]
struct Finished {
    driven: Driven,
    end: Ending,
    piece: Octets,
}

/// How a configuration that isn't had ends the command.
fn unread(fault: ReadFault<InputsRefusal>) -> Stop<RunRefusal>
    ensures { result ≡ unread fault }
{
    match fault {
        ReadFault::Refused(refusal) => Stop::Refused(RunRefusal::Inputs(refusal)),
        ReadFault::Failed { count } => Stop::Outside {
            object: Object::Files,
            count,
        },
        ReadFault::NoMemory => Stop::NoMemory,
    }
}

/// How children that didn't all end with status 0 end the command.
fn unended(fault: WaitFault) -> Stop<RunRefusal>
    ensures { result ≡ unended fault }
{
    match fault {
        WaitFault::Status { port, status } => Stop::Refused(RunRefusal::Child { port, status }),
        WaitFault::Spawner { count } => Stop::Outside {
            object: Object::Spawner,
            count,
        },
        WaitFault::NoMemory => Stop::NoMemory,
    }
}

/// Runs a configuration's machine with its children: has their links, drives the machine's end over them, closes them,
/// and waits for each child that was started, whatever came before.
fn run_parts<N: Network, S: Spawner>(
    alloc: Global,
    parts: Parts,
    program: &str,
    config: &str,
    net: &mut N,
    children: &mut S,
) -> Result<Driven, Stop<RunRefusal>>
    requires may_run { MayRun parts }
    ensures ok { IfOk result (RanWell program.now config.now
        (record { told = N.Link.told; count = N.Link.count; is_sound = N.sound net.old }) parts
        (seen N.count N.told net.old net.new) (seen S.count S.told children.old children.new)) }
    ensures err { IfErr result (RanIll program.now config.now
        (record { told = N.Link.told; count = N.Link.count; is_sound = N.sound net.old }) parts
        (seen N.count N.told net.old net.new) (seen S.count S.told children.old children.new)) }
    ensures lines { IfOk result (λ d. All HasLine d.end.clear.calls) }
    ensures soundly { N.sound net.old → S.sound children.old
        → IfErr result (StopsSoundly parts (seen N.count N.told net.old net.new)) }
{
    let mut links = Vec::new(alloc);
    let mut numbers = Vec::new(alloc);
    let driven = converse(
        alloc,
        parts,
        program,
        config,
        &mut links,
        &mut numbers,
        net,
        children,
    );
    drop(links);
    let waited = wait_for_all(numbers.as_slice(), children);
    let driven = driven?;
    match waited {
        Ok(()) => Ok(driven),
        Err(fault) => Err(unended(fault)),
    }
}

/// How a run ended that left this end, and what the UARTs of these ports sent.
fn ending_of_end(
    alloc: Global,
    ports: &[PortConfig],
    end: &MachineEnd<AnyMaster>,
) -> Result<Ending, NoMemory>
    requires { length ports.now ≤ 16 }
    ensures { IfOk result (IsEnding end.now.clear.calls end.now.clear.master end.now.clear.tick
        (uarts_from 0 ports.now)) }
{
    let uarts = uarts_of(alloc, ports)?;
    ending_of(
        alloc,
        uarts.as_slice(),
        end.master(),
        end.calls(),
        end.ticks(),
    )
}

/// All that is printed of a run. What takes memory is made here.
fn finish(alloc: Global, driven: Driven) -> Result<Finished, NoMemory>
    requires few { length driven.config.ports ≤ 16 }
    ensures finished { IfOk result (IsFinished driven) }
    ensures empty { IfOk result (λ f. f.piece.bytes ≡ []) }
    ensures room { IfOk result (λ f. 512 ≤ f.piece.spare) }
{
    let end = ending_of_end(alloc, driven.config.ports.as_slice(), &driven.end)?;
    let piece = make_piece(alloc)?;
    Ok(Finished { driven, end, piece })
}

/// Prints a run that is over.
fn put_finished<K: Sink>(finished: Finished, out: &mut K) -> Result<(), OutFailure>
    requires lines { All HasLine finished.driven.end.clear.calls }
    requires empty { finished.piece.bytes ≡ [] }
    requires room { 512 ≤ finished.piece.spare }
    ensures puts { IsPrinted (seen K.count K.told out.old out.new)
        (run_text finished.driven.end.clear.calls finished.end) result }
    ensures is_sound { K.sound out.old → IsRoomFor (K.room out.old)
        (run_text finished.driven.end.clear.calls finished.end) result }
{
    let mut finished = finished;
    let calls = finished.driven.end.calls();
    match put_lines(calls, &finished.end, &mut finished.piece, out) {
        Ok(()) => Ok(()),
        Err(Failed) => Err(OutFailure {
            count: out.faults(),
        }),
    }
}

/// Runs a configuration's machine with a child for each device, and prints the lines that `direct` prints.
///
/// The configuration is read and judged, each port of which needs a socket, then the files that it names. The sockets
/// are listened under by port; then, by port, the child is started as `PROGRAM device SOCKET CONFIG PORT`, and its
/// connection taken. The machine is driven over these links to the end of its run, or to the first fault; then the links
/// are closed, and each child that was started is waited for, by port. The first fault is what is answered, and the text
/// is printed only where there is none. It may wait for a child to connect, to answer, or to end.
pub fn run<F: Files, K: Sink, N: Network, S: Spawner>(
    alloc: Global,
    config: &str,
    program: &str,
    files: &mut F,
    out: &mut K,
    net: &mut N,
    children: &mut S,
) -> Result<(), Stop<RunRefusal>>
    ensures { Runs config.now program.now (record {
      files = seen F.count F.told files.old files.new;
      names = asking F.told F.asked files.old files.new;
      out = seen K.count K.told out.old out.new;
      net = seen N.count N.told net.old net.new;
      children = seen S.count S.told children.old children.new;
      links = record { told = N.Link.told; count = N.Link.count; is_sound = N.sound net.old };
      sound_files = F.sound files.old;
      sound_out = K.sound out.old;
      sound_children = S.sound children.old;
      room = K.room out.old;
    }) result }
{
    let parts = match read_parts(alloc, config, Sockets::All, files) {
        Ok(parts) => parts,
        Err(fault) => return Err(unread(fault)),
    };
    let driven = run_parts(alloc, parts, program, config, net, children)?;
    let finished = finish(alloc, driven)?;
    put_finished(finished, out)?;
    Ok(())
}
