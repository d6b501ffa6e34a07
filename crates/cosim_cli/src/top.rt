// The top call.
ghost use Rattle.std.specs.Prelude.{map, string_bytes};
ghost use Rattle.outcomes.specs.Seen.{seen};
ghost use Rattle.outcomes.specs.Asked.{asking};
ghost use Rattle.statuses.specs.Lines.{TellsStatus, line_of};
ghost use Rattle.statuses.specs.Takes.{TakesAll};
ghost use Rattle.cosim_cli.specs.Promises.{IsNamed, Keeps, Promises};
ghost use Rattle.cosim_cli.specs.Usage.{Uses, StopsAt};
ghost use Rattle.cosim_words.specs.Words.{asked, asked_order};

use crate::help::help;
use crate::refusals::{status_of, sure_status_of};
use cos_base::{Files, Network, Sink};
use cos_children::Spawner;
use cosim_assembly::{asm, dis};
use cosim_device::{serve_null, serve_port, serve_timer};
use cosim_direct::direct;
use cosim_gen::run_generated;
use cosim_local::local;
use cosim_packets::{pack, show};
use cosim_run::run;
use cosim_words::{Command, Order, command_of, stop_of};
use outcomes::{Object, OutFailure};
use statuses::{Status, tell_status};
use std::alloc::Global;

/// The order of a run's steps that words name; the schedule of number 0 where they name none.
fn order_of(order: Order<'_>) -> cosim_local::Order<'_>
    ensures { IsNamed (asked_order order.entry) result }
{
    match order {
        Order::Default => cosim_local::Order::Schedule { number: 0 },
        Order::Schedule(number) => cosim_local::Order::Schedule { number },
        Order::Steps(file) => cosim_local::Order::Steps { file },
    }
}

/// Does a command.
fn perform<F: Files, K: Sink, N: Network, S: Spawner>(
    alloc: Global,
    command: Command<'_>,
    files: &mut F,
    out: &mut K,
    net: &mut N,
    children: &mut S,
) -> Status
    ensures { Keeps (asked command.entry) (record {
      files = seen F.count F.told files.old files.new;
      out = seen K.count K.told out.old out.new;
      net = seen N.count N.told net.old net.new;
      children = seen S.count S.told children.old children.new;
      names = asking F.told F.asked files.old files.new;
      sound_files = F.sound files.old;
      sound_out = K.sound out.old;
      sound_net = N.sound net.old;
      sound_children = S.sound children.old;
      room = K.room out.old;
      told = N.Link.told;
      count = N.Link.count;
    }) result }
{
    match command {
        Command::DeviceNull { socket } => status_of(serve_null(alloc, socket, net)),
        Command::DeviceTimer { socket, line } => status_of(serve_timer(alloc, socket, line, net)),
        Command::DevicePort {
            socket,
            config,
            port,
        } => status_of(serve_port(alloc, socket, config, port, files, net)),
        Command::Show { file } => status_of(show(alloc, file, files, out)),
        Command::Pack { file } => status_of(pack(alloc, file, files, out)),
        Command::Asm { file, out: target } => status_of(asm(alloc, file, target, files)),
        Command::Dis { file } => status_of(dis(alloc, file, files, out)),
        Command::Direct { config } => status_of(direct(alloc, config, files, out)),
        Command::Local { config, order } => {
            status_of(local(alloc, config, order_of(order), files, out))
        }
        Command::Gen { number } => sure_status_of(run_generated(alloc, number, out)),
        Command::Run { config, program } => {
            status_of(run(alloc, config, program, files, out, net, children))
        }
        Command::Help => match help(out) {
            Ok(()) => Status::Done,
            Err(OutFailure { count }) => Status::Outside {
                object: Object::Out,
                count,
            },
        },
    }
}

/// The program. `words` are those after its name; the line of a status other than Done goes to `err`.
///
/// | Words | Work |
/// |---|---|
/// | `device SOCKET null` | connects to SOCKET, answers as a null device until the machine closes the stream, and prints nothing |
/// | `device SOCKET timer LINE` | the same as a timer, whose level goes to LINE, 0 to 31 |
/// | `device SOCKET CONFIG PORT` | the same as the device of a configuration's port, of which it reads the UART's input or the disk's image; a disk's sectors are written to its `result` in the end |
/// | `show FILE` | prints a line for each packet of a stream; before a refusal those of the packets before it |
/// | `pack FILE` | prints the canonical bytes of a text of packets |
/// | `asm FILE OUT` | writes the image of an assembly to OUT, and prints nothing |
/// | `dis FILE` | prints the words of an image, a line each |
/// | `direct CONFIG` | runs the machine of a configuration without packets, and prints a line for each call and the closing lines |
/// | `local CONFIG` | runs it as ends that exchange packets, in one process, under schedule 0, and prints the same lines, a line for each link, and how many steps were effective; before, the sectors of disks are written to their `result` |
/// | `local CONFIG schedule N`, `local CONFIG steps FILE` | the same under the schedule of a number, or a list of steps and then schedule 0 |
/// | `gen N` | runs the machine that N generates as ends that exchange packets, in one process, under schedule N, and prints N, the number of calls, and behind them what `local` prints behind the lines of its calls |
/// | `run CONFIG PROGRAM` | starts `PROGRAM device SOCKET CONFIG PORT` for each port, runs the machine over the links that these children connect, and prints the lines that `direct` prints |
/// | `help` | prints a line for each command, those that are still to come among them |
pub fn cosim<F: Files, K: Sink, E: Sink, N: Network, S: Spawner>(
    alloc: Global,
    words: &[String],
    files: &mut F,
    out: &mut K,
    err: &mut E,
    net: &mut N,
    children: &mut S,
) -> Status
    // Usage exactly where the words are no command, with the index of the first faulty word.
    ensures usage { Uses (map string_bytes words.now) result }
    // The command of the words keeps its promise, and no other object is touched; where they are no command, none is.
    ensures promises { Promises (map string_bytes words.now) (record {
      files = seen F.count F.told files.old files.new;
      out = seen K.count K.told out.old out.new;
      net = seen N.count N.told net.old net.new;
      children = seen S.count S.told children.old children.new;
      names = asking F.told F.asked files.old files.new;
      sound_files = F.sound files.old;
      sound_out = K.sound out.old;
      sound_net = N.sound net.old;
      sound_children = S.sound children.old;
      room = K.room out.old;
      told = N.Link.told;
      count = N.Link.count;
    }) result }
    // Nothing goes to `err` at Done, and else the line of the status, or a beginning of it where `err` fails.
    ensures line { TellsStatus (seen E.count E.told err.old err.new) result }
    // A sound `err` takes all of the line where it has room.
    ensures takes { TakesAll (E.sound err.old) (E.room err.old) (seen E.count E.told err.old err.new) (line_of result) }
{
    let status = match command_of(words) {
        Ok(command) => perform(alloc, command, files, out, net, children),
        Err(index) => Status::Usage { index },
    };
    tell_status(err, &status);
    status
}

/// The program, where a word isn't UTF-8, and so is no word of a command. `words` are those before it. It takes no memory.
pub fn misspelled<E: Sink>(words: &[String], err: &mut E) -> Status
    // Usage with the index of the first faulty word.
    ensures usage { StopsAt (map string_bytes words.now) result }
    // The line of the status goes to `err`, or a beginning of it where `err` fails.
    ensures line { TellsStatus (seen E.count E.told err.old err.new) result }
    // A sound `err` takes all of the line where it has room.
    ensures takes { TakesAll (E.sound err.old) (E.room err.old) (seen E.count E.told err.old err.new) (line_of result) }
{
    let index = stop_of(words);
    let status = Status::Usage { index };
    tell_status(err, &status);
    status
}
