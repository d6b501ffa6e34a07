// What a run begins with: a configuration, its machine and a schedule.
ghost use Rattle.std.specs.Prelude.{◌≡◌, [], ◌∷◌, length, IfOk, IfErr};
ghost use Rattle.std.specs.Str.{IsUtf8};
ghost use Rattle.cosim_direct.specs.Directs.{direct_names};
ghost use Rattle.outcomes.specs.Asked.{asking, AsksEach};
ghost use Rattle.outcomes.specs.Seen.{seen};
ghost use Rattle.outcomes.specs.Steps.{ComesUnread, ComesLacking};
ghost use Rattle.cosim_local.specs.Locals.{LocalComes, local_names};
ghost use Rattle.cosim_local.specs.Ordering.{Orders, OrdersList, Spells, order_names};
ghost use Rattle.cosim_local.specs.Steps.{StandsAgainst, OrderStands, AreParts, IsOrdered, IsPlanned, MayRun};
ghost use Rattle.cosim_local.specs.Steps.{inputs_fault};

use crate::order::Order;
use crate::refusal::LocalRefusal;
use cos_base::Files;
use cos_config::{Config, Sockets};
use cos_schedules::{Schedule, Steps, StepsFault, read_steps};
use cosim_ends::parts_fit;
use cosim_inputs::{InputsRefusal, Machine, read_config, read_machine};
use outcomes::{FilesFailure, JudgeFault, ReadFault, read_file};
use std::alloc::Global;
use std::str;

/// A configuration, and the machine that is put together by it.
#[derive(Drop)]
pub struct Parts {
    pub config: Config,
    pub machine: Machine,
}

/// What a run begins with.
#[derive(Drop)]
pub struct Planned {
    pub parts: Parts,
    pub schedule: Schedule,
}

/// Reads a configuration and the files that it names.
fn read_parts<F: Files>(
    alloc: Global,
    name: &str,
    files: &mut F,
) -> Result<Parts, ReadFault<InputsRefusal>>
    ensures ok { IfOk result (AreParts (seen F.count F.told files.old files.new) name.now) }
    ensures may_run { IfOk result MayRun }
    ensures err { IfErr result (λ e.
        ComesUnread (StandsAgainst (F.told files.old) name.now) (seen F.count F.told files.old files.new) e) }
    ensures asks { AsksEach (direct_names name.now) (asking F.told F.asked files.old files.new) result }
    ensures is_sound { F.sound files.old → F.sound files.new
        × IfErr result (λ e. ComesLacking (StandsAgainst (F.told files.old) name.now) e) }
{
    let config = match read_config(alloc, files, name, Sockets::Unneeded) {
        Ok(config) => config,
        Err(fault) => return Err(fault),
    };
    let machine = match read_machine(alloc, files, &config) {
        Ok(machine) => machine,
        Err(fault) => return Err(fault),
    };
    parts_fit(&config, &machine);
    Ok(Parts { config, machine })
}

/// The steps that a text spells, over so many ports, or its first line that spells none.
fn steps_of_text(alloc: Global, text: &[u8], ports: u32) -> Result<Steps, JudgeFault<u64>>
    requires { IsUtf8 text.now }
    ensures { Spells ports text.now result }
{
    match read_steps(alloc, text, ports) {
        Ok(steps) => Ok(steps),
        Err(StepsFault::Line { line }) => Err(JudgeFault::Refused(line)),
        Err(StepsFault::NoMemory) => Err(JudgeFault::NoMemory),
    }
}

/// The steps that bytes spell, over so many ports, or their first line that spells none.
fn steps_of(alloc: Global, bytes: &[u8], ports: u32) -> Result<Steps, JudgeFault<u64>>
    ensures { Spells ports bytes.now result }
{
    match str::from_utf8(bytes) {
        Ok(_) => steps_of_text(alloc, bytes, ports),
        Err(_) => Err(JudgeFault::Refused(1)),
    }
}

/// Reads a file of steps, over so many ports.
fn read_list<F: Files>(
    alloc: Global,
    file: &str,
    ports: u32,
    files: &mut F,
) -> Result<Schedule, ReadFault<LocalRefusal>>
    ensures ok { IfOk result (IsOrdered (seen F.count F.told files.old files.new) (OrdersList ports file.now)) }
    ensures err { IfErr result (λ e. ComesUnread (OrderStands (F.told files.old) (OrdersList ports file.now))
        (seen F.count F.told files.old files.new) e) }
    ensures asks { AsksEach (λ m. file.now ∷ []) (asking F.told F.asked files.old files.new) result }
    ensures is_sound { F.sound files.old → F.sound files.new
        × IfErr result (λ e. ComesLacking (OrderStands (F.told files.old) (OrdersList ports file.now)) e) }
{
    let bytes = match read_file(files, file) {
        Ok(bytes) => bytes,
        Err(FilesFailure::Failed { count }) => return Err(ReadFault::Failed { count }),
        Err(FilesFailure::NoMemory) => return Err(ReadFault::NoMemory),
    };
    match steps_of(alloc, bytes.as_slice(), ports) {
        Ok(steps) => Ok(Schedule::Listed { steps }),
        Err(JudgeFault::Refused(line)) => Err(ReadFault::Refused(LocalRefusal::Steps { line })),
        Err(JudgeFault::NoMemory) => Err(ReadFault::NoMemory),
    }
}

/// The schedule that an order names. Only an order of a file's steps reads a file.
fn read_schedule<F: Files>(
    alloc: Global,
    order: Order<'_>,
    ports: u32,
    files: &mut F,
) -> Result<Schedule, ReadFault<LocalRefusal>>
    ensures ok { IfOk result (IsOrdered (seen F.count F.told files.old files.new) (Orders ports order.entry)) }
    ensures err { IfErr result (λ e. ComesUnread (OrderStands (F.told files.old) (Orders ports order.entry))
        (seen F.count F.told files.old files.new) e) }
    ensures asks { AsksEach (λ m. order_names order.entry) (asking F.told F.asked files.old files.new) result }
    ensures is_sound { F.sound files.old → F.sound files.new
        × IfErr result (λ e. ComesLacking (OrderStands (F.told files.old) (Orders ports order.entry)) e) }
{
    match order {
        Order::Schedule { number } => Ok(Schedule::Number { number }),
        Order::Steps { file } => read_list(alloc, file, ports, files),
    }
}

/// How a configuration that isn't had ends the command.
fn inputs_fault(fault: ReadFault<InputsRefusal>) -> ReadFault<LocalRefusal>
    ensures { result ≡ inputs_fault fault }
{
    match fault {
        ReadFault::Refused(refusal) => ReadFault::Refused(LocalRefusal::Inputs(refusal)),
        ReadFault::Failed { count } => ReadFault::Failed { count },
        ReadFault::NoMemory => ReadFault::NoMemory,
    }
}

/// Reads what a run begins with: the configuration, the files that it names, and then the file of steps, where the
/// order names one.
pub fn read_planned<F: Files>(
    alloc: Global,
    name: &str,
    order: Order<'_>,
    files: &mut F,
) -> Result<Planned, ReadFault<LocalRefusal>>
    ensures ok { IfOk result (IsPlanned (seen F.count F.told files.old files.new) name.now order.entry) }
    ensures may_run { IfOk result (λ p. MayRun p.parts) }
    ensures err { IfErr result (λ e.
        ComesUnread (LocalComes (F.told files.old) name.now order.entry) (seen F.count F.told files.old files.new) e) }
    ensures asks { AsksEach (local_names name.now order.entry) (asking F.told F.asked files.old files.new) result }
    ensures is_sound { F.sound files.old → F.sound files.new
        × IfErr result (λ e. ComesLacking (LocalComes (F.told files.old) name.now order.entry) e) }
{
    let parts = match read_parts(alloc, name, files) {
        Ok(parts) => parts,
        Err(fault) => return Err(inputs_fault(fault)),
    };
    let ports = parts.config.ports.len() as u32;
    match read_schedule(alloc, order, ports, files) {
        Ok(schedule) => Ok(Planned { parts, schedule }),
        Err(fault) => Err(fault),
    }
}
