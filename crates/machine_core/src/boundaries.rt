// The phase at first, and when boundaries are.
ghost use Rattle.std.specs.Prelude.{◌≡◌, ◌<◌, true, false, map, if◌then◌else◌};
ghost use Rattle.cosim_model.specs.Values.{all_on};
ghost use Rattle.ends_model.specs.MachineTurn.{is_clear, is_last_boundary, is_boundary_due, start_phase};
ghost use Rattle.ends_model.specs.declared.ends.Phase.TheVariants.{Run, Gather, Done};
ghost use Rattle.machine_core.specs.Machines.{ends_sync as sync_ends};

use crate::port::MachinePort;
use crate::ports::are_clear;
use cos_api::Master;
use cosim_model::{Event, Plan, SessionFault};
use ends_model::Phase;

/// The phase of an end that has done nothing.
pub fn first_phase(ports: u32) -> Phase
    ensures { result ≡ start_phase ports }
{
    match ports {
        0 => Phase::Run,
        _ => Phase::Greet { port: 0 },
    }
}

/// Whether a boundary at this tick is the last one: the master has stopped, or all units are done.
fn is_last<M: Master>(master: &M, plan: Plan, tick: u64) -> bool
    ensures { result ≡ is_last_boundary M.model plan master.now tick }
{
    master.stopped().is_some() || tick == plan.units
}

/// The phase after a boundary at this tick.
pub fn phase_after<M: Master>(master: &M, plan: Plan, tick: u64) -> Phase
    ensures { result ≡ (if is_last_boundary M.model plan master.now tick then Done else Run) }
{
    if is_last(master, plan, tick) {
        Phase::Done
    } else {
        Phase::Run
    }
}

/// Whether a boundary is to be begun.
pub fn is_due<M: Master>(master: &M, plan: Plan, tick: u64, marked: bool) -> bool
    requires { 0 < plan.quantum }
    ensures { result ≡ is_boundary_due M.model plan master.now tick marked }
{
    !marked && (is_last(master, plan, tick) || (tick > 0 && tick % plan.quantum == 0))
}

/// Whether a boundary is over: nothing is held, and no sync is out.
pub fn is_over(phase: Phase, ports: &[MachinePort]) -> bool
    ensures yes { result ≡ true → (phase ≡ Gather) × (all_on (map is_clear ports.now) ≡ true) }
    ensures no { result ≡ false → phase ≡ Gather → all_on (map is_clear ports.now) ≡ false }
{
    match phase {
        Phase::Gather => are_clear(ports),
        Phase::Greet { .. } => false,
        Phase::Meet { .. } => false,
        Phase::Run => false,
        Phase::AnswerFrom { .. } => false,
        Phase::SyncTo { .. } => false,
        Phase::Done => false,
    }
}

/// Whether this is what became of the answer of a sync.
pub fn ends_sync(taken: &Result<Event, SessionFault>) -> bool
    ensures { result ≡ sync_ends taken.now }
{
    match taken {
        Ok(Event::SyncDone) => true,
        Ok(Event::Nothing) => false,
        Ok(Event::Met) => false,
        Ok(Event::Asked(_)) => false,
        Ok(Event::Told) => false,
        Ok(Event::Answered) => false,
        Err(_) => false,
    }
}
