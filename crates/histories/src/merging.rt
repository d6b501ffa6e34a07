// A history made from the calls and the last tick of a run.
ghost use Rattle.std.specs.Prelude.{◌≡◌, ◌+◌, ◌<◌, ◌≤◌, min, List, [], ◌∷◌, ◌++◌, map, IfOk, OnOk};
ghost use Rattle.cosim_model.specs.Direct as model;
ghost use Rattle.cosim_model.specs.Direct.Moment.{Called, Boundary};
ghost use Rattle.direct_machine.specs.Outcomes.{IsFresh};
ghost use Rattle.histories.specs.Histories.{tick_of, boundary_ticks, calls_before, merged, GivesHistory};

use crate::moments::{Moment, Moments};
use cos_api::{Call, Calls, Device, Master};
use cos_base::NoMemory;
use cosim_model::Plan;
use direct_machine::outcome::Direct;
use std::alloc::Global;

/// When a call was made.
fn tick_of(call: &Call) -> u64
    ensures { result ≡ tick_of call.now }
{
    match call {
        Call::Access { tick, .. } | Call::Served { tick, .. } => *tick,
    }
}

/// How many calls stand before the first one of the tick or a later one.
fn calls_before(tick: u64, calls: &[Call]) -> usize
    ensures { result ≡ calls_before tick calls.now }
{
    'calls: for (count, call) in calls.iter().enumerate() {
        if tick <= tick_of(call) {
            return count;
        }
    }
    calls.len()
}

/// A quantum behind a tick, and no later than the end.
fn boundary_after(tick: u64, quantum: u64, end: u64) -> u64
    requires { tick ≤ end }
    ensures { result ≡ min (tick + quantum) end }
{
    if quantum < end - tick {
        tick + quantum
    } else {
        end
    }
}

/// Appends calls.
fn push_calls(calls: &[Call], moments: &mut Moments) -> Result<(), NoMemory>
    ensures { OnOk result (moments.new ≡ moments.old ++ map Called calls.now) }
{
    'calls: for call in calls {
        moments.push(Moment::Called(*call))?;
    }
    Ok(())
}

/// Appends calls and a boundary behind them.
fn push_part(calls: &[Call], tick: u64, moments: &mut Moments) -> Result<(), NoMemory>
    ensures { OnOk result (moments.new ≡ moments.old ++ map Called calls.now ++ Boundary tick ∷ []) }
{
    push_calls(calls, moments)?;
    moments.push(Moment::Boundary { tick })
}

/// Calls, merged with the boundaries of a run that ended at a tick: a boundary stands before the calls of its tick, and behind
/// those of earlier ticks.
///
/// It goes over the calls twice, and once over the boundaries.
pub fn merged(alloc: Global, calls: &Calls, ticks: u64, plan: Plan) -> Result<Moments, NoMemory>
    requires { 0 < plan.quantum }
    ensures { IfOk result (λ moments. moments ≡ merged (boundary_ticks plan ticks) calls.now.calls) }
{
    let mut moments = Moments::make(alloc);
    let mut rest = calls.as_slice();
    let mut tick = 0;
    'boundaries: loop {
        tick = boundary_after(tick, plan.quantum, ticks);
        let (before, behind) = rest.split_at(calls_before(tick, rest));
        push_part(before, tick, &mut moments)?;
        rest = behind;
        if tick == ticks {
            break;
        }
    }
    push_calls(rest, &mut moments)?;
    Ok(moments)
}

/// The history of a run, by what it left and the plan that it had: its calls and its boundaries in their order.
///
/// For a run of the direct machine from fresh parts that is what the definition keeps, in the order of service of `direct` and in
/// that of `direct_by_port`. Only the calls and the last tick are read.
pub fn history<M: Master, D: Device>(
    alloc: Global,
    run: &Direct<M, D>,
    plan: Plan,
) -> Result<Moments, NoMemory>
    requires { 0 < plan.quantum }
    ensures merge { IfOk result (λ moments. moments ≡ merged (boundary_ticks plan run.now.ticks) run.now.calls.calls) }
    ensures by_due { (master : M) (devices : List D) → IsFresh M.model D.model master devices
        → GivesHistory (model.direct M.model D.model plan master devices) run.now.calls.calls run.now.ticks result }
    ensures by_port { (master : M) (devices : List D) → IsFresh M.model D.model master devices
        → GivesHistory (model.direct_by_port M.model D.model plan master devices) run.now.calls.calls run.now.ticks result }
{
    merged(alloc, &run.calls, run.ticks, plan)
}
