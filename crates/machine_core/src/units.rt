// Local units of a master, up to the next boundary.
ghost use Rattle.std.specs.Prelude.{◌≡◌, ◌<◌, ◌≤◌, None};
ghost use Rattle.machine_core.specs.Units.{AreAhead, TakesUnits};

use crate::boundaries::is_due;
use cos_api::{Bus, Master};
use cos_base::NoMemory;
use cosim_model::Plan;

/// How many units may be taken before a boundary is due, unless the master stops.
pub fn units_ahead<M: Master>(master: &M, plan: Plan, tick: u64, marked: bool) -> u64
    requires quantum { 0 < plan.quantum }
    requires ticks { tick ≤ plan.units }
    ensures { AreAhead M.model plan master.now tick marked result }
{
    if is_due(master, plan, tick, marked) {
        return 0;
    }
    let to_multiple = plan.quantum - tick % plan.quantum;
    to_multiple.min(plan.units - tick)
}

/// Takes local units, at most `left`, which it counts down, until the master stops or issues an access, which it
/// answers. After `NoMemory` the master stands behind the units that were counted.
pub fn take_units<M: Master>(master: &mut M, left: &mut u64) -> Result<Option<Bus>, NoMemory>
    requires free { M.model.issued master.old ≡ None }
    ensures { TakesUnits M.model left.old left.new master.old master.new result }
{
    'units: while *left > 0 && master.stopped().is_none() {
        match master.issue() {
            Ok(None) => *left -= 1,
            Ok(Some(bus)) => return Ok(Some(bus)),
            Err(NoMemory) => return Err(NoMemory),
        }
    }
    Ok(None)
}
