// The direct machine.
ghost use Rattle.std.specs.Prelude.{◌≡◌, IfOk, OnOk};
ghost use Rattle.cosim_model.specs.Direct as model;
ghost use Rattle.direct_machine.specs.Orders.{direct_in, run_from};
ghost use Rattle.direct_machine.specs.Outcomes.{Gives, IsFresh, IsPlan};
ghost use Rattle.direct_machine.specs.Runs.{IsReady, Leads};

use crate::Parts;
use crate::outcome::Direct;
use crate::run::{Run, WantOrder};
use cos_api::{Calls, Device, Master};
use cos_base::NoMemory;
use cosim_model::Plan;
use std::alloc::Global;

/// Runs a master and its devices without packets: what any other way to run them is measured against.
///
/// There is a boundary after each unit at a multiple of the quantum, and at the end: where the master has stopped, or all units
/// are done. At a boundary every device is brought to the tick, and then the wants are served: that of the least due time first,
/// and that of the least port among equals.
pub fn direct<M: Master, D: Device>(
    alloc: Global,
    master: M,
    devices: Vec<D>,
    plan: Plan,
) -> Result<Direct<M, D>, NoMemory>
    requires fresh { IsFresh M.model D.model master devices.items }
    requires plan { IsPlan plan }
    ensures { IfOk result (Gives (model.direct M.model D.model plan master devices.items)) }
{
    run_in(alloc, master, devices, plan, WantOrder::ByDue)
}

/// The same with the wants of a boundary served port by port: port 0's device is brought to the tick and all its wants are served,
/// then port 1's, and so on.
pub fn direct_by_port<M: Master, D: Device>(
    alloc: Global,
    master: M,
    devices: Vec<D>,
    plan: Plan,
) -> Result<Direct<M, D>, NoMemory>
    requires fresh { IsFresh M.model D.model master devices.items }
    requires plan { IsPlan plan }
    ensures { IfOk result (Gives (model.direct_by_port M.model D.model plan master devices.items)) }
{
    run_in(alloc, master, devices, plan, WantOrder::ByPort)
}

/// A run with its wants served in an order.
fn run_in<M: Master, D: Device>(
    alloc: Global,
    master: M,
    devices: Vec<D>,
    plan: Plan,
    order: WantOrder,
) -> Result<Direct<M, D>, NoMemory>
    requires fresh { IsFresh M.model D.model master devices.items }
    requires plan { IsPlan plan }
    ensures { IfOk result (Gives (direct_in M.model D.model order plan master devices.items)) }
{
    let mut run = Run {
        master,
        devices,
        calls: Calls::make(alloc),
        tick: 0,
    };
    to_end(&mut run, plan, order)?;
    let Run {
        master,
        devices,
        calls,
        tick,
    } = run;
    Ok(Direct {
        master,
        devices: Parts::from_vec(devices),
        calls,
        ticks: tick,
    })
}

/// All units, with their boundaries.
fn to_end<M: Master, D: Device>(
    run: &mut Run<M, D>,
    plan: Plan,
    order: WantOrder,
) -> Result<(), NoMemory>
    requires ready { IsReady M.model D.model run.old }
    requires plan { IsPlan plan }
    requires tick { run.old.tick ≡ 0 }
    ensures { OnOk result (Leads (λ p. run_from M.model D.model order plan plan.units) run.old run.new) }
{
    let mut next = plan.quantum;
    'units: while run.tick < plan.units && run.master.stopped().is_none() {
        next = run.meet_quantum(next, plan.quantum, order)?;
        run.unit()?;
    }
    run.boundary(order)
}
