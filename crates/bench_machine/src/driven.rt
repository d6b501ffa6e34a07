// Runs of a machine beside a timer, over a link or without packets.
ghost use Rattle.std.specs.Prelude.{◌≡◌, ◌<◌, ◌^◌, ◌∷◌, [], IfOk, length, map};
ghost use Rattle.dev_timer.specs.Timers.{fresh_timer};
ghost use Rattle.end_machine.specs.Driving.{AllFresh, IsFreshEnd};

use crate::machines::{Ended, Stopped, made};
use cos_base::{Link, NoMemory, Numbers};
use cos_memory::MemLink;
use cosim_model::{Caps, Plan};
use dev_timer::Timer;
use device_peer::{DeviceEnd, DevicePeer};
use direct_machine::direct;
use end_machine::drive;
use machine_turns::{MachineEnd, TurnFault};
use std::alloc::Global;
use sys_bus::RvMaster;

/// A link in memory to a timer's end.
type TimerLink = MemLink<DevicePeer<Timer>>;

/// What the timer's end offers.
const ALL: Caps = Caps {
    base: true,
    enables: true,
    posted: true,
};

/// A link to a fresh timer's end.
fn timer_link(alloc: Global) -> Result<TimerLink, NoMemory>
    ensures { IfOk result (λ l. AllFresh (⟦<MemLink<DevicePeer<Timer>> as Link>⟧.told l ∷ [])) }
{
    let end = DeviceEnd::make(alloc, Timer::make(0), ALL, true)?;
    DevicePeer::link(alloc, end, Numbers::make(alloc), Numbers::make(alloc))
}

/// The link of the one port.
fn timer_links(alloc: Global) -> Result<Vec<TimerLink>, NoMemory>
    ensures one { IfOk result (λ links. length links.items ≡ 1) }
    ensures unused { IfOk result (λ links. AllFresh (map (⟦<MemLink<DevicePeer<Timer>> as Link>⟧.told) links.items)) }
{
    let link = timer_link(alloc)?;
    let mut links = Vec::new(alloc);
    match links.push(link) {
        Ok(()) => Ok(links),
        Err(_) => Err(NoMemory),
    }
}

/// A fresh end of a machine with one port.
fn machine_end(alloc: Global, program: &[u32], plan: Plan) -> Result<MachineEnd<RvMaster>, Stopped>
    requires { 0 < plan.quantum }
    ensures { IfOk result (λ end. IsFreshEnd 1 end) }
{
    let master = made(alloc, program)?;
    match MachineEnd::make(alloc, master, 1, plan) {
        Ok(end) => Ok(end),
        Err(NoMemory) => Err(Stopped::NoMemory),
    }
}

/// Drives a fresh machine over a link to a timer.
pub fn driven(alloc: Global, program: &[u32], plan: Plan) -> Result<Ended, Stopped>
    requires { 0 < plan.quantum }
{
    let mut end = machine_end(alloc, program, plan)?;
    let mut links = match timer_links(alloc) {
        Ok(links) => links,
        Err(NoMemory) => return Err(Stopped::NoMemory),
    };
    match drive::<RvMaster, Timer, TimerLink>(alloc, &mut end, &mut links) {
        Ok(()) => Ok(Ended::of(end.master(), end.ticks(), end.calls().len())),
        Err(TurnFault::Port(_)) => Err(Stopped::Fault),
        Err(TurnFault::NoMemory) => Err(Stopped::NoMemory),
    }
}

/// The one device.
fn timers(alloc: Global) -> Result<Vec<Timer>, Stopped>
    ensures { IfOk result (λ devices. devices.items ≡ fresh_timer 0 ∷ []) }
{
    let mut devices = Vec::new(alloc);
    match devices.push(Timer::make(0)) {
        Ok(()) => Ok(devices),
        Err(_) => Err(Stopped::NoMemory),
    }
}

/// Runs a fresh machine beside a timer without packets.
pub fn undriven(alloc: Global, program: &[u32], plan: Plan) -> Result<Ended, Stopped>
    requires quantum { 0 < plan.quantum }
    requires units { plan.units < 2 ^ 32 }
{
    let master = made(alloc, program)?;
    let devices = timers(alloc)?;
    match direct(alloc, master, devices, plan) {
        Ok(run) => Ok(Ended::of(&run.master, run.ticks, run.calls.len())),
        Err(NoMemory) => Err(Stopped::NoMemory),
    }
}
