// The machine of a configuration, driven over links in memory to ends of its devices.
ghost use Rattle.std.specs.Prelude.{◌≡◌, ◌<◌, ◌≤◌, All, None, IfOk, length};
ghost use Rattle.cos_parts.specs.AnyDevices.{any_seen};
ghost use Rattle.cos_parts.specs.AnyMasters.{any_issued, any_reach};

use crate::cut_link::CutLink;
use crate::stopped::Stopped;
use crate::texts::put_run;
use cos_base::{Files, Link, NoMemory, Numbers, Sink};
use cos_config::{PortConfig, Sockets};
use cos_memory::MemLink;
use cos_parts::{AnyDevice, AnyMaster};
use cosim_inputs::{InputsRefusal, Machine, read_config, read_machine};
use cosim_model::Plan;
use device_peer::{DeviceEnd, DevicePeer};
use end_machine::drive;
use machine_turns::{MachineEnd, TurnFault};
use outcomes::ReadFault;
use std::alloc::Global;

/// A link to the end of a configuration's device.
type DeviceLink = CutLink<MemLink<DevicePeer<AnyDevice>>>;

/// A link to a fresh end of a device, as the settings of its port say.
fn make_link(
    alloc: Global,
    device: AnyDevice,
    settings: &PortConfig,
    piece: usize,
) -> Result<DeviceLink, NoMemory>
    requires { any_seen device ≡ 0 }
    ensures { IfOk result (λ l. ⟦<DeviceLink as Link>⟧.told l ≡ None) }
{
    let end = DeviceEnd::make(alloc, device, settings.caps, settings.answered_lines)?;
    let link = DevicePeer::link(alloc, end, Numbers::make(alloc), Numbers::make(alloc))?;
    Ok(CutLink::make(link, piece))
}

/// A link for each device.
fn make_links(
    alloc: Global,
    devices: Vec<AnyDevice>,
    ports: &[PortConfig],
    piece: usize,
) -> Result<Vec<DeviceLink>, NoMemory>
    requires fresh { All (λ d. any_seen d ≡ 0) devices.items }
    requires ports { length devices.items ≤ length ports.now }
    ensures { IfOk result (λ l. length l.items ≡ length devices.items) }
{
    let mut links = Vec::new(alloc);
    'devices: for device in devices {
        let settings = &ports[links.len()];
        let link = make_link(alloc, device, settings, piece)?;
        links.push(link)?;
    }
    Ok(links)
}

/// Drives the end of a machine over its links to the end.
fn run_links(
    alloc: Global,
    master: AnyMaster,
    links: Vec<DeviceLink>,
    plan: Plan,
) -> Result<MachineEnd<AnyMaster>, Stopped>
    requires few { length links.items ≤ 16 }
    requires free { any_issued master ≡ None }
    requires reach { any_reach master ≤ length links.items }
    requires quantum { 0 < plan.quantum }
{
    let mut links = links;
    let mut end = MachineEnd::make(alloc, master, links.len() as u32, plan)?;
    match drive::<AnyMaster, AnyDevice, DeviceLink>(alloc, &mut end, links.as_mut_slice()) {
        Ok(()) => Ok(end),
        Err(TurnFault::Port(fault)) => Err(Stopped::Peer(fault)),
        Err(TurnFault::NoMemory) => Err(Stopped::NoMemory),
    }
}

/// Drives the end of a machine over links to the ends of its devices.
fn run_machine(
    alloc: Global,
    machine: Machine,
    ports: &[PortConfig],
    plan: Plan,
    piece: usize,
) -> Result<MachineEnd<AnyMaster>, Stopped>
    requires fresh { All (λ d. any_seen d ≡ 0) machine.devices.items }
    requires few { length machine.devices.items ≤ 16 }
    requires free { any_issued machine.master ≡ None }
    requires reach { any_reach machine.master ≤ length machine.devices.items }
    requires quantum { 0 < plan.quantum }
{
    let Machine { master, devices } = machine;
    if devices.len() > ports.len() {
        return Err(Stopped::Files);
    }
    let links = make_links(alloc, devices, ports, piece)?;
    run_links(alloc, master, links, plan)
}

/// Why a run ends whose files weren't had.
fn unread(fault: ReadFault<InputsRefusal>) -> Stopped {
    match fault {
        ReadFault::NoMemory => Stopped::NoMemory,
        _ => Stopped::Files,
    }
}

/// Runs the machine of a configuration, with links that are cut into pieces of so many bytes, and prints the text of its run.
pub fn run_config<F: Files, K: Sink>(
    alloc: Global,
    name: &str,
    piece: usize,
    files: &mut F,
    out: &mut K,
) -> Result<(), Stopped> {
    let config = match read_config(alloc, files, name, Sockets::Unneeded) {
        Ok(config) => config,
        Err(fault) => return Err(unread(fault)),
    };
    let machine = match read_machine(alloc, files, &config) {
        Ok(machine) => machine,
        Err(fault) => return Err(unread(fault)),
    };
    let plan = Plan {
        quantum: config.quantum,
        units: config.units,
    };
    let ports = config.ports.as_slice();
    match run_machine(alloc, machine, ports, plan, piece) {
        Ok(end) => put_run(alloc, ports, &end, out),
        Err(stopped) => Err(stopped),
    }
}
