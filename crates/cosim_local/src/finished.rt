// A run that is over, and what is printed of it.
ghost use Rattle.std.specs.Prelude.{◌≡◌, ◌<◌, ◌≤◌, [], All, IfOk, length};
ghost use Rattle.cos_parts.specs.AnyMasters as any_masters;
ghost use Rattle.cos_parts.specs.AnyDevices as any_devices;
ghost use Rattle.cosim_ends.specs.Sides.{sides_of};
ghost use Rattle.ends_model.specs.World.{Fit};
ghost use Rattle.process_network.specs.Star.{link};
ghost use Rattle.transcript.specs.CallLines.{HasLine};
ghost use Rattle.link_lines.specs.LinkLines.{traffic_text};
ghost use Rattle.run_texts.specs.Endings.{IsEnding};
ghost use Rattle.run_texts.specs.Texts.{uarts_from};
ghost use Rattle.world.specs.Worlds.{EndsAfter, IsOver, fresh_world};
ghost use Rattle.cosim_local.specs.Steps.{MayRun, IsClosed, IsFinished, counts_of, counts_from};

use crate::parts::{Parts, Planned};
use cos_base::{NoMemory, Octets};
use cos_config::{Config, PortConfig};
use cos_parts::{AnyDevice, AnyMaster};
use cos_schedules::{Schedule, Way};
use cosim_ends::make_ends;
use cosim_inputs::Machine;
use cosim_model::Plan;
use link_lines::{LinkCounts, put_links};
use packet_counts::count_packets;
use run_texts::{ending_of, make_piece, uarts_of};
use std::alloc::Global;
use transcript::Ending;
use world::World;

/// The world of a configuration's machine.
pub type MachineWorld = World<AnyMaster, AnyDevice>;

/// A run that is over: its world, how it ended, what went over its links in lines, and room for the pieces of its text.
#[derive(Drop)]
pub struct Finished {
    pub config: Config,
    pub world: MachineWorld,
    pub end: Ending,
    pub traffic: Octets,
    pub piece: Octets,
}

/// The world of a machine, before its first step.
fn make_world(
    alloc: Global,
    ports: &[PortConfig],
    machine: Machine,
    plan: Plan,
) -> Result<MachineWorld, NoMemory>
    requires fresh { All (λ d. any_devices.any_seen d ≡ 0) machine.devices.items }
    requires fit { Fit any_masters.any_model any_devices.any_model plan machine.master
        (sides_of ports.now machine.devices.items) }
    ensures { IfOk result (λ w. w ≡ fresh_world any_masters.any_model any_devices.any_model
        (record { plan = plan; master = machine.master; ports = sides_of ports.now machine.devices.items })) }
{
    let Machine { master, devices } = machine;
    let ends = make_ends(alloc, devices, ports)?;
    World::make(alloc, master, ends, plan)
}

/// What was sent on a link of a world.
fn link_counts(world: &MachineWorld, port: u32) -> LinkCounts
    requires { port < length world.now.start.ports }
    ensures { result ≡ counts_of (link world.now.now port) }
{
    let out = world.sent(port, Way::Out);
    let back = world.sent(port, Way::Back);
    LinkCounts {
        out_packets: count_packets(out),
        out_bytes: out.len() as u64,
        back_packets: count_packets(back),
        back_bytes: back.len() as u64,
    }
}

/// What was sent on each link of a world, by port.
fn all_counts(alloc: Global, world: &MachineWorld) -> Result<Vec<LinkCounts>, NoMemory>
    ensures { IfOk result (λ links. links.items ≡ counts_from world.now.now 0 world.now.start.ports) }
{
    let mut links = Vec::new(alloc);
    let mut port = 0;
    'ports: while port < world.ports() {
        match links.push(link_counts(world, port)) {
            Ok(()) => {}
            Err(_) => return Err(NoMemory),
        }
        port += 1;
    }
    Ok(links)
}

/// The lines of what went over the links of a world, and of its effective steps.
fn traffic_of(alloc: Global, world: &MachineWorld) -> Result<Octets, NoMemory>
    ensures { IfOk result (λ text. text.bytes ≡
        traffic_text (counts_from world.now.now 0 world.now.start.ports) world.now.effective) }
{
    let links = all_counts(alloc, world)?;
    let mut text = Octets::make(alloc);
    put_links(links.as_slice(), world.effective(), &mut text)?;
    Ok(text)
}

/// How a run ended whose world is over.
fn ending_of_world(
    alloc: Global,
    ports: &[PortConfig],
    world: &MachineWorld,
) -> Result<Ending, NoMemory>
    requires { length ports.now ≤ 16 }
    ensures { IfOk result (IsEnding world.now.now.hub.core.calls world.now.now.hub.core.master
        world.now.now.hub.core.tick (uarts_from 0 ports.now)) }
{
    let uarts = uarts_of(alloc, ports)?;
    let machine = world.machine();
    ending_of(
        alloc,
        uarts.as_slice(),
        machine.master(),
        machine.calls(),
        machine.ticks(),
    )
}

/// What is printed of a world that is over. All that takes memory is made here.
fn close(alloc: Global, config: Config, world: MachineWorld) -> Result<Finished, NoMemory>
    requires few { length config.ports ≤ 16 }
    requires over { IsOver any_masters.any_model any_devices.any_model world }
    ensures closed { IfOk result (IsClosed world config.ports) }
    ensures lines { IfOk result (λ done. All HasLine done.world.now.hub.core.calls) }
    ensures empty { IfOk result (λ done. done.piece.bytes ≡ []) }
    ensures room { IfOk result (λ done. 512 ≤ done.piece.spare) }
{
    world.is_on_its_way();
    let end = ending_of_world(alloc, config.ports.as_slice(), &world)?;
    let traffic = traffic_of(alloc, &world)?;
    let piece = make_piece(alloc)?;
    Ok(Finished {
        config,
        world,
        end,
        traffic,
        piece,
    })
}

/// Runs a machine as ends that exchange packets, by a schedule, to its end.
fn run_world(
    alloc: Global,
    ports: &[PortConfig],
    machine: Machine,
    plan: Plan,
    schedule: &Schedule,
) -> Result<MachineWorld, NoMemory>
    requires fresh { All (λ d. any_devices.any_seen d ≡ 0) machine.devices.items }
    requires fit { Fit any_masters.any_model any_devices.any_model plan machine.master
        (sides_of ports.now machine.devices.items) }
    ensures ends { IfOk result (λ w. EndsAfter any_masters.any_model any_devices.any_model schedule.now
        (record { plan = plan; master = machine.master; ports = sides_of ports.now machine.devices.items })
        w.effective) }
    ensures start { IfOk result (λ w. w.start ≡
        record { plan = plan; master = machine.master; ports = sides_of ports.now machine.devices.items }) }
    ensures over { IfOk result (IsOver any_masters.any_model any_devices.any_model) }
{
    let mut world = make_world(alloc, ports, machine, plan)?;
    match world.run(schedule) {
        Ok(()) => Ok(world),
        Err(NoMemory) => Err(NoMemory),
    }
}

/// Runs what is planned to its end, and makes all that is printed of it.
pub fn run(alloc: Global, planned: Planned) -> Result<Finished, NoMemory>
    requires { MayRun planned.parts }
    ensures finished { IfOk result (IsFinished planned) }
    ensures ports { IfOk result (λ done. length done.config.ports ≡ length done.world.start.ports) }
    ensures lines { IfOk result (λ done. All HasLine done.world.now.hub.core.calls) }
    ensures empty { IfOk result (λ done. done.piece.bytes ≡ []) }
    ensures room { IfOk result (λ done. 512 ≤ done.piece.spare) }
{
    let Planned { parts, schedule } = planned;
    let Parts { config, machine } = parts;
    let plan = Plan {
        quantum: config.quantum,
        units: config.units,
    };
    let ports = config.ports.as_slice();
    match run_world(alloc, ports, machine, plan, &schedule) {
        Ok(world) => close(alloc, config, world),
        Err(NoMemory) => Err(NoMemory),
    }
}
