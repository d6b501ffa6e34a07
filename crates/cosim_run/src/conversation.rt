// The conversation of a machine with its children.
ghost use Rattle.std.specs.Prelude.{◌≡◌, [], All, IfOk, IfErr};
ghost use Rattle.cosim_serve.specs.Serves.{NetView};
ghost use Rattle.configured_machine.specs.Configured.{MayRun};
ghost use Rattle.outcomes.specs.Seen.{seen};
ghost use Rattle.transcript.specs.CallLines.{HasLine};
ghost use Rattle.cosim_run.specs.Conversations.{StopsSoundly, undriven, unopened};
ghost use Rattle.cosim_run.specs.Steps.{ComesDriven, ComesUndriven};

use crate::refusal::RunRefusal;
use configured_machine::Parts;
use cos_base::{Network, NoMemory};
use cos_children::Spawner;
use cos_config::Config;
use cos_parts::{AnyDevice, AnyMaster};
use cosim_inputs::Machine;
use cosim_model::Plan;
use end_machine::drive;
use machine_turns::{MachineEnd, PortFault, TurnFault};
use outcomes::{Object, Stop};
use port_children::{OpenFault, open_links};
use rp_session::EndFault;
use std::alloc::Global;

/// A configuration whose machine's end was driven to the end of its run.
#[derive(Drop)]
pub struct Driven {
    pub config: Config,
    pub end: MachineEnd<AnyMaster>,
}

/// How links that weren't had end the command.
fn unopened(fault: OpenFault) -> Stop<RunRefusal>
    ensures { result ≡ unopened fault }
{
    match fault {
        OpenFault::Net { count } => Stop::Outside {
            object: Object::Net,
            count,
        },
        OpenFault::Spawner { count } => Stop::Outside {
            object: Object::Spawner,
            count,
        },
        OpenFault::NoMemory => Stop::NoMemory,
    }
}

/// How an end that wasn't driven to its end ends the command.
fn undriven(fault: TurnFault) -> Stop<RunRefusal>
    ensures { result ≡ undriven fault }
{
    match fault {
        TurnFault::Port(
            PortFault {
                port,
                fault: EndFault::Link { count },
            },
        ) => Stop::Outside {
            object: Object::Link { port },
            count,
        },
        TurnFault::Port(
            PortFault {
                port: _,
                fault: EndFault::NoMemory,
            },
        ) => Stop::NoMemory,
        TurnFault::Port(PortFault { port, fault }) => {
            Stop::Refused(RunRefusal::Peer { port, fault })
        }
        TurnFault::NoMemory => Stop::NoMemory,
    }
}

/// Makes the end of a configuration's machine, has the links of its children, and drives the end over them to the end
/// of its run. The links and the children's numbers are put into lists that are empty; whatever is answered, the
/// children of these numbers were started, and run.
pub fn converse<N: Network, S: Spawner>(
    alloc: Global,
    parts: Parts,
    program: &str,
    config: &str,
    links: &mut Vec<N::Link>,
    numbers: &mut Vec<u32>,
    net: &mut N,
    children: &mut S,
) -> Result<Driven, Stop<RunRefusal>>
    requires may_run { MayRun parts }
    requires no_links { links.old.items ≡ [] }
    requires no_numbers { numbers.old.items ≡ [] }
    ensures ok { IfOk result (ComesDriven program.now config.now
        (record { told = N.Link.told; count = N.Link.count; is_sound = N.sound net.old }) parts
        (seen N.count N.told net.old net.new) (seen S.count S.told children.old children.new) numbers.new.items) }
    ensures err { IfErr result (ComesUndriven program.now config.now
        (record { told = N.Link.told; count = N.Link.count; is_sound = N.sound net.old }) parts
        (seen N.count N.told net.old net.new) (seen S.count S.told children.old children.new) numbers.new.items) }
    ensures lines { IfOk result (λ d. All HasLine d.end.clear.calls) }
    ensures sound_children { S.sound children.old → S.sound children.new }
    ensures soundly { N.sound net.old → S.sound children.old
        → IfErr result (StopsSoundly parts (seen N.count N.told net.old net.new)) }
{
    let Parts {
        config: settings,
        machine,
    } = parts;
    let Machine { master, devices: _ } = machine;
    let plan = Plan {
        quantum: settings.quantum,
        units: settings.units,
    };
    let mut end = match MachineEnd::make(alloc, master, settings.ports.len() as u32, plan) {
        Ok(end) => end,
        Err(NoMemory) => return Err(Stop::NoMemory),
    };
    let ports = settings.ports.as_slice();
    match open_links(alloc, ports, program, config, links, numbers, net, children) {
        Ok(()) => {}
        Err(fault) => return Err(unopened(fault)),
    }
    match drive::<AnyMaster, AnyDevice, N::Link>(alloc, &mut end, links.as_mut_slice()) {
        Ok(()) => Ok(Driven {
            config: settings,
            end,
        }),
        Err(fault) => Err(undriven(fault)),
    }
}
