// A run that is over, and what is printed of it.
ghost use Rattle.std.specs.Prelude.{◌≡◌, ◌≤◌, [], All, IfOk, length};
ghost use Rattle.cosim_model.specs.Direct as model;
ghost use Rattle.cos_parts.specs.AnyMasters as any_masters;
ghost use Rattle.cos_parts.specs.AnyDevices as any_devices;
ghost use Rattle.transcript.specs.CallLines.{HasLine};
ghost use Rattle.transcript.specs.ClosingLines.{run_text};
ghost use Rattle.direct_machine.specs.Outcomes.{IsFresh, IsPlan};
ghost use Rattle.run_texts.specs.Texts.{run_lines, uarts_from};
ghost use Rattle.run_texts.specs.Endings.{IsEnding};

use cos_api::Calls;
use cos_base::{NoMemory, Octets};
use cos_config::PortConfig;
use cos_parts::{AnyDevice, AnyMaster};
use cosim_model::Plan;
use direct_machine::outcome::Direct;
use run_texts::{ending_of, make_piece, uarts_of};
use std::alloc::Global;
use transcript::Ending;

/// A run that is over: its calls, how it ended, and room for the pieces of its text.
#[derive(Drop)]
pub struct Finished {
    pub calls: Calls,
    pub end: Ending,
    pub piece: Octets,
}

/// How a run ended, and what the UARTs of these ports sent.
fn ending_of_ports(
    alloc: Global,
    ports: &[PortConfig],
    direct: &Direct<AnyMaster, AnyDevice>,
) -> Result<Ending, NoMemory>
    requires { length ports.now ≤ 16 }
    ensures { IfOk result (IsEnding direct.now.calls.calls direct.now.master direct.now.ticks
        (uarts_from 0 ports.now)) }
{
    let uarts = uarts_of(alloc, ports)?;
    ending_of(
        alloc,
        uarts.as_slice(),
        &direct.master,
        &direct.calls,
        direct.ticks,
    )
}

/// A run that is over, with room for the pieces of its text.
fn with_room(alloc: Global, calls: Calls, end: Ending) -> Result<Finished, NoMemory>
    ensures calls { IfOk result (λ f. f.calls ≡ calls) }
    ensures end { IfOk result (λ f. f.end ≡ end) }
    ensures empty { IfOk result (λ f. f.piece.bytes ≡ []) }
    ensures room { IfOk result (λ f. 512 ≤ f.piece.spare) }
{
    match make_piece(alloc) {
        Ok(piece) => Ok(Finished { calls, end, piece }),
        Err(NoMemory) => Err(NoMemory),
    }
}

/// Runs a machine without packets, from the parts that it begins with.
pub fn run(
    alloc: Global,
    ports: &[PortConfig],
    master: AnyMaster,
    devices: Vec<AnyDevice>,
    plan: Plan,
) -> Result<Finished, NoMemory>
    requires few { length ports.now ≤ 16 }
    requires fresh { IsFresh any_masters.any_model any_devices.any_model master devices.items }
    requires plan { IsPlan plan }
    ensures text { IfOk result (λ f. run_text f.calls.calls f.end ≡ run_lines
        (model.direct any_masters.any_model any_devices.any_model plan master devices.items) ports.now) }
    ensures lines { IfOk result (λ f. All HasLine f.calls.calls) }
    ensures empty { IfOk result (λ f. f.piece.bytes ≡ []) }
    ensures room { IfOk result (λ f. 512 ≤ f.piece.spare) }
{
    let direct = direct_machine::direct(alloc, master, devices, plan)?;
    match ending_of_ports(alloc, ports, &direct) {
        Ok(end) => with_room(alloc, direct.calls, end),
        Err(NoMemory) => Err(NoMemory),
    }
}
