// How a run ended, and room for its text.
ghost use Rattle.std.specs.Prelude.{◌≡◌, ◌≤◌, [], IfOk, length};
ghost use Rattle.run_texts.specs.Texts.{uarts_from};
ghost use Rattle.run_texts.specs.Endings.{IsEnding};

use cos_api::{Calls, Master};
use cos_base::{NoMemory, Numbers, Octets};
use cos_config::{PortConfig, PortKind};
use cos_parts::AnyMaster;
use std::alloc::Global;
use transcript::{Ending, outs_of};

/// What a piece of the text has at most, in bytes.
const PIECE: usize = 512;

/// The numbers of the ports that have a UART.
pub fn uarts_of(alloc: Global, ports: &[PortConfig]) -> Result<Numbers, NoMemory>
    requires { length ports.now ≤ 16 }
    ensures { IfOk result (λ n. n ≡ uarts_from 0 ports.now) }
{
    let mut uarts = Numbers::make(alloc);
    let mut number = 0;
    for port in ports {
        if port.kind == PortKind::Uart {
            uarts.push(number)?;
        }
        number += 1;
    }
    Ok(uarts)
}

/// How a run ended that left this master and these calls after so many ticks, and what the UARTs of these ports sent.
pub fn ending_of(
    alloc: Global,
    uarts: &[u32],
    master: &AnyMaster,
    calls: &Calls,
    ticks: u64,
) -> Result<Ending, NoMemory>
    ensures { IfOk result (IsEnding calls.now.calls master.now ticks uarts.now) }
{
    let outs = outs_of(alloc, calls, uarts)?;
    Ok(Ending {
        stop: master.stopped(),
        ticks,
        closing: master.closing(),
        ram: master.ram().digest(),
        outs,
    })
}

/// Room for the pieces of a text.
pub fn make_piece(alloc: Global) -> Result<Octets, NoMemory>
    ensures empty { IfOk result (λ piece. piece.bytes ≡ []) }
    ensures room { IfOk result (λ piece. 512 ≤ piece.spare) }
{
    let mut piece = Octets::make(alloc);
    match piece.reserve(PIECE) {
        Ok(()) => Ok(piece),
        Err(NoMemory) => Err(NoMemory),
    }
}
