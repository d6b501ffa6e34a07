// What the UARTs sent, as the calls of a run tell it.
ghost use Rattle.std.specs.Prelude.{◌≡◌, IfOk, option_to_list};
ghost use Rattle.transcript.specs.Sent.{sent_in, sent_by, AreSent};

use crate::ending::{Out, Outs};
use cos_api::{Call, Calls};
use cos_base::{NoMemory, Octets};
use std::alloc::Global;

/// What a call tells that the UART of a port sent, if anything.
fn byte_in(port: u32, call: &Call) -> Option<u8>
    ensures { option_to_list result ≡ sent_in port call.now }
{
    match call {
        Call::Access {
            port: to,
            access,
            ..
        } if *to == port && access.write && access.size == 4 && access.addr == 0 => {
            Some((access.value % 256) as u8)
        }
        _ => None,
    }
}

/// What the calls tell that the UART of a port sent.
fn bytes_of(alloc: Global, port: u32, calls: &[Call]) -> Result<Octets, NoMemory>
    ensures { IfOk result (λ o. o.bytes ≡ sent_by calls.now port) }
{
    let mut bytes = Octets::make(alloc);
    for call in calls {
        if let Some(byte) = byte_in(port, call) {
            bytes.push_all(&[byte])?;
        }
    }
    Ok(bytes)
}

/// What the UARTs of some ports sent, as the calls tell: the low byte of each write of four bytes at address 0, posted or
/// not, also where the UART refused it. It goes over the calls once for each UART.
pub fn outs_of(alloc: Global, calls: &Calls, ports: &[u32]) -> Result<Outs, NoMemory>
    ensures { IfOk result (AreSent calls.now.calls ports.now) }
{
    let mut outs = Outs::make(alloc);
    for port in ports {
        let bytes = bytes_of(alloc, *port, calls.as_slice())?;
        outs.push(Out { port: *port, bytes })?;
    }
    Ok(outs)
}
