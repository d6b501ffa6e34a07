// A line and what UARTs sent. The texts of whole runs stand in tests/, over the built program.
ghost use Rattle.std.specs.Prelude.{◌≡◌};
ghost use Rattle.transcript.specs.CallLines.{HasLine};

use cos_api::{Access, Answer, Call, Calls};
use cos_base::{NoMemory, Octets};
use std::alloc::Global;
use transcript::{call_line, outs_of};

/// A write of four bytes at tick 2 that was answered by a code.
fn write_of(posted: bool, addr: u64, value: u64, code: u8) -> Call
    ensures { HasLine result }
{
    Call::Access {
        tick: 2,
        port: 0,
        access: Access {
            write: true,
            posted,
            addr,
            size: 4,
            value,
            lanes: 15,
        },
        answer: Answer { code, value: 0 },
    }
}

/// Whether the line of a call is this one, behind what stood before.
fn has_line(alloc: Global, call: &Call, line: &[u8]) -> Result<bool, NoMemory>
    requires { HasLine call.now }
{
    let mut out = Octets::make(alloc);
    let mut wanted = Octets::make(alloc);
    out.push_all(b"before\n")?;
    wanted.push_all(b"before\n")?;
    wanted.push_all(line)?;
    call_line(call, &mut out)?;
    Ok(out.as_slice() == wanted.as_slice())
}

/// Whether the low bytes of writes to the first register were sent, refused ones too, and nothing by the UART of port 1.
fn sends_low_bytes(alloc: Global) -> Result<bool, NoMemory> {
    let mut calls = Calls::make(alloc);
    for (posted, addr, value, code) in [
        (false, 0, 0x141, 0),
        (true, 0, 0x42, 0),
        (false, 4, 0x43, 0),
        (false, 0, 0x44, 1),
    ] {
        calls.push(write_of(posted, addr, value, code))?;
    }
    match outs_of(alloc, &calls, &[0, 1])?.as_slice() {
        [first, second] => Ok(
            first.port == 0
                && second.port == 1
                && first.bytes.as_slice() == [0x41, 0x42, 0x44].as_slice()
                && second.bytes.len() == 0,
        ),
        _ => Ok(false),
    }
}

#[test]
fn calls_have_their_lines_and_uarts_what_they_sent(rt: HostRuntime) {
    let write = write_of(false, 0, 0x41, 0);
    let line = b"@2 p0 write 0x0+4 = 0x41 code 0\n";
    assert!(rt; matches!(has_line(rt.alloc(), &write, line), Ok(true)));
    assert!(rt; matches!(sends_low_bytes(rt.alloc()), Ok(true)));
}
