use crate::direct;
use cos_base::{NoMemory, Numbers, Octets};
use cos_memory::{MemFiles, MemSink};
use cosim_inputs::InputsRefusal;
use outcomes::Stop;
use std::alloc::Global;
use std::test::Fail;

/// Files of which some are these.
fn files_of(alloc: Global, files: &[(&str, &[u8])]) -> Result<MemFiles, NoMemory> {
    let mut store = MemFiles::make(alloc, Numbers::make(alloc));
    for (name, bytes) in files {
        let mut held = Octets::make(alloc);
        held.push_all(bytes)?;
        store.add(name, held)?;
    }
    Ok(store)
}

/// A script that sets a timer.
const CONFIG: &[u8] = b"\
[machine]
kind = \"script\"
script = \"script\"
ram = 4096
quantum = 10
units = 100
[[port]]
kind = \"timer\"
base = 268435456
size = 4096
line = 0
";

const TEXT: &[u8] = b"\
@0 p0 write 0x4+4 = 0x5 code 0
@1 p0 write 0x8+4 = 0x1 code 0
@10 p0 line 0 = 1 due 5
stop halted 0 at 10
lines 00000001
ram ad7facb2586fc6e966c004d7d1d16b024f5805ff7cb47c7a85dabd8b48892ca7
";

#[test]
fn a_timer_fires_at_the_boundary(rt: HostRuntime) -> Result<(), Fail> {
    let alloc = rt.alloc();
    let script = b"write 0 0x4 4 0x5\nwrite 0 0x8 4 0x1\nwait 8\n".as_slice();
    let mut files = files_of(alloc, &[("config", CONFIG), ("script", script)])?;
    let mut out = MemSink::make(alloc, 1_000, Numbers::make(alloc))?;
    assert!(rt; direct(alloc, "config", &mut files, &mut out).is_ok());
    assert_eq!(rt; out.bytes(), TEXT);
    Ok(())
}

#[test]
fn a_script_with_a_bad_line_is_refused(rt: HostRuntime) -> Result<(), Fail> {
    let alloc = rt.alloc();
    let script = b"wait 1\nread 2 0x0 4\n".as_slice();
    let mut files = files_of(alloc, &[("config", CONFIG), ("script", script)])?;
    let mut out = MemSink::make(alloc, 1_000, Numbers::make(alloc))?;
    let refused = matches!(
        direct(alloc, "config", &mut files, &mut out),
        Err(Stop::Refused(InputsRefusal::Line { line: 2 }))
    );
    assert!(rt; refused);
    assert_eq!(rt; out.bytes().len(), 0);
    Ok(())
}
