use crate::{LocalRefusal, Order, local};
use cos_base::{Files, NoMemory, Numbers, Octets};
use cos_memory::{MemFiles, MemSink};
use outcomes::Stop;
use std::alloc::Global;
use std::test::Fail;

/// Files of which some are these.
fn files_of(alloc: Global, files: &[(&str, &[u8])]) -> Result<MemFiles, NoMemory> {
    let mut store = MemFiles::make(alloc, Numbers::make(alloc));
    for (name, bytes) in files {
        let mut held = Octets::make(alloc);
        held.push_all(bytes)?;
        store.add(name, held)?;
    }
    Ok(store)
}

/// A script that sets a timer.
const TIMER: &[u8] = b"\
[machine]
kind = \"script\"
script = \"script\"
ram = 4096
quantum = 10
units = 100
[[port]]
kind = \"timer\"
base = 268435456
size = 4096
line = 0
";

/// No units, and two devices.
const NULLS: &[u8] = b"\
[machine]
kind = \"script\"
script = \"script\"
ram = 4096
quantum = 5
units = 0
[[port]]
kind = \"null\"
base = 268435456
size = 4096
[[port]]
kind = \"null\"
base = 268439552
size = 4096
";

/// No units, and a disk whose sectors are kept.
const DISK: &[u8] = b"\
[machine]
kind = \"script\"
script = \"script\"
ram = 4096
quantum = 5
units = 0
[[port]]
kind = \"disk\"
base = 268435456
size = 4096
line = 1
disk = \"image\"
result = \"result\"
";

// Of the 34 effective steps 8 are local units; each of 5 packets out is sent, delivered and taken by a step of its own,
// and each of 5 packets back is delivered and taken; and one step is the device end's hello.
const TIMER_TEXT: &[u8] = b"\
@0 p0 write 0x4+4 = 0x5 code 0
@1 p0 write 0x8+4 = 0x1 code 0
@10 p0 line 0 = 1 due 5
stop halted 0 at 10
lines 00000001
ram ad7facb2586fc6e966c004d7d1d16b024f5805ff7cb47c7a85dabd8b48892ca7
link p0 out 5 281 back 5 273
steps 34
";

const NULLS_TEXT: &[u8] = b"\
stop halted 0 at 0
lines 00000000
ram ad7facb2586fc6e966c004d7d1d16b024f5805ff7cb47c7a85dabd8b48892ca7
link p0 out 2 72 back 2 72
link p1 out 2 72 back 2 72
steps 22
";

#[test]
fn a_timer_fires_over_packets(rt: HostRuntime) -> Result<(), Fail> {
    let alloc = rt.alloc();
    let script = b"write 0 0x4 4 0x5\nwrite 0 0x8 4 0x1\nwait 8\n".as_slice();
    let mut files = files_of(alloc, &[("config", TIMER), ("script", script)])?;
    let mut out = MemSink::make(alloc, 1_000, Numbers::make(alloc))?;
    let order = Order::Schedule { number: 0 };
    assert!(rt; local(alloc, "config", order, &mut files, &mut out).is_ok());
    assert_eq!(rt; out.bytes(), TIMER_TEXT);
    Ok(())
}

#[test]
fn each_device_exchanges_hellos_and_one_boundary(rt: HostRuntime) -> Result<(), Fail> {
    let alloc = rt.alloc();
    let mut files = files_of(
        alloc,
        &[("config", NULLS), ("script", b""), ("steps", b"m\n")],
    )?;
    let mut out = MemSink::make(alloc, 1_000, Numbers::make(alloc))?;
    let order = Order::Steps { file: "steps" };
    assert!(rt; local(alloc, "config", order, &mut files, &mut out).is_ok());
    assert!(rt; out.bytes().starts_with(b"stop halted 0 at 0\n"));
    let mut out = MemSink::make(alloc, 1_000, Numbers::make(alloc))?;
    let order = Order::Schedule { number: 0 };
    assert!(rt; local(alloc, "config", order, &mut files, &mut out).is_ok());
    assert_eq!(rt; out.bytes(), NULLS_TEXT);
    Ok(())
}

#[test]
fn a_line_that_spells_no_step_is_refused_before_anything_is_done(
    rt: HostRuntime,
) -> Result<(), Fail> {
    let alloc = rt.alloc();
    let image = [7_u8; 512];
    let mut files = files_of(
        alloc,
        &[
            ("config", DISK),
            ("script", b""),
            ("image", &image),
            ("steps", b"m\nd 1\n"),
            ("latin", b"m\n\xe4\n"),
        ],
    )?;
    let mut out = MemSink::make(alloc, 1_000, Numbers::make(alloc))?;
    for (file, number) in [("steps", 2), ("latin", 1)] {
        let order = Order::Steps { file };
        let refused = matches!(
            local(alloc, "config", order, &mut files, &mut out),
            Err(Stop::Refused(LocalRefusal::Steps { line })) if line == number
        );
        assert!(rt; refused);
    }
    assert_eq!(rt; out.bytes().len(), 0);
    assert!(rt; files.read("result").is_err());
    Ok(())
}

#[test]
fn the_sectors_of_a_disk_are_written(rt: HostRuntime) -> Result<(), Fail> {
    let alloc = rt.alloc();
    let image = [7_u8; 512];
    let mut files = files_of(
        alloc,
        &[("config", DISK), ("script", b""), ("image", &image)],
    )?;
    let mut out = MemSink::make(alloc, 1_000, Numbers::make(alloc))?;
    let order = Order::Schedule { number: 3 };
    assert!(rt; local(alloc, "config", order, &mut files, &mut out).is_ok());
    let written = match files.read("result") {
        Ok(bytes) => bytes.as_slice() == image.as_slice(),
        Err(_) => false,
    };
    assert!(rt; written);
    Ok(())
}
