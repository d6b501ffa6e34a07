// Accesses of windows as they are issued, and the first fault of a map. Tables of instructions stand in tests/, over the built program.
ghost use Rattle.std.specs.Prelude.{◌≡◌, None};
ghost use Rattle.sys_bus.specs.Units.{bus_awaited};

use cos_api::{Access, Answer, Bus, Master};
use std::alloc::Global;
use sys_bus::{Map, MapFault, RvMaster, Window};
use sys_ram::Ram;

const RAM: u32 = 4096;

fn window(base: u32, size: u32) -> Window {
    Window {
        base,
        size,
        posted: false,
    }
}

/// One unit, whose access of a window is answered by 0; `None` where it makes none.
fn step(master: &mut RvMaster) -> Option<Bus>
    requires { bus_awaited master.old.waiting ≡ None }
    ensures { bus_awaited master.new.waiting ≡ None }
{
    if master.stopped().is_some() {
        return None;
    }
    match master.issue() {
        Ok(Some(bus)) => {
            master.finish(Answer { code: 0, value: 0 });
            Some(bus)
        }
        _ => None,
    }
}

/// The access that the second of two words issues, of a machine with a window at 0x10000000 and one of posted stores behind it.
fn issued(alloc: Global, words: [u32; 2]) -> Option<Bus> {
    let posted = Window {
        base: 0x1000_1000,
        size: 8192,
        posted: true,
    };
    let mut ram = Ram::make(alloc, RAM).ok()?;
    ram.put_word(0x8000_0000, words[0]).ok()?;
    ram.put_word(0x8000_0004, words[1]).ok()?;
    let size = ram.size();
    let map = Map::make(alloc, &[window(0x1000_0000, 4096), posted], size).ok()?;
    let mut master = RvMaster::make(ram, map);
    let first = step(&mut master);
    let second = step(&mut master);
    if first.is_some() { None } else { second }
}

fn access(write: bool, posted: bool, addr: u64, size: u8, lanes: u8) -> Access {
    Access {
        write,
        posted,
        addr,
        size,
        value: 0,
        lanes,
    }
}

#[test]
fn accesses_of_windows_are_issued(rt: HostRuntime) {
    let rows = [
        // lui x1, 0x10000 or 0x10001 or 0x10003, and lh x3, 0(x1); sb x0, 0(x1); sh x0, -2(x1)
        (
            [0x1000_00b7, 0x0000_9183],
            0,
            access(false, false, 0x0, 2, 0x3),
        ),
        (
            [0x1000_00b7, 0x0000_8023],
            0,
            access(true, false, 0x0, 1, 0x1),
        ),
        (
            [0x1000_30b7, 0xfe00_9f23],
            1,
            access(true, true, 0x1ffe, 2, 0x3),
        ),
    ];
    for (words, port, access) in rows {
        assert!(rt; issued(rt.alloc(), words) == Some(Bus { port, access }));
    }
}

/// Whether this is the first fault of a map of two windows.
fn has_fault(alloc: Global, first: Window, second: Window, fault: Option<MapFault>) -> bool {
    match Map::make(alloc, &[first, second], RAM) {
        Ok(_map) => fault.is_none(),
        Err(found) => fault == Some(found),
    }
}

fn misaligned(window: u64) -> Option<MapFault> {
    Some(MapFault::Misaligned { window })
}

fn overlap(a: u64, b: u64) -> Option<MapFault> {
    Some(MapFault::Overlap { a, b })
}

#[test]
fn the_first_fault_of_a_map(rt: HostRuntime) {
    let rows = [
        // base not a multiple of 4,096, size not one, no byte; the first window counts, and goes before any overlap
        (
            window(0x1000_0000, 4096),
            window(0x1000_0001, 4096),
            misaligned(1),
        ),
        (
            window(0x8000_0000, 100),
            window(0x1000_0001, 4096),
            misaligned(0),
        ),
        (
            window(0x8000_0000, 4096),
            window(0x1000_0000, 0),
            misaligned(1),
        ),
        (
            window(0x7fff_f000, 8192),
            window(0x8000_0000, 4096),
            overlap(0, 2),
        ),
        (
            window(0x000f_f000, 8192),
            window(0x000f_f000, 4096),
            overlap(1, 2),
        ),
        (
            window(0x1000_0000, 8192),
            window(0x1000_1000, 4096),
            overlap(2, 3),
        ),
        (
            window(0x1000_1000, 4096),
            window(0x1000_0000, 8192),
            overlap(2, 3),
        ),
        (
            window(0xffff_f000, 8192),
            window(0xffff_f000, 4096),
            overlap(2, 2),
        ),
        (
            window(0x1000_0000, 4096),
            window(0xffff_e000, 12288),
            overlap(3, 3),
        ),
        (
            window(0x7fff_f000, 4096),
            window(0x8000_1000, 0x7fff_f000),
            None,
        ),
    ];
    for (first, second, fault) in rows {
        assert!(rt; has_fault(rt.alloc(), first, second, fault));
    }
}
