//! Units of a machine over a small program, to be timed: `bench_bus UNITS loop` over a tight loop, `bench_bus UNITS copy` over a copy of
//! memory. It prints pc, x2 and x3 at the end.
#![tactic(auto)]

ghost use Rattle.std.specs.Prelude.{◌≡◌, None, IfSome};
ghost use Rattle.sys_bus.specs.Units.{bus_awaited};

use cos_api::{Answer, Master};
use std::alloc::Global;
use std::{env, io};
use sys_bus::{Map, RvMaster, Window};
use sys_ram::Ram;

/// The size of RAM.
const RAM: u32 = 65536;

/// Where the program begins.
const BASE: u32 = 0x8000_0000;

static LOOP: [u32; 7] = [
    0x0011_8193, // addi x3, x3, 1
    0x0031_9213, // slli x4, x3, 3
    0x0041_4133, // xor x2, x2, x4
    0x0031_32b3, // sltu x5, x2, x3
    0x0051_0133, // add x2, x2, x5
    0xfe01_96e3, // bne x3, x0, -20
    0xfe9f_f06f, // jal x0, -24
];

static COPY: [u32; 10] = [
    0x8000_10b7, // lui x1, 0x80001
    0x8000_2137, // lui x2, 0x80002
    0x8000_2237, // lui x4, 0x80002
    0x0000_a183, // lw x3, 0(x1)
    0x0011_8193, // addi x3, x3, 1
    0x0031_2023, // sw x3, 0(x2)
    0x0040_8093, // addi x1, x1, 4
    0x0041_0113, // addi x2, x2, 4
    0xfe40_96e3, // bne x1, x4, -20
    0xfddf_f06f, // jal x0, -36
];

const WINDOWS: [Window; 1] = [Window {
    base: 0x1000_0000,
    size: 4096,
    posted: false,
}];

/// A machine with the program at the front of RAM, where there is memory for it.
fn made(alloc: Global, program: &[u32]) -> Option<RvMaster>
    ensures { IfSome result (λ master. bus_awaited master.waiting ≡ None) }
{
    let mut ram = match Ram::make(alloc, RAM) {
        Ok(ram) => ram,
        Err(_) => return None,
    };
    let mut addr = BASE;
    for word in program {
        match ram.put_word(addr, *word) {
            Ok(_there) => addr = addr.wrapping_add(4),
            Err(_) => return None,
        }
    }
    let size = ram.size();
    match Map::make(alloc, &WINDOWS, size) {
        Ok(map) => Some(RvMaster::make(ram, map)),
        Err(_) => None,
    }
}

/// So many units, or fewer where the machine stops or memory runs out.
fn run(master: &mut RvMaster, units: u64)
    requires { bus_awaited master.old.waiting ≡ None }
{
    'units: for _unit in 0..units {
        if let Some(_) = master.stopped() {
            break;
        }
        match master.issue() {
            Ok(None) => {}
            Ok(Some(_)) => master.finish(Answer { code: 0, value: 0 }),
            Err(_) => break,
        }
    }
}

/// The number of units and the way, by the words after the program's name: 1,000 of the loop where there are none.
fn judged(count: Option<String>, way: Option<String>) -> (u64, bool) {
    let units = match &count {
        Some(text) => text.parse::<u64>().unwrap_or(0),
        None => 1000,
    };
    let copies = match &way {
        Some(text) => text.as_str() == "copy",
        None => false,
    };
    (units, copies)
}

fn main(rt: HostRuntime) -> io::Result<()> {
    let mut words = env::args(&rt)?;
    let _program = words.next();
    let count = words.next();
    let way = words.next();
    let (units, copies) = judged(count, way);
    let made = if copies {
        made(rt.alloc(), &COPY)
    } else {
        made(rt.alloc(), &LOOP)
    };
    let mut master = match made {
        Some(master) => master,
        None => return println!(rt; "no memory"),
    };
    run(&mut master, units);
    match master.closing().hart {
        Some(view) => {
            let pc = view.pc;
            let sum = view.regs[2];
            let count = view.regs[3];
            println!(rt; "{pc} {sum} {count}")
        }
        None => Ok(()),
    }
}
