// The machines that are timed, and what is printed of one.
ghost use Rattle.std.specs.Prelude.{◌≡◌, None, IfOk, length};
ghost use Rattle.sys_bus.specs.Units.{bus_awaited};

use cos_api::Master;
use std::alloc::Global;
use sys_bus::{Map, RvMaster, Window};
use sys_ram::Ram;

/// The size of RAM.
const RAM: u32 = 65536;

/// Where a program begins.
const BASE: u32 = 0x8000_0000;

/// Reads the register at the front of the window, and adds up what it read.
pub static POLL: [u32; 4] = [
    0x1000_00b7, // lui x1, 0x10000
    0x0000_a183, // lw x3, 0(x1)
    0x0031_0133, // add x2, x2, x3
    0xff9f_f06f, // jal x0, -8
];

/// The units of 10,000 reads: three each, and one before.
pub const POLLS: u64 = 30_001;

/// A tight loop without accesses of the window.
pub static COUNT: [u32; 7] = [
    0x0011_8193, // addi x3, x3, 1
    0x0031_9213, // slli x4, x3, 3
    0x0041_4133, // xor x2, x2, x4
    0x0031_32b3, // sltu x5, x2, x3
    0x0051_0133, // add x2, x2, x5
    0xfe01_96e3, // bne x3, x0, -20
    0xfe9f_f06f, // jal x0, -24
];

const WINDOWS: [Window; 1] = [Window {
    base: 0x1000_0000,
    size: 4096,
    posted: false,
}];

/// Why a run gave nothing.
pub enum Stopped {
    /// The machine's end kept a fault.
    Fault,
    NoMemory,
}

/// What is printed of a run.
#[derive(Clone, Copy)]
pub struct Ended {
    pub units: u64,
    pub calls: u64,
    pub pc: u32,
    /// x2.
    pub sum: u32,
    /// x3.
    pub last: u32,
}

impl Ended {
    /// What is printed of no run.
    pub fn none() -> Ended {
        Ended {
            units: 0,
            calls: 0,
            pc: 0,
            sum: 0,
            last: 0,
        }
    }

    /// What is printed of a machine that was run.
    pub fn of<M: Master>(master: &M, units: u64, calls: usize) -> Ended {
        let (pc, sum, last) = match master.closing().hart {
            Some(view) => (view.pc, view.regs[2], view.regs[3]),
            None => (0, 0, 0),
        };
        Ended {
            units,
            calls: calls as u64,
            pc,
            sum,
            last,
        }
    }

    /// What is printed of these runs and a later one.
    pub fn followed_by(self, later: Ended) -> Ended {
        Ended {
            units: self.units.wrapping_add(later.units),
            calls: self.calls.wrapping_add(later.calls),
            pc: later.pc,
            sum: later.sum,
            last: later.last,
        }
    }
}

/// Puts the words of a program at the front of RAM.
fn put_program(ram: &mut Ram, program: &[u32]) -> Result<(), Stopped> {
    let mut addr = BASE;
    for word in program {
        match ram.put_word(addr, *word) {
            Ok(_there) => addr = addr.wrapping_add(4),
            Err(_) => return Err(Stopped::NoMemory),
        }
    }
    Ok(())
}

/// A machine with one window and the program at the front of RAM.
pub fn made(alloc: Global, program: &[u32]) -> Result<RvMaster, Stopped>
    ensures free { IfOk result (λ master. bus_awaited master.waiting ≡ None) }
    ensures reach { IfOk result (λ master. length master.map.windows ≡ 1) }
{
    let mut ram = match Ram::make(alloc, RAM) {
        Ok(ram) => ram,
        Err(_) => return Err(Stopped::NoMemory),
    };
    put_program(&mut ram, program)?;
    let size = ram.size();
    match Map::make(alloc, &WINDOWS, size) {
        Ok(map) => Ok(RvMaster::make(ram, map)),
        Err(_) => Err(Stopped::NoMemory),
    }
}
