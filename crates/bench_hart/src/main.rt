//! Units of the hart over a small program, to be timed: `bench_hart UNITS copy` issues and finishes by value,
//! `bench_hart UNITS place` in the hart's place. It prints pc, x2 and x3 at the end.
#![tactic(auto)]

use rv_core::unit::{finish, finish_in_place, issue, issue_in_place};
use rv_core::{Hart, HartAccess, Issue};
use std::{env, io};

/// Where the program begins.
const BASE: u32 = 0x8000_0000;
/// Where its data begin.
const DATA: u32 = 0x8000_1000;

static PROGRAM: [u32; 13] = [
    0x8000_10b7, // lui x1, 0x80001
    0x0000_0113, // addi x2, x0, 0
    0x0000_a183, // lw x3, 0(x1)
    0x0011_8193, // addi x3, x3, 1
    0x0031_9213, // slli x4, x3, 3
    0x0041_4133, // xor x2, x2, x4
    0x0031_32b3, // sltu x5, x2, x3
    0x0051_0133, // add x2, x2, x5
    0x0020_a223, // sw x2, 4(x1)
    0x0030_a023, // sw x3, 0(x1)
    0x7ff1_f313, // andi x6, x3, 2047
    0xfc03_1ee3, // bne x6, x0, -36
    0xfd9f_f06f, // jal x0, -40
];

/// The word at an address, where the program has one there.
fn fetch(pc: u32) -> Option<u32> {
    let offset = pc.wrapping_sub(BASE);
    if offset % 4 == 0 && offset < 52 {
        Some(PROGRAM[offset as usize / 4])
    } else {
        None
    }
}

/// The answer of the data to an access of a whole word, and nothing to any other.
fn answer(data: &mut [u32; 64], access: HartAccess) -> Option<u32> {
    let offset = access.addr.wrapping_sub(DATA);
    if access.size != 4 || offset >= 256 {
        return None;
    }
    let place = offset as usize / 4;
    if access.write {
        data[place] = access.value;
    }
    Some(data[place])
}

/// So many units by value.
fn run_by_value(mut hart: Hart, units: u64) -> Hart {
    let mut data = [0; 64];
    for _ in 0..units {
        hart = match issue(&hart, fetch(hart.pc), 0) {
            Issue::Local(next) => next,
            Issue::Trap(next) => next,
            Issue::Bus { request, rest } => {
                let word = answer(&mut data, request);
                finish(&hart, rest, word)
            }
        };
    }
    hart
}

/// So many units in the hart's place.
fn run_in_place(hart: &mut Hart, units: u64) {
    let mut data = [0; 64];
    for _ in 0..units {
        if let Some(waiting) = issue_in_place(hart, fetch(hart.pc), 0) {
            let word = answer(&mut data, waiting.request);
            finish_in_place(hart, waiting.rest, word);
        }
    }
}

/// The number of units and the way, by the words after the program's name: 1,000 in place where there are none.
fn judged(count: Option<String>, way: Option<String>) -> (u64, bool) {
    let units = match &count {
        Some(text) => text.parse::<u64>().unwrap_or(0),
        None => 1000,
    };
    let by_value = match &way {
        Some(text) => text.as_str() == "copy",
        None => false,
    };
    (units, by_value)
}

fn main(rt: HostRuntime) -> io::Result<()> {
    let mut words = env::args(&rt)?;
    let _program = words.next();
    let count = words.next();
    let way = words.next();
    let (units, by_value) = judged(count, way);
    let mut hart = Hart::reset();
    if by_value {
        hart = run_by_value(hart, units);
    } else {
        run_in_place(&mut hart, units);
    }
    let pc = hart.pc;
    let sum = hart.reg(2);
    let count = hart.reg(3);
    println!(rt; "{pc} {sum} {count}")?;
    Ok(())
}
