//! What a unit does with the hart, as a value.

use crate::HartAccess;
use rv_table::Instr;

/// What a unit does with the hart.
#[derive(Clone, Copy)]
pub enum Effect {
    /// A register takes a value, and pc goes on at an address. x0 stands for no register.
    Goes {
        rd: u32,
        value: u32,
        pc: u32,
    },
    /// A register takes a value, a control register takes another, and the next instruction follows.
    Updates {
        rd: u32,
        value: u32,
        number: u32,
        new: u32,
    },
    /// A trap with a cause and a value for mtval.
    Traps {
        cause: u32,
        value: u32,
    },
    /// The return from a trap.
    Returns,
    /// An access, whose answer ends the unit.
    Accesses {
        access: HartAccess,
        instr: Instr,
    },
}

/// What a row of Zicsr does with a control register: nothing, or it writes a value, sets bits or clears bits.
#[derive(Clone, Copy)]
pub enum Update {
    Keep,
    Write(u32),
    Set(u32),
    Clear(u32),
}
