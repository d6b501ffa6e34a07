//! The hart, its accesses, and what is left of a unit that makes one.

ghost use Rattle.std.specs.Prelude.{◌≡◌, ◌<◌, replicate};
ghost use Rattle.rv_traps.specs.Registers.{reset_values};
ghost use Rattle.rv_core.specs.Operations.{reg, add};

use rv_table::Instr;
use rv_traps::Csrs;
use std::marker::Model;

/// A hart: its state between two units.
///
/// `pc` is the address of the next instruction. `regs` are x0 to x31: x0 reads 0 whatever stands there, and no unit
/// writes it.
#[derive(Clone, Copy)]
pub struct Hart {
    pub pc: u32,
    pub regs: [u32; 32],
    pub csrs: Csrs,
}

impl Hart {
    /// The hart at reset: all registers are 0, and the first instruction is at 0x80000000.
    pub fn reset() -> Hart
        ensures { result ≡ record { pc = 0x80000000; regs = replicate 32 0; csrs = reset_values } }
    {
        Hart {
            pc: 0x8000_0000,
            regs: [0; 32],
            csrs: Csrs::reset(),
        }
    }

    /// The value of a register.
    pub fn reg(&self, number: u32) -> u32
        requires { number < 32 }
        ensures { result ≡ reg self.now.regs number }
    {
        if number == 0 {
            0
        } else {
            self.regs[number as usize]
        }
    }

    /// The sum of a register and a word.
    pub(crate) fn sum(&self, number: u32, word: u32) -> u32
        requires { number < 32 }
        ensures { result ≡ add (reg self.now.regs number) word }
    {
        self.reg(number).wrapping_add(word)
    }
}

/// An access of a load or a store. `addr` is a multiple of `size`, which is 1, 2 or 4 bytes. `value` is what a store
/// writes, without the bits above its size; for a load it is 0.
#[derive(Clone, Copy)]
pub struct HartAccess {
    pub write: bool,
    pub addr: u32,
    pub size: u8,
    pub value: u32,
}

/// What is left of a unit that waits for the answer of its access: a load or a store, which contracts see.
#[derive(Clone, Copy)]
pub struct Rest {
    instr: Instr,
}

impl Model for Rest {
    ghost use Rattle.std.specs.Prelude.{◌≡◌, true};
    ghost use Rattle.rv_table.specs.declared.instr.Instr.{Instr};
    ghost use Rattle.rv_table.specs.Coding.{IsWithin};
    ghost use Rattle.rv_core.specs.Rows.{makes_access};

    ghost Value = { Instr };

    ghost view = { λ r. r.instr };

    ghost invariant = { λ r. IsWithin r.instr × (makes_access r.instr ≡ true) };

    ghost inverse = { λ i. record { instr = i } };
}

impl Rest {
    ghost use Rattle.std.specs.Prelude.{◌≡◌, true};
    ghost use Rattle.rv_table.specs.Coding.{IsWithin};
    ghost use Rattle.rv_core.specs.Rows.{makes_access};

    /// What is left of a load or a store.
    pub(crate) fn of(instr: Instr) -> Rest
        requires within { IsWithin instr }
        requires access { makes_access instr ≡ true }
        ensures { result ≡ instr }
    {
        Rest { instr }
    }

    /// The instruction.
    pub fn instr(&self) -> Instr
        ensures value { result ≡ self.now }
        ensures within { IsWithin result }
        ensures access { makes_access result ≡ true }
    {
        self.instr
    }
}
