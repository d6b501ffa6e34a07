//! The control registers of a hart in machine mode, and what traps do with them.
//!
//! Nothing here takes memory, and the crate stands on no other. The table of the registers is in
//! `specs/Registers.antt`, the rules of traps in `specs/Traps.antt`.
#![tactic(auto)]

ghost use Rattle.std.specs.Prelude.{◌≡◌, ◌+◌, ◌*◌, ◌^◌, ◌<◌, bit_and};
ghost use Rattle.rv_traps.specs.Registers.{reset_values, read_of, is_writable as is_writable_lem, written, AreHeld};
ghost use Rattle.rv_traps.specs.Traps.{trapped, handler, returned, return_to, interrupt_of};

mod laws;

pub use laws::numbers_are_the_manuals;
use std::marker::Model;

/// Number of mstatus: whether interrupts are taken, and were before a trap.
pub const MSTATUS: u32 = 0x300;
/// Number of misa: RV32I.
pub const MISA: u32 = 0x301;
/// Number of mie: the interrupts that are enabled.
pub const MIE: u32 = 0x304;
/// Number of mtvec: where traps go, and how.
pub const MTVEC: u32 = 0x305;
/// Number of mscratch: a word for the handler of traps.
pub const MSCRATCH: u32 = 0x340;
/// Number of mepc: the address of the unit that trapped.
pub const MEPC: u32 = 0x341;
/// Number of mcause: why it trapped.
pub const MCAUSE: u32 = 0x342;
/// Number of mtval: the address or the word that it trapped on.
pub const MTVAL: u32 = 0x343;
/// Number of mip: the interrupts that are pending.
pub const MIP: u32 = 0x344;
/// Number of mvendorid, which reads 0.
pub const MVENDORID: u32 = 0xf11;
/// Number of marchid, which reads 0.
pub const MARCHID: u32 = 0xf12;
/// Number of mimpid, which reads 0.
pub const MIMPID: u32 = 0xf13;
/// Number of mhartid, which reads 0.
pub const MHARTID: u32 = 0xf14;

/// mstatus at reset, with MPP 3; the bits that can't be written stay so.
const MSTATUS_RESET: u32 = 0x1800;
/// MPIE and MIE of mstatus.
const MSTATUS_BITS: u32 = 0x88;
/// The timer and the external interrupt in mie.
const MIE_BITS: u32 = 0x880;
/// The base of mtvec, and its mode: 0 direct, 1 vectored.
const MTVEC_BITS: u32 = 0xffff_fffd;
/// The address in mepc, a multiple of 4.
const MEPC_BITS: u32 = 0xffff_fffc;

/// Cause of a machine timer interrupt.
pub const TIMER_INTERRUPT: u32 = 0x8000_0007;
/// Cause of a machine external interrupt.
pub const EXTERNAL_INTERRUPT: u32 = 0x8000_000b;

/// Whether there is a register with a number that may be written.
pub fn is_writable(number: u32) -> bool
    ensures { result ≡ is_writable_lem number }
{
    match number {
        MSTATUS | MISA | MIE | MTVEC | MSCRATCH | MEPC | MCAUSE | MTVAL | MIP => true,
        _ => false,
    }
}

/// mstatus with these bits MPIE and MIE.
#[tactic(auto, using(crate::proofs::Masks::mask_status))]
fn status(mpie: u32, mie: u32) -> u32
    requires mpie { mpie < 2 }
    requires mie { mie < 2 }
    ensures kept { bit_and result MSTATUS_BITS + MSTATUS_RESET ≡ result }
    ensures made { bit_and (mpie * 2 ^ 7 + mie * 2 ^ 3) MSTATUS_BITS + MSTATUS_RESET ≡ result }
{
    (mpie << 7) + (mie << 3) + MSTATUS_RESET
}

/// The control registers of a hart.
///
/// Contracts see them as the list of their values in the order of the table. Each register always
/// holds a value that a write can leave in it.
#[derive(Clone, Copy)]
pub struct Csrs {
    mstatus: u32,
    mie: u32,
    mtvec: u32,
    mscratch: u32,
    mepc: u32,
    mcause: u32,
    mtval: u32,
}

impl Model for Csrs {
    ghost use Rattle.std.specs.Prelude.{List, [], ◌∷◌, ℕ, slice_index};
    ghost use Rattle.rv_traps.specs.Registers.{AreHeld};

    ghost Value = { List ℕ };

    ghost view = { λ c. c.mstatus ∷ 0x40000100 ∷ c.mie ∷ c.mtvec ∷ c.mscratch ∷ c.mepc ∷ c.mcause ∷ c.mtval ∷ 0 ∷ 0 ∷ 0 ∷ 0 ∷ 0 ∷ [] };

    ghost invariant = { λ c. AreHeld (c.mstatus ∷ 0x40000100 ∷ c.mie ∷ c.mtvec ∷ c.mscratch ∷ c.mepc ∷ c.mcause ∷ c.mtval ∷ 0 ∷ 0 ∷ 0 ∷ 0 ∷ 0 ∷ []) };

    ghost inverse = { λ v. record { mstatus = slice_index v 0; mie = slice_index v 2; mtvec = slice_index v 3; mscratch = slice_index v 4; mepc = slice_index v 5; mcause = slice_index v 6; mtval = slice_index v 7 } };
}

#[tactic(auto, using(crate::proofs::Masks::mask_bit3, crate::proofs::Masks::mask_bit7, crate::proofs::Masks::mask_bit11, crate::proofs::Masks::mask_status, crate::proofs::Masks::mask_enabled, crate::proofs::Masks::mask_vector, crate::proofs::Masks::mask_word, crate::proofs::Masks::mask_all))]
impl Csrs {
    /// The registers at reset.
    pub fn reset() -> Csrs
        ensures { result ≡ reset_values }
    {
        Csrs {
            mstatus: 0x1800,
            mie: 0,
            mtvec: 0,
            mscratch: 0,
            mepc: 0,
            mcause: 0,
            mtval: 0,
        }
    }

    /// The value of the register with a number, or `None` where there is no such register.
    /// `pending` is the set of pending interrupts, and the value of mip.
    pub fn read(&self, number: u32, pending: u32) -> Option<u32>
        ensures { result ≡ read_of self.now number pending }
    {
        match number {
            MSTATUS => Some(self.mstatus),
            MISA => Some(0x4000_0100),
            MIE => Some(self.mie),
            MTVEC => Some(self.mtvec),
            MSCRATCH => Some(self.mscratch),
            MEPC => Some(self.mepc),
            MCAUSE => Some(self.mcause),
            MTVAL => Some(self.mtval),
            MIP => Some(pending),
            MVENDORID => Some(0),
            MARCHID => Some(0),
            MIMPID => Some(0),
            MHARTID => Some(0),
            _ => None,
        }
    }

    /// Writes the register with a number, and tells whether it may be written: false where there is no
    /// such register or it is read-only. Of the value the writable bits count.
    pub fn write(&mut self, number: u32, value: u32) -> bool
        ensures allowed { result ≡ is_writable_lem number }
        ensures registers { self.new ≡ written self.old number value }
    {
        match number {
            MSTATUS => self.mstatus = (value & MSTATUS_BITS) + MSTATUS_RESET,
            MIE => self.mie = value & MIE_BITS,
            MTVEC => self.mtvec = value & MTVEC_BITS,
            MSCRATCH => self.mscratch = value,
            MEPC => self.mepc = value & MEPC_BITS,
            MCAUSE => self.mcause = value,
            MTVAL => self.mtval = value,
            MISA | MIP => {}
            _ => return false,
        }
        true
    }

    /// Takes a trap at `pc` and gives the pc of its handler. `cause` is that of mcause, with bit 31 at an
    /// interrupt, and `value` that of mtval.
    pub fn trap(&mut self, cause: u32, pc: u32, value: u32) -> u32
        ensures registers { self.new ≡ trapped self.old cause pc value }
        ensures next { result ≡ handler self.old cause }
    {
        let enabled = (self.mstatus >> 3) & 1;
        self.mstatus = status(enabled, 0);
        self.mepc = pc & MEPC_BITS;
        self.mcause = cause;
        self.mtval = value;
        let base = self.mtvec & 0xffff_fffc;
        if self.mtvec & 3 == 1 && cause >> 31 == 1 {
            base.wrapping_add((cause & 0x7fff_ffff) << 2)
        } else {
            base
        }
    }

    /// Returns from a trap, as MRET does, and gives the pc to go on from.
    pub fn mret(&mut self) -> u32
        ensures registers { self.new ≡ returned self.old }
        ensures next { result ≡ return_to self.old }
    {
        let enabled = (self.mstatus >> 7) & 1;
        self.mstatus = status(1, enabled);
        self.mepc
    }

    /// The cause of the interrupt to be taken before the next unit, if there is one. `pending` is the
    /// value of mip.
    pub fn interrupt(&self, pending: u32) -> Option<u32>
        ensures { result ≡ interrupt_of self.now pending }
    {
        if self.mstatus & 0x8 == 0 {
            return None;
        }
        let shared = self.mie & pending;
        if shared & 0x800 != 0 {
            Some(EXTERNAL_INTERRUPT)
        } else if shared & 0x80 != 0 {
            Some(TIMER_INTERRUPT)
        } else {
            None
        }
    }

    /// Each register holds a value that a write can leave in it.
    pub fn is_held(&self)
        ensures { AreHeld self.now }
    {
        let _mstatus = &self.mstatus;
    }
}
