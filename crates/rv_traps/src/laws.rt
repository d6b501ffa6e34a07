//! The numbers that the code uses are those that the rules cite.

ghost use Rattle.std.specs.Prelude.{◌≡◌};
ghost use Rattle.rv_traps.specs.declared.TheConstants.{MSTATUS, MISA, MIE, MTVEC, MSCRATCH, MEPC, MCAUSE, MTVAL, MIP, MVENDORID, MARCHID, MIMPID, MHARTID, TIMER_INTERRUPT, EXTERNAL_INTERRUPT};
ghost use Rattle.rv_traps.specs.Registers.{mstatus, misa, mie, mtvec, mscratch, mepc, mcause, mtval, mip, mvendorid, marchid, mimpid, mhartid};
ghost use Rattle.rv_traps.specs.Traps.{timer_interrupt, external_interrupt};

/// The constants are the numbers of the registers, and the causes, that the rules cite.
pub fn numbers_are_the_manuals()
    ensures traps { (MSTATUS ≡ mstatus) × (MIE ≡ mie) × (MTVEC ≡ mtvec) × (MSCRATCH ≡ mscratch) × (MEPC ≡ mepc) × (MCAUSE ≡ mcause) × (MTVAL ≡ mtval) × (MIP ≡ mip) }
    ensures machine { (MISA ≡ misa) × (MVENDORID ≡ mvendorid) × (MARCHID ≡ marchid) × (MIMPID ≡ mimpid) × (MHARTID ≡ mhartid) }
    ensures causes { (TIMER_INTERRUPT ≡ timer_interrupt) × (EXTERNAL_INTERRUPT ≡ external_interrupt) }
{}
