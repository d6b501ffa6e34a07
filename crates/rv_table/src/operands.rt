//! Operands of instructions, by format.

/// The operands of an instruction: one variant for each format. Ranges are those of
/// [`Instr`](crate::Instr).
#[derive(Clone, Copy)]
pub enum Operands {
    U { rd: u32, imm: u32 },
    J { rd: u32, imm: u32 },
    I { rd: u32, rs1: u32, imm: u32 },
    B { rs1: u32, rs2: u32, imm: u32 },
    S { rs1: u32, rs2: u32, imm: u32 },
    Shift { rd: u32, rs1: u32, shamt: u32 },
    R { rd: u32, rs1: u32, rs2: u32 },
    Fence { rd: u32, rs1: u32, imm: u32 },
    Whole,
    Csr { rd: u32, rs1: u32, csr: u32 },
    CsrImmediate { rd: u32, uimm: u32, csr: u32 },
}
