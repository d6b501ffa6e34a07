//! Instructions as values.

/// An instruction: one variant for each row of the table, with the row's operands.
///
/// `rd`, `rs1` and `rs2` are numbers of registers, below 32. `imm` is a whole 32-bit word in two's
/// complement: a 12-bit immediate sign-extended; for `Lui` and `Auipc` the upper 20 bits at their
/// place, the low 12 bits 0; for branches and `Jal` the distance in bytes from the instruction,
/// which is even. `shamt` is a shift amount below 32, `csr` the number of a control register below
/// 4096, `uimm` an unsigned immediate below 32. The `imm` of `Fence` is fm, pred and succ as they
/// stand in bits 31 to 20, below 4096.
///
/// It derives no equality and no text: nothing here compares instructions, and the proofs for 48 variants take minutes.
#[derive(Clone, Copy)]
pub enum Instr {
    Lui { rd: u32, imm: u32 },
    Auipc { rd: u32, imm: u32 },
    Jal { rd: u32, imm: u32 },
    Jalr { rd: u32, rs1: u32, imm: u32 },
    Beq { rs1: u32, rs2: u32, imm: u32 },
    Bne { rs1: u32, rs2: u32, imm: u32 },
    Blt { rs1: u32, rs2: u32, imm: u32 },
    Bge { rs1: u32, rs2: u32, imm: u32 },
    Bltu { rs1: u32, rs2: u32, imm: u32 },
    Bgeu { rs1: u32, rs2: u32, imm: u32 },
    Lb { rd: u32, rs1: u32, imm: u32 },
    Lh { rd: u32, rs1: u32, imm: u32 },
    Lw { rd: u32, rs1: u32, imm: u32 },
    Lbu { rd: u32, rs1: u32, imm: u32 },
    Lhu { rd: u32, rs1: u32, imm: u32 },
    Sb { rs1: u32, rs2: u32, imm: u32 },
    Sh { rs1: u32, rs2: u32, imm: u32 },
    Sw { rs1: u32, rs2: u32, imm: u32 },
    Addi { rd: u32, rs1: u32, imm: u32 },
    Slti { rd: u32, rs1: u32, imm: u32 },
    Sltiu { rd: u32, rs1: u32, imm: u32 },
    Xori { rd: u32, rs1: u32, imm: u32 },
    Ori { rd: u32, rs1: u32, imm: u32 },
    Andi { rd: u32, rs1: u32, imm: u32 },
    Fence { rd: u32, rs1: u32, imm: u32 },
    Csrrw { rd: u32, rs1: u32, csr: u32 },
    Csrrs { rd: u32, rs1: u32, csr: u32 },
    Csrrc { rd: u32, rs1: u32, csr: u32 },
    Csrrwi { rd: u32, uimm: u32, csr: u32 },
    Csrrsi { rd: u32, uimm: u32, csr: u32 },
    Csrrci { rd: u32, uimm: u32, csr: u32 },
    Slli { rd: u32, rs1: u32, shamt: u32 },
    Srli { rd: u32, rs1: u32, shamt: u32 },
    Srai { rd: u32, rs1: u32, shamt: u32 },
    Add { rd: u32, rs1: u32, rs2: u32 },
    Sub { rd: u32, rs1: u32, rs2: u32 },
    Sll { rd: u32, rs1: u32, rs2: u32 },
    Slt { rd: u32, rs1: u32, rs2: u32 },
    Sltu { rd: u32, rs1: u32, rs2: u32 },
    Xor { rd: u32, rs1: u32, rs2: u32 },
    Srl { rd: u32, rs1: u32, rs2: u32 },
    Or { rd: u32, rs1: u32, rs2: u32 },
    And { rd: u32, rs1: u32, rs2: u32 },
    Sra { rd: u32, rs1: u32, rs2: u32 },
    Ecall,
    Ebreak,
    Mret,
    Wfi,
}
