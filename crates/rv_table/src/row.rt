//! Rows of the instruction table.

/// How the operands of an instruction lie in its word.
///
/// `U`, `J`, `I`, `B`, `S` and `R` are the manual's formats. The others are formats of the manual
/// whose fields are read in a way of their own.
#[derive(Clone, Copy)]
pub enum Format {
    /// rd and an upper immediate.
    U,
    /// rd and a jump's distance.
    J,
    /// rd, rs1 and a signed immediate of 12 bits.
    I,
    /// rs1, rs2 and a branch's distance.
    B,
    /// rs1, rs2 and a store's signed offset.
    S,
    /// I, where bits 24 to 20 are a shift amount.
    Shift,
    /// rd, rs1 and rs2.
    R,
    /// I, where bits 31 to 20 (fm, pred and succ) are kept as they stand.
    Fence,
    /// No operands: the whole word is given.
    Whole,
    /// I, where bits 31 to 20 are the number of a control register.
    Csr,
    /// As `Csr`, where the field of rs1 is an unsigned immediate.
    CsrImmediate,
}

/// The name of a row, in the order of the table.
#[derive(Clone, Copy)]
pub enum Name {
    Lui,
    Auipc,
    Jal,
    Jalr,
    Beq,
    Bne,
    Blt,
    Bge,
    Bltu,
    Bgeu,
    Lb,
    Lh,
    Lw,
    Lbu,
    Lhu,
    Sb,
    Sh,
    Sw,
    Addi,
    Slti,
    Sltiu,
    Xori,
    Ori,
    Andi,
    Fence,
    Csrrw,
    Csrrs,
    Csrrc,
    Csrrwi,
    Csrrsi,
    Csrrci,
    Slli,
    Srli,
    Srai,
    Add,
    Sub,
    Sll,
    Slt,
    Sltu,
    Xor,
    Srl,
    Or,
    And,
    Sra,
    Ecall,
    Ebreak,
    Mret,
    Wfi,
}

/// A row: a word is its instruction where the bits under `mask` are `matched`.
#[derive(Clone, Copy)]
pub struct Row {
    /// Opcode, and funct3, funct7 or the whole word where the row gives them.
    pub mask: u32,
    /// The value of the bits under the mask.
    pub matched: u32,
    /// How the other bits are read.
    pub format: Format,
    /// The instruction's name.
    pub name: Name,
}

/// A table of rows.
#[derive(Clone, Copy)]
pub struct Rows<const N: usize> {
    /// The rows, grouped by mask.
    pub rows: [Row; N],
}
