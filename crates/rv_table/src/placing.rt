//! Operands put into a word, by format. Of an operand that is too wide the low bits count.

ghost use Rattle.std.specs.Prelude.{◌≡◌, ◌<◌};
ghost use Rattle.rv_table.specs.Fields.{u_word, j_word, i_word, s_word, b_word, r_word};

/// The word of a match and the operands of the U format.
pub fn u_placed(matched: u32, rd: u32, imm: u32) -> u32
    requires { matched < 0x80 }
    ensures { result ≡ u_word matched rd imm }
{
    matched + ((rd & 0x1f) << 7) + (imm & 0xffff_f000)
}

/// The word of a match and the operands of the J format.
pub fn j_placed(matched: u32, rd: u32, imm: u32) -> u32
    requires { matched < 0x80 }
    ensures { result ≡ j_word matched rd imm }
{
    matched
        + ((rd & 0x1f) << 7)
        + (((imm >> 12) & 0xff) << 12)
        + (((imm >> 11) & 1) << 20)
        + (((imm >> 1) & 0x3ff) << 21)
        + (((imm >> 20) & 1) << 31)
}

/// The word of a match and the operands of the I format.
pub fn i_placed(matched: u32, rd: u32, rs1: u32, imm: u32) -> u32
    requires { matched < 0x7080 }
    ensures { result ≡ i_word matched rd rs1 imm }
{
    matched + ((rd & 0x1f) << 7) + ((rs1 & 0x1f) << 15) + ((imm & 0xfff) << 20)
}

/// The word of a match and the operands of the S format.
pub fn s_placed(matched: u32, rs1: u32, rs2: u32, imm: u32) -> u32
    requires { matched < 0x7080 }
    ensures { result ≡ s_word matched rs1 rs2 imm }
{
    matched
        + ((rs1 & 0x1f) << 15)
        + ((rs2 & 0x1f) << 20)
        + ((imm & 0x1f) << 7)
        + (((imm >> 5) & 0x7f) << 25)
}

/// The word of a match and the operands of the B format.
pub fn b_placed(matched: u32, rs1: u32, rs2: u32, imm: u32) -> u32
    requires { matched < 0x7080 }
    ensures { result ≡ b_word matched rs1 rs2 imm }
{
    matched
        + ((rs1 & 0x1f) << 15)
        + ((rs2 & 0x1f) << 20)
        + (((imm >> 11) & 1) << 7)
        + (((imm >> 1) & 0xf) << 8)
        + (((imm >> 5) & 0x3f) << 25)
        + (((imm >> 12) & 1) << 31)
}

/// The word of a match and the operands of the R format.
pub fn r_placed(matched: u32, rd: u32, rs1: u32, rs2: u32) -> u32
    requires { matched < 0xfe00_7080 }
    ensures { result ≡ r_word matched rd rs1 rs2 }
{
    matched + ((rd & 0x1f) << 7) + ((rs1 & 0x1f) << 15) + ((rs2 & 0x1f) << 20)
}
