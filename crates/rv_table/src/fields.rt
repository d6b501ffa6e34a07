//! Fields and immediates of a word: the manual's "Immediate Encoding Variants".

ghost use Rattle.std.specs.Prelude.{◌≡◌};
ghost use Rattle.rv_table.specs.Fields.{rd_of, rs1_of, rs2_of, csr_of, u_of, j_of, i_of, s_of, b_of};

/// Bits 11 to 7.
pub fn rd(word: u32) -> u32
    ensures { result ≡ rd_of word }
{
    (word >> 7) & 0x1f
}

/// Bits 19 to 15.
pub fn rs1(word: u32) -> u32
    ensures { result ≡ rs1_of word }
{
    (word >> 15) & 0x1f
}

/// Bits 24 to 20.
pub fn rs2(word: u32) -> u32
    ensures { result ≡ rs2_of word }
{
    (word >> 20) & 0x1f
}

/// Bits 31 to 20, unsigned.
pub fn csr(word: u32) -> u32
    ensures { result ≡ csr_of word }
{
    word >> 20
}

/// Bits 31 to 12, at their place.
pub fn u_immediate(word: u32) -> u32
    ensures { result ≡ u_of word }
{
    word & 0xffff_f000
}

/// Bits 31 to 20, sign-extended.
pub fn i_immediate(word: u32) -> u32
    ensures { result ≡ i_of word }
{
    let number = word >> 20;
    if number < 0x800 {
        number
    } else {
        number | 0xffff_f000
    }
}

/// Bits 31 to 25 and 11 to 7, sign-extended.
pub fn s_immediate(word: u32) -> u32
    ensures { result ≡ s_of word }
{
    let number = (word >> 25) << 5 | (word >> 7) & 0x1f;
    if number < 0x800 {
        number
    } else {
        number | 0xffff_f000
    }
}

/// A branch's distance: bits 31, 7, 30 to 25 and 11 to 8, then a zero, sign-extended.
pub fn b_immediate(word: u32) -> u32
    ensures { result ≡ b_of word }
{
    let number = ((word >> 31) << 12)
        + (((word >> 7) & 1) << 11)
        + (((word >> 25) & 0x3f) << 5)
        + (((word >> 8) & 0xf) << 1);
    if number < 0x1000 {
        number
    } else {
        number | 0xffff_e000
    }
}

/// A jump's distance: bits 31, 19 to 12, 20 and 30 to 21, then a zero, sign-extended.
pub fn j_immediate(word: u32) -> u32
    ensures { result ≡ j_of word }
{
    let number = ((word >> 31) << 20)
        + (((word >> 12) & 0xff) << 12)
        + (((word >> 20) & 1) << 11)
        + (((word >> 21) & 0x3ff) << 1);
    if number < 0x10_0000 {
        number
    } else {
        number | 0xffe0_0000
    }
}
