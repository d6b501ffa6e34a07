//! Operands as they are listed.

ghost use Rattle.std.specs.Prelude.{◌≡◌, ◌+◌, ◌*◌, ◌<◌, ◌≤◌, ◌^◌, ◌++◌, length, decimal};

use crate::csrs::named;
use cos_base::Octets;
use itoa::Buffer;

/// An operand as it is written.
#[derive(Clone, Copy)]
pub enum Operand {
    /// A register, by its number.
    Register(u32),
    /// A number that is not negative.
    Unsigned(u32),
    /// A number in two's complement.
    Signed(u32),
    /// A control register, by its number.
    Csr(u32),
    /// An offset in two's complement, and a base register in parentheses.
    Address { base: u32, offset: u32 },
}

/// Appends a number in decimal digits, ten at most.
fn put_number(out: &mut Octets, number: u32)
    requires { 10 ≤ out.old.spare }
    ensures bytes { out.new.bytes ≡ out.old.bytes ++ decimal number }
    ensures spare { out.old.spare ≤ out.new.spare + 10 }
{
    let mut buffer = Buffer::new();
    out.push_spare(buffer.format(number).as_bytes());
}

impl Operand {
    ghost use Rattle.rv_asm.specs.Listings.{register_text, signed_text, csr_text, address_text, operand_text, more_operands, operand_list};

    fn put_register(out: &mut Octets, number: u32)
        requires { 11 ≤ out.old.spare }
        ensures bytes { out.new.bytes ≡ out.old.bytes ++ register_text number }
        ensures spare { out.old.spare ≤ out.new.spare + 11 }
    {
        out.push_spare(b"x");
        put_number(out, number);
    }

    fn put_signed(out: &mut Octets, word: u32)
        requires { 11 ≤ out.old.spare }
        ensures bytes { out.new.bytes ≡ out.old.bytes ++ signed_text word }
        ensures spare { out.old.spare ≤ out.new.spare + 11 }
    {
        if word < 0x8000_0000 {
            put_number(out, word);
        } else {
            out.push_spare(b"-");
            put_number(out, 0u32.wrapping_sub(word));
        }
    }

    fn put_csr(out: &mut Octets, number: u32)
        requires { 11 ≤ out.old.spare }
        ensures bytes { out.new.bytes ≡ out.old.bytes ++ csr_text number }
        ensures spare { out.old.spare ≤ out.new.spare + 11 }
    {
        match named(number) {
            Some(name) => out.push_spare(name),
            None => put_number(out, number),
        }
    }

    fn put_address(out: &mut Octets, base: u32, offset: u32)
        requires { 24 ≤ out.old.spare }
        ensures bytes { out.new.bytes ≡ out.old.bytes ++ address_text base offset }
        ensures spare { out.old.spare ≤ out.new.spare + 24 }
    {
        Operand::put_signed(out, offset);
        out.push_spare(b"(");
        Operand::put_register(out, base);
        out.push_spare(b")");
    }

    /// Appends the operand's text.
    fn put(&self, out: &mut Octets)
        requires { 24 ≤ out.old.spare }
        ensures bytes { out.new.bytes ≡ out.old.bytes ++ operand_text self.now }
        ensures spare { out.old.spare ≤ out.new.spare + 24 }
    {
        match *self {
            Operand::Register(number) => Operand::put_register(out, number),
            Operand::Unsigned(number) => put_number(out, number),
            Operand::Signed(word) => Operand::put_signed(out, word),
            Operand::Csr(number) => Operand::put_csr(out, number),
            Operand::Address { base, offset } => Operand::put_address(out, base, offset),
        }
    }

    /// Appends operands, each behind a comma and a blank.
    fn put_more(out: &mut Octets, operands: &[Operand])
        requires { 26 * length operands.now ≤ out.old.spare }
        ensures bytes { out.new.bytes ≡ out.old.bytes ++ more_operands operands.now }
        ensures spare { out.old.spare ≤ out.new.spare + 26 * length operands.now }
    {
        for operand in operands {
            out.push_spare(b", ");
            operand.put(out);
        }
    }

    /// Appends a blank, and operands that are separated by a comma and a blank; nothing where there are none.
    pub fn put_list(out: &mut Octets, operands: &[Operand])
        requires { 26 * length operands.now ≤ out.old.spare }
        ensures bytes { out.new.bytes ≡ out.old.bytes ++ operand_list operands.now }
        ensures spare { out.old.spare ≤ out.new.spare + 26 * length operands.now }
    {
        if let [first, rest @ ..] = operands {
            out.push_spare(b" ");
            first.put(out);
            Operand::put_more(out, rest);
        }
    }
}
