//! Words and the lines that they are listed as.

ghost use Rattle.std.specs.Prelude.{◌≡◌, ◌≤◌, ◌<◌, ◌+◌, ◌++◌, ℕ, List, Option, OnErr, IfOk};
ghost use Rattle.rv_table.specs.declared.instr.Instr.{Instr};
ghost use Rattle.rv_table.specs.Coding.{Decodes};
ghost use Rattle.rv_asm.specs.Statements.{MeansWord};
ghost use Rattle.rv_asm.specs.Listings.{written, operand_list, instr_text, hex_digit, hex_digits, line_text};

use crate::forms::addressed;
use crate::listing::Operand;
use cos_base::{NoMemory, Octets};
use rv_table::{Instr, Operands, decode, operands_of, row_of, text};

/// More than the longest line has, in bytes.
const ROOM: usize = 100;

/// Appends a blank and the operands, or nothing where there are none.
fn put_operands(out: &mut Octets, addressed: bool, operands: Operands)
    requires { 78 ≤ out.old.spare }
    ensures bytes { out.new.bytes ≡ out.old.bytes ++ operand_list (written addressed operands) }
    ensures spare { out.old.spare ≤ out.new.spare + 78 }
{
    match operands {
        Operands::U { rd, imm } => {
            Operand::put_list(out, &[Operand::Register(rd), Operand::Unsigned(imm >> 12)]);
        }
        Operands::J { rd, imm } => {
            Operand::put_list(out, &[Operand::Register(rd), Operand::Signed(imm)]);
        }
        Operands::I { rd, rs1, imm } if addressed => {
            let address = Operand::Address {
                base: rs1,
                offset: imm,
            };
            Operand::put_list(out, &[Operand::Register(rd), address]);
        }
        Operands::I { rd, rs1, imm } => {
            Operand::put_list(
                out,
                &[
                    Operand::Register(rd),
                    Operand::Register(rs1),
                    Operand::Signed(imm),
                ],
            );
        }
        Operands::B { rs1, rs2, imm } => {
            Operand::put_list(
                out,
                &[
                    Operand::Register(rs1),
                    Operand::Register(rs2),
                    Operand::Signed(imm),
                ],
            );
        }
        Operands::S { rs1, rs2, imm } => {
            let address = Operand::Address {
                base: rs1,
                offset: imm,
            };
            Operand::put_list(out, &[Operand::Register(rs2), address]);
        }
        Operands::Shift { rd, rs1, shamt } => {
            Operand::put_list(
                out,
                &[
                    Operand::Register(rd),
                    Operand::Register(rs1),
                    Operand::Unsigned(shamt),
                ],
            );
        }
        Operands::R { rd, rs1, rs2 } => {
            Operand::put_list(
                out,
                &[
                    Operand::Register(rd),
                    Operand::Register(rs1),
                    Operand::Register(rs2),
                ],
            );
        }
        Operands::Fence { rd, rs1, imm } => {
            Operand::put_list(
                out,
                &[
                    Operand::Unsigned(imm),
                    Operand::Register(rs1),
                    Operand::Register(rd),
                ],
            );
        }
        Operands::Whole => {}
        Operands::Csr { rd, rs1, csr } => {
            Operand::put_list(
                out,
                &[
                    Operand::Register(rd),
                    Operand::Csr(csr),
                    Operand::Register(rs1),
                ],
            );
        }
        Operands::CsrImmediate { rd, uimm, csr } => {
            Operand::put_list(
                out,
                &[
                    Operand::Register(rd),
                    Operand::Csr(csr),
                    Operand::Unsigned(uimm),
                ],
            );
        }
    }
}

fn put_instr(out: &mut Octets, instr: Instr)
    requires { 84 ≤ out.old.spare }
    ensures bytes { out.new.bytes ≡ out.old.bytes ++ instr_text instr }
    ensures spare { out.old.spare ≤ out.new.spare + 84 }
{
    let row = row_of(instr);
    out.push_spare(text(row.name).as_bytes());
    put_operands(out, addressed(row), operands_of(instr));
}

fn hex_digit(digit: u32) -> u8
    requires { digit < 16 }
    ensures { result ≡ hex_digit digit }
{
    if digit < 10 {
        b'0' + digit as u8
    } else {
        b'a' + (digit as u8 - 10)
    }
}

/// Appends a number of at most so many hexadecimal digits, without leading zeros.
pub fn put_hex(out: &mut Octets, places: usize, number: u32)
    requires { places ≤ out.old.spare }
    ensures bytes { out.new.bytes ≡ out.old.bytes ++ hex_digits places number }
    ensures spare { out.old.spare ≤ out.new.spare + places }
{
    if places == 0 {
        return;
    }
    if number < 16 {
        out.push_spare(&[hex_digit(number)]);
    } else {
        put_hex(out, places - 1, number / 16);
        out.push_spare(&[hex_digit(number % 16)]);
    }
}

/// Appends the line that a word is listed as.
fn put_line(out: &mut Octets, word: u32)
    requires { ROOM ≤ out.old.spare }
    ensures { (instr : Option Instr) × Decodes word instr × (out.new.bytes ≡ out.old.bytes ++ line_text word instr) }
{
    match decode(word) {
        Some(instr) => put_instr(out, instr),
        None => {
            out.push_spare(b".word 0x");
            put_hex(out, 8, word);
        }
    }
    out.push_spare(b"\n");
}

/// Appends the line that a word is listed as, with its line feed: the mnemonic, a blank, and the operands
/// separated by a comma and a blank. The line assembles to the word.
///
/// Numbers are decimal, and targets are distances in bytes. A control register that has a name stands by it. A word
/// that is no instruction is listed as `.word`, in hexadecimal.
pub fn disassemble(word: u32, out: &mut Octets) -> Result<(), NoMemory>
    ensures line { IfOk result (λ done. (instr : Option Instr) × Decodes word instr
        × (out.new.bytes ≡ out.old.bytes ++ line_text word instr)) }
    ensures assembles { IfOk result (λ done. (line : List ℕ) × (out.new.bytes ≡ out.old.bytes ++ line) × MeansWord line word) }
    ensures err { OnErr result (out.new ≡ out.old) }
{
    out.reserve(ROOM)?;
    put_line(out, word);
    Ok(())
}
