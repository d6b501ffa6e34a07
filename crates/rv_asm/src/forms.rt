//! The operands of each format, read one by one from the left and then counted.

ghost use Rattle.std.specs.Prelude.{◌≡◌, IfOk};
ghost use Rattle.rv_table.specs.Operands.{format_of};
ghost use Rattle.rv_asm.specs.Texts.{operands_in};
ghost use Rattle.rv_asm.specs.Forms.{upper, jump, branch, load, store, immediate, shift, registers, csr_register, csr_immediate, full_fence, fence, whole, is_addressed, operands_of};
ghost use Rattle.rv_asm.specs.Labelled.{lines_of};

use crate::Cause;
use crate::labels::Labels;
use crate::operands::{address_at, csr_at, exactly, plain_at, register_at};
use crate::targets::target_at;
use rv_table::{Format, Operands, Row};

/// `rd, N`.
fn upper(text: &[u8]) -> Result<Operands, Cause>
    ensures value { result ≡ upper (operands_in text.now) }
    ensures format { IfOk result (λ operands. Format.U ≡ format_of operands) }
{
    let rd = register_at(text, 0)?;
    let imm = plain_at(0, 0xfffff, text, 1)?;
    exactly(2, text)?;
    Ok(Operands::U { rd, imm: imm << 12 })
}

/// `rd, target`.
fn jump(labels: &Labels, source: u128, text: &[u8]) -> Result<Operands, Cause>
    ensures value { result ≡ jump (lines_of labels.now) source (operands_in text.now) }
    ensures format { IfOk result (λ operands. Format.J ≡ format_of operands) }
{
    let rd = register_at(text, 0)?;
    let imm = target_at(labels, source, 0x10_0000, 0xf_fffe, text, 1)?;
    exactly(2, text)?;
    Ok(Operands::J { rd, imm })
}

/// `rs1, rs2, target`.
fn branch(labels: &Labels, source: u128, text: &[u8]) -> Result<Operands, Cause>
    ensures value { result ≡ branch (lines_of labels.now) source (operands_in text.now) }
    ensures format { IfOk result (λ operands. Format.B ≡ format_of operands) }
{
    let rs1 = register_at(text, 0)?;
    let rs2 = register_at(text, 1)?;
    let imm = target_at(labels, source, 4096, 4094, text, 2)?;
    exactly(3, text)?;
    Ok(Operands::B { rs1, rs2, imm })
}

/// `rd, N(rs1)`.
fn load(text: &[u8]) -> Result<Operands, Cause>
    ensures value { result ≡ load (operands_in text.now) }
    ensures format { IfOk result (λ operands. Format.I ≡ format_of operands) }
{
    let rd = register_at(text, 0)?;
    let (rs1, imm) = address_at(text, 1)?;
    exactly(2, text)?;
    Ok(Operands::I { rd, rs1, imm })
}

/// `rs2, N(rs1)`.
fn store(text: &[u8]) -> Result<Operands, Cause>
    ensures value { result ≡ store (operands_in text.now) }
    ensures format { IfOk result (λ operands. Format.S ≡ format_of operands) }
{
    let rs2 = register_at(text, 0)?;
    let (rs1, imm) = address_at(text, 1)?;
    exactly(2, text)?;
    Ok(Operands::S { rs1, rs2, imm })
}

/// `rd, rs1, N`.
fn immediate(text: &[u8]) -> Result<Operands, Cause>
    ensures value { result ≡ immediate (operands_in text.now) }
    ensures format { IfOk result (λ operands. Format.I ≡ format_of operands) }
{
    let rd = register_at(text, 0)?;
    let rs1 = register_at(text, 1)?;
    let imm = plain_at(2048, 2047, text, 2)?;
    exactly(3, text)?;
    Ok(Operands::I { rd, rs1, imm })
}

/// `rd, rs1, N`.
fn shift(text: &[u8]) -> Result<Operands, Cause>
    ensures value { result ≡ shift (operands_in text.now) }
    ensures format { IfOk result (λ operands. Format.Shift ≡ format_of operands) }
{
    let rd = register_at(text, 0)?;
    let rs1 = register_at(text, 1)?;
    let shamt = plain_at(0, 31, text, 2)?;
    exactly(3, text)?;
    Ok(Operands::Shift { rd, rs1, shamt })
}

/// `rd, rs1, rs2`.
fn registers(text: &[u8]) -> Result<Operands, Cause>
    ensures value { result ≡ registers (operands_in text.now) }
    ensures format { IfOk result (λ operands. Format.R ≡ format_of operands) }
{
    let rd = register_at(text, 0)?;
    let rs1 = register_at(text, 1)?;
    let rs2 = register_at(text, 2)?;
    exactly(3, text)?;
    Ok(Operands::R { rd, rs1, rs2 })
}

/// `rd, csr, rs1`.
fn csr_register(text: &[u8]) -> Result<Operands, Cause>
    ensures value { result ≡ csr_register (operands_in text.now) }
    ensures format { IfOk result (λ operands. Format.Csr ≡ format_of operands) }
{
    let rd = register_at(text, 0)?;
    let csr = csr_at(text, 1)?;
    let rs1 = register_at(text, 2)?;
    exactly(3, text)?;
    Ok(Operands::Csr { rd, rs1, csr })
}

/// `rd, csr, N`.
fn csr_immediate(text: &[u8]) -> Result<Operands, Cause>
    ensures value { result ≡ csr_immediate (operands_in text.now) }
    ensures format { IfOk result (λ operands. Format.CsrImmediate ≡ format_of operands) }
{
    let rd = register_at(text, 0)?;
    let csr = csr_at(text, 1)?;
    let uimm = plain_at(0, 31, text, 2)?;
    exactly(3, text)?;
    Ok(Operands::CsrImmediate { rd, uimm, csr })
}

/// `N, rs1, rd`.
fn full_fence(text: &[u8]) -> Result<Operands, Cause>
    ensures value { result ≡ full_fence (operands_in text.now) }
    ensures format { IfOk result (λ operands. Format.Fence ≡ format_of operands) }
{
    let imm = plain_at(0, 0xfff, text, 0)?;
    let rs1 = register_at(text, 1)?;
    let rd = register_at(text, 2)?;
    exactly(3, text)?;
    Ok(Operands::Fence { rd, rs1, imm })
}

/// Nothing, or `N, rs1, rd`.
fn fence(text: &[u8]) -> Result<Operands, Cause>
    ensures value { result ≡ fence (operands_in text.now) }
    ensures format { IfOk result (λ operands. Format.Fence ≡ format_of operands) }
{
    if text.is_empty() {
        return Ok(Operands::Fence {
            rd: 0,
            rs1: 0,
            imm: 0xff,
        });
    }
    full_fence(text)
}

/// Nothing.
fn no_operands(text: &[u8]) -> Result<Operands, Cause>
    ensures value { result ≡ whole (operands_in text.now) }
    ensures format { IfOk result (λ operands. Format.Whole ≡ format_of operands) }
{
    exactly(0, text)?;
    Ok(Operands::Whole)
}

/// Whether the immediate and rs1 of a row in the I format are written as an address: loads and JALR.
pub fn addressed(row: Row) -> bool
    ensures { result ≡ is_addressed row }
{
    let opcode = row.matched & 0x7f;
    opcode == 0x03 || opcode == 0x67
}

/// The operands of a row, written in a line at some address.
pub fn operands_of(row: Row, labels: &Labels, source: u128, text: &[u8]) -> Result<Operands, Cause>
    ensures value { result ≡ operands_of row (lines_of labels.now) source (operands_in text.now) }
    ensures format { IfOk result (λ operands. row.format ≡ format_of operands) }
{
    match row.format {
        Format::U => upper(text),
        Format::J => jump(labels, source, text),
        Format::I if addressed(row) => load(text),
        Format::I => immediate(text),
        Format::B => branch(labels, source, text),
        Format::S => store(text),
        Format::Shift => shift(text),
        Format::R => registers(text),
        Format::Fence => fence(text),
        Format::Whole => no_operands(text),
        Format::Csr => csr_register(text),
        Format::CsrImmediate => csr_immediate(text),
    }
}
