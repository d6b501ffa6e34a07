//! Rows by their mnemonics, and words made of a row and operands.

ghost use Rattle.std.specs.Prelude.{◌≡◌, IfSome};
ghost use Rattle.rv_table.specs.declared.table.TheConstants.{TABLE};
ghost use Rattle.rv_table.specs.Named.{first_named, row_named, HasRoom};
ghost use Rattle.rv_table.specs.Operands.{format_of, joined};

use crate::placing::{b_placed, i_placed, j_placed, r_placed, s_placed, u_placed};
use crate::{Operands, Row, TABLE, text};

/// The first of some rows that has this mnemonic.
fn find(rows: &[Row], mnemonic: &[u8]) -> Option<Row>
    ensures { result ≡ first_named mnemonic.now rows.now }
{
    for row in rows {
        if text(row.name).as_bytes() == mnemonic {
            return Some(*row);
        }
    }
    None
}

/// The row of the table that has this mnemonic, in lower-case letters.
pub fn row_named(mnemonic: &[u8]) -> Option<Row>
    ensures row { result ≡ row_named mnemonic.now }
    ensures room { IfSome result HasRoom }
{
    let table = TABLE;
    find(&table.rows, mnemonic)
}

/// The word of a row with operands of its format. Of an operand that is too wide the low bits count.
pub fn word_of(row: Row, operands: Operands) -> u32
    requires room { HasRoom row }
    requires format { row.format ≡ format_of operands }
    ensures { result ≡ joined row.matched operands }
{
    let matched = row.matched;
    match operands {
        Operands::U { rd, imm } => u_placed(matched, rd, imm),
        Operands::J { rd, imm } => j_placed(matched, rd, imm),
        Operands::I { rd, rs1, imm } => i_placed(matched, rd, rs1, imm),
        Operands::B { rs1, rs2, imm } => b_placed(matched, rs1, rs2, imm),
        Operands::S { rs1, rs2, imm } => s_placed(matched, rs1, rs2, imm),
        Operands::Shift { rd, rs1, shamt } => r_placed(matched, rd, rs1, shamt),
        Operands::R { rd, rs1, rs2 } => r_placed(matched, rd, rs1, rs2),
        Operands::Fence { rd, rs1, imm } => i_placed(matched, rd, rs1, imm),
        Operands::Whole => matched,
        Operands::Csr { rd, rs1, csr } => i_placed(matched, rd, rs1, csr),
        Operands::CsrImmediate { rd, uimm, csr } => i_placed(matched, rd, uimm, csr),
    }
}
