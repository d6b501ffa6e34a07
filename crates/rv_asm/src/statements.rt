//! The word of a statement, and the words of a line.

ghost use Rattle.std.specs.Prelude.{◌≡◌};
ghost use Rattle.rv_table.specs.Named.{row_named};
ghost use Rattle.rv_asm.specs.Labelled.{lines_of};
ghost use Rattle.rv_asm.specs.Statements.{data_word, instruction, word_of_statement, is_twice, word_of_line};
ghost use Rattle.rv_asm.specs.Texts.{operands_in};
ghost use Rattle.rv_asm.specs.Views.{seen};

use crate::Cause;
use crate::forms::operands_of;
use crate::labels::Labels;
use crate::lines::Line;
use crate::operands::{exactly, plain_at};
use crate::texts::{cut_word, has_mnemonic_form, trimmed};
use rv_table::{row_named, word_of};

/// `N`, as `.word` has it.
fn data_word(text: &[u8]) -> Result<u32, Cause>
    ensures { result ≡ data_word (operands_in text.now) }
{
    let word = plain_at(0, 0xffff_ffff, text, 0)?;
    exactly(1, text)?;
    Ok(word)
}

/// The word of an instruction, written in a line at some address.
fn instruction(mnemonic: &[u8], labels: &Labels, source: u128, text: &[u8]) -> Result<u32, Cause>
    ensures { result ≡ instruction mnemonic.now (row_named mnemonic.now) (lines_of labels.now) source (operands_in text.now) }
{
    match row_named(mnemonic) {
        Some(row) => {
            let operands = operands_of(row, labels, source, text)?;
            Ok(word_of(row, operands))
        }
        None if has_mnemonic_form(mnemonic) => Err(Cause::Name),
        None => Err(Cause::Syntax),
    }
}

/// The word of a statement, written in a line at some address.
fn word_of_statement(labels: &Labels, source: u128, statement: &[u8]) -> Result<u32, Cause>
    ensures { result ≡ word_of_statement (lines_of labels.now) source statement.now }
{
    let (mnemonic, rest) = cut_word(statement);
    let operands = trimmed(rest);
    if mnemonic == ".word".as_bytes() {
        data_word(operands)
    } else {
        instruction(mnemonic, labels, source, operands)
    }
}

/// Whether the label of a line was given before.
fn twice(labels: &Labels, line: &Line) -> bool
    ensures { result ≡ is_twice (lines_of labels.now) (seen line.now).label line.now.number }
{
    match line.label {
        Some(name) => match labels.find(name) {
            Some(first) => first.number != line.number,
            None => false,
        },
        None => false,
    }
}

/// The word of a line, or nothing where it has no statement.
pub fn word_of_line(labels: &Labels, line: &Line) -> Result<Option<u32>, Cause>
    ensures { result ≡ word_of_line (lines_of labels.now) (seen line.now) }
{
    if twice(labels, line) {
        return Err(Cause::Twice);
    }
    if line.statement.is_empty() {
        return Ok(None);
    }
    let word = word_of_statement(labels, line.address, line.statement)?;
    Ok(Some(word))
}
