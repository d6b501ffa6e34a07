//! Laws of the table, of decoding and of encoding.

ghost use Rattle.std.specs.Prelude.{◌≡◌, ◌<◌, length, Option, Some, MatchOption};
ghost use Rattle.rv_table.specs.declared.table.TheConstants.{TABLE};
ghost use Rattle.rv_table.specs.Coding.{IsWithin, number_of, operands};
ghost use Rattle.rv_table.specs.Manual.{manual};
ghost use Rattle.rv_table.specs.Operands.{format_of};
ghost use Rattle.rv_table.specs.Rows.{row_at, Matches, NoneIn};

use crate::{Instr, decode, encode};

/// The table is the manual's.
pub fn table_is_the_manuals()
    ensures { TABLE.rows ≡ manual }
{}

/// The row of an instruction has the format of its operands.
pub fn format_is_of_row(instr: Instr)
    ensures { (row_at (number_of instr)).format ≡ format_of (operands instr) }
{}

/// What an instruction within its widths encodes to decodes to it.
pub fn decode_of_encode(instr: Instr) -> Option<Instr>
    requires { IsWithin instr }
    ensures { result ≡ Some instr }
{
    decode(encode(instr))
}

/// What a word decodes to encodes to it.
pub fn encode_of_decode(word: u32) -> Option<u32>
    ensures { MatchOption result (NoneIn TABLE.rows word) (λ w. w ≡ word) }
{
    match decode(word) {
        Some(instr) => Some(encode(instr)),
        None => None,
    }
}

/// No word is matched by two rows of the table.
pub fn rows_are_apart(word: u32, first: usize, second: usize)
    requires order { first < second }
    requires within { second < length TABLE.rows }
    ensures { Matches (row_at first) word → Matches (row_at second) word → ⊥ }
{}
