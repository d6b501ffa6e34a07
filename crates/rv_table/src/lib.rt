//! The instruction table: the words of RV32I, Zicsr, MRET and WFI as values, and back.
//!
//! One list of 48 rows, each with a mask, a match, a format and a name, is the source of
//! [`TABLE`], of [`decode`] and of [`encode`]. No word is matched by two rows, and decoding and
//! encoding are inverse. Layouts are those of the RISC-V Instruction Set Manual, Volume I
//! (Unprivileged), sections "Base Instruction Formats" and "Immediate Encoding Variants" of the
//! chapter on RV32I, and the chapter on Zicsr; MRET and WFI are of Volume II (Privileged).
#![tactic(auto)]

mod fields;
mod instr;
mod laws;
mod names;
mod operands;
mod placing;
mod row;
mod table;
mod words;

pub use instr::Instr;
pub use laws::{
    decode_of_encode, encode_of_decode, format_is_of_row, rows_are_apart, table_is_the_manuals,
};
pub use names::text;
pub use operands::Operands;
pub use row::{Format, Name, Row, Rows};
pub use table::{TABLE, decode, encode, operands_of, row_of};
pub use words::{row_named, word_of};
