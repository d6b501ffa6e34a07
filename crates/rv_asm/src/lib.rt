//! The assembler and the disassembler of RV32I, Zicsr, MRET and WFI.
//!
//! What a text means is defined by its lines and labels: each line has a number, an address, perhaps a label and
//! perhaps a statement, and a statement is the word of a row of the instruction table. [`assemble`] gives these
//! words, or the first faulty line; [`disassemble`] lists a word as such a line.
#![tactic(auto)]

mod assembly;
mod csrs;
mod disassembly;
mod fault;
mod forms;
mod labels;
mod lines;
mod listing;
mod numbers;
mod operands;
mod parts;
mod readings;
mod statements;
mod targets;
mod texts;

pub use assembly::assemble;
pub use disassembly::disassemble;
pub use fault::{AsmFault, Cause};
