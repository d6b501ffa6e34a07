//! The hart: one unit of RV32I with Zicsr, MRET and WFI in machine mode.
//!
//! A unit is an interrupt that is taken, or one instruction. It is issued, and where it makes an access it is finished
//! by the answer; memory and devices are the caller's. Nothing here takes memory. What each row of the instruction
//! table does stands in `specs/Rows.antt`, a unit as a whole in `specs/Units.antt`.
#![tactic(auto)]

mod effect;
mod hart;
mod issue;
mod rows;
pub mod unit;

pub use hart::{Hart, HartAccess, Rest};
pub use issue::{Issue, Waiting};
