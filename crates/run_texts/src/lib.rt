//! The text of a run of a configuration's machine: how the run ended, and what its UARTs sent.
//!
//! The text itself is a function of the direct machine, in `specs/`; each command that runs a machine, directly or over
//! ends, promises that text.
#![tactic(auto)]

mod ending;

pub use ending::{ending_of, make_piece, uarts_of};
