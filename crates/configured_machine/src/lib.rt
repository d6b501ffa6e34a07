//! A configuration with the machine that is put together by it, read from files: what commands that run a machine begin
//! with.
#![tactic(auto)]

mod parts;

pub use parts::{Parts, read_parts};
