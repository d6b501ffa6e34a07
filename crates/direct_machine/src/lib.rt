//! Machines whole: a master and its devices, run from the first tick to the last.
//!
//! [`direct`] is the run without packets that every other run is measured against.
#![tactic(auto)]

mod machine;
pub mod outcome;
mod parts;
mod run;
mod wants;

pub use machine::{direct, direct_by_port};
pub use parts::Parts;
