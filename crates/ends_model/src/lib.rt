//! The two ends of a link as definitions: what one turn of each does, what a turn answers, the traffic between them, and the world that they make.
#![tactic(auto)]

mod ends;

pub use ends::{DeviceTurn, OpenSync, Phase, Turn};
