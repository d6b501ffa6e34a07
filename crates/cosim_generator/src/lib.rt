//! Machines that are generated: a program, its quantum, the gap of its device and the bytes that its device receives.
#![tactic(auto)]

mod machine;
mod program;

pub use machine::{Generated, generate};

#[cfg(test)]
mod tests;
