//! The program's work: its words are judged, its command is done over the objects of the outside, and its status is told in a line.
#![tactic(auto)]

mod help;
mod refusals;
mod top;

pub use top::{cosim, misspelled};

#[cfg(test)]
mod tests;
