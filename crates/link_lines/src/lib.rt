//! The lines of what went over the links of a run, and of how many steps the run took.
#![tactic(auto)]

mod lines;

pub use lines::{LinkCounts, put_links};

#[cfg(test)]
mod tests;
