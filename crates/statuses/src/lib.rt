//! How the program ends: its status, the number of the status, and the line that tells it.
#![tactic(auto)]

mod lines;
mod status;

pub use lines::tell_status;
pub use status::{InputFault, Status};

#[cfg(test)]
mod tests;
