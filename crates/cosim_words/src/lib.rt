//! The words of the commands: which lists of words are a command, and at which word other lists stop being one.
#![tactic(auto)]

mod laws;
mod words;

pub use laws::one_command;
pub use words::{Command, Order, command_of, stop_of};

#[cfg(test)]
mod tests;
