//! The command `direct`: a configuration is read with the files that it names, its parts are run without packets, and the text of
//! the run is printed.
#![tactic(auto)]

mod command;
mod finished;

pub use command::direct;

#[cfg(test)]
mod tests;
