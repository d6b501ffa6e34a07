//! The command `gen`: the machine that a number generates is run as ends that exchange packets, in one process, by the
//! schedule of that number, and a summary of the run is printed.
#![tactic(auto)]

mod command;
mod machine;
mod summary;

pub use command::run_generated;
