//! The command `run`: a configuration's machine is run with a child process for each device, over links that the
//! children connect, and the text of the run is printed.
#![tactic(auto)]

mod command;
mod conversation;
mod refusal;

pub use command::run;
pub use refusal::RunRefusal;
