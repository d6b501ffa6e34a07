//! The command `local`: a configuration's machine is run as ends that exchange packets, in one process, by a schedule;
//! the sectors of disks are written, and the text of the run is printed, with what went over the links and how many
//! steps were effective. [`run`] is the run alone, of parts that may be had without files.
#![tactic(auto)]

mod command;
mod finished;
mod order;
mod parts;
mod refusal;
mod results;

pub use command::local;
pub use finished::{Finished, MachineWorld, run};
pub use order::Order;
pub use parts::{Parts, Planned};
pub use refusal::LocalRefusal;

#[cfg(test)]
mod tests;
