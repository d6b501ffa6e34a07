//! A master that does what a script says: accesses of ports, and units in which it does nothing.
#![tactic(auto)]

mod fault;
mod lines;
mod master;
mod step;
mod words;

pub use fault::ScriptFault;
pub use master::ScriptMaster;
pub use step::ScriptStep;
