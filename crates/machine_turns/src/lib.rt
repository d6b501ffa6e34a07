//! A machine end: it is fed the bytes of each port in whatever pieces, and takes turns.
#![tactic(auto)]

mod fault;
mod framers;
mod machine;

pub use ends_model::Turn;
pub use fault::{PortFault, TurnFault};
pub use machine::MachineEnd;
