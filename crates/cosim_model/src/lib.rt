//! What a machine and its devices exchange, and the definitions that the contracts of the tool cite.
//!
//! The plain values below are what programs hold and what `specs/` speaks of: there is no second definition of any of them.
#![tactic(auto)]

pub mod session;
pub mod values;

pub use session::{Command, EndFault, Event, OwnRequest, Role, SessionFault, Ticket};
pub use values::{Access, Answer, Bus, Call, Caps, Closing, HartView, Plan, Reply, Want};
