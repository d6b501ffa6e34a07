//! What a machine end does: it sends its master's accesses and a boundary's syncs, takes answers, and serves the requests of devices.
//!
//! A [`MachineCore`] holds a master and its side of each port's session, and no received bytes. It is asked to act, and appends
//! what it sends to a list of bytes; where it awaits a packet of a port, it is handed that.
#![tactic(auto)]

mod answers;
mod boundaries;
mod fault;
mod lanes;
mod machine;
mod port;
mod ports;
mod requests;
mod services;
mod units;

pub use fault::HearFault;
pub use machine::{MOST_SENT, MachineCore};
