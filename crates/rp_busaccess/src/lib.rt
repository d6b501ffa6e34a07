//! The bodies of read and write packets.
//!
//! A bus packet names an address of its receiver. Its old layout has 38 bytes of fields; the extended one, which attribute
//! bit 2 marks, has 60, and says where its data and its byte enables stand.
#![tactic(auto)]

mod bus;
mod fault;
mod layout;
mod writer;

pub use bus::BusAccess;
pub use fault::{BusFault, WriteFault};
