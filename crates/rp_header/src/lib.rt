//! The header of a packet, and how numbers stand in bytes.
//!
//! A packet is a header of 20 bytes and a body of as many bytes as the header says. Every number of a packet is unsigned
//! and stands with its most significant byte first, without padding.
#![tactic(auto)]

mod fault;
mod header;
mod numbers;

pub use cosim_model::Command;
pub use fault::HeaderFault;
pub use header::{Header, number_of};
pub use numbers::{u8_at, u16_at, u32_at, u64_at};
