//! How many packets a stream of bytes has, told by their headers alone.
#![tactic(auto)]

mod count;
mod laws;

pub use count::count_packets;
pub use laws::written_packets;

#[cfg(test)]
mod tests;
