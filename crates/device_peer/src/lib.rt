//! A device end as the peer of a link in memory. What it says is what a device end sends that takes every turn that it can over what
//! was heard, so a link to it is an honest one.
#![tactic(auto)]

mod peer;
mod turns;

pub use device_turns::DeviceEnd;
pub use peer::DevicePeer;
