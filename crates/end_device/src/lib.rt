//! A device end over a link, and as what a link in memory talks to.
//!
//! [`serve`] takes every turn that the received bytes allow, sends what they send, and reads more. [`DevicePeer`] does the same with what
//! it hears.
#![tactic(auto)]

mod serving;

pub use device_turns::{Caps, DeviceEnd, DeviceTurn, EndFault};
pub use serving::serve;
