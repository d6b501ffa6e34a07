//! What a device end does with a packet: it answers accesses and syncs, and asks the machine for what its device wants.
//!
//! A [`DeviceCore`] holds a device and its side of the session, and no received bytes. It is handed one packet after the other, and
//! appends what it sends to a list of bytes. All room that a packet can need is made before, so nothing is half done.
#![tactic(auto)]

mod answers;
mod device;
mod fault;
mod replies;
mod requests;

pub use device::{DeviceCore, MOST_CALLS, MOST_SENT};
pub use fault::HearFault;
