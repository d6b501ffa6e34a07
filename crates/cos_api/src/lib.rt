//! The interfaces between a machine and its devices: what a device is, what drives devices, and the record of what passed
//! between them.
//!
//! Everything above is proved once for any [`Device`] and any [`Master`], from the functions and laws that these traits state.
#![tactic(auto)]

mod answers;
mod calls;
mod device;
mod levels;
mod master;
mod service;

pub use answers::plain;
pub use calls::Calls;
pub use cosim_model::{Access, Answer, Bus, Call, Caps, Closing, HartView, Reply, Want};
pub use device::Device;
pub use levels::with_level;
pub use master::Master;
pub use service::serve;
