//! A device end: it is fed the bytes that it receives, in whatever pieces, and takes turns. The first sends its hello, and each later
//! one takes one whole packet, acts and settles.
//!
//! What it sends is a function of the bytes that it was fed, whatever the pieces were.
#![tactic(auto)]

mod device;

pub use cosim_model::Caps;
pub use device::DeviceEnd;
pub use ends_model::DeviceTurn;
pub use rp_session::EndFault;
