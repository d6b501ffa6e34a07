//! Packets out of a stream of bytes, however it was cut, and over a link.
#![tactic(auto)]

mod fault;
mod framer;
mod front;
mod receiver;
mod sender;

pub use fault::{FrameFault, Truncated};
pub use framer::Framer;
pub use front::front_of;
pub use receiver::{Pulled, ReceiveFault, pull, receive};
pub use sender::{SendFault, send};
