//! The command `device`: a device is made, of its own or of a configuration's port, and served at a socket.
#![tactic(auto)]

mod plain;
mod port;
mod refusal;

pub use plain::{serve_null, serve_timer};
pub use port::serve_port;
pub use refusal::PortRefusal;
