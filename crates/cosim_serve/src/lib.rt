//! Devices served over a network: a device end connects to a socket and serves the link.
#![tactic(auto)]

mod command;
mod refusal;

pub use command::{serve_link, serve_socket};
pub use refusal::DeviceRefusal;
