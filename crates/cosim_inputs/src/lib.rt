//! What the commands read that run a machine: a configuration, and the files that it names.
//!
//! [`read_config`] reads a configuration and judges it; [`read_machine`] makes its master and its devices at reset from the files
//! that it names, each read and then judged, and [`read_device`] the device of one port alone. [`make_hart`] makes a hart of RAM
//! that is had otherwise. A command's promise speaks of what these files hold, by the definitions of `specs/`.
#![tactic(auto)]

mod config;
mod devices;
mod machine;
mod master;
mod named_file;
mod refusals;

pub use config::read_config;
pub use devices::read_device;
pub use machine::{Machine, read_machine};
pub use master::make_hart;
pub use refusals::InputsRefusal;
