//! The parts that a machine is put together from, as one type each.
#![tactic(auto)]

mod any_device;
mod any_master;
mod null;

pub use any_device::AnyDevice;
pub use any_master::AnyMaster;
pub use null::Null;
