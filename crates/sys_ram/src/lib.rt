//! The memory of a machine: RAM in pages of 4,096 bytes that are made where they are first touched.
#![tactic(auto)]

mod fault;
mod page;
mod pages;
mod ram;

pub use fault::ImageFault;
pub use ram::Ram;
