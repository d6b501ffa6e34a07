//! What nearly every crate of the project stands on: small lists that report want of memory, and the traits of the objects outside.
#![tactic(auto)]

mod file_store;
mod links;
mod networks;
mod no_memory;
mod numbers;
mod octets;
mod sinks;

pub use file_store::{FileFault, Files};
pub use links::{Got, Link, Put};
pub use networks::{NetFault, Network};
pub use no_memory::NoMemory;
pub use numbers::Numbers;
pub use octets::Octets;
pub use sinks::{Failed, Sink};

#[cfg(test)]
mod tests;
