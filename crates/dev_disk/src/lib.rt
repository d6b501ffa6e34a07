//! A disk: it moves sectors to the machine's memory and back.
#![tactic(auto)]

mod disk;
mod engine;
mod register;

pub use disk::Disk;
pub use engine::Engine;
pub use register::Register;
