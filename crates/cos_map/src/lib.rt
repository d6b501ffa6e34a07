//! The address space of a machine by its parts: RAM, the system block and the windows of ports.
#![tactic(auto)]

mod parts;

pub use parts::{Part, overlap, push_part, without_windows};
