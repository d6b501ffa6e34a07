//! A machine end over its links.
#![tactic(auto)]

mod driving;

pub use driving::drive;
