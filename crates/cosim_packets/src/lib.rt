//! The commands on streams of packets.
#![tactic(auto)]

mod listing;
mod pack_command;
mod refusals;
mod show_command;
#[cfg(test)]
mod tests;

pub use pack_command::pack;
pub use refusals::{PackRefusal, ShowRefusal};
pub use show_command::show;
