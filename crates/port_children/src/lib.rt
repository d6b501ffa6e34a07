//! Children that serve the ports of a machine, one a port: their sockets are listened under, they are started, their
//! links are taken, and in the end they are waited for.
#![tactic(auto)]

mod fault;
mod opening;
mod waiting;
mod words;

pub use fault::{OpenFault, WaitFault};
pub use opening::open_links;
pub use waiting::wait_for_all;

#[cfg(test)]
mod tests;
