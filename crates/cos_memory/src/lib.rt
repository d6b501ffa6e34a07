//! Objects in memory that stand for those of the outside: they tell everything, and fail at the calls that they are told to.
#![tactic(auto)]

mod calls;
mod mem_files;
mod mem_link;
mod mem_net;
mod mem_sink;
mod peers;
mod said;

pub use calls::Calls;
pub use mem_files::MemFiles;
pub use mem_link::MemLink;
pub use mem_net::MemNet;
pub use mem_sink::MemSink;
pub use peers::Peer;
pub use said::{Said, copy_part};

#[cfg(test)]
mod tests;
