//! The objects of the system as those of the outside: its files, sockets, standard streams and processes. They tell
//! nothing of content.
//! Beside them stand the words that the system hands to the program.
#![tactic(auto)]

mod child_spawner;
mod disk_files;
mod std_sink;
mod unix_link;
mod unix_net;
mod words;

pub use child_spawner::ChildSpawner;
pub use disk_files::DiskFiles;
pub use std_sink::StdSink;
pub use unix_link::UnixLink;
pub use unix_net::UnixNet;
pub use words::{Words, read_words};

#[cfg(test)]
mod tests;
