//! The configuration of a machine and its devices: a TOML text, judged rule by rule.
#![tactic(auto)]

mod config;
mod fault;
mod judgement;
mod keys;
mod machine;
mod name;
mod port;
mod rules;
mod words;

pub use config::{Config, MachineKind, PortConfig, PortKind, Ports, Sockets};
pub use fault::{ConfigFault, TableName};
pub use judgement::judge;
pub use name::Name;
