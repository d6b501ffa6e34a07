//! What the devices share: the line rule, by which a device drives its interrupt line, and what an access asks of registers.
#![tactic(auto)]

mod chunks;
mod request;
mod wire;

pub use chunks::chunk;
pub use request::{Request, given, low_word, refused};
pub use wire::Wire;
