//! The bodies of packets that carry no data: hello, cfg, interrupt and sync.
//!
//! A body is what follows the 20 bytes of a packet's header. Bytes behind those that a body's fields and parts need are
//! unused.
#![tactic(auto)]

mod byte;
mod caps;
mod cfg;
mod fault;
mod hello;
mod interrupt;
mod sync;

pub use caps::{caps_of, common};
pub use cfg::Cfg;
pub use cosim_model::Caps;
pub use fault::BodyFault;
pub use hello::Hello;
pub use interrupt::Interrupt;
pub use sync::Sync;
