//! The session: what each packet of a link means now, or the named fault that ends the conversation.
//!
//! A [`Session`] keeps what one side of a link must know of the packets that went and came: the numbers of its requests,
//! which requests await their answers, the capabilities in common and the greatest time that the peer named. It holds no
//! bytes and does no input or output. Requests have two classes, syncs and others; at most one answered request of each
//! class is out each way.
#![tactic(auto)]

mod looks;
mod rows;
mod session;

pub use cosim_model::{Event, OwnRequest, Role, SessionFault, Ticket};
pub use rp_control::Caps;
pub use rp_header::Command;
pub use rp_packet::{Packet, PacketFault, Tag};
pub use session::Session;

/// Why an end of a link, or a relay between two, stops.
pub type EndFault = cosim_model::EndFault<PacketFault>;
