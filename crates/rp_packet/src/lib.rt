//! Packets: read exactly as the grammar says, written in their one canonical spelling.
#![tactic(auto)]

mod bounds;
mod canonical;
mod decode;
mod encode;
mod fault;
mod laws;
mod packet;
mod rows;

pub use bounds::numbers_fit;
pub use canonical::is_canonical;
pub use decode::packet_len;
pub use fault::{Cause, PacketFault, ReadFault};
pub use laws::{
    codec_laws, every_stream, malformed_is_faulty, one_canonical_spelling, one_reading,
    one_writing, taken_from_the_front,
};
pub use packet::{Packet, Tag};
pub use rows::{FAULTS, FaultRows};
pub use rp_busaccess::{BusAccess, WriteFault};
pub use rp_control::{Cfg, Hello, Interrupt, Sync};
pub use rp_header::Command;
