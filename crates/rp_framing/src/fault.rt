use rp_packet::PacketFault;

/// Why a framer gives no packet.
#[derive(Clone, Copy, Debug, PartialEq, Eq)]
pub enum FrameFault {
    /// The stream has no packet where one should begin.
    Malformed(PacketFault),
    /// Want of memory.
    NoMemory,
}

/// The stream ended inside a packet.
#[derive(Clone, Copy, Debug, PartialEq, Eq)]
pub struct Truncated {
    /// The packet's first byte, counted from the first byte of the stream.
    pub start: u64,
    /// How many bytes of it came.
    pub held: u64,
}
