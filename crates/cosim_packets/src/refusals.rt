// What the commands refuse.
use rp_packet::PacketFault;

/// What `show` refuses: the stream's first place that is no packet.
#[derive(Clone, Copy, Debug, PartialEq, Eq, Drop)]
pub enum ShowRefusal {
    /// A packet of the stream isn't one.
    Malformed(PacketFault),
    /// The stream ends within the packet that begins at `start`, counted from 0, of which it holds so many bytes.
    Truncated { start: u64, held: u64 },
}

/// What `pack` refuses.
#[derive(Clone, Copy, Debug, PartialEq, Eq, Drop)]
pub enum PackRefusal {
    /// The first line, counted from 1, that is that of no packet; or 1, where the text isn't UTF-8.
    Line { line: u64 },
}
