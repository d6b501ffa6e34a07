use rp_busaccess::BusAccess;
use rp_control::{Cfg, Hello, Interrupt, Sync};

/// What the headers of all packets carry beside their command.
#[derive(Clone, Copy, Debug, PartialEq, Eq)]
pub struct Tag {
    /// The number of a request, which its answer repeats.
    pub id: u32,
    /// Bit 0 optional, bit 1 response, bit 2 posted; the others are carried.
    pub flags: u32,
    pub dev: u32,
}

/// A packet.
#[derive(Drop)]
pub enum Packet {
    Nop(Tag),
    Hello(Tag, Hello),
    Cfg(Tag, Cfg),
    Read(Tag, BusAccess),
    Write(Tag, BusAccess),
    Interrupt(Tag, Interrupt),
    Sync(Tag, Sync),
}
