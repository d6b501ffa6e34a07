/// Why a packet is refused: the rows of the table of refusals, in order. The first that applies is the cause.
#[derive(Clone, Copy, Debug, PartialEq, Eq)]
pub enum Cause {
    /// No command has this number.
    Command { number: u64 },
    /// The commands 7 and 8 aren't part of this profile.
    Translation { number: u64 },
    /// The header asks for more than 65,536 bytes.
    TooLong { len: u64 },
    /// The body has `got` bytes, and `wanted` are needed.
    Length { wanted: u64, got: u64 },
    /// The capabilities of a hello don't stand where they may.
    CapsRange { offset: u64, count: u64 },
    /// The data of an extended packet don't stand where they may.
    DataRange { offset: u64, len: u64 },
    /// The enables don't stand where they may, or do so on the data.
    EnableRange { offset: u64, len: u64 },
}

/// A refusal, and where.
#[derive(Clone, Copy, Debug, PartialEq, Eq)]
pub struct PacketFault {
    /// The packet's first byte, counted from the first byte of the stream.
    pub start: u64,
    /// The field that is blamed, counted from the packet's first byte.
    pub place: u32,
    pub cause: Cause,
}

/// Why no packet was read.
#[derive(Clone, Copy, Debug, PartialEq, Eq)]
pub enum ReadFault {
    Malformed(PacketFault),
    /// Want of memory.
    NoMemory,
}
