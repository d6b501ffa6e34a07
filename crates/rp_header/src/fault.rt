/// Why a header is refused. The first of these that applies is the fault.
#[derive(Clone, Copy, Debug, PartialEq, Eq)]
pub enum HeaderFault {
    /// No command has this number, which is above 8.
    Command { number: u64 },
    /// The commands 7 and 8, of address translation, aren't part of this profile.
    Translation { number: u64 },
    /// The body would have more than 65,536 bytes.
    TooLong { len: u64 },
}
