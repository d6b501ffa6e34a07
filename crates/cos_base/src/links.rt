// Streams of bytes, each way.
ghost use Rattle.std.specs.Prelude.{◌<◌, ◌≡◌, ℕ, Option, length, IfSome};
ghost use Rattle.cos_base.specs.Links.{Wire, IsWire, GotCounts, GotBound, GotTold, GotSound, PutCounts, PutBound, PutTold, PutSound};

/// What a read of a link answers.
#[derive(Clone, Copy, Debug, PartialEq, Eq, Drop)]
pub enum Got {
    /// So many bytes stand at the front of the slice: at least 1.
    Bytes { count: usize },
    /// The other side closed the stream, and all of it was read.
    End,
    /// The count of faults rose.
    Failed,
    /// Want of memory.
    NoMemory,
}

/// What a write to a link answers.
#[derive(Clone, Copy, Debug, PartialEq, Eq, Drop)]
pub enum Put {
    /// So many bytes from the front of the slice were sent: at least 1.
    Bytes { count: usize },
    /// The count of faults rose.
    Failed,
    /// Want of memory.
    NoMemory,
}

/// A stream of bytes each way. Dropping it closes it.
pub trait Link: Drop {
    /// The bytes sent and received, and what it gives for any bytes sent, where they are told.
    ghost told: { Self → Option Wire };

    /// Its calls don't fail.
    ghost sound: { Self → Type 0 };

    /// The count of faults.
    ghost count: { Self → ℕ };

    /// How many faults there were.
    fn faults(&self) -> u64
        ensures { result ≡ count self.now };

    /// Puts bytes at the front of `into`, as they come. It may wait for the other side.
    fn read(&mut self, into: &mut [u8]) -> Got
        requires { 0 < length into.old }
        ensures counts { GotCounts (count self.old) (count self.new) result }
        ensures bound { GotBound result into.new }
        ensures tells { GotTold (told self.old) (told self.new) result into.new }
        ensures is_sound { sound self.old → sound self.new × GotSound result };

    /// Sends bytes from the front of `from`, as many as are taken at once. It may wait for the other side.
    fn write(&mut self, from: &[u8]) -> Put
        requires { 0 < length from.now }
        ensures counts { PutCounts (count self.old) (count self.new) result }
        ensures bound { PutBound result from.now }
        ensures tells { PutTold (told self.old) (told self.new) result from.now }
        ensures is_sound { sound self.old → sound self.new × PutSound result };

    /// What was received is a prefix of what it gives for the bytes sent, and that grows with them.
    ghost is_wire: { (l : Self) → IfSome (told l) IsWire };
}
