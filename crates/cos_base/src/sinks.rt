// Where bytes are written.
ghost use Rattle.std.specs.Prelude.{◌≡◌, List, ℕ, Option, IsSome};
ghost use Rattle.cos_base.specs.Counts.{Counts};
ghost use Rattle.cos_base.specs.Sinks.{Puts, PutsSoundly};

/// The object outside didn't do it, and its count of faults rose.
#[derive(Clone, Copy, Debug, PartialEq, Eq, Drop)]
pub struct Failed;

/// Where bytes are written.
pub trait Sink {
    /// The bytes written, where they are told.
    ghost told: { Self → Option (List ℕ) };

    /// Its puts fail exactly where the piece is longer than its room.
    ghost sound: { Self → Type 0 };

    /// How many more bytes a sound sink takes.
    ghost room: { Self → ℕ };

    /// The count of faults.
    ghost count: { Self → ℕ };

    /// How many faults there were.
    fn faults(&self) -> u64
        ensures { result ≡ count self.now };

    /// Appends all. After `Failed` a prefix of the piece was appended.
    fn put(&mut self, bytes: &[u8]) -> Result<(), Failed>
        ensures counts { Counts (count self.old) (count self.new) result }
        ensures tells { Puts (told self.old) (told self.new) bytes.now result }
        ensures is_sound { sound self.old → sound self.new
            × PutsSoundly (told self.old) (told self.new) (room self.old) (room self.new) bytes.now result };

    /// A sound sink tells what was written.
    ghost sound_tells: { (s : Self) → sound s → IsSome (told s) };
}
