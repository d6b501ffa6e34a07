// Where files are read and written.
ghost use Rattle.std.specs.Prelude.{◌≡◌, ℕ, List, Option, IsErrOf, IsSome};

use crate::{NoMemory, Octets};
use std::alloc::AllocError;

/// Why a file wasn't read or written.
#[derive(Clone, Copy, Debug, PartialEq, Eq, Drop)]
pub enum FileFault {
    /// The count of faults rose. An absent file is a failure.
    Failed,
    /// Want of memory.
    NoMemory,
}

impl From<NoMemory> for FileFault {
    ghost use Rattle.std.specs.Prelude.{◌≡◌};
    ghost use Rattle.cos_base.specs.declared.file_store.FileFault.TheVariants.{NoMemory as WantOfMemory};

    ghost from_gives = { λ _ fault. fault ≡ WantOfMemory };

    fn from(_: NoMemory) -> Self {
        FileFault::NoMemory
    }
}

impl From<AllocError> for FileFault {
    ghost use Rattle.std.specs.Prelude.{◌≡◌};
    ghost use Rattle.cos_base.specs.declared.file_store.FileFault.TheVariants.{NoMemory as WantOfMemory};

    ghost from_gives = { λ _ fault. fault ≡ WantOfMemory };

    fn from(_: AllocError) -> Self {
        FileFault::NoMemory
    }
}

/// Where files are read and written, each under its name.
pub trait Files {
    ghost use Rattle.cos_base.specs.Stores.{Store, FileCounts, Reads, Writes, Asks, ReadsSoundly};

    /// The bytes of each name, where they are told.
    ghost told: { Self → Option Store };

    /// The names that were asked for, in order, where the bytes are told.
    ghost asked: { Self → List (List ℕ) };

    /// A read fails exactly where the name has no file, and a write doesn't.
    ghost sound: { Self → Type 0 };

    /// The count of faults.
    ghost count: { Self → ℕ };

    /// How many faults there were.
    fn faults(&self) -> u64
        ensures { result ≡ count self.now };

    /// The bytes of a file.
    fn read(&mut self, name: &str) -> Result<Octets, FileFault>
        ensures counts { FileCounts (count self.old) (count self.new) result }
        ensures tells { Reads (told self.old) (told self.new) name.now result }
        ensures asks { Asks (told self.old) (asked self.old) (asked self.new) name.now result }
        ensures is_sound { sound self.old → sound self.new × ReadsSoundly (told self.old) name.now result };

    /// Sets the bytes of a file. After `Failed` its bytes may be any.
    fn write(&mut self, name: &str, bytes: &[u8]) -> Result<(), FileFault>
        ensures counts { FileCounts (count self.old) (count self.new) result }
        ensures tells { Writes (told self.old) (told self.new) name.now bytes.now result }
        ensures asks { Asks (told self.old) (asked self.old) (asked self.new) name.now result }
        ensures is_sound { sound self.old → sound self.new × (IsErrOf result FileFault.Failed → ⊥) };

    /// Sound files are told.
    ghost sound_tells: { (f : Self) → sound f → IsSome (told f) };
}
