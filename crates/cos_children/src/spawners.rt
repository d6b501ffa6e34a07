// What starts children, and waits for them.
ghost use Rattle.std.specs.Prelude.{◌≡◌, ℕ, Option, IfSome, IsErrOf, IsSome, map, string_bytes};

use cos_base::NoMemory;
use std::alloc::AllocError;

/// Why a child wasn't started, or waiting for it gave no status.
#[derive(Clone, Copy, Debug, PartialEq, Eq, Drop)]
pub enum SpawnFault {
    /// The count of faults rose.
    Failed,
    /// Want of memory.
    NoMemory,
}

impl From<NoMemory> for SpawnFault {
    ghost use Rattle.std.specs.Prelude.{◌≡◌};
    ghost use Rattle.cos_children.specs.declared.spawners.SpawnFault.TheVariants.{NoMemory as WantOfMemory};

    ghost from_gives = { λ _ fault. fault ≡ WantOfMemory };

    fn from(_: NoMemory) -> Self {
        SpawnFault::NoMemory
    }
}

impl From<AllocError> for SpawnFault {
    ghost use Rattle.std.specs.Prelude.{◌≡◌};
    ghost use Rattle.cos_children.specs.declared.spawners.SpawnFault.TheVariants.{NoMemory as WantOfMemory};

    ghost from_gives = { λ _ fault. fault ≡ WantOfMemory };

    fn from(_: AllocError) -> Self {
        SpawnFault::NoMemory
    }
}

/// What starts children, and waits for them.
pub trait Spawner {
    ghost use Rattle.cos_children.specs.Children.{Children, AreChildren, SpawnCounts, Starts, Waits, WaitsSoundly};

    /// The children that were started, what waiting gave, and which run, where they are told.
    ghost told: { Self → Option Children };

    /// Its calls fail only where a child is waited for that doesn't run.
    ghost sound: { Self → Type 0 };

    /// The count of faults.
    ghost count: { Self → ℕ };

    /// How many faults there were.
    fn faults(&self) -> u64
        ensures { result ≡ count self.now };

    /// Starts a child by its words, of which the first names the program, and gives the child's number.
    fn start(&mut self, words: &[String]) -> Result<u32, SpawnFault>
        ensures counts { SpawnCounts (count self.old) (count self.new) result }
        ensures tells { Starts (told self.old) (told self.new) (map string_bytes words.now) result }
        ensures is_sound { sound self.old → sound self.new × (IsErrOf result SpawnFault.Failed → ⊥) };

    /// Waits until a child ends, and gives the status that it ended with. It can't be waited for again, whatever the
    /// answer is.
    fn wait(&mut self, child: u32) -> Result<u8, SpawnFault>
        ensures counts { SpawnCounts (count self.old) (count self.new) result }
        ensures tells { Waits (told self.old) (told self.new) child result }
        ensures is_sound { sound self.old → sound self.new × WaitsSoundly (told self.old) child result };

    /// A sound spawner tells.
    ghost sound_tells: { (s : Self) → sound s → IsSome (told s) };

    /// Each child that runs was started once, and hasn't ended.
    ghost are_children: { (s : Self) → IfSome (told s) AreChildren };
}
