// Where links come from.
ghost use Rattle.std.specs.Prelude.{◌≡◌, [], ◌∷◌, ℕ, Option, IfOk, IfSome, IsErrOf, IsSomeAnd, All};
ghost use Rattle.cos_base.specs.Links.{IsFresh};

use crate::{Link, NoMemory};
use std::alloc::AllocError;

/// Why a network hands out nothing.
#[derive(Clone, Copy, Debug, PartialEq, Eq, Drop)]
pub enum NetFault {
    /// The count of faults rose.
    Failed,
    /// Want of memory.
    NoMemory,
}

impl From<NoMemory> for NetFault {
    ghost use Rattle.std.specs.Prelude.{◌≡◌};
    ghost use Rattle.cos_base.specs.declared.networks.NetFault.TheVariants.{NoMemory as WantOfMemory};

    ghost from_gives = { λ _ fault. fault ≡ WantOfMemory };

    fn from(_: NoMemory) -> Self {
        NetFault::NoMemory
    }
}

impl From<AllocError> for NetFault {
    ghost use Rattle.std.specs.Prelude.{◌≡◌};
    ghost use Rattle.cos_base.specs.declared.networks.NetFault.TheVariants.{NoMemory as WantOfMemory};

    ghost from_gives = { λ _ fault. fault ≡ WantOfMemory };

    fn from(_: AllocError) -> Self {
        NetFault::NoMemory
    }
}

/// Where links come from.
pub trait Network {
    type Link: Link;

    ghost use Rattle.cos_base.specs.Networks.{Coming, NetCounts, Hands, Listens, AllFresh, HandsSound};

    /// The links to come, and the names that it was given, where they are told.
    ghost told: { Self → Option (Coming Self.Link) };

    /// Its calls fail only where a link is asked for and none is to come, and the links to come are sound.
    ghost sound: { Self → Type 0 };

    /// The count of faults.
    ghost count: { Self → ℕ };

    /// How many faults there were.
    fn faults(&self) -> u64
        ensures { result ≡ count self.now };

    /// Listens under a name, and gives the listener's number.
    fn listen(&mut self, name: &str) -> Result<u32, NetFault>
        ensures counts { NetCounts (count self.old) (count self.new) result }
        ensures tells { Listens (told self.old) (told self.new) (name.now ∷ []) result }
        ensures is_sound { sound self.old → sound self.new × (IsErrOf result NetFault.Failed → ⊥) };

    /// Takes the next connection of a listener: the first of the links to come. It may wait for the other side.
    fn accept(&mut self, listener: u32) -> Result<Self::Link, NetFault>
        ensures counts { NetCounts (count self.old) (count self.new) result }
        ensures tells { Hands (told self.old) (told self.new) [] result }
        ensures fresh { IfOk result (λ l. IfSome (Self.Link.told l) IsFresh) }
        ensures is_sound { sound self.old → sound self.new × HandsSound (told self.old) result };

    /// Connects to whoever listens under a name, by the first of the links to come.
    fn connect(&mut self, name: &str) -> Result<Self::Link, NetFault>
        ensures counts { NetCounts (count self.old) (count self.new) result }
        ensures tells { Hands (told self.old) (told self.new) (name.now ∷ []) result }
        ensures fresh { IfOk result (λ l. IfSome (Self.Link.told l) IsFresh) }
        ensures is_sound { sound self.old → sound self.new × HandsSound (told self.old) result };

    /// A sound network tells, and the links to come are sound.
    ghost sound_tells: { (n : Self) → sound n → IsSomeAnd (told n) (λ t. All Self.Link.sound t.coming) };

    /// A network tells only while each of its links to come tells, and nothing was sent or received on them yet.
    ghost are_fresh: { (n : Self) → IfSome (told n) (λ t. AllFresh Self.Link.told t.coming) };
}
