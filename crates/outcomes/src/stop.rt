// Why a command stopped.
use crate::object::Object;
use cos_base::NoMemory;
use std::alloc::AllocError;

/// Why a command stopped before its work was done. `R` says what the command refuses.
#[derive(Debug, Drop)]
pub enum Stop<R> {
    /// What the command read is refused.
    Refused(R),
    /// The object didn't do what it was asked; `count` is its count of faults.
    Outside { object: Object, count: u64 },
    /// Want of memory.
    NoMemory,
}

impl<R> From<NoMemory> for Stop<R> {
    ghost use Rattle.std.specs.Prelude.{◌≡◌};
    ghost use Rattle.outcomes.specs.declared.stop.Stop.TheVariants.{NoMemory as WantOfMemory};

    ghost from_gives = { λ _ stop. stop ≡ WantOfMemory };

    fn from(_: NoMemory) -> Self {
        Stop::NoMemory
    }
}

impl<R> From<AllocError> for Stop<R> {
    ghost use Rattle.std.specs.Prelude.{◌≡◌};
    ghost use Rattle.outcomes.specs.declared.stop.Stop.TheVariants.{NoMemory as WantOfMemory};

    ghost from_gives = { λ _ stop. stop ≡ WantOfMemory };

    fn from(_: AllocError) -> Self {
        Stop::NoMemory
    }
}
