// Why the children's links weren't had, and what waiting for children came to.
use cos_base::NoMemory;
use std::alloc::AllocError;

/// Why the links of children weren't had.
#[derive(Clone, Copy, Debug, PartialEq, Eq, Drop)]
pub enum OpenFault {
    /// The network failed; `count` is its count of faults.
    Net { count: u64 },
    /// The spawner failed; `count` is its count of faults.
    Spawner { count: u64 },
    /// Want of memory.
    NoMemory,
}

impl From<NoMemory> for OpenFault {
    ghost use Rattle.std.specs.Prelude.{◌≡◌};
    ghost use Rattle.port_children.specs.declared.fault.OpenFault.TheVariants.{NoMemory as WantOfMemory};

    ghost from_gives = { λ _ fault. fault ≡ WantOfMemory };

    fn from(_: NoMemory) -> Self {
        OpenFault::NoMemory
    }
}

impl From<AllocError> for OpenFault {
    ghost use Rattle.std.specs.Prelude.{◌≡◌};
    ghost use Rattle.port_children.specs.declared.fault.OpenFault.TheVariants.{NoMemory as WantOfMemory};

    ghost from_gives = { λ _ fault. fault ≡ WantOfMemory };

    fn from(_: AllocError) -> Self {
        OpenFault::NoMemory
    }
}

/// What waiting for children came to, where it isn't that each ended with status 0.
#[derive(Clone, Copy, Debug, PartialEq, Eq, Drop)]
pub enum WaitFault {
    /// The child of that port ended with that status, which isn't 0.
    Status { port: u32, status: u8 },
    /// The spawner failed; `count` is its count of faults.
    Spawner { count: u64 },
    /// Want of memory.
    NoMemory,
}
