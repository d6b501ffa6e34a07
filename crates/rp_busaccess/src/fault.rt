use cos_base::NoMemory;

/// Why a body is refused. The first of these that applies is the fault.
#[derive(Clone, Copy, Debug, PartialEq, Eq)]
pub enum BusFault {
    /// The body has `got` bytes, and its fields and old-layout data need `wanted`.
    Length { wanted: u64, got: u64 },
    /// The `len` data bytes at `offset`, counted from the packet's first byte, don't stand between the fields and the packet's
    /// end.
    DataRange { offset: u64, len: u64 },
    /// The `len` enables at `offset` don't stand there, or do so on data bytes.
    EnableRange { offset: u64, len: u64 },
    /// Want of memory.
    NoMemory,
}

impl From<NoMemory> for BusFault {
    ghost use Rattle.std.specs.Prelude.{◌≡◌};
    ghost use Rattle.rp_busaccess.specs.declared.fault.BusFault.TheVariants.{NoMemory as WantOfMemory};

    ghost from_gives = { λ _ f. f ≡ WantOfMemory };

    fn from(_: NoMemory) -> Self {
        BusFault::NoMemory
    }
}

/// Why a packet isn't written. The first of these that applies is the fault.
#[derive(Clone, Copy, Debug, PartialEq, Eq)]
pub enum WriteFault {
    /// The old layout has 16 bits for the master.
    MasterTooWide { master: u64 },
    /// There are `got` data bytes, and `wanted` are carried.
    DataCount { wanted: u64, got: u64 },
    /// The old layout has no enables.
    EnablesInOld { count: u64 },
    /// The body would have `len` bytes, which are more than 65,536.
    TooLong { len: u64 },
    /// Want of memory.
    NoMemory,
}

impl From<NoMemory> for WriteFault {
    ghost use Rattle.std.specs.Prelude.{◌≡◌};
    ghost use Rattle.rp_busaccess.specs.declared.fault.WriteFault.TheVariants.{NoMemory as WantOfMemory};

    ghost from_gives = { λ _ f. f ≡ WantOfMemory };

    fn from(_: NoMemory) -> Self {
        WriteFault::NoMemory
    }
}
