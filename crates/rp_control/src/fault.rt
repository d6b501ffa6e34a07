use cos_base::NoMemory;

/// Why a body is refused.
#[derive(Clone, Copy, Debug, PartialEq, Eq)]
pub enum BodyFault {
    /// The body has `got` bytes, and its fields need `wanted`.
    Length { wanted: u64, got: u64 },
    /// The `count` capabilities at `offset`, counted from the packet's first byte, don't stand between the fields and the
    /// packet's end.
    CapsRange { offset: u64, count: u64 },
    /// Want of memory.
    NoMemory,
}

impl From<NoMemory> for BodyFault {
    ghost use Rattle.std.specs.Prelude.{◌≡◌};
    ghost use Rattle.rp_control.specs.declared.fault.BodyFault.TheVariants.{NoMemory as WantOfMemory};

    ghost from_gives = { λ _ f. f ≡ WantOfMemory };

    fn from(_: NoMemory) -> Self {
        BodyFault::NoMemory
    }
}
