use cos_base::NoMemory;

/// Why no packet was read from a line.
#[derive(Clone, Copy, Debug, PartialEq, Eq)]
pub enum LineFault {
    /// It is the line of no packet that can be written.
    Line,
    /// Want of memory.
    NoMemory,
}

impl From<NoMemory> for LineFault {
    ghost use Rattle.std.specs.Prelude.{◌≡◌};
    ghost use Rattle.rp_text.specs.declared.fault.LineFault.TheVariants.{NoMemory as WantOfMemory};

    ghost from_gives = { λ _ f. f ≡ WantOfMemory };

    fn from(_: NoMemory) -> Self {
        LineFault::NoMemory
    }
}
