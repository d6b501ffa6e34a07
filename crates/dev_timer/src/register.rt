// The registers by their addresses.

/// A register of the timer.
#[derive(Clone, Copy, PartialEq, Eq, Debug)]
pub enum Register {
    /// The low 32 bits of the tick. Read only.
    Now,
    /// The tick from which on the level is high; all ones at reset.
    Compare,
    /// Bit 0 enables the level.
    Control,
}

impl Register {
    ghost use Rattle.std.specs.Prelude.{◌≡◌};
    ghost use Rattle.dev_timer.specs.Timers as timers;

    /// The register at an address.
    pub fn at(addr: u64) -> Option<Register>
        ensures { result ≡ timers.register_at addr }
    {
        match addr {
            0 => Some(Register::Now),
            4 => Some(Register::Compare),
            8 => Some(Register::Control),
            _ => None,
        }
    }
}
