// The registers by their addresses.

/// A register of the DMA.
#[derive(Clone, Copy, PartialEq, Eq, Debug)]
pub enum Register {
    /// Where the bytes are read.
    Source,
    /// Where they are written.
    Destination,
    /// How many, 1 to 65,536.
    Length,
    /// Byte j is written where bit j modulo 32 is set; all ones at reset.
    Mask,
    /// Bit 0 starts a copy, bit 1 enables the level.
    Control,
    /// Bit 0 busy, bit 1 done, bit 2 error. A write clears done and error.
    Status,
}

impl Register {
    ghost use Rattle.std.specs.Prelude.{◌≡◌};
    ghost use Rattle.dev_dma.specs.Dmas as dmas;

    /// The register at an address.
    pub fn at(addr: u64) -> Option<Register>
        ensures { result ≡ dmas.register_at addr }
    {
        match addr {
            0 => Some(Register::Source),
            4 => Some(Register::Destination),
            8 => Some(Register::Length),
            12 => Some(Register::Mask),
            16 => Some(Register::Control),
            20 => Some(Register::Status),
            _ => None,
        }
    }
}
