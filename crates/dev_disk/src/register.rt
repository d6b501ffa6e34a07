// The registers by their addresses.

/// A register of the disk.
#[derive(Clone, Copy, PartialEq, Eq, Debug)]
pub enum Register {
    /// The first sector of the work.
    Sector,
    /// How many sectors, 1 to 128.
    Count,
    /// Where in the machine's memory.
    Address,
    /// Bit 0 starts the work, bit 1 says that it goes to the disk, bit 2 enables the level.
    Control,
    /// Bit 0 busy, bit 1 done, bit 2 error. A write clears done and error.
    Status,
    /// The number of sectors of the disk. Read only.
    Size,
}

impl Register {
    ghost use Rattle.std.specs.Prelude.{◌≡◌};
    ghost use Rattle.dev_disk.specs.Disks as disks;

    /// The register at an address.
    pub fn at(addr: u64) -> Option<Register>
        ensures { result ≡ disks.register_at addr }
    {
        match addr {
            0 => Some(Register::Sector),
            4 => Some(Register::Count),
            8 => Some(Register::Address),
            12 => Some(Register::Control),
            16 => Some(Register::Status),
            20 => Some(Register::Size),
            _ => None,
        }
    }
}
