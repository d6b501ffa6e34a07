// The registers by their addresses.

/// A register of the UART.
#[derive(Clone, Copy, PartialEq, Eq, Debug)]
pub enum Register {
    /// A read takes the next arrived byte, a write sends the low byte.
    Data,
    /// Bit 0: a byte is there. Read only.
    Status,
    /// Bit 0 enables the level.
    Control,
}

impl Register {
    ghost use Rattle.std.specs.Prelude.{◌≡◌};
    ghost use Rattle.dev_uart.specs.Uarts as uarts;

    /// The register at an address.
    pub fn at(addr: u64) -> Option<Register>
        ensures { result ≡ uarts.register_at addr }
    {
        match addr {
            0 => Some(Register::Data),
            4 => Some(Register::Status),
            8 => Some(Register::Control),
            _ => None,
        }
    }
}
