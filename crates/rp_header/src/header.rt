ghost use Rattle.std.specs.Prelude.{◌≡◌, ◌≤◌, ℕ, drop, IfOk, IfErr, OnOk, Some, None};
ghost use Rattle.rp_header.specs.Headers.{command_number, refusal};
ghost use Rattle.rp_header.specs.Numbers.{number};

use crate::fault::HeaderFault;
use crate::numbers::u32_at;
use byteorder::{BigEndian, ByteOrder};
use cosim_model::Command;

/// The command that a number stands for.
fn command_of(number: u32) -> Result<Command, HeaderFault>
    ensures command { IfOk result (λ c. (command_number c ≡ number) × (number ≤ 6)) }
    ensures refused { IfErr result (λ f. (len : ℕ) → refusal number len ≡ Some f) }
{
    match number {
        0 => Ok(Command::Nop),
        1 => Ok(Command::Hello),
        2 => Ok(Command::Cfg),
        3 => Ok(Command::Read),
        4 => Ok(Command::Write),
        5 => Ok(Command::Interrupt),
        6 => Ok(Command::Sync),
        7 | 8 => Err(HeaderFault::Translation {
            number: u64::from(number),
        }),
        _ => Err(HeaderFault::Command {
            number: u64::from(number),
        }),
    }
}

/// The number that stands for a command in a header.
pub fn number_of(command: Command) -> u32
    ensures { result ≡ command_number command }
{
    match command {
        Command::Nop => 0,
        Command::Hello => 1,
        Command::Cfg => 2,
        Command::Read => 3,
        Command::Write => 4,
        Command::Interrupt => 5,
        Command::Sync => 6,
    }
}

/// The header of a packet.
#[derive(Clone, Copy, Debug, PartialEq, Eq)]
pub struct Header {
    pub cmd: Command,
    /// The number of bytes of the body, which follow the header.
    pub len: u32,
    /// The number of a request, which its answer repeats.
    pub id: u32,
    /// Bit 0 optional, bit 1 response, bit 2 posted; the others are carried.
    pub flags: u32,
    pub dev: u32,
}

impl Header {
    ghost use Rattle.rp_header.specs.Headers.{bytes_of, IsHeader};
    ghost use Rattle.rp_header.specs.declared.header.Header.{Header};

    /// Reads a header. It takes no memory.
    pub fn read(bytes: &[u8; 20]) -> Result<Header, HeaderFault>
        // what is read is spelled so, and isn't refused
        ensures spelled { IfOk result (λ h. bytes.now ≡ bytes_of h) }
        ensures fields { IfOk result (λ h. (command_number h.cmd ≡ number 4 bytes.now) × (h.len ≡ number 4 (drop 4 bytes.now)) × (h.id ≡ number 4 (drop 8 bytes.now)) × (h.flags ≡ number 4 (drop 12 bytes.now)) × (h.dev ≡ number 4 (drop 16 bytes.now))) }
        ensures lawful { OnOk result (refusal (number 4 bytes.now) (number 4 (drop 4 bytes.now)) ≡ None) }
        // the first fault
        ensures refused { IfErr result (λ f. refusal (number 4 bytes.now) (number 4 (drop 4 bytes.now)) ≡ Some f) }
        // what is spelled so is read
        ensures exact { (h : Header) → IsHeader h → bytes.now ≡ bytes_of h → IfOk result (λ r. r ≡ h) }
    {
        let number = u32_at(bytes, 0);
        let len = u32_at(bytes, 4);
        let cmd = command_of(number)?;
        if len > 65536 {
            return Err(HeaderFault::TooLong {
                len: u64::from(len),
            });
        }
        Ok(Header {
            cmd,
            len,
            id: u32_at(bytes, 8),
            flags: u32_at(bytes, 12),
            dev: u32_at(bytes, 16),
        })
    }

    /// The header's bytes. It takes no memory.
    pub fn write(&self) -> [u8; 20]
        ensures { result ≡ bytes_of self.now }
    {
        let mut bytes = [0; 20];
        BigEndian::write_u32(&mut bytes[0..], number_of(self.cmd));
        BigEndian::write_u32(&mut bytes[4..], self.len);
        BigEndian::write_u32(&mut bytes[8..], self.id);
        BigEndian::write_u32(&mut bytes[12..], self.flags);
        BigEndian::write_u32(&mut bytes[16..], self.dev);
        bytes
    }
}
