ghost use Rattle.std.specs.Prelude.{◌≡◌, ℕ, Some, IfOk, IfErr};

use crate::byte::write_u8;
use crate::fault::BodyFault;
use byteorder::{BigEndian, ByteOrder};
use rp_header::{u8_at, u32_at, u64_at};

/// The body of an interrupt.
#[derive(Clone, Copy, Debug, PartialEq, Eq)]
pub struct Interrupt {
    /// In ticks.
    pub time: u64,
    pub vector: u64,
    /// The number of the line.
    pub line: u32,
    /// The level of the line: 0 is low.
    pub val: u8,
}

impl Interrupt {
    ghost use Rattle.rp_control.specs.Controls.{IsInterrupt, interrupt_bytes};
    ghost use Rattle.rp_control.specs.Refusals.{short_of};

    /// Reads a body. It takes no memory.
    pub fn read(body: &[u8]) -> Result<Interrupt, BodyFault>
        ensures ok { IfOk result (λ i. IsInterrupt i.time i.vector i.line i.val body.now) }
        ensures refused { IfErr result (λ f. short_of 21 body.now ≡ Some f) }
        ensures exact { (time vector line val : ℕ) → IsInterrupt time vector line val body.now →
            IfOk result (λ i. (i.time ≡ time) × (i.vector ≡ vector) × (i.line ≡ line) × (i.val ≡ val)) }
    {
        if body.len() < 21 {
            return Err(BodyFault::Length {
                wanted: 21,
                got: body.len() as u64,
            });
        }
        Ok(Interrupt {
            time: u64_at(body, 0),
            vector: u64_at(body, 8),
            line: u32_at(body, 16),
            val: u8_at(body, 20),
        })
    }

    /// The body's bytes. It takes no memory.
    pub fn write(&self) -> [u8; 21]
        ensures { result ≡ interrupt_bytes self.now.time self.now.vector self.now.line self.now.val }
    {
        let mut bytes = [0; 21];
        BigEndian::write_u64(&mut bytes[0..], self.time);
        BigEndian::write_u64(&mut bytes[8..], self.vector);
        BigEndian::write_u32(&mut bytes[16..], self.line);
        write_u8(&mut bytes[20..], self.val);
        bytes
    }
}
