ghost use Rattle.std.specs.Prelude.{◌≡◌, ℕ, Some, IfOk, IfErr};

use crate::byte::write_u8;
use crate::fault::BodyFault;
use byteorder::{BigEndian, ByteOrder};
use rp_header::{u8_at, u32_at};

/// The body of a cfg packet, which no end takes.
#[derive(Clone, Copy, Debug, PartialEq, Eq)]
pub struct Cfg {
    pub opt: u32,
    pub set: u8,
}

impl Cfg {
    ghost use Rattle.rp_control.specs.Controls.{IsCfg, cfg_bytes};
    ghost use Rattle.rp_control.specs.Refusals.{short_of};

    /// Reads a body. It takes no memory.
    pub fn read(body: &[u8]) -> Result<Cfg, BodyFault>
        ensures ok { IfOk result (λ c. IsCfg c.opt c.set body.now) }
        ensures refused { IfErr result (λ f. short_of 5 body.now ≡ Some f) }
        ensures exact { (opt set : ℕ) → IsCfg opt set body.now → IfOk result (λ c. (c.opt ≡ opt) × (c.set ≡ set)) }
    {
        if body.len() < 5 {
            return Err(BodyFault::Length {
                wanted: 5,
                got: body.len() as u64,
            });
        }
        Ok(Cfg {
            opt: u32_at(body, 0),
            set: u8_at(body, 4),
        })
    }

    /// The body's bytes. It takes no memory.
    pub fn write(&self) -> [u8; 5]
        ensures { result ≡ cfg_bytes self.now.opt self.now.set }
    {
        let mut bytes = [0; 5];
        BigEndian::write_u32(&mut bytes, self.opt);
        write_u8(&mut bytes[4..], self.set);
        bytes
    }
}
