ghost use Rattle.std.specs.Prelude.{◌≡◌, ℕ, Some, IfOk, IfErr};

use crate::fault::BodyFault;
use byteorder::{BigEndian, ByteOrder};
use rp_header::u64_at;

/// The body of a synchronisation.
#[derive(Clone, Copy, Debug, PartialEq, Eq)]
pub struct Sync {
    /// In ticks.
    pub time: u64,
}

impl Sync {
    ghost use Rattle.rp_control.specs.Controls.{IsSync, sync_bytes};
    ghost use Rattle.rp_control.specs.Refusals.{short_of};

    /// Reads a body. It takes no memory.

    pub fn read(body: &[u8]) -> Result<Sync, BodyFault>
        ensures ok { IfOk result (λ s. IsSync s.time body.now) }
        ensures refused { IfErr result (λ f. short_of 8 body.now ≡ Some f) }
        ensures exact { (time : ℕ) → IsSync time body.now → IfOk result (λ s. s.time ≡ time) }
    {
        if body.len() < 8 {
            return Err(BodyFault::Length {
                wanted: 8,
                got: body.len() as u64,
            });
        }
        Ok(Sync {
            time: u64_at(body, 0),
        })
    }

    /// The body's bytes. It takes no memory.
    #[tactic(auto, unfolding(rp_header::specs::Numbers::be))]
    pub fn write(&self) -> [u8; 8]
        ensures { result ≡ sync_bytes self.now.time }
    {
        let mut bytes = [0; 8];
        BigEndian::write_u64(&mut bytes, self.time);
        bytes
    }
}
