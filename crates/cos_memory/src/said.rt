// A peer that says the same whatever it hears.
ghost use Rattle.std.specs.Prelude.{◌≡◌, ◌-◌, [], Some, None, true, min, length, take, drop, IfSome};

use crate::Peer;
use cos_base::{NoMemory, Octets};
use std::alloc::Global;

/// A peer whose said bytes are these, whatever it hears.
#[derive(Drop)]
pub struct Said {
    bytes: Octets,
    heard: Octets,
    telling: bool,
}

impl Said {
    ghost use Rattle.cos_memory.specs.Peers.{always};

    /// It takes no memory.
    pub fn make(alloc: Global, bytes: Octets) -> Said
        ensures { ⟦<Said as Peer>⟧.told result ≡ Some (record { heard = []; says = always bytes.bytes }) }
    {
        Said {
            bytes,
            heard: Octets::make(alloc),
            telling: true,
        }
    }

    /// The bytes that it heard.
    pub fn heard(&self) -> &[u8]
        ensures { IfSome (⟦<Said as Peer>⟧.told self.now) (λ s. result.now ≡ s.heard) }
    {
        self.heard.as_slice()
    }
}

impl Peer for Said {
    ghost use Rattle.cos_memory.specs.Peers.{told_while, always};
    ghost use Rattle.cos_memory.specs.PeerLaws.{always_grows};

    ghost told = { λ s. told_while s.telling (record { heard = s.heard.bytes; says = always s.bytes.bytes }) };

    ghost grows = { λ s. always_grows s.telling s.heard.bytes s.bytes.bytes };

    fn hear(&mut self, bytes: &[u8]) -> Result<(), NoMemory> {
        match self.heard.push_all(bytes) {
            Ok(()) => Ok(()),
            Err(NoMemory) => {
                self.telling = false;
                Err(NoMemory)
            }
        }
    }

    fn said(&self, from: usize, into: &mut [u8]) -> usize {
        copy_part(self.bytes.as_slice(), from, into)
    }
}

/// Copies what stands in `all` from that offset on, as far as `into` reaches, and says how many bytes.
pub fn copy_part(all: &[u8], from: usize, into: &mut [u8]) -> usize
    ensures count { result ≡ min (length into.old) (length all.now - from) }
    ensures bytes { take result into.new ≡ take result (drop from all.now) }
{
    let start = from.min(all.len());
    let (_, rest) = all.split_at(start);
    let count = rest.len().min(into.len());
    let (piece, _) = rest.split_at(count);
    let (front, _) = into.split_at_mut(count);
    front.copy_from_slice(piece);
    count
}
