// What a link in memory talks to.
ghost use Rattle.std.specs.Prelude.{◌≡◌, ◌-◌, ◌≤◌, None, Option, length, take, drop, min, IfSome, OnOk, OnErr};
ghost use Rattle.cos_base.specs.Links.{Grows};
ghost use Rattle.cos_memory.specs.Peers.{Spoken, said_of, hears};

use cos_base::NoMemory;

/// What a link in memory talks to.
pub trait Peer: Drop {
    /// The bytes heard, and what it says for any bytes heard, where they are told.
    ghost told: { Self → Option Spoken };

    /// Hears more bytes. After `NoMemory` it tells nothing.
    fn hear(&mut self, bytes: &[u8]) -> Result<(), NoMemory>
        ensures ok { OnOk result (told self.new ≡ hears bytes.now (told self.old)) }
        ensures err { OnErr result (told self.new ≡ None) };

    /// Copies what was said from that offset on, as far as `into` reaches, and says how many bytes.
    fn said(&self, from: usize, into: &mut [u8]) -> usize
        ensures bound { result ≤ length into.new }
        ensures bytes { IfSome (told self.now) (λ s.
            (result ≡ min (length into.old) (length (said_of s) - from))
            × (take result into.new ≡ take result (drop from (said_of s)))) };

    /// What it says grows with what it hears.
    ghost grows: { (p : Self) → IfSome (told p) (λ s. Grows s.says) };
}
