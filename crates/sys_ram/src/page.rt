// A page of memory.
ghost use Rattle.std.specs.Prelude.{◌≡◌, ◌+◌, ◌<◌, ◌≤◌, ◌^◌, length, map, IfOk};
ghost use Rattle.cos_base.specs.Octets.{overwritten};
ghost use Rattle.cosim_model.specs.Packets.{is_enabled as enabled_at, count_from};
ghost use Rattle.sys_ram.specs.Memory.{part_of, merged};
ghost use Rattle.sys_ram.specs.Pages.{zero_page, written_from};

use cos_base::NoMemory;
use std::alloc::Global;
use std::marker::Model;

/// A page of memory: 4,096 bytes.
#[derive(Drop)]
pub struct Page {
    bytes: Box<[u8; 4096]>,
}

impl Model for Page {
    ghost use Rattle.std.specs.Prelude.{◌≡◌, ℕ, List, length};

    ghost Value = { List ℕ };

    ghost view = { λ p. p.bytes.value };

    ghost invariant = { λ p. length p.bytes.value ≡ 4096 };
}

impl Page {
    /// A page of zeros.
    #[tactic(auto, unfolding(crate::specs::Pages::zero_page))]
    pub fn zeros(alloc: Global) -> Result<Page, NoMemory>
        ensures { IfOk result (λ p. p ≡ zero_page) }
    {
        match Box::new(alloc, [0; 4096]) {
            Ok(bytes) => Ok(Page { bytes }),
            Err(_) => Err(NoMemory),
        }
    }

    /// Its bytes.
    pub fn as_slice(&self) -> &[u8]
        ensures bytes { result.now ≡ self.now }
        ensures long { length result.now ≡ 4096 }
    {
        &*self.bytes
    }

    /// The bytes from a place on.
    #[inline(always)]
    pub fn copy_out(&self, at: usize, out: &mut [u8])
        requires { at + length out.old ≤ 4096 }
        ensures { out.new ≡ part_of self.now at (length out.old) }
    {
        out.copy_from_slice(&self.bytes[at..at + out.len()]);
    }

    /// Replaces the bytes from a place on by as many others.
    #[inline(always)]
    pub fn overwrite(&mut self, at: usize, bytes: &[u8])
        requires { at + length bytes.now ≤ 4096 }
        ensures bytes { self.new ≡ overwritten self.old at bytes.now }
        ensures long { length self.old ≡ 4096 }
    {
        self.bytes[at..at + bytes.len()].copy_from_slice(bytes);
    }

    /// Writes the enabled ones of some bytes from a place on. `first` is the number of the first of them.
    pub fn write(&mut self, at: usize, bytes: &[u8], enables: &[u8], first: usize)
        requires here { at + length bytes.now ≤ 4096 }
        requires small { first + length bytes.now < 2 ^ 64 }
        ensures { self.new ≡ written_from self.old at bytes.now enables.now first }
    {
        if enables.is_empty() {
            return self.overwrite(at, bytes);
        }
        merge(&mut self.bytes[at..at + bytes.len()], bytes, enables, first);
    }
}

/// Whether the byte of that number is enabled.
fn is_enabled(enables: &[u8], number: usize) -> bool
    requires { 0 < length enables.now }
    ensures { result ≡ enabled_at enables.now number }
{
    enables[number % enables.len()] != 0
}

/// Replaces each byte by that of its place where that is enabled. `first` is the number of the first of them.
fn merge(old: &mut [u8], bytes: &[u8], enables: &[u8], first: usize)
    requires same { length old.old ≡ length bytes.now }
    requires small { first + length bytes.now < 2 ^ 64 }
    requires some { 0 < length enables.now }
    ensures { old.new ≡ merged (map (enabled_at enables.now) (count_from first (length bytes.now))) bytes.now old.old }
{
    'bytes: for i in 0..bytes.len() {
        if is_enabled(enables, first + i) {
            old[i] = bytes[i];
        }
    }
}
