// RAM.
ghost use Rattle.std.specs.Prelude.{◌≡◌, ◌+◌, ◌%◌, ◌≤◌, length, replicate, IfOk, OnOk, OnErr};
ghost use Rattle.sha2.specs.Sha256.{sha256};
ghost use Rattle.cosim_model.specs.Values.{bytes_of};
ghost use Rattle.cos_base.specs.Octets.{overwritten};
ghost use Rattle.cos_api.specs.Enables.{enabled_by};
ghost use Rattle.sys_ram.specs.Memory.{place_of, part_of, read_of, write_of, number_of, store_of};
ghost use Rattle.sys_ram.specs.Loads.{Loads};
ghost use Rattle.sys_ram.specs.Pages.{written_from};

use crate::ImageFault;
use crate::page::Page;
use crate::pages::{copy_out, page_or, part, put_part, touch_all, write_all};
use cos_base::NoMemory;
use sha2::{Digest, Sha256};
use std::alloc::Global;
use std::marker::Model;

/// The address of the first byte.
const BASE: u64 = 0x8000_0000;

/// RAM, whose first byte is at the address 0x80000000. It is seen as the list of its bytes, and kept in pages of 4,096 bytes. A page
/// that no image byte and no write has touched isn't there, and reads as zeros.
#[derive(Drop)]
pub struct Ram {
    alloc: Global,
    pages: Vec<Option<Page>>,
}

impl Model for Ram {
    ghost use Rattle.std.specs.Prelude.{ℕ, ◌≤◌, List, length};
    ghost use Rattle.sys_ram.specs.Pages.{memory_of, ArePages};

    ghost Value = { List ℕ };

    ghost view = { λ r. memory_of r.pages.items };

    ghost invariant = { λ r. ArePages r.pages.items × (length r.pages.items ≤ 16384) };
}

impl Ram {
    /// RAM of so many bytes, all of them 0: 4,096 to 67,108,864, a multiple of 4,096.
    pub fn make(alloc: Global, size: u32) -> Result<Ram, NoMemory>
        requires least { 4096 ≤ size }
        requires most { size ≤ 67108864 }
        requires whole { size % 4096 ≡ 0 }
        ensures { IfOk result (λ r. r ≡ replicate size 0) }
    {
        let count = size as usize / 4096;
        let mut pages = Vec::with_capacity(alloc, count)?;
        'pages: for _index in 0..count {
            match pages.push(None) {
                Ok(()) => {}
                Err(_) => return Err(NoMemory),
            }
        }
        Ok(Ram { alloc, pages })
    }

    /// The number of its bytes.
    pub fn size(&self) -> u32
        ensures size { result ≡ length self.now }
        ensures most { result ≤ 67108864 }
    {
        (self.pages.len() * 4096) as u32
    }

    /// Where the bytes of a range stand, where all of them are in RAM.
    fn place(&self, addr: u64, count: usize) -> Option<usize>
        ensures { result ≡ place_of (length self.now) addr count }
    {
        let size = u64::from(self.size());
        if addr < BASE || addr - BASE > size || count as u64 > size - (addr - BASE) {
            return None;
        }
        Some((addr - BASE) as usize)
    }

    /// Where a few bytes stand, where all of them are in RAM: by one test, since no address before RAM is that near.
    #[inline(always)]
    fn near(&self, addr: u32, count: usize) -> Option<usize>
        requires { count ≤ 4 }
        ensures { result ≡ place_of (length self.now) addr count }
    {
        let at = addr.wrapping_sub(0x8000_0000) as usize;
        if at + count > self.size() as usize {
            return None;
        }
        Some(at)
    }

    /// Puts an image at the front. The bytes after it stay what they were.
    pub fn load(&mut self, image: &[u8]) -> Result<(), ImageFault>
        ensures { Loads self.old self.new image.now result }
    {
        let size = self.size();
        if image.is_empty() {
            return Err(ImageFault::Empty);
        }
        if image.len() > size as usize {
            return Err(ImageFault::TooLarge {
                size: u64::from(size),
                got: image.len() as u64,
            });
        }
        self.put(0, image, &[])?;
        Ok(())
    }

    /// Writes the enabled ones of some bytes from a place on.
    fn put(&mut self, at: usize, bytes: &[u8], enables: &[u8]) -> Result<(), NoMemory>
        requires { at + length bytes.now ≤ length self.old }
        ensures ok { OnOk result (self.new ≡ written_from self.old at bytes.now enables.now 0) }
        ensures err { OnErr result (self.new ≡ self.old) }
    {
        touch_all(self.alloc, &mut self.pages, at, bytes.len())?;
        write_all(&mut self.pages, at, bytes, enables);
        Ok(())
    }

    /// SHA-256 of all its bytes.
    #[tactic(auto, unfolding(crate::specs::Pages::zero_page))]
    pub fn digest(&self) -> [u8; 32]
        ensures { result ≡ sha256 self.now }
    {
        let zeros = [0; 4096];
        let mut hasher = Sha256::new();
        'pages: for page in self.pages.iter() {
            hasher.update(page_or(page, &zeros));
        }
        hasher.finalize()
    }

    /// Reads as many bytes as `out` has, from an address on, and gives the code: 0, or 2 where the range isn't wholly in RAM, and
    /// then zeros are read.
    pub fn read(&self, addr: u64, out: &mut [u8]) -> u8
        ensures { read_of self.now addr (length out.old) ≡ (result, out.new) }
    {
        match self.place(addr, out.len()) {
            Some(at) => {
                copy_out(&self.pages, at, out);
                0
            }
            None => {
                out.fill(0);
                2
            }
        }
    }

    /// Writes the enabled ones of some bytes from an address on, and gives the code: 0, or 2 where the range isn't wholly in RAM, and
    /// then nothing is written. Byte i is enabled where there are no enables, or where enable byte i modulo their number isn't 0.
    pub fn write(&mut self, addr: u64, bytes: &[u8], enables: &[u8]) -> Result<u8, NoMemory>
        ensures ok { IfOk result (λ code. write_of self.old addr bytes.now (enabled_by enables.now (length bytes.now)) ≡ (self.new, code)) }
        ensures err { OnErr result (self.new ≡ self.old) }
    {
        match self.place(addr, bytes.len()) {
            Some(at) => {
                self.put(at, bytes, enables)?;
                Ok(0)
            }
            None => Ok(2),
        }
    }

    /// The byte at an address, where it is in RAM.
    #[inline(always)]
    pub fn byte(&self, addr: u32) -> Option<u8>
        ensures { result ≡ number_of self.now addr 1 }
    {
        match self.near(addr, 1) {
            Some(at) => Some(u8::from_le_bytes(part(&self.pages, at))),
            None => None,
        }
    }

    /// The number of the two bytes at an address, the least significant first, where they are in RAM.
    #[inline(always)]
    pub fn half(&self, addr: u32) -> Option<u16>
        ensures { result ≡ number_of self.now addr 2 }
    {
        match self.near(addr, 2) {
            Some(at) => Some(u16::from_le_bytes(part(&self.pages, at))),
            None => None,
        }
    }

    /// The number of the four bytes at an address, the least significant first, where they are in RAM.
    #[inline(always)]
    pub fn word(&self, addr: u32) -> Option<u32>
        ensures { result ≡ number_of self.now addr 4 }
    {
        match self.near(addr, 4) {
            Some(at) => Some(u32::from_le_bytes(part(&self.pages, at))),
            None => None,
        }
    }

    /// Replaces the byte at an address, and tells whether it is in RAM. `NoMemory` leaves RAM as it was.
    #[inline(always)]
    pub fn put_byte(&mut self, addr: u32, value: u8) -> Result<bool, NoMemory>
        ensures ok { IfOk result (λ there. store_of self.old addr 1 value ≡ (self.new, there)) }
        ensures err { OnErr result (self.new ≡ self.old) }
    {
        match self.near(addr, 1) {
            Some(at) => {
                put_part(self.alloc, &mut self.pages, at, &value.to_le_bytes())?;
                Ok(true)
            }
            None => Ok(false),
        }
    }

    /// Replaces the two bytes at an address by those of a number, the least significant first, and tells whether they are in RAM. `NoMemory` leaves RAM as it was.
    #[inline(always)]
    pub fn put_half(&mut self, addr: u32, value: u16) -> Result<bool, NoMemory>
        ensures ok { IfOk result (λ there. store_of self.old addr 2 value ≡ (self.new, there)) }
        ensures err { OnErr result (self.new ≡ self.old) }
    {
        match self.near(addr, 2) {
            Some(at) => {
                put_part(self.alloc, &mut self.pages, at, &value.to_le_bytes())?;
                Ok(true)
            }
            None => Ok(false),
        }
    }

    /// Replaces the four bytes at an address by those of a number, the least significant first, and tells whether they are in RAM. `NoMemory` leaves RAM as it was.
    #[inline(always)]
    pub fn put_word(&mut self, addr: u32, value: u32) -> Result<bool, NoMemory>
        ensures ok { IfOk result (λ there. store_of self.old addr 4 value ≡ (self.new, there)) }
        ensures err { OnErr result (self.new ≡ self.old) }
    {
        match self.near(addr, 4) {
            Some(at) => {
                put_part(self.alloc, &mut self.pages, at, &value.to_le_bytes())?;
                Ok(true)
            }
            None => Ok(false),
        }
    }
}
