// The address map.
ghost use Rattle.std.specs.Prelude.{◌≡◌, ◌+◌, ◌<◌, ◌^◌, ◌++◌, [], ◌∷◌, length, drop, slice_index_or, IsTrue, IfOk, OnOk, IfSome, Some, None, ◌≤◌};
ghost use Rattle.cos_map.specs.Parts.{AreApart};
ghost use Rattle.sys_bus.specs.Maps.{misaligned, misaligned_found, parts_of, holds, window_from, Maps};

use cos_base::NoMemory;
use cos_map::{Part, overlap, push_part, without_windows};
use std::alloc::Global;
use std::marker::Model;

/// A part of the address space whose accesses go to a port: the window with the number p to port p.
#[derive(Clone, Copy, PartialEq, Eq, Debug)]
pub struct Window {
    /// The address of its first byte, a multiple of 4,096.
    pub base: u32,
    /// In bytes, a multiple of 4,096.
    pub size: u32,
    /// Stores to it are posted: nobody waits for their answer.
    pub posted: bool,
}

/// Why windows make no map.
#[derive(Clone, Copy, PartialEq, Eq, Debug)]
pub enum MapFault {
    /// The window with that number has a base or a size that isn't a multiple of 4,096, or has no byte.
    Misaligned { window: u64 },
    /// Two parts share an address; or, where both are the same, that part passes the end of the address space. Part 0 is RAM, part 1
    /// is the system block and part 2 + p is window p.
    Overlap { a: u64, b: u64 },
    NoMemory,
}

impl From<NoMemory> for MapFault {
    ghost use Rattle.std.specs.Prelude.{◌≡◌};
    ghost use Rattle.sys_bus.specs.declared.map.MapFault.TheVariants.{NoMemory as WantOfMemory};

    ghost from_gives = { λ _ fault. fault ≡ WantOfMemory };

    fn from(_: NoMemory) -> Self {
        MapFault::NoMemory
    }
}

/// Windows to ports, beside RAM and the system block. No two parts of it share an address.
#[derive(Drop)]
pub struct Map {
    windows: Vec<Window>,
    ram: u32,
}

impl Model for Map {
    ghost use Rattle.std.specs.Prelude.{◌<◌, ◌^◌, length};
    ghost use Rattle.sys_bus.specs.Maps.{MapState};

    ghost Value = { MapState };

    ghost view = { λ m. record { windows = m.windows.items; ram = m.ram } };

    ghost invariant = { λ m. length m.windows.items < 2 ^ 32 };
}

fn is_misaligned(window: Window) -> bool
    ensures { result ≡ misaligned window }
{
    window.base % 4096 != 0 || window.size % 4096 != 0 || window.size == 0
}

/// The first window that is misaligned.
fn misaligned_window(windows: &[Window]) -> Option<MapFault>
    ensures { result ≡ misaligned_found 0 windows.now }
{
    'windows: for number in 0..windows.len() {
        if is_misaligned(windows[number]) {
            return Some(MapFault::Misaligned {
                window: number as u64,
            });
        }
    }
    None
}

/// RAM, the system block and the windows, by part number.
fn parts(alloc: Global, windows: &[Window], ram: u32) -> Result<Vec<Part>, NoMemory>
    ensures { IfOk result (λ v. v.items ≡ parts_of windows.now ram) }
{
    let mut all = without_windows(alloc, ram)?;
    'windows: for window in windows {
        let part = Part {
            base: window.base,
            size: window.size,
        };
        push_part(&mut all, part)?;
    }
    Ok(all)
}

impl Map {
    /// The map of these windows beside RAM of a size.
    pub fn make(alloc: Global, windows: &[Window], ram: u32) -> Result<Map, MapFault>
        ensures maps { Maps windows.now ram result }
        // so it doesn't matter in which order an address is looked for
        ensures apart { OnOk result (AreApart (parts_of windows.now ram)) }
    {
        if let Some(fault) = misaligned_window(windows) {
            return Err(fault);
        }
        let parts = parts(alloc, windows, ram)?;
        if let Some((a, b)) = overlap(&parts) {
            return Err(MapFault::Overlap {
                a: a as u64,
                b: b as u64,
            });
        }
        // a port has a number below 2^32
        if windows.len() >= 1 << 32 {
            return Err(MapFault::NoMemory);
        }
        match Vec::from_slice(alloc, windows) {
            Ok(windows) => Ok(Map { windows, ram }),
            Err(_) => Err(MapFault::NoMemory),
        }
    }

    /// The first window that holds all `size` bytes from an address on, with its port.
    pub(crate) fn find(&self, addr: u32, size: u8) -> Option<(u32, Window)>
        ensures window { result ≡ window_from 0 self.now.windows addr size }
        ensures base { IfSome result (λ found. found.1.base ≤ addr) }
    {
        find_in(&self.windows, addr, size)
    }
}

/// The first of the windows that holds all `size` bytes from an address on, with its port.
fn find_in(windows: &[Window], addr: u32, size: u8) -> Option<(u32, Window)>
    requires { length windows.now < 2 ^ 32 }
    ensures window { result ≡ window_from 0 windows.now addr size }
    ensures base { IfSome result (λ found. found.1.base ≤ addr) }
{
    'windows: for port in 0..windows.len() {
        if holds_all(windows[port], addr, size) {
            return Some((port as u32, windows[port]));
        }
    }
    None
}

fn holds_all(window: Window, addr: u32, size: u8) -> bool
    ensures is { result ≡ holds window addr size }
    ensures base { IsTrue result → window.base ≤ addr }
{
    window.base <= addr && addr as u64 + size as u64 <= window.base as u64 + window.size as u64
}
