// Parts of the address space, and whether two of them share an address.
ghost use Rattle.std.specs.Prelude.{◌≡◌, ◌+◌, ◌<◌, ◌≤◌, ◌++◌, [], ◌∷◌, length, drop, slice_index_or, IfSome, IfOk};
ghost use Rattle.cos_map.specs.Parts.{passes_end, share_an_address, shared_found, overlap_found, with_windows};

use cos_base::NoMemory;
use std::alloc::Global;

/// A part of the address space, which has 2^32 addresses.
#[derive(Clone, Copy)]
pub struct Part {
    pub base: u32,
    pub size: u32,
}

fn passes_the_end(part: Part) -> bool
    ensures { result ≡ passes_end part }
{
    part.base as u64 + part.size as u64 > 1 << 32
}

fn shares_an_address(one: Part, other: Part) -> bool
    ensures { result ≡ share_an_address one other }
{
    (one.base as u64) < other.base as u64 + other.size as u64
        && (other.base as u64) < one.base as u64 + one.size as u64
}

/// RAM of a size and the system block: the parts before the windows.
pub fn without_windows(alloc: Global, ram: u32) -> Result<Vec<Part>, NoMemory>
    ensures { IfOk result (λ v. v.items ≡ with_windows ram []) }
{
    let mut all = Vec::new(alloc);
    let ram = Part {
        base: 0x8000_0000,
        size: ram,
    };
    let system = Part {
        base: 0x0010_0000,
        size: 4096,
    };
    push_part(&mut all, ram)?;
    push_part(&mut all, system)?;
    Ok(all)
}

/// Appends a part.
pub fn push_part(all: &mut Vec<Part>, part: Part) -> Result<(), NoMemory>
    ensures { IfOk result (λ _. all.new.items ≡ all.old.items ++ part ∷ []) }
{
    Ok(all.push(part)?)
}

/// The first part behind part `a` that shares an address with it, beside `a`.
fn shared(all: &[Part], a: usize) -> Option<(usize, usize)>
    requires { a < length all.now }
    ensures found { result ≡ shared_found a (slice_index_or all.now a (record { base = 0; size = 0 })) (a + 1) (drop (a + 1) all.now) }
    ensures within { IfSome result (λ p. (p.0 < length all.now) × (p.1 < length all.now)) }
{
    'others: for b in a + 1..all.len() {
        if shares_an_address(all[a], all[b]) {
            return Some((a, b));
        }
    }
    None
}

/// The numbers of the first two parts that share an address, or twice that of a part that passes the end.
pub fn overlap(all: &[Part]) -> Option<(usize, usize)>
    ensures found { result ≡ overlap_found 0 all.now }
    ensures within { IfSome result (λ p. (p.0 < length all.now) × (p.1 < length all.now)) }
{
    'parts: for a in 0..all.len() {
        if passes_the_end(all[a]) {
            return Some((a, a));
        }
        if let Some(pair) = shared(all, a) {
            return Some(pair);
        }
    }
    None
}
