// What the engine does.
ghost use Rattle.std.specs.Prelude.{◌≡◌, ◌+◌, ◌*◌, ◌<◌, ◌≤◌, length, take, drop};
ghost use Rattle.cos_base.specs.Octets.{overwritten};
ghost use Rattle.dev_line.specs.Chunks.{chunk_of};
ghost use Rattle.dev_disk.specs.Works as works;

use cos_base::Octets;
use dev_line::chunk;

/// What the engine of a disk does. `after` is how many chunks come after the present one.
#[derive(Clone, Copy, PartialEq, Eq, Debug)]
pub enum Engine {
    Idle,
    Busy { after: u32 },
}

impl Engine {
    ghost use Rattle.std.specs.Prelude.{◌≡◌};
    ghost use Rattle.dev_disk.specs.Disks as disks;

    /// Does work run?
    pub fn is_busy(&self) -> bool
        ensures { result ≡ disks.is_busy self.now }
    {
        match self {
            Engine::Idle => false,
            Engine::Busy { .. } => true,
        }
    }
}

/// Where in work of so many sectors the chunk begins that `after` others come after.
pub fn place(count: u32, after: u32) -> u32
    requires some { after < 8 * count }
    requires most { count ≤ 128 }
    ensures { result ≡ works.place_of count after }
{
    64 * (8 * count - 1 - after)
}

/// The chunk of the disk at a place.
pub fn chunk_at(sectors: &Octets, at: usize) -> [u8; 64]
    requires { at + 64 ≤ length sectors.now.bytes }
    ensures { result ≡ chunk_of (take 64 (drop at sectors.now.bytes)) }
{
    let (_, rest) = sectors.as_slice().split_at(at);
    let (front, _) = rest.split_at(64);
    chunk(front)
}

/// What a reply brings goes onto the disk, where the work is in that direction.
pub fn take_in(to_disk: bool, sectors: &mut Octets, at: usize, bytes: &[u8; 64])
    requires { at + 64 ≤ length sectors.old.bytes }
    ensures bytes { sectors.new.bytes ≡ works.taken_in to_disk sectors.old.bytes at bytes.now }
    ensures long { length sectors.new.bytes ≡ length sectors.old.bytes }
{
    if to_disk {
        sectors.overwrite(at, bytes);
    }
}
