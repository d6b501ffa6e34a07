// What the engine does.
ghost use Rattle.std.specs.Prelude.{◌≡◌, ◌≤◌, take};
ghost use Rattle.dev_line.specs.Chunks.{chunk_of};
ghost use Rattle.dev_dma.specs.Copies as copies;

use dev_line::chunk;

/// What the engine of a DMA does. `after` is how many chunks come after the present one.
#[derive(Clone, Copy, PartialEq, Eq, Debug)]
pub enum Engine {
    Idle,
    /// The present chunk is to be fetched.
    Fetching { after: u32 },
    /// It was fetched, and is to be stored.
    Storing { after: u32, bytes: [u8; 64] },
}

impl Engine {
    ghost use Rattle.std.specs.Prelude.{◌≡◌};
    ghost use Rattle.dev_dma.specs.Dmas as dmas;

    /// Does a copy run?
    pub fn is_busy(&self) -> bool
        ensures { result ≡ dmas.is_busy self.now }
    {
        match self {
            Engine::Idle => false,
            Engine::Fetching { .. } | Engine::Storing { .. } => true,
        }
    }
}

/// Where in a copy of that length the chunk begins that `after` others come after.
pub fn place(len: u32, after: u32) -> u64
    requires { copies.IsChunk len after }
    ensures { result ≡ copies.place_of len after }
{
    64 * u64::from((len - 1) / 64 - after)
}

/// The size of that chunk.
pub fn size(len: u32, after: u32) -> u8
    requires { 1 ≤ len }
    ensures size { result ≡ copies.size_of len after }
    ensures most { result ≤ 64 }
{
    if after == 0 {
        ((len - 1) % 64 + 1) as u8
    } else {
        64
    }
}

/// The mask of a chunk of that size.
pub fn chunk_mask(mask: u32, size: u8) -> u64
    requires { size ≤ 64 }
    ensures { result ≡ copies.mask_of mask size }
{
    let twice = u64::from(mask) + u64::from(mask) * 4_294_967_296;
    if size < 64 {
        twice % (1 << size)
    } else {
        twice
    }
}

/// The first `size` of the bytes, then zeros.
pub fn front(bytes: &[u8; 64], size: u8) -> [u8; 64]
    requires { size ≤ 64 }
    ensures { result ≡ chunk_of (take size bytes.now) }
{
    let (front, _) = bytes.split_at(usize::from(size));
    chunk(front)
}
