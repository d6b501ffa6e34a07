// A link whose bytes go in pieces.
ghost use Rattle.std.specs.Prelude.{◌≡◌, ◌<◌, None};

use cos_base::{Got, Link, Put};

/// A link that moves at most so many bytes with a call, both ways. It tells nothing of content.
#[derive(Drop)]
pub struct CutLink<L: Link> {
    link: L,
    piece: usize,
    ghost some: { 0 < piece },
}

impl<L: Link> CutLink<L> {
    /// A piece of 0 bytes stands for whatever is asked for.
    pub fn make(link: L, piece: usize) -> CutLink<L>
        ensures { ⟦<CutLink<L> as Link>⟧.told result ≡ None }
    {
        let piece = if piece == 0 { usize::MAX } else { piece };
        CutLink { link, piece }
    }

    /// What it cuts.
    pub fn link(&self) -> &L {
        &self.link
    }
}

impl<L: Link> Link for CutLink<L> {
    ghost use Rattle.std.specs.Prelude.{None};

    ghost told = { λ l. None };

    ghost sound = { λ l. ⊥ };

    ghost count = { λ l. L.count l.link };

    ghost is_wire = { λ l. tt };

    fn faults(&self) -> u64 {
        self.link.faults()
    }

    fn read(&mut self, into: &mut [u8]) -> Got {
        let most = self.piece.min(into.len());
        let (front, _) = into.split_at_mut(most);
        self.link.read(front)
    }

    fn write(&mut self, from: &[u8]) -> Put {
        let most = self.piece.min(from.len());
        let (front, _) = from.split_at(most);
        self.link.write(front)
    }
}
