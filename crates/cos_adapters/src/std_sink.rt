// Standard output and standard error.
ghost use Rattle.std.specs.Prelude.{◌≡◌};

use cos_base::{Failed, Sink};
use std::io::Write;

/// A stream of the system as a sink, such as standard output or standard error. It keeps no bytes back, and tells nothing of content.
#[derive(Drop)]
pub struct StdSink<W: Write> {
    inner: W,
    faults: u64,
}

impl<W: Write> StdSink<W> {
    /// It takes no memory.
    pub fn make(inner: W) -> StdSink<W>
        ensures { ⟦<StdSink<W> as Sink>⟧.count result ≡ 0 }
    {
        StdSink { inner, faults: 0 }
    }
}

impl<W: Write> Sink for StdSink<W> {
    ghost use Rattle.std.specs.Prelude.{None};

    ghost told = { λ s. None };

    ghost sound = { λ s. ⊥ };

    ghost room = { λ s. 0 };

    ghost count = { λ s. s.faults };

    ghost sound_tells = { λ s is. absurd is };

    fn faults(&self) -> u64 {
        self.faults
    }

    fn put(&mut self, bytes: &[u8]) -> Result<(), Failed> {
        match self.inner.write_all(bytes) {
            Ok(()) => Ok(()),
            Err(_) => {
                self.faults = self.faults.saturating_add(1);
                Err(Failed)
            }
        }
    }
}
