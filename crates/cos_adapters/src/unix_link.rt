// A connected Unix socket.
ghost use Rattle.std.specs.Prelude.{◌≡◌};
ghost use Rattle.cos_base.specs.Counts.{Rises};

use cos_base::{Got, Link, Put};
use std::io::{Read, Write};
use std::os::unix::net::UnixStream;

/// A connected Unix stream socket as a link. It tells nothing of content.
#[derive(Drop)]
pub struct UnixLink {
    stream: UnixStream,
    faults: u64,
}

impl UnixLink {
    /// It takes no memory.
    pub fn make(stream: UnixStream) -> UnixLink
        ensures { ⟦<UnixLink as Link>⟧.count result ≡ 0 }
    {
        UnixLink { stream, faults: 0 }
    }

    /// Counts one fault.
    fn fail(&mut self)
        ensures { Rises self.old.faults self.new.faults }
    {
        self.faults = self.faults.saturating_add(1);
    }
}

impl Link for UnixLink {
    ghost use Rattle.std.specs.Prelude.{None};

    ghost told = { λ l. None };

    ghost sound = { λ l. ⊥ };

    ghost count = { λ l. l.faults };

    ghost is_wire = { λ l. tt };

    fn faults(&self) -> u64 {
        self.faults
    }

    fn read(&mut self, into: &mut [u8]) -> Got {
        match self.stream.read(into) {
            Ok(0) => Got::End,
            Ok(count) => Got::Bytes { count },
            Err(_) => {
                self.fail();
                Got::Failed
            }
        }
    }

    fn write(&mut self, from: &[u8]) -> Put {
        match self.stream.write(from) {
            Ok(0) => {
                self.fail();
                Put::Failed
            }
            Ok(count) => Put::Bytes { count },
            Err(_) => {
                self.fail();
                Put::Failed
            }
        }
    }
}
