// The Unix sockets of the system.
ghost use Rattle.std.specs.Prelude.{◌≡◌};
ghost use Rattle.cos_base.specs.Counts.{Rises};

use crate::unix_link::UnixLink;
use cos_base::{NetFault, Network};
use std::alloc::Global;
use std::fs;
use std::fs::Files;
use std::net::Net;
use std::os::unix::net::{UnixListener, UnixStream};

/// A listener that waits for its connection.
#[derive(Drop)]
struct Listening {
    number: u32,
    listener: UnixListener,
    name: String,
}

/// The Unix stream sockets of the system as a network; names are paths of socket files. It tells nothing of content.
///
/// A listener serves one connection: `accept` closes it and removes its socket file, whatever it answers, and so does
/// dropping the network for the listeners that are left.
pub struct UnixNet<'a, R: Files + Net> {
    rt: &'a R,
    alloc: Global,
    waiting: Vec<Listening>,
    next: u32,
    faults: u64,
}

impl<'a, R: Files + Net> UnixNet<'a, R> {
    /// It takes no memory.
    pub fn make(alloc: Global, rt: &'a R) -> UnixNet<'a, R>
        ensures { ⟦<UnixNet<'a, R> as Network>⟧.count result ≡ 0 }
    {
        UnixNet {
            rt,
            alloc,
            waiting: Vec::new(alloc),
            next: 0,
            faults: 0,
        }
    }

    /// Counts one fault.
    fn fail<T>(&mut self) -> Result<T, NetFault>
        ensures rises { Rises self.old.faults self.new.faults }
        ensures failed { result ≡ Err NetFault.Failed }
    {
        self.faults = self.faults.saturating_add(1);
        Err(NetFault::Failed)
    }

    /// Takes the listener of that number out.
    fn take(&mut self, number: u32) -> Option<Listening>
        ensures faults { self.new.faults ≡ self.old.faults }
    {
        let at = self.waiting.iter().position(|l| l.number == number)?;
        Some(self.waiting.swap_remove(at))
    }
}

impl<R: Files + Net> Network for UnixNet<'_, R> {
    type Link = UnixLink;

    ghost use Rattle.std.specs.Prelude.{None};

    ghost told = { λ n. None };

    ghost sound = { λ n. ⊥ };

    ghost count = { λ n. n.faults };

    ghost sound_tells = { λ n is. absurd is };

    ghost are_fresh = { λ n. tt };

    fn faults(&self) -> u64 {
        self.faults
    }

    fn listen(&mut self, name: &str) -> Result<u32, NetFault> {
        let copy = String::from_str(self.alloc, name)?;
        self.waiting.reserve(1)?;
        let listener = match UnixListener::bind(self.rt, name) {
            Ok(listener) => listener,
            Err(_) => return self.fail(),
        };
        let number = self.next;
        self.next = self.next.saturating_add(1);
        let one = Listening {
            number,
            listener,
            name: copy,
        };
        match self.waiting.push(one) {
            Ok(()) => Ok(number),
            Err(_) => Err(NetFault::NoMemory),
        }
    }

    fn accept(&mut self, listener: u32) -> Result<UnixLink, NetFault> {
        let one = match self.take(listener) {
            Some(one) => one,
            None => return self.fail(),
        };
        let accepted = one.listener.accept();
        let _removed = fs::remove_file(self.rt, one.name.as_str());
        match accepted {
            Ok((stream, _)) => Ok(UnixLink::make(stream)),
            Err(_) => self.fail(),
        }
    }

    fn connect(&mut self, name: &str) -> Result<UnixLink, NetFault> {
        match UnixStream::connect(self.rt, name) {
            Ok(stream) => Ok(UnixLink::make(stream)),
            Err(_) => self.fail(),
        }
    }
}

impl<R: Files + Net> Drop for UnixNet<'_, R> {
    fn drop(self) {
        let UnixNet {
            rt,
            alloc: _,
            waiting,
            next: _,
            faults: _,
        } = self;
        for one in waiting {
            let _removed = fs::remove_file(rt, one.name.as_str());
        }
    }
}
