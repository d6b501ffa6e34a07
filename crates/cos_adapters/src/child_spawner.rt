// The processes of the system that a program starts.
ghost use Rattle.std.specs.Prelude.{◌≡◌};
ghost use Rattle.cos_base.specs.Counts.{Rises};

use cos_children::{SpawnFault, Spawner};
use std::alloc::{AllocError, Global};
use std::io::ErrorKind;
use std::process::{Child, Command, OpenProcess, Processes, Stdio};

/// A process that was started and not yet waited for.
#[derive(Drop)]
struct Running<R: Processes> {
    number: u32,
    process: Child<R::Started>,
}

/// The processes of the system as children. It tells nothing of content.
///
/// A child's first word is the path of its program, or a name that is looked for in the path of programs. Its standard
/// output and standard error are those of this process, and its standard input is empty. Dropping the spawner kills the
/// children that are left, and waits for them.
pub struct ChildSpawner<'a, R: Processes> {
    rt: &'a R,
    alloc: Global,
    running: Vec<Running<R>>,
    next: u32,
    faults: u64,
}

impl<'a, R: Processes> ChildSpawner<'a, R> {
    /// It takes no memory.
    pub fn make(alloc: Global, rt: &'a R) -> ChildSpawner<'a, R>
        ensures { ⟦<ChildSpawner<'a, R> as Spawner>⟧.count result ≡ 0 }
    {
        ChildSpawner {
            rt,
            alloc,
            running: Vec::new(alloc),
            next: 0,
            faults: 0,
        }
    }

    /// Counts one fault.
    fn fail<T>(&mut self) -> Result<T, SpawnFault>
        ensures rises { Rises self.old.faults self.new.faults }
        ensures failed { result ≡ Err SpawnFault.Failed }
    {
        self.faults = self.faults.saturating_add(1);
        Err(SpawnFault::Failed)
    }

    /// Takes the child of that number out.
    fn take(&mut self, number: u32) -> Option<Running<R>>
        ensures faults { self.new.faults ≡ self.old.faults }
    {
        let at = self.running.iter().position(|one| one.number == number)?;
        Some(self.running.swap_remove(at))
    }

    /// The command of these words, where there is a first one.
    fn command(&self, words: &[String]) -> Result<Option<Command>, AllocError> {
        let Some((program, arguments)) = words.split_first() else {
            return Ok(None);
        };
        let mut command = Command::new(self.alloc, program.as_str())?;
        for argument in arguments {
            command.arg(argument.as_str())?;
        }
        command.stdin(Stdio::null());
        Ok(Some(command))
    }
}

/// Kills a process, and waits for it, so that none is left behind.
fn end<P: OpenProcess + Drop>(mut process: Child<P>) {
    let _killed = process.kill();
    let _ended = process.wait();
}

impl<R: Processes> Spawner for ChildSpawner<'_, R> {
    ghost use Rattle.std.specs.Prelude.{None};

    ghost told = { λ s. None };

    ghost sound = { λ s. ⊥ };

    ghost count = { λ s. s.faults };

    ghost sound_tells = { λ s is. absurd is };

    ghost are_children = { λ s. tt };

    fn faults(&self) -> u64 {
        self.faults
    }

    /// No words are a failure. It gives 2^32 - 1 numbers, and then wants memory.
    fn start(&mut self, words: &[String]) -> Result<u32, SpawnFault> {
        let number = self.next;
        let Some(next) = number.checked_add(1) else {
            return Err(SpawnFault::NoMemory);
        };
        let Some(mut command) = self.command(words)? else {
            return self.fail();
        };
        self.running.reserve(1)?;
        let process = match command.spawn(self.rt) {
            Ok(process) => process,
            Err(error) if error.kind() == ErrorKind::OutOfMemory => {
                return Err(SpawnFault::NoMemory);
            }
            Err(_) => return self.fail(),
        };
        self.next = next;
        match self.running.push(Running { number, process }) {
            Ok(()) => Ok(number),
            Err(_) => unreachable!(),
        }
    }

    /// A child that a signal ended gave no status, which is a failure. It takes no memory.
    fn wait(&mut self, child: u32) -> Result<u8, SpawnFault> {
        let Some(mut one) = self.take(child) else {
            return self.fail();
        };
        let Ok(status) = one.process.wait() else {
            end(one.process);
            return self.fail();
        };
        match status.code().map(u8::try_from) {
            Some(Ok(code)) => Ok(code),
            Some(Err(_)) | None => self.fail(),
        }
    }
}

impl<R: Processes> Drop for ChildSpawner<'_, R> {
    fn drop(self) {
        let ChildSpawner {
            rt: _,
            alloc: _,
            running,
            next: _,
            faults: _,
        } = self;
        for one in running {
            end(one.process);
        }
    }
}
