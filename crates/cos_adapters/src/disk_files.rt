// The files of the system.
ghost use Rattle.std.specs.Prelude.{◌≡◌, ◌+◌, ◌≤◌, length, OnOk};
ghost use Rattle.cos_base.specs.Counts.{Rises};

use cos_base::{FileFault, Files, Octets};
use std::alloc::Global;
use std::fs;
use std::fs::OpenFile;
use std::io::Read;

/// How many bytes a file may have: 128 MiB.
const MOST: usize = 134_217_728;

/// How many bytes are asked of the system at once.
const PIECE: usize = 65_536;

/// The files of the system; names are paths. A file of more than 134,217,728 bytes counts as a failure. It tells nothing of content.
#[derive(Drop)]
pub struct DiskFiles<'a, R: fs::Files> {
    rt: &'a R,
    alloc: Global,
    faults: u64,
}

impl<'a, R: fs::Files> DiskFiles<'a, R> {
    /// It takes no memory.
    pub fn make(alloc: Global, rt: &'a R) -> DiskFiles<'a, R>
        ensures { ⟦<DiskFiles<'a, R> as Files>⟧.count result ≡ 0 }
    {
        DiskFiles {
            rt,
            alloc,
            faults: 0,
        }
    }

    /// Counts one fault.
    fn fail<T>(&mut self) -> Result<T, FileFault>
        ensures rises { Rises self.old.faults self.new.faults }
        ensures failed { result ≡ Err FileFault.Failed }
    {
        self.faults = self.faults.saturating_add(1);
        Err(FileFault::Failed)
    }
}

/// Reads a file to its end.
fn read_all<F: Read + OpenFile>(alloc: Global, file: &mut F) -> Result<Octets, FileFault> {
    let size = match file.metadata() {
        Ok(about) => about.len(),
        Err(_) => return Err(FileFault::Failed),
    };
    if size > MOST as u64 {
        return Err(FileFault::Failed);
    }
    let mut bytes = Octets::make(alloc);
    bytes.reserve(size as usize)?;
    let mut buffer = [0u8; PIECE];
    'pieces: loop {
        match file.read(&mut buffer) {
            Ok(0) => return Ok(bytes),
            Ok(count) => add_piece(&mut bytes, &buffer[..count])?,
            Err(_) => return Err(FileFault::Failed),
        }
    }
}

/// Adds a piece, as long as the file doesn't grow past its bound.
fn add_piece(bytes: &mut Octets, piece: &[u8]) -> Result<(), FileFault>
    ensures ok { OnOk result (length bytes.new.bytes ≡ length bytes.old.bytes + length piece.now) }
    ensures bound { OnOk result (length bytes.new.bytes ≤ MOST) }
{
    if bytes.len() > MOST || piece.len() > MOST - bytes.len() {
        return Err(FileFault::Failed);
    }
    Ok(bytes.push_all(piece)?)
}

impl<R: fs::Files> Files for DiskFiles<'_, R> {
    ghost use Rattle.std.specs.Prelude.{[], None};

    ghost told = { λ f. None };

    ghost asked = { λ f. [] };

    ghost sound = { λ f. ⊥ };

    ghost count = { λ f. f.faults };

    ghost sound_tells = { λ f is. absurd is };

    fn faults(&self) -> u64 {
        self.faults
    }

    fn read(&mut self, name: &str) -> Result<Octets, FileFault> {
        let mut file = match fs::open(self.rt, name) {
            Ok(file) => file,
            Err(_) => return self.fail(),
        };
        match read_all(self.alloc, &mut file) {
            Ok(bytes) => Ok(bytes),
            Err(FileFault::Failed) => self.fail(),
            Err(FileFault::NoMemory) => Err(FileFault::NoMemory),
        }
    }

    fn write(&mut self, name: &str, bytes: &[u8]) -> Result<(), FileFault> {
        match fs::write(self.rt, name, bytes) {
            Ok(()) => Ok(()),
            Err(_) => self.fail(),
        }
    }
}
