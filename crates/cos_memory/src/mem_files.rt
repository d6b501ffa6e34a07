// Files in memory.
ghost use Rattle.std.specs.Prelude.{◌≡◌, ◌+◌, ◌≤◌, ◌++◌, ◌↔◌, [], ◌∷◌, None, Some, OnErr, OnOk, IfOk, map, option_map, string_bytes, vec_len, vec_capacity};
ghost use Rattle.cos_memory.specs.Calls.{FailsNoMore};

use crate::calls::Calls;
use cos_base::{FileFault, Files, NoMemory, Numbers, Octets};
use std::alloc::Global;

/// A file in memory.
#[derive(Drop)]
pub struct MemFile {
    name: String,
    bytes: Octets,
}

/// Files in memory.
#[derive(Drop)]
pub struct MemFiles {
    alloc: Global,
    files: Vec<MemFile>,
    asked: Vec<String>,
    calls: Calls,
}

impl MemFiles {
    ghost use Rattle.cos_base.specs.Stores.{IsWith, IsSet};
    ghost use Rattle.cos_memory.specs.MemStores.{is_named, store_of};
    ghost use Rattle.cos_memory.specs.CallNumbers.{IsUncalled, files_calls};
    ghost use Rattle.std.specs.List.{position};

    /// No files yet. The calls with the numbers of `failing`, counted from 0, fail. It takes no memory.
    pub fn make(alloc: Global, failing: Numbers) -> MemFiles
        ensures told { ⟦<MemFiles as Files>⟧.told result ≡ Some (λ name. None) }
        ensures asked { ⟦<MemFiles as Files>⟧.asked result ≡ [] }
        ensures count { ⟦<MemFiles as Files>⟧.count result ≡ 0 }
        ensures calls { IsUncalled (files_calls result) failing }
        ensures sound { ⟦<MemFiles as Files>⟧.sound result ↔ FailsNoMore 0 failing }
    {
        MemFiles {
            alloc,
            files: Vec::new(alloc),
            asked: Vec::new(alloc),
            calls: Calls::new(failing),
        }
    }

    /// Sets one file. It is no call.
    pub fn add(&mut self, name: &str, bytes: Octets) -> Result<(), NoMemory>
        ensures ok { OnOk result (IsSet (⟦<MemFiles as Files>⟧.told self.old) name.now bytes.bytes (⟦<MemFiles as Files>⟧.told self.new)) }
        ensures err { OnErr result (⟦<MemFiles as Files>⟧.told self.new ≡ ⟦<MemFiles as Files>⟧.told self.old) }
        ensures asked { ⟦<MemFiles as Files>⟧.asked self.new ≡ ⟦<MemFiles as Files>⟧.asked self.old }
        ensures count { ⟦<MemFiles as Files>⟧.count self.new ≡ ⟦<MemFiles as Files>⟧.count self.old }
        ensures calls { files_calls self.new ≡ files_calls self.old }
        ensures sound { ⟦<MemFiles as Files>⟧.sound self.new ↔ ⟦<MemFiles as Files>⟧.sound self.old }
    {
        let name = String::from_str(self.alloc, name)?;
        self.files.reserve(1)?;
        self.set(MemFile { name, bytes });
        Ok(())
    }

    /// The place of the file of a name.
    fn place(&self, name: &str) -> Option<usize>
        ensures { result ≡ position (is_named name.now) self.now.files.items }
    {
        self.files
            .iter()
            .position(|file| file.name.as_str() == name)
    }

    /// The bytes of the file of a name, where there is one.
    fn copy_of(&self, name: &str) -> Result<Option<Octets>, NoMemory>
        ensures { IfOk result (λ copy. option_map (λ o. o.bytes) copy ≡ store_of self.now.files.items name.now) }
    {
        match self.place(name) {
            Some(at) => Ok(Some(self.files[at].bytes.copy(self.alloc)?)),
            None => Ok(None),
        }
    }

    /// Keeps a name that was asked for. It is no call.
    fn ask(&mut self, name: &str) -> Result<(), NoMemory>
        ensures ok { OnOk result (map string_bytes self.new.asked.items ≡ map string_bytes self.old.asked.items ++ name.now ∷ []) }
        ensures err { OnErr result (map string_bytes self.new.asked.items ≡ map string_bytes self.old.asked.items) }
        ensures files { self.new.files ≡ self.old.files }
        ensures calls { self.new.calls ≡ self.old.calls }
    {
        let copy = String::from_str(self.alloc, name)?;
        Ok(self.asked.push(copy)?)
    }

    /// Sets one file, in the room that there is.
    fn set(&mut self, file: MemFile)
        requires { vec_len self.old.files + 1 ≤ vec_capacity self.old.files }
        ensures files { IsWith (store_of self.old.files.items) (string_bytes file.name) file.bytes.bytes (store_of self.new.files.items) }
        ensures asked { self.new.asked ≡ self.old.asked }
        ensures calls { self.new.calls ≡ self.old.calls }
    {
        match self.place(file.name.as_str()) {
            Some(at) => self.files[at] = file,
            None => match self.files.push(file) {
                Ok(()) => {}
                Err(_) => unreachable!(),
            },
        }
    }
}

/// A file with this name and these bytes.
fn make_file(alloc: Global, name: &str, bytes: &[u8]) -> Result<MemFile, NoMemory>
    ensures name { IfOk result (λ f. string_bytes f.name ≡ name.now) }
    ensures bytes { IfOk result (λ f. f.bytes.bytes ≡ bytes.now) }
{
    let name = String::from_str(alloc, name)?;
    let mut copy = Octets::make(alloc);
    copy.push_all(bytes)?;
    Ok(MemFile { name, bytes: copy })
}

impl Files for MemFiles {
    ghost use Rattle.std.specs.Prelude.{◌≡◌, refl, None, Some, IsErrOf, map, string_bytes};
    ghost use Rattle.cos_base.specs.Stores.{FileCounts, Reads, Writes, Asks, ReadsSoundly};
    ghost use Rattle.cos_memory.specs.Calls.{FailsNoMore};
    ghost use Rattle.cos_memory.specs.CallNumbers.{FileCalls, files_calls};
    ghost use Rattle.cos_memory.specs.MemStores.{store_of};

    ghost told = { λ f. Some (store_of f.files.items) };

    ghost asked = { λ f. map string_bytes f.asked.items };

    ghost sound = { λ f. FailsNoMore f.calls.next f.calls.failing };

    ghost count = { λ f. f.calls.faults };

    ghost sound_tells = { λ f is. refl };

    fn faults(&self) -> u64 {
        self.calls.faults
    }

    /// It fails exactly where its call is listed or the name has no file.
    fn read(&mut self, name: &str) -> Result<Octets, FileFault>
        ensures counts { FileCounts self.old.calls.faults self.new.calls.faults result }
        ensures tells { Reads (Some (store_of self.old.files.items)) (Some (store_of self.new.files.items)) name.now result }
        ensures asks { Asks (Some (store_of self.old.files.items)) (map string_bytes self.old.asked.items) (map string_bytes self.new.asked.items) name.now result }
        ensures calls { FileCalls (files_calls self.old) (files_calls self.new) (store_of self.old.files.items name.now ≡ None) result }
        ensures is_sound { FailsNoMore self.old.calls.next self.old.calls.failing → FailsNoMore self.new.calls.next self.new.calls.failing × ReadsSoundly (Some (store_of self.old.files.items)) name.now result }
    {
        let copy = self.copy_of(name)?;
        self.ask(name)?;
        if self.calls.is_failing() {
            self.calls.fail();
            return Err(FileFault::Failed);
        }
        match copy {
            Some(bytes) => {
                self.calls.pass();
                Ok(bytes)
            }
            None => {
                self.calls.fail();
                Err(FileFault::Failed)
            }
        }
    }

    /// It fails exactly where its call is listed, and then changes no file.
    fn write(&mut self, name: &str, bytes: &[u8]) -> Result<(), FileFault>
        ensures counts { FileCounts self.old.calls.faults self.new.calls.faults result }
        ensures tells { Writes (Some (store_of self.old.files.items)) (Some (store_of self.new.files.items)) name.now bytes.now result }
        ensures asks { Asks (Some (store_of self.old.files.items)) (map string_bytes self.old.asked.items) (map string_bytes self.new.asked.items) name.now result }
        ensures calls { FileCalls (files_calls self.old) (files_calls self.new) ⊥ result }
        ensures is_sound { FailsNoMore self.old.calls.next self.old.calls.failing → FailsNoMore self.new.calls.next self.new.calls.failing × (IsErrOf result FileFault.Failed → ⊥) }
    {
        let file = make_file(self.alloc, name, bytes)?;
        self.files.reserve(1)?;
        self.ask(name)?;
        if self.calls.is_failing() {
            self.calls.fail();
            return Err(FileFault::Failed);
        }
        self.calls.pass();
        self.set(file);
        Ok(())
    }
}
