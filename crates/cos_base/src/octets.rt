// A list of bytes with room that contracts see.
ghost use Rattle.std.specs.Prelude.{◌≡◌, ◌+◌, ◌-◌, ◌≤◌, ◌++◌, [], length, drop, IfOk, OnOk, OnErr, IsOk};
ghost use Rattle.cos_base.specs.Octets.{overwritten};

use crate::NoMemory;
use std::alloc::Global;
use std::marker::Model;

/// A list of bytes. Contracts see its bytes and its `spare`: how many more bytes it takes without asking for memory.
#[derive(Drop)]
pub struct Octets {
    items: Vec<u8>,
    room: usize,
}

impl Model for Octets {
    ghost use Rattle.std.specs.Prelude.{◌+◌, ◌≤◌, vec_len, vec_capacity};
    ghost use Rattle.cos_base.specs.Octets.{Held};

    ghost Value = { Held };

    ghost view = { λ o. record { bytes = o.items.items; spare = o.room } };

    ghost invariant = { λ o. vec_len o.items + o.room ≤ vec_capacity o.items };
}

impl Octets {
    /// The empty list. It takes no memory.
    pub fn make(alloc: Global) -> Octets
        ensures bytes { result.bytes ≡ [] }
        ensures spare { result.spare ≡ 0 }
    {
        Octets {
            items: Vec::new(alloc),
            room: 0,
        }
    }

    /// The number of bytes.
    pub fn len(&self) -> usize
        ensures { result ≡ length self.now.bytes }
    {
        self.items.len()
    }

    /// The bytes.
    pub fn as_slice(&self) -> &[u8]
        ensures { result.now ≡ self.now.bytes }
    {
        self.items.as_slice()
    }

    /// How many more bytes it takes without asking for memory.
    pub fn spare(&self) -> usize
        ensures { result ≡ self.now.spare }
    {
        self.room
    }

    /// Appends all. In the room that there is it takes no memory; where they take more than that, no room is left.
    pub fn push_all(&mut self, bytes: &[u8]) -> Result<(), NoMemory>
        ensures ok { OnOk result (self.new.bytes ≡ self.old.bytes ++ bytes.now) }
        ensures spare { OnOk result (self.new.spare ≡ self.old.spare - length bytes.now) }
        ensures err { OnErr result (self.new ≡ self.old) }
        ensures fits { length bytes.now ≤ self.old.spare → IsOk result }
    {
        if bytes.len() <= self.room {
            self.push_spare(bytes);
            return Ok(());
        }
        self.items.extend_from_slice(bytes)?;
        self.room = 0;
        Ok(())
    }

    /// Makes room for at least so many more bytes. Where there is that much already, it takes no memory.
    pub fn reserve(&mut self, more: usize) -> Result<(), NoMemory>
        ensures bytes { self.new.bytes ≡ self.old.bytes }
        ensures ok { OnOk result (more ≤ self.new.spare) }
        ensures grows { self.old.spare ≤ self.new.spare }
        ensures err { OnErr result (self.new ≡ self.old) }
        ensures fits { more ≤ self.old.spare → IsOk result × (self.new ≡ self.old) }
    {
        if more <= self.room {
            return Ok(());
        }
        self.items.reserve(more)?;
        self.room = self.items.capacity() - self.items.len();
        Ok(())
    }

    /// Appends all, in the room that there is. It takes no memory.
    pub fn push_spare(&mut self, bytes: &[u8])
        requires { length bytes.now ≤ self.old.spare }
        ensures bytes { self.new.bytes ≡ self.old.bytes ++ bytes.now }
        ensures spare { self.new.spare + length bytes.now ≡ self.old.spare }
    {
        let room = self.room - bytes.len();
        match self.items.extend_from_slice(bytes) {
            Ok(()) => self.room = room,
            Err(_) => unreachable!(),
        }
    }

    /// Empties the list, and keeps its memory as room.
    pub fn clear(&mut self)
        ensures bytes { self.new.bytes ≡ [] }
        ensures spare { self.old.spare + length self.old.bytes ≤ self.new.spare }
    {
        self.items.clear();
        self.room = self.items.capacity();
    }

    /// Drops bytes from the front, and keeps their memory as room. It moves the bytes that are left, so a reader
    /// of many small packets calls it once in a while and not for each of them.
    pub fn drop_front(&mut self, count: usize)
        requires { count ≤ length self.old.bytes }
        ensures bytes { self.new.bytes ≡ drop count self.old.bytes }
        ensures spare { self.new.spare ≡ self.old.spare + count }
    {
        self.items.drain(..count);
        self.room += count;
    }

    /// Replaces the bytes from a place on by as many others. It takes no memory.
    pub fn overwrite(&mut self, at: usize, bytes: &[u8])
        requires { at + length bytes.now ≤ length self.old.bytes }
        ensures bytes { self.new.bytes ≡ overwritten self.old.bytes at bytes.now }
        ensures spare { self.new.spare ≡ self.old.spare }
    {
        self.items[at..at + bytes.len()].copy_from_slice(bytes);
    }

    /// A list of the same bytes, without room.
    pub fn copy(&self, alloc: Global) -> Result<Octets, NoMemory>
        ensures bytes { IfOk result (λ o. o.bytes ≡ self.now.bytes) }
        ensures spare { IfOk result (λ o. o.spare ≡ 0) }
    {
        let items = Vec::from_slice(alloc, self.items.as_slice())?;
        Ok(Octets { items, room: 0 })
    }
}
