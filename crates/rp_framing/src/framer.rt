ghost use Rattle.std.specs.Prelude.{◌≡◌, ◌+◌, ◌*◌, ◌≤◌, ◌++◌, ℕ, List, [], None, false, IsOk, IsSome, length, drop, min, OnOk, OnErr, IfOk, IfErr, IfSome};

use crate::fault::{FrameFault, Truncated};
use crate::front::{behind, front_of, is_whole};
use cos_base::{NoMemory, Octets};
use rp_packet::{Packet, PacketFault, ReadFault};
use std::alloc::Global;
use std::marker::Model;

/// How many bytes a framer keeps room for: the longest packet, and a piece of 4,096.
const ROOM: usize = 69652;

/// Makes packets of a stream of bytes. What it gives doesn't depend on how the stream was cut.
///
/// Bytes of taken packets stay at the front of its list until room is needed, so that taking a packet costs nothing.
#[derive(Drop)]
pub struct Framer {
    alloc: Global,
    bytes: Octets,
    /// How many bytes at the front of the list belong to taken packets.
    begin: usize,
    taken: u64,
    kept: Option<PacketFault>,
}

impl Model for Framer {
    ghost use Rattle.std.specs.Prelude.{◌+◌, ◌≤◌, length, drop};
    ghost use Rattle.rp_framing.specs.Framing.{Frames, IsKept};

    ghost Value = { Frames };

    ghost view = { λ f. record { held = drop f.begin f.bytes.bytes; taken = f.taken; room = f.bytes.spare + f.begin; kept = f.kept } };

    ghost invariant = { λ f. (f.begin ≤ length f.bytes.bytes) × IsKept f.kept f.taken (drop f.begin f.bytes.bytes) };
}

impl Framer {
    ghost use Rattle.cosim_model.specs.Packets.{Packet as PacketValue};
    ghost use Rattle.rp_header.specs.Numbers.{AreBytes};
    ghost use Rattle.rp_framing.specs.Framing.{Frames, Feeds, Fronts, Nexts, WaitsForMore, after_skip, is_ready};
    ghost use Rattle.rp_framing.specs.Cuts.{Taken, NextOf, StaysAfter, GrowsBy, EndsWith};

    /// It takes no memory.
    pub fn make(alloc: Global) -> Framer
        ensures { result ≡ record { held = []; taken = 0; room = 0; kept = None } }
    {
        Framer {
            alloc,
            bytes: Octets::make(alloc),
            begin: 0,
            taken: 0,
            kept: None,
        }
    }

    /// Appends bytes of the stream. After a fault of `next` it drops them.
    pub fn feed(&mut self, bytes: &[u8]) -> Result<(), NoMemory>
        ensures kept { IsSome self.old.kept → IsOk result × (self.new ≡ self.old) }
        ensures ok { OnOk result (Feeds bytes.now self.old self.new) }
        ensures any_cut { OnOk result ((b : List ℕ) → GrowsBy bytes.now b self.old self.new) }
        ensures err { OnErr result (self.new ≡ self.old) }
    {
        match self.kept {
            Some(_) => Ok(()),
            None => {
                self.make_way(bytes.len());
                self.bytes.push_all(bytes)
            }
        }
    }

    /// Appends bytes of the stream in the room that there is. After a fault of `next` it drops them. It takes no memory.
    pub fn feed_spare(&mut self, bytes: &[u8])
        requires { length bytes.now ≤ self.old.room }
        ensures kept { IsSome self.old.kept → self.new ≡ self.old }
        ensures feeds { Feeds bytes.now self.old self.new }
        ensures any_cut { (b : List ℕ) → GrowsBy bytes.now b self.old self.new }
    {
        if self.kept.is_some() {
            return;
        }
        self.begin = make_room(&mut self.bytes, self.begin, bytes.len());
        self.bytes.push_spare(bytes);
    }

    /// Makes room for at least the longest packet and a piece of 4,096 bytes: held bytes and room are together at least 69,652.
    pub fn reserve(&mut self) -> Result<(), NoMemory>
        ensures ok { OnOk result (69652 ≤ length self.new.held + self.new.room) }
        ensures held { self.new.held ≡ self.old.held }
        ensures taken { self.new.taken ≡ self.old.taken }
        ensures kept { self.new.kept ≡ self.old.kept }
        ensures grows { self.old.room ≤ self.new.room }
        ensures err { OnErr result (self.new ≡ self.old) }
    {
        let all = self.bytes.len();
        if all >= ROOM || self.bytes.spare() >= ROOM - all {
            return Ok(());
        }
        self.close_up();
        let held = self.bytes.len();
        if held < ROOM {
            self.bytes.reserve(ROOM - held)?;
        }
        Ok(())
    }

    /// How many bytes `feed_spare` takes.
    pub fn room(&self) -> usize
        ensures { result ≡ min self.now.room usize.MAX }
    {
        self.bytes.spare().saturating_add(self.begin)
    }

    /// The next packet, if it is whole. A fault is answered again from then on; want of memory leaves the packet held.
    pub fn next(&mut self) -> Result<Option<Packet>, FrameFault>
        ensures nexts { Nexts self.old self.new result }
        ensures few { WaitsForMore self.new result }
        ensures any_cut { (given : List PacketValue) (b : List ℕ) → Taken given b self.old → NextOf given (b ++ self.old.held) result }
        ensures stays { (given : List PacketValue) (b : List ℕ) → Taken given b self.old → StaysAfter given b self.old self.new result }
    {
        match self.kept {
            Some(fault) => Err(FrameFault::Malformed(fault)),
            None => self.take_front(),
        }
    }

    /// The packet that stands whole at the front of what is held, and its size in bytes. It stays there. A fault is told and
    /// not kept.
    pub fn front(&self) -> Result<Option<(Packet, usize)>, FrameFault>
        requires { self.now.kept ≡ None }
        ensures front { Fronts self.now result }
        ensures bytes { AreBytes self.now.held }
        ensures within { IfOk result (λ front. IfSome front (λ p. p.1 ≤ length self.now.held)) }
    {
        match front_of(self.alloc, behind(self.bytes.as_slice(), self.begin)) {
            Ok(front) => Ok(front),
            Err(ReadFault::Malformed(fault)) => Err(FrameFault::Malformed(PacketFault {
                start: self.taken,
                place: fault.place,
                cause: fault.cause,
            })),
            Err(ReadFault::NoMemory) => Err(FrameFault::NoMemory),
        }
    }

    /// Takes away the packet at the front, which has so many bytes. It takes no memory.
    pub fn skip(&mut self, size: usize)
        requires kept { self.old.kept ≡ None }
        requires within { size ≤ length self.old.held }
        ensures { self.new ≡ after_skip size self.old }
    {
        let left = self.bytes.len() - self.begin - size;
        self.begin = self.bytes.len() - left;
        self.taken = self.taken.saturating_add(size as u64);
    }

    /// Takes the packet that stands whole at the front of what is held. A fault there is kept.
    fn take_front(&mut self) -> Result<Option<Packet>, FrameFault>
        requires { self.old.kept ≡ None }
        ensures nexts { Nexts self.old self.new result }
        ensures bytes { AreBytes self.old.held }
    {
        match self.front() {
            Ok(None) => Ok(None),
            Ok(Some((packet, size))) => {
                self.skip(size);
                Ok(Some(packet))
            }
            Err(FrameFault::Malformed(fault)) => {
                self.kept = Some(fault);
                Err(FrameFault::Malformed(fault))
            }
            Err(FrameFault::NoMemory) => Err(FrameFault::NoMemory),
        }
    }

    /// How many bytes were taken, up to 18,446,744,073,709,551,615. It takes no memory.
    pub fn taken(&self) -> u64
        ensures { result ≡ self.now.taken }
    {
        self.taken
    }

    /// How many bytes are held of which no packet was made yet. It takes no memory.
    pub fn held(&self) -> usize
        ensures { result ≡ length self.now.held }
    {
        self.bytes.len() - self.begin
    }

    /// Whether `next` has something to answer: a packet or a fault. It takes no memory.
    pub fn ready(&self) -> bool
        ensures { result ≡ is_ready self.now }
    {
        self.kept.is_some() || is_whole(behind(self.bytes.as_slice(), self.begin))
    }

    /// What the end of the stream means: bytes of an unfinished packet are a fault. It takes no memory.
    pub fn at_end(&self) -> Result<(), Truncated>
        requires { is_ready self.now ≡ false }
        ensures ok { OnOk result (self.now.held ≡ []) }
        ensures truncated { IfErr result (λ t. (t.start ≡ self.now.taken) × (t.held ≡ length self.now.held) × (1 ≤ t.held)) }
        ensures any_cut { (given : List PacketValue) (b : List ℕ) → Taken given b self.now → EndsWith given (b ++ self.now.held) result }
    {
        let held = self.bytes.len() - self.begin;
        if held == 0 {
            return Ok(());
        }
        Err(Truncated {
            start: self.taken,
            held: held as u64,
        })
    }

    /// Closes up the place of taken packets.
    fn close_up(&mut self)
        ensures same { self.new ≡ self.old }
    {
        self.bytes.drop_front(self.begin);
        self.begin = 0;
    }

    /// Closes up the place of taken packets where more room is needed, and no more bytes are moved than were taken.
    fn make_way(&mut self, more: usize)
        ensures { self.new ≡ self.old }
    {
        let held = self.bytes.len() - self.begin;
        if more > self.bytes.spare() && held <= self.begin {
            self.close_up();
        }
    }
}

/// Closes up the place of the first bytes where there is no room for more otherwise. It gives how many are left of them.
fn make_room(bytes: &mut Octets, begin: usize, more: usize) -> usize
    requires within { begin ≤ length bytes.old.bytes }
    requires room { more ≤ bytes.old.spare + begin }
    ensures held { drop result bytes.new.bytes ≡ drop begin bytes.old.bytes }
    ensures within { result ≤ length bytes.new.bytes }
    ensures same { bytes.new.spare + result ≡ bytes.old.spare + begin }
    ensures fits { more ≤ bytes.new.spare }
{
    if more <= bytes.spare() {
        return begin;
    }
    bytes.drop_front(begin);
    0
}
