// A link in memory.
ghost use Rattle.std.specs.Prelude.{◌≡◌, ◌+◌, ◌-◌, ◌<◌, ◌≤◌, ◌↔◌, ◌∷◌, [], length, IsSome, IsTrue, min, take};
ghost use Rattle.std.specs.Option.{ForSome};
ghost use Rattle.cos_base.specs.Links.{is_fresh};
ghost use Rattle.cos_memory.specs.Peers.{said_of};
ghost use Rattle.cos_memory.specs.Calls.{FailsNoMore};

use crate::Peer;
use crate::calls::Calls;
use cos_base::{Got, Link, NoMemory, Numbers, Octets, Put};
use std::alloc::Global;

/// A link to a peer in memory. It hands what is written to the peer, and gives what the peer said in pieces of the cut sizes.
#[derive(Drop)]
pub struct MemLink<P: Peer> {
    peer: P,
    received: Octets,
    cuts: Numbers,
    cut: usize,
    calls: Calls,
    ghost within: { ForSome (P.told peer) (λ s. take (length received.bytes) (said_of s) ≡ received.bytes) },
}

impl<P: Peer> MemLink<P> {
    ghost use Rattle.cos_memory.specs.MemLinks.{wire_of};
    ghost use Rattle.cos_memory.specs.CallNumbers.{IsUncalled, link_calls};

    /// What was sent on it is what the peer heard; nothing was received. Reads give at most as many bytes as `cuts`
    /// says, one size after another; after the last one, and for a size of 0, as many as there are. The calls with the
    /// numbers of `failing`, counted from 0, fail. It takes no memory.
    pub fn make(alloc: Global, peer: P, cuts: Numbers, failing: Numbers) -> MemLink<P>
        requires { IsSome (P.told peer) }
        ensures told { ⟦<MemLink<P> as Link>⟧.told result ≡ wire_of (P.told peer) [] }
        ensures fresh { ForSome (P.told peer) (λ s. s.heard ≡ []) → IsTrue (is_fresh (⟦<MemLink<P> as Link>⟧.told result)) }
        ensures count { ⟦<MemLink<P> as Link>⟧.count result ≡ 0 }
        ensures calls { IsUncalled (link_calls result) failing }
        ensures sound { ⟦<MemLink<P> as Link>⟧.sound result ↔ FailsNoMore 0 failing }
    {
        MemLink {
            peer,
            received: Octets::make(alloc),
            cuts,
            cut: 0,
            calls: Calls::new(failing),
        }
    }

    /// What it talks to.
    pub fn peer(&self) -> &P
        ensures { ⟦<MemLink<P> as Link>⟧.told self.now ≡ wire_of (P.told result.now) self.now.received.bytes }
    {
        &self.peer
    }

    /// How many bytes the next read may give.
    fn next_piece(&self, most: usize) -> usize
        requires { 0 < most }
        ensures some { 0 < result }
        ensures bound { result ≤ most }
    {
        match self.cuts.as_slice().get(self.cut) {
            Some(size) => {
                let size = *size as usize;
                if size == 0 { most } else { size.min(most) }
            }
            None => most,
        }
    }
}

impl<P: Peer> Link for MemLink<P> {
    ghost use Rattle.std.specs.Prelude.{◌≡◌, ⊤};
    ghost use Rattle.cos_memory.specs.Calls.{FailsNoMore};
    ghost use Rattle.cos_memory.specs.CallNumbers.{GotCalls, PutCalls, link_calls};
    ghost use Rattle.cos_base.specs.Links.{GotCounts, GotBound, GotTold, GotSound, PutCounts, PutBound, PutTold, PutSound};
    ghost use Rattle.cos_memory.specs.MemLinks.{wire_of};
    ghost use Rattle.cos_memory.specs.MemLinkLaws.{wire_is};

    ghost told = { λ l. wire_of (P.told l.peer) l.received.bytes };

    ghost sound = { λ l. FailsNoMore l.calls.next l.calls.failing };

    ghost count = { λ l. l.calls.faults };

    ghost is_wire = { λ l. wire_is (P.told l.peer) l.received.bytes (P.grows l.peer) l.within };

    fn faults(&self) -> u64 {
        self.calls.faults
    }

    /// It fails exactly where its call is listed.
    fn read(&mut self, into: &mut [u8]) -> Got
        requires { 0 < length into.old }
        ensures counts { GotCounts self.old.calls.faults self.new.calls.faults result }
        ensures bound { GotBound result into.new }
        ensures tells { GotTold (wire_of (P.told self.old.peer) self.old.received.bytes) (wire_of (P.told self.new.peer) self.new.received.bytes) result into.new }
        ensures calls { GotCalls (link_calls self.old) (link_calls self.new) result }
        ensures is_sound { FailsNoMore self.old.calls.next self.old.calls.failing → FailsNoMore self.new.calls.next self.new.calls.failing × GotSound result }
    {
        let most = self.next_piece(into.len());
        match self.received.reserve(most) {
            Ok(()) => {}
            Err(NoMemory) => return Got::NoMemory,
        }
        if self.calls.is_failing() {
            self.calls.fail();
            return Got::Failed;
        }
        self.calls.pass();
        let (piece, _) = into.split_at_mut(most);
        let count = self.peer.said(self.received.len(), piece);
        if count == 0 {
            return Got::End;
        }
        self.cut = self.cut.saturating_add(1);
        let (front, _) = piece.split_at(count);
        self.received.push_spare(front);
        Got::Bytes { count }
    }

    /// It fails exactly where its call is listed.
    fn write(&mut self, from: &[u8]) -> Put
        requires { 0 < length from.now }
        ensures counts { PutCounts self.old.calls.faults self.new.calls.faults result }
        ensures bound { PutBound result from.now }
        ensures tells { PutTold (wire_of (P.told self.old.peer) self.old.received.bytes) (wire_of (P.told self.new.peer) self.new.received.bytes) result from.now }
        ensures calls { PutCalls (link_calls self.old) (link_calls self.new) result }
        ensures is_sound { FailsNoMore self.old.calls.next self.old.calls.failing → FailsNoMore self.new.calls.next self.new.calls.failing × PutSound result }
    {
        if self.calls.is_failing() {
            self.calls.fail();
            return Put::Failed;
        }
        match self.peer.hear(from) {
            Ok(()) => {}
            Err(NoMemory) => return Put::NoMemory,
        }
        self.calls.pass();
        Put::Bytes { count: from.len() }
    }
}
