// A network in memory.
ghost use Rattle.std.specs.Prelude.{◌≡◌, ◌++◌, ◌↔◌, [], ◌∷◌, All, OnErr, OnOk, IfOk, IfErr, map, string_bytes, IsTrue, IsErrOf};
ghost use Rattle.std.specs.List.{list_all};
ghost use Rattle.cos_base.specs.Counts.{Counts};
ghost use Rattle.cos_base.specs.Links.{is_fresh};
ghost use Rattle.cos_base.specs.Networks.{AllFresh};
ghost use Rattle.cos_memory.specs.Calls.{FailsNoMore};
ghost use Rattle.cos_memory.specs.MemLinks.{wire_of};

use crate::calls::Calls;
use crate::{MemLink, Peer};
use cos_base::{Link, NetFault, Network, NoMemory, Numbers};
use std::alloc::Global;

/// A network in memory, which hands out its prepared links in order.
#[derive(Drop)]
pub struct MemNet<P: Peer> {
    alloc: Global,
    links: Vec<MemLink<P>>,
    names: Vec<String>,
    listeners: u32,
    calls: Calls,
    ghost fresh: { IsTrue (list_all (λ l. is_fresh (wire_of (P.told l.peer) l.received.bytes)) links.items) },
}

impl<P: Peer> MemNet<P> {
    ghost use Rattle.cos_memory.specs.MemNets.{AllSound};
    ghost use Rattle.cos_memory.specs.CallNumbers.{IsUncalled, NetCalls, net_calls};

    /// Keeps the links that it will hand out. The calls with the numbers of `failing`, counted from 0, fail. It takes no memory.
    pub fn make(alloc: Global, links: Vec<MemLink<P>>, failing: Numbers) -> MemNet<P>
        requires { AllFresh ⟦<MemLink<P> as Link>⟧.told links.items }
        ensures told { ⟦<MemNet<P> as Network>⟧.told result ≡ Some (record { coming = links.items; names = [] }) }
        ensures count { ⟦<MemNet<P> as Network>⟧.count result ≡ 0 }
        ensures calls { IsUncalled (net_calls result) failing }
        ensures sound { ⟦<MemNet<P> as Network>⟧.sound result ↔ (FailsNoMore 0 failing × AllSound links.items) }
    {
        MemNet {
            alloc,
            links,
            names: Vec::new(alloc),
            listeners: 0,
            calls: Calls::new(failing),
        }
    }

    /// Adds a name. It is no call.
    fn add_name(&mut self, name: &str) -> Result<(), NoMemory>
        ensures ok { OnOk result (map string_bytes self.new.names.items ≡ map string_bytes self.old.names.items ++ name.now ∷ []) }
        ensures err { OnErr result (map string_bytes self.new.names.items ≡ map string_bytes self.old.names.items) }
        ensures links { self.new.links.items ≡ self.old.links.items }
        ensures calls { self.new.calls ≡ self.old.calls }
    {
        let copy = String::from_str(self.alloc, name)?;
        Ok(self.names.push(copy)?)
    }

    /// Hands out the first link, where this call isn't to fail and there is one.
    fn first(&mut self) -> Result<MemLink<P>, NetFault>
        ensures ok { IfOk result (λ l. self.old.links.items ≡ l ∷ self.new.links.items) }
        ensures fresh { IfOk result (λ l. IsTrue (is_fresh (wire_of (P.told l.peer) l.received.bytes))) }
        ensures only { IfErr result (λ e. e ≡ NetFault.Failed) }
        ensures err { OnErr result (self.new.links.items ≡ self.old.links.items) }
        ensures names { self.new.names ≡ self.old.names }
        ensures count { Counts self.old.calls.faults self.new.calls.faults result }
        ensures calls { NetCalls self.old.calls self.new.calls (self.old.links.items ≡ []) result }
        ensures unfailing { FailsNoMore self.old.calls.next self.old.calls.failing → FailsNoMore self.new.calls.next self.new.calls.failing }
        ensures sound { AllSound self.old.links.items → AllSound self.new.links.items }
        ensures empty { FailsNoMore self.old.calls.next self.old.calls.failing → IsErrOf result NetFault.Failed → self.old.links.items ≡ [] }
    {
        if self.calls.is_failing() || self.links.is_empty() {
            self.calls.fail();
            return Err(NetFault::Failed);
        }
        self.calls.pass();
        Ok(self.links.remove(0))
    }
}

impl<P: Peer> Network for MemNet<P> {
    type Link = MemLink<P>;

    ghost use Rattle.std.specs.Prelude.{◌≡◌, [], ◌∷◌, map, string_bytes, Some, All, IfOk, IfSome, IsErrOf};
    ghost use Rattle.cos_memory.specs.Calls.{FailsNoMore};
    ghost use Rattle.cos_memory.specs.CallNumbers.{NetCalls, net_calls};
    ghost use Rattle.cos_base.specs.Links.{IsFresh};
    ghost use Rattle.cos_base.specs.Networks.{NetCounts, Hands, Listens, HandsSound};
    ghost use Rattle.cos_memory.specs.MemNets.{AllSound};

    ghost told = { λ n. Some (record { coming = n.links.items; names = map string_bytes n.names.items }) };

    ghost sound = { λ n. FailsNoMore n.calls.next n.calls.failing
        × AllSound n.links.items };

    ghost count = { λ n. n.calls.faults };

    ghost sound_tells = { λ n is. is.1 };

    ghost are_fresh = { λ n. n.fresh };

    fn faults(&self) -> u64 {
        self.calls.faults
    }

    /// It fails exactly where its call is listed.
    fn listen(&mut self, name: &str) -> Result<u32, NetFault>
        ensures counts { NetCounts self.old.calls.faults self.new.calls.faults result }
        ensures tells { Listens (Some (record { coming = self.old.links.items; names = map string_bytes self.old.names.items })) (Some (record { coming = self.new.links.items; names = map string_bytes self.new.names.items })) (name.now ∷ []) result }
        ensures calls { NetCalls (net_calls self.old) (net_calls self.new) ⊥ result }
        ensures is_sound { (FailsNoMore self.old.calls.next self.old.calls.failing × AllSound self.old.links.items) → (FailsNoMore self.new.calls.next self.new.calls.failing × AllSound self.new.links.items) × (IsErrOf result NetFault.Failed → ⊥) }
    {
        self.add_name(name)?;
        if self.calls.is_failing() {
            self.calls.fail();
            return Err(NetFault::Failed);
        }
        self.calls.pass();
        let number = self.listeners;
        self.listeners = self.listeners.saturating_add(1);
        Ok(number)
    }

    /// It fails exactly where its call is listed or no link is left.
    fn accept(&mut self, listener: u32) -> Result<MemLink<P>, NetFault>
        ensures counts { NetCounts self.old.calls.faults self.new.calls.faults result }
        ensures tells { Hands (Some (record { coming = self.old.links.items; names = map string_bytes self.old.names.items })) (Some (record { coming = self.new.links.items; names = map string_bytes self.new.names.items })) [] result }
        ensures fresh { IfOk result (λ l. IfSome (wire_of (P.told l.peer) l.received.bytes) IsFresh) }
        ensures calls { NetCalls (net_calls self.old) (net_calls self.new) (self.old.links.items ≡ []) result }
        ensures is_sound { (FailsNoMore self.old.calls.next self.old.calls.failing × AllSound self.old.links.items) → (FailsNoMore self.new.calls.next self.new.calls.failing × AllSound self.new.links.items) × HandsSound (Some (record { coming = self.old.links.items; names = map string_bytes self.old.names.items })) result }
    {
        let _listener = listener;
        self.first()
    }

    /// It fails exactly where its call is listed or no link is left.
    fn connect(&mut self, name: &str) -> Result<MemLink<P>, NetFault>
        ensures counts { NetCounts self.old.calls.faults self.new.calls.faults result }
        ensures tells { Hands (Some (record { coming = self.old.links.items; names = map string_bytes self.old.names.items })) (Some (record { coming = self.new.links.items; names = map string_bytes self.new.names.items })) (name.now ∷ []) result }
        ensures fresh { IfOk result (λ l. IfSome (wire_of (P.told l.peer) l.received.bytes) IsFresh) }
        ensures calls { NetCalls (net_calls self.old) (net_calls self.new) (self.old.links.items ≡ []) result }
        ensures is_sound { (FailsNoMore self.old.calls.next self.old.calls.failing × AllSound self.old.links.items) → (FailsNoMore self.new.calls.next self.new.calls.failing × AllSound self.new.links.items) × HandsSound (Some (record { coming = self.old.links.items; names = map string_bytes self.old.names.items })) result }
    {
        self.add_name(name)?;
        self.first()
    }
}
