// A spawner in memory.
ghost use Rattle.std.specs.Prelude.{◌≡◌, ◌<◌, ◌↔◌, [], All, Some};
ghost use Rattle.cos_memory.specs.Calls.{FailsNoMore};

use crate::mem_children::MemChildren;
use crate::{SpawnFault, Spawner};
use cos_base::Numbers;
use cos_memory::Calls;
use std::alloc::Global;

/// A spawner in memory, whose children end with prepared statuses. It numbers them from 0.
#[derive(Drop)]
pub struct MemSpawner {
    children: MemChildren,
    statuses: Numbers,
    calls: Calls,
    ghost are_statuses: { All (λ s. s < 256) statuses },
}

impl MemSpawner {
    ghost use Rattle.cos_memory.specs.CallNumbers.{IsUncalled};
    ghost use Rattle.cos_children.specs.MemChildren.{status_at};
    ghost use Rattle.cos_children.specs.SpawnerCalls.{spawner_calls, spawner_statuses};

    /// No child was started yet. Each ends with the status at its number's place, counted from 0, or with 0 where there
    /// is none. The calls with the numbers of `failing`, counted from 0, fail. It takes no memory.
    pub fn make(alloc: Global, statuses: Numbers, failing: Numbers) -> MemSpawner
        requires { All (λ s. s < 256) statuses }
        ensures told { ⟦<MemSpawner as Spawner>⟧.told result
            ≡ Some (record { started = []; ended = []; running = [] }) }
        ensures count { ⟦<MemSpawner as Spawner>⟧.count result ≡ 0 }
        ensures calls { IsUncalled (spawner_calls result) failing }
        ensures statuses { spawner_statuses result ≡ statuses }
        ensures sound { ⟦<MemSpawner as Spawner>⟧.sound result ↔ FailsNoMore 0 failing }
    {
        MemSpawner {
            children: MemChildren::make(alloc),
            statuses,
            calls: Calls::new(failing),
        }
    }

    /// The status that a child ends with.
    fn status(&self, child: u32) -> u8
        ensures { result ≡ status_at self.now.statuses child }
    {
        match self.statuses.as_slice().get(child as usize) {
            Some(status) => *status as u8,
            None => 0,
        }
    }
}

impl Spawner for MemSpawner {
    ghost use Rattle.std.specs.Prelude.{◌≡◌, refl, Some, IfOk, IsErrOf, length, map, string_bytes};
    ghost use Rattle.cos_memory.specs.Calls.{FailsNoMore};
    ghost use Rattle.cos_children.specs.Children.{Runs, SpawnCounts, Starts, Waits, WaitsSoundly};
    ghost use Rattle.cos_children.specs.MemChildren.{children_of, status_at};
    ghost use Rattle.cos_children.specs.SpawnerCalls.{SpawnCalls, spawner_calls, spawner_statuses};

    ghost told = { λ s. Some (children_of s.children) };

    ghost sound = { λ s. FailsNoMore s.calls.next s.calls.failing };

    ghost count = { λ s. s.calls.faults };

    ghost sound_tells = { λ s is. refl };

    ghost are_children = { λ s. s.children.are_children };

    fn faults(&self) -> u64 {
        self.calls.faults
    }

    /// It fails exactly where its call is listed. The number that it gives is the count of the children before it; once
    /// each number was given it wants memory.
    fn start(&mut self, words: &[String]) -> Result<u32, SpawnFault>
        ensures counts { SpawnCounts self.old.calls.faults self.new.calls.faults result }
        ensures tells { Starts (Some (children_of self.old.children)) (Some (children_of self.new.children))
            (map string_bytes words.now) result }
        ensures number { IfOk result (λ n. n ≡ length (children_of self.old.children).started) }
        ensures calls { SpawnCalls (spawner_calls self.old) (spawner_calls self.new) ⊥ result }
        ensures statuses { spawner_statuses self.new ≡ spawner_statuses self.old }
        ensures is_sound { FailsNoMore self.old.calls.next self.old.calls.failing
            → FailsNoMore self.new.calls.next self.new.calls.failing × (IsErrOf result SpawnFault.Failed → ⊥) }
    {
        if self.calls.is_failing() {
            self.calls.fail();
            return Err(SpawnFault::Failed);
        }
        match self.children.start(words) {
            Ok(number) => {
                self.calls.pass();
                Ok(number)
            }
            Err(_) => Err(SpawnFault::NoMemory),
        }
    }

    /// It fails exactly where its call is listed or the child doesn't run.
    fn wait(&mut self, child: u32) -> Result<u8, SpawnFault>
        ensures counts { SpawnCounts self.old.calls.faults self.new.calls.faults result }
        ensures tells { Waits (Some (children_of self.old.children)) (Some (children_of self.new.children))
            child result }
        ensures status { IfOk result (λ s. s ≡ status_at (spawner_statuses self.old) child) }
        ensures calls { SpawnCalls (spawner_calls self.old) (spawner_calls self.new)
            (Runs (children_of self.old.children) child → ⊥) result }
        ensures statuses { spawner_statuses self.new ≡ spawner_statuses self.old }
        ensures is_sound { FailsNoMore self.old.calls.next self.old.calls.failing
            → FailsNoMore self.new.calls.next self.new.calls.failing
            × WaitsSoundly (Some (children_of self.old.children)) child result }
    {
        if self.calls.is_failing() || !self.children.runs(child) {
            self.children.stop(child);
            self.calls.fail();
            return Err(SpawnFault::Failed);
        }
        let status = self.status(child);
        match self.children.end(child, status) {
            Ok(()) => {
                self.calls.pass();
                Ok(status)
            }
            Err(_) => {
                self.children.stop(child);
                Err(SpawnFault::NoMemory)
            }
        }
    }
}
