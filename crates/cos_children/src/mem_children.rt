// The children of a spawner in memory.
ghost use Rattle.std.specs.Prelude.{◌≡◌, ◌+◌, ◌≤◌, ◌++◌, [], ◌∷◌, ℕ, IfOk, OnErr, OnOk, length, map, nat_lt};
ghost use Rattle.std.specs.Prelude.{string_bytes, vec_len, vec_capacity};
ghost use Rattle.cos_children.specs.Children.{AreChildren, IsNew, Runs, times, with_started, with_stopped, with_ended};
ghost use Rattle.cos_children.specs.MemChildLists.{told_of};

use cos_base::NoMemory;
use std::alloc::Global;

/// A child that was started.
#[derive(Drop)]
pub struct MemChild {
    words: Vec<String>,
    number: u32,
}

/// Children that are numbered from 0.
#[derive(Drop)]
pub struct MemChildren {
    alloc: Global,
    started: Vec<MemChild>,
    ended: Vec<(u32, u8)>,
    running: Vec<u32>,
    ghost are_children: { AreChildren (told_of started.items ended.items running.items) },
    ghost are_new: { (n : ℕ) → length started.items ≤ n → IsNew (told_of started.items ended.items running.items) n },
}

/// Appends one item, in the room that there is. It takes no memory.
fn push_spare<T: Drop>(list: &mut Vec<T>, item: T)
    requires { vec_len list.old + 1 ≤ vec_capacity list.old }
    ensures { list.new.items ≡ list.old.items ++ item ∷ [] }
{
    match list.push(item) {
        Ok(()) => {}
        Err(_) => unreachable!(),
    }
}

impl MemChildren {
    ghost use Rattle.cos_children.specs.MemChildren.{children_of};

    /// No children. It takes no memory.
    pub fn make(alloc: Global) -> MemChildren
        ensures { children_of result ≡ record { started = []; ended = []; running = [] } }
    {
        MemChildren {
            alloc,
            started: Vec::new(alloc),
            ended: Vec::new(alloc),
            running: Vec::new(alloc),
        }
    }

    /// Starts a child. Once each number was given, it wants memory.
    pub fn start(&mut self, words: &[String]) -> Result<u32, NoMemory>
        ensures ok { IfOk result (λ n. children_of self.new
            ≡ with_started (children_of self.old) (map string_bytes words.now) n) }
        ensures number { IfOk result (λ n. n ≡ length (children_of self.old).started) }
        ensures new { IfOk result (λ n. IsNew (children_of self.old) n) }
        ensures err { OnErr result (children_of self.new ≡ children_of self.old) }
    {
        let Ok(number) = u32::try_from(self.started.len()) else {
            return Err(NoMemory);
        };
        let words = Vec::from_clones(self.alloc, words)?;
        self.started.reserve(1)?;
        self.running.reserve(1)?;
        push_spare(&mut self.started, MemChild { words, number });
        push_spare(&mut self.running, number);
        Ok(number)
    }

    /// Whether a child runs.
    pub fn runs(&self, child: u32) -> bool
        ensures { result ≡ nat_lt 0 (times child (children_of self.now).running) }
    {
        self.running.contains(&child)
    }

    /// Takes a child out of those that run.
    pub fn stop(&mut self, child: u32)
        ensures { children_of self.new ≡ with_stopped (children_of self.old) child }
    {
        self.running.retain(|number| *number != child);
    }

    /// Ends a child with a status.
    pub fn end(&mut self, child: u32, status: u8) -> Result<(), NoMemory>
        requires { Runs (children_of self.old) child }
        ensures ok { OnOk result (children_of self.new ≡ with_ended (children_of self.old) child status) }
        ensures err { OnErr result (children_of self.new ≡ children_of self.old) }
    {
        self.ended.reserve(1)?;
        self.running.retain(|number| *number != child);
        push_spare(&mut self.ended, (child, status));
        Ok(())
    }
}
