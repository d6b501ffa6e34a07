// A list of calls with room that contracts see.
ghost use Rattle.std.specs.Prelude.{◌≡◌, ◌+◌, ◌<◌, ◌≤◌, ◌++◌, [], ◌∷◌, length, IsOk, OnOk, OnErr};

use cos_base::NoMemory;
use cosim_model::Call;
use std::alloc::Global;
use std::marker::Model;

/// The calls of a run, in their order. Contracts see the calls and their `spare`: how many more calls it takes without asking
/// for memory.
#[derive(Drop)]
pub struct Calls {
    items: Vec<Call>,
    room: usize,
}

impl Model for Calls {
    ghost use Rattle.std.specs.Prelude.{◌+◌, ◌≤◌, vec_len, vec_capacity};
    ghost use Rattle.cos_api.specs.CallLists.{Kept};

    ghost Value = { Kept };

    ghost view = { λ c. record { calls = c.items.items; spare = c.room } };

    ghost invariant = { λ c. vec_len c.items + c.room ≤ vec_capacity c.items };
}

impl Calls {
    /// The empty list. It takes no memory.
    pub fn make(alloc: Global) -> Calls
        ensures calls { result.calls ≡ [] }
        ensures spare { result.spare ≡ 0 }
    {
        Calls {
            items: Vec::new(alloc),
            room: 0,
        }
    }

    /// The number of calls.
    pub fn len(&self) -> usize
        ensures { result ≡ length self.now.calls }
    {
        self.items.len()
    }

    /// The calls.
    pub fn as_slice(&self) -> &[Call]
        ensures { result.now ≡ self.now.calls }
    {
        self.items.as_slice()
    }

    /// How many more calls it takes without asking for memory.
    pub fn spare(&self) -> usize
        ensures { result ≡ self.now.spare }
    {
        self.room
    }

    /// Appends one call. Where there is room it takes no memory.
    pub fn push(&mut self, call: Call) -> Result<(), NoMemory>
        ensures ok { OnOk result (self.new.calls ≡ self.old.calls ++ call ∷ []) }
        ensures err { OnErr result (self.new ≡ self.old) }
        ensures fits { 1 ≤ self.old.spare → IsOk result × (self.new.spare + 1 ≡ self.old.spare) }
    {
        if self.room >= 1 {
            self.push_spare(call);
            return Ok(());
        }
        self.items.push(call)?;
        self.room = self.items.capacity() - self.items.len();
        Ok(())
    }

    /// Makes room for at least so many more calls. Where there is that much already, it takes no memory.
    pub fn reserve(&mut self, more: usize) -> Result<(), NoMemory>
        ensures calls { self.new.calls ≡ self.old.calls }
        ensures ok { OnOk result (more ≤ self.new.spare) }
        ensures grows { self.old.spare ≤ self.new.spare }
        ensures err { OnErr result (self.new ≡ self.old) }
        ensures fits { more ≤ self.old.spare → IsOk result × (self.new ≡ self.old) }
    {
        if more <= self.room {
            return Ok(());
        }
        self.items.reserve(more)?;
        self.room = self.items.capacity() - self.items.len();
        Ok(())
    }

    /// Appends one call, in the room that there is. It takes no memory.
    pub fn push_spare(&mut self, call: Call)
        requires { 1 ≤ self.old.spare }
        ensures calls { self.new.calls ≡ self.old.calls ++ call ∷ [] }
        ensures spare { self.new.spare + 1 ≡ self.old.spare }
    {
        let room = self.room - 1;
        match self.items.push(call) {
            Ok(()) => self.room = room,
            Err(_) => unreachable!(),
        }
    }
}
