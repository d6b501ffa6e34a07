// A sink in memory.
ghost use Rattle.std.specs.Prelude.{◌≡◌, ◌≤◌, ◌↔◌, [], Some, IfOk, length};
ghost use Rattle.cos_memory.specs.Calls.{FailsNoMore};

use crate::calls::Calls;
use cos_base::{Failed, NoMemory, Numbers, Octets, Sink};
use std::alloc::Global;

/// A sink in memory, with the room that it was made with.
#[derive(Drop)]
pub struct MemSink {
    bytes: Octets,
    room: usize,
    calls: Calls,
    ghost has_room: { room ≤ bytes.spare },
}

impl MemSink {
    ghost use Rattle.cos_memory.specs.CallNumbers.{IsUncalled, sink_calls};

    /// Takes its room. A put past it is a failure, and so are the calls with these numbers.
    pub fn make(alloc: Global, room: usize, failing: Numbers) -> Result<MemSink, NoMemory>
        ensures told { IfOk result (λ s. ⟦<MemSink as Sink>⟧.told s ≡ Some []) }
        ensures room { IfOk result (λ s. ⟦<MemSink as Sink>⟧.room s ≡ room) }
        ensures count { IfOk result (λ s. ⟦<MemSink as Sink>⟧.count s ≡ 0) }
        ensures calls { IfOk result (λ s. IsUncalled (sink_calls s) failing) }
        ensures sound { IfOk result (λ s. ⟦<MemSink as Sink>⟧.sound s ↔ FailsNoMore 0 failing) }
    {
        let mut bytes = Octets::make(alloc);
        bytes.reserve(room)?;
        Ok(MemSink {
            bytes,
            room,
            calls: Calls::new(failing),
        })
    }

    /// What was written.
    pub fn bytes(&self) -> &[u8]
        ensures { ⟦<MemSink as Sink>⟧.told self.now ≡ Some result.now }
    {
        self.bytes.as_slice()
    }
}

impl Sink for MemSink {
    ghost use Rattle.std.specs.Prelude.{◌<◌, length, refl};
    ghost use Rattle.cos_memory.specs.Calls.{FailsNoMore};
    ghost use Rattle.cos_memory.specs.CallNumbers.{SinkCalls, sink_calls};
    ghost use Rattle.cos_base.specs.Counts.{Counts};
    ghost use Rattle.cos_base.specs.Sinks.{Puts, PutsSoundly};

    ghost told = { λ s. Some s.bytes.bytes };

    ghost sound = { λ s. FailsNoMore s.calls.next s.calls.failing };

    ghost room = { λ s. s.room };

    ghost count = { λ s. s.calls.faults };

    ghost sound_tells = { λ s is. refl };

    fn faults(&self) -> u64 {
        self.calls.faults
    }

    /// It fails exactly where its call is listed or the piece is longer than the room.
    fn put(&mut self, bytes: &[u8]) -> Result<(), Failed>
        ensures counts { Counts self.old.calls.faults self.new.calls.faults result }
        ensures tells { Puts (Some self.old.bytes.bytes) (Some self.new.bytes.bytes) bytes.now result }
        ensures calls { SinkCalls (sink_calls self.old) (sink_calls self.new) (self.old.room < length bytes.now) result }
        ensures is_sound { FailsNoMore self.old.calls.next self.old.calls.failing → FailsNoMore self.new.calls.next self.new.calls.failing
            × PutsSoundly (Some self.old.bytes.bytes) (Some self.new.bytes.bytes) self.old.room self.new.room bytes.now result }
    {
        if self.calls.is_failing() || bytes.len() > self.room {
            self.calls.fail();
            return Err(Failed);
        }
        self.calls.pass();
        self.bytes.push_spare(bytes);
        self.room -= bytes.len();
        Ok(())
    }
}
