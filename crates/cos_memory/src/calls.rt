// The numbers of the calls of a value in memory, and which of them fail.
ghost use Rattle.std.specs.Prelude.{◌≡◌, ◌==◌, ◌+◌, ◌≤◌, min, false};
ghost use Rattle.std.specs.List.{list_any};
ghost use Rattle.cos_base.specs.Counts.{Rises};
ghost use Rattle.cos_memory.specs.Calls.{FailsNoMore};

use cos_base::Numbers;

/// A counter of calls, a count of faults, and the numbers of the calls that are to fail.
#[derive(Drop)]
pub struct Calls {
    pub failing: Numbers,
    pub next: u64,
    pub faults: u64,
}

impl Calls {
    /// No call was made yet.
    pub fn new(failing: Numbers) -> Calls
        ensures failing { result.failing ≡ failing }
        ensures next { result.next ≡ 0 }
        ensures faults { result.faults ≡ 0 }
    {
        Calls {
            failing,
            next: 0,
            faults: 0,
        }
    }

    /// Whether the next call is to fail.
    pub fn is_failing(&self) -> bool
        ensures listed { result ≡ list_any (λ n. n == self.now.next) self.now.failing }
        ensures none { FailsNoMore self.now.next self.now.failing → result ≡ false }
    {
        let next = self.next;
        self.failing
            .as_slice()
            .iter()
            .any(|n| u64::from(*n) == next)
    }

    /// Counts one call that didn't fail.
    pub fn pass(&mut self)
        ensures faults { self.new.faults ≡ self.old.faults }
        ensures failing { self.new.failing ≡ self.old.failing }
        ensures next { self.new.next ≡ min (self.old.next + 1) 18446744073709551615 }
        ensures sound { FailsNoMore self.old.next self.old.failing → FailsNoMore self.new.next self.new.failing }
    {
        self.next = self.next.saturating_add(1);
    }

    /// Counts one call that failed.
    pub fn fail(&mut self)
        ensures rises { Rises self.old.faults self.new.faults }
        ensures failing { self.new.failing ≡ self.old.failing }
        ensures next { self.new.next ≡ min (self.old.next + 1) 18446744073709551615 }
        ensures sound { FailsNoMore self.old.next self.old.failing → FailsNoMore self.new.next self.new.failing }
    {
        self.next = self.next.saturating_add(1);
        self.faults = self.faults.saturating_add(1);
    }
}
