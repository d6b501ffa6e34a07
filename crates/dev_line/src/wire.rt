// The line rule.
ghost use Rattle.std.specs.Prelude.{◌≡◌, ◌≤◌, Option, Some, None};
ghost use Rattle.dev_line.specs.Wires as wires;

use cosim_model::Want;
use std::marker::Model;

/// An interrupt line as its device drives it, with the due time of the device's present want and the tick that the device was
/// brought to.
#[derive(Drop)]
pub struct Wire {
    line: u32,
    shown: bool,
    pending: bool,
    due: u64,
    seen: u64,
}

impl Model for Wire {
    ghost use Rattle.std.specs.Prelude.{◌^◌, ◌<◌, ◌≤◌};
    ghost use Rattle.dev_line.specs.Wires.{WireState};

    ghost Value = { WireState };

    ghost view = { λ w. record { line = w.line; shown = w.shown; pending = w.pending; due = w.due; seen = w.seen } };

    ghost invariant = { λ w. (w.due ≤ w.seen) × (w.line < 2 ^ 32) };
}

impl Wire {
    /// The line of that number, low at tick 0.
    pub fn make(line: u32) -> Wire
        ensures { result ≡ wires.fresh_wire line }
    {
        Wire {
            line,
            shown: false,
            pending: false,
            due: 0,
            seen: 0,
        }
    }

    /// The tick that the device was brought to.
    pub fn seen(&self) -> u64
        ensures { result ≡ self.now.seen }
    {
        self.seen
    }

    /// When the present want became the present one.
    pub fn due(&self) -> u64
        ensures { result ≡ wires.due_of self.now }
    {
        self.due
    }

    /// Does a level wait to be fed?
    pub fn is_pending(&self) -> bool
        ensures { result ≡ self.now.pending }
    {
        self.pending
    }

    /// The pending level, or else the want that comes after it.
    pub fn want_before(&self, rest: Option<Want>) -> Option<Want>
        ensures { result ≡ wires.wanted_before self.now rest }
    {
        if self.pending {
            Some(Want::Line {
                line: self.line,
                level: !self.shown,
            })
        } else {
            rest
        }
    }

    /// How many levels are left at most, where this is the level now.
    pub fn left(&self, level: bool) -> u32
        ensures { result ≡ wires.levels_left self.now level }
    {
        if !self.pending {
            0
        } else if self.shown != level {
            1
        } else {
            2
        }
    }

    /// Time passes up to the tick, and the level doesn't change.
    pub fn pass(&mut self, tick: u64)
        requires { self.old.seen ≤ tick }
        ensures { self.new ≡ wires.moved self.old tick }
    {
        self.seen = tick;
    }

    /// Time passes up to the tick for a level that rises at the tick `rises`, if at all.
    pub fn pass_rising(&mut self, rises: Option<u64>, tick: u64)
        requires { self.old.seen ≤ tick }
        ensures { self.new ≡ wires.passed self.old rises tick }
    {
        if let Some(rises) = rises {
            if rises <= tick {
                self.pass(self.seen.max(rises));
                self.apply(false, true, false);
            }
        }
        self.pass(tick);
    }

    /// The line rule: where nothing is wanted and the level isn't the one that is shown, the level becomes pending. `wanted` says
    /// whether another want than a level was there, and `works` whether one is there now.
    pub fn apply(&mut self, wanted: bool, level: bool, works: bool)
        ensures { self.new ≡ wires.ruled self.old wanted level works }
    {
        if self.pending || wanted {
            return;
        }
        self.pending = self.shown != level;
        if self.pending || works {
            self.due = self.seen;
        }
    }

    /// The pending level was fed: it is shown, and the line rule is applied again.
    pub fn answer(&mut self, level: bool, works: bool)
        ensures { self.new ≡ wires.answered self.old level works }
    {
        self.shown = !self.shown;
        self.pending = false;
        self.apply(false, level, works);
    }

    /// The next one of a row of wants is the present one.
    pub fn renew(&mut self)
        ensures { self.new ≡ wires.renewed self.old }
    {
        self.due = self.seen;
    }
}
