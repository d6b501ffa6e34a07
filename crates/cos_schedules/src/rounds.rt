// A schedule under way.
ghost use Rattle.std.specs.Prelude.{◌≡◌, ◌<◌, Some, slice_get};
ghost use Rattle.cos_schedules.specs.Schedules.{base, base_length, turned};
ghost use Rattle.cos_schedules.specs.Courses.{is_machine};
ghost use Rattle.cos_schedules.specs.Held as held;

use crate::{Draws, Step, Way};
use std::marker::Model;

/// The count of each delivery of schedule 0.
const ALL: u32 = 65_556;

/// The most bytes of a delivery above schedule 0.
const MOST: u64 = 64;

/// The number of steps in a round.
fn steps_in_round(ports: u32) -> u64
    ensures { result ≡ base_length ports }
{
    3 * u64::from(ports) + 1
}

/// The step at a place of the base list.
fn base_step(ports: u32, place: u64) -> Step
    requires { place < base_length ports }
    ensures { slice_get (base ports) place ≡ Some result }
{
    if place == 0 {
        return Step::Machine;
    }
    let port = ((place - 1) / 3) as u32;
    match (place - 1) % 3 {
        0 => Step::Deliver {
            port,
            way: Way::Out,
            count: ALL,
        },
        1 => Step::Device { port },
        _ => Step::Deliver {
            port,
            way: Way::Back,
            count: ALL,
        },
    }
}

/// The step at a place of the base list that is turned to begin at `first`.
fn turned_step(ports: u32, first: u64, place: u64) -> Step
    requires first { first < base_length ports }
    requires place { place < base_length ports }
    ensures { slice_get (turned first (base ports)) place ≡ Some result }
{
    let length = steps_in_round(ports);
    let at = first + place;
    base_step(ports, if at < length { at } else { at - length })
}

/// The place at which a round begins.
fn first_place(number: u32, ports: u32, draws: &mut Draws) -> u64
    ensures first { result ≡ held.first_place number ports draws.old.x }
    ensures within { result < base_length ports }
    ensures x { draws.new.x ≡ held.after_place number draws.old.x }
{
    if number == 0 {
        0
    } else {
        u64::from(draws.below(steps_in_round(ports)))
    }
}

/// The step with a drawn count, if it is a delivery.
fn counted(step: Step, draws: &mut Draws) -> Step
    ensures { held.IsCounted 1 step draws.old.x result draws.new.x }
{
    match step {
        Step::Deliver { port, way, .. } => Step::Deliver {
            port,
            way,
            count: 1 + draws.below(MOST),
        },
        other => other,
    }
}

/// The step as the schedule of that number has it.
fn counted_in(number: u32, step: Step, draws: &mut Draws) -> Step
    ensures { held.IsCounted number step draws.old.x result draws.new.x }
{
    if number == 0 {
        step
    } else {
        counted(step, draws)
    }
}

/// Whether a step is the machine's.
fn is_machine(step: Step) -> bool
    ensures { result ≡ is_machine step }
{
    match step {
        Step::Machine => true,
        Step::Device { port: _ } => false,
        Step::Deliver {
            port: _,
            way: _,
            count: _,
        } => false,
    }
}

/// The steps of a schedule, one after another and without an end. It takes no memory. Contracts see what is left of the
/// round that was begun.
#[derive(Drop)]
pub struct Rounds {
    number: u32,
    ports: u32,
    draws: Draws,
    /// The place of the base list at which the round began.
    first: u64,
    /// How many steps of the round were given.
    given: u64,
}

impl Model for Rounds {
    ghost use Rattle.std.specs.Prelude.{◌≡◌, ◌<◌, ◌≤◌, drop};
    ghost use Rattle.cos_schedules.specs.Schedules.{base, base_length, turned};
    ghost use Rattle.cos_schedules.specs.Courses.{Course};
    ghost use Rattle.cos_schedules.specs.Held.{course_of};

    ghost Value = { Course };

    ghost view = { λ r. course_of r.number r.ports r.draws.x (drop r.given (turned r.first (base r.ports))) };

    ghost invariant = { λ r. (r.first < base_length r.ports) × (r.given ≤ base_length r.ports) × (r.number ≡ 0 → r.first ≡ 0) };
}

impl Rounds {
    ghost use Rattle.std.specs.Prelude.{◌≡◌, ◌≤◌, ◌∷◌, List, length};
    ghost use Rattle.cos_schedules.specs.declared.step.Step.{Step as AnyStep};
    ghost use Rattle.cos_schedules.specs.Courses.{fresh_course, begun, Gives, PassesTo, PassesTurns};

    /// The schedule of this number over so many ports, before its first step.
    ///
    /// A round of schedule 0 is the machine, and then for each port a delivery of up to 65,556 bytes to the device,
    /// the device, and a delivery back. Above 0 a round begins at a drawn place of that list, and the count of each
    /// delivery is drawn, 1 to 64.
    pub fn make(number: u32, ports: u32) -> Rounds
        ensures { result ≡ fresh_course number ports }
    {
        Rounds {
            number,
            ports,
            draws: Draws {
                x: u64::from(number),
            },
            first: 0,
            given: steps_in_round(ports),
        }
    }

    /// Begins the next round, where nothing is left.
    fn begin(&mut self)
        ensures { self.new ≡ begun self.old }
    {
        if self.given == steps_in_round(self.ports) {
            self.first = first_place(self.number, self.ports, &mut self.draws);
            self.given = 0;
        }
    }

    /// The first step that is left.
    fn step(&mut self) -> Step
        requires { 1 ≤ length self.old.left }
        ensures { self.old ≡ record self.new { left = result ∷ self.new.left } }
    {
        let step = turned_step(self.ports, self.first, self.given);
        self.given += 1;
        counted_in(self.number, step, &mut self.draws)
    }

    /// The next step.
    pub fn next(&mut self) -> Step
        ensures { Gives self.old result self.new }
    {
        self.begin();
        self.step()
    }

    /// Passes over the steps up to the machine's next one, and that. Under schedule 0 it takes the same time however many
    /// they are.
    pub fn pass_to_machine(&mut self)
        ensures { (passed : List AnyStep) × PassesTo passed self.old self.new }
    {
        if self.number == 0 {
            self.pass_whole();
        } else {
            self.pass_each();
        }
    }

    /// Passes to the step behind the machine's, which begins each round of schedule 0.
    fn pass_whole(&mut self)
        requires { self.old.number ≡ 0 }
        ensures { (passed : List AnyStep) × PassesTo passed self.old self.new }
    {
        self.given = 1;
    }

    /// Passes over one step after another.
    fn pass_each(&mut self)
        ensures { (passed : List AnyStep) × PassesTo passed self.old self.new }
    {
        let mut step = self.next();
        'others: while !is_machine(step) {
            step = self.next();
        }
    }

    /// Passes over steps up to and with so many of the machine's.
    pub fn pass_turns(&mut self, turns: u64)
        ensures { PassesTurns turns self.old self.new }
    {
        let mut left = turns;
        'turns: while left > 0 {
            self.pass_to_machine();
            left -= 1;
        }
    }
}
