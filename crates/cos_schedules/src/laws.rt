// What holds of every schedule.
ghost use Rattle.std.specs.Prelude.{◌≡◌, ℕ, ◌*◌, List, length, map};
ghost use Rattle.process_network.specs.Rounds.{IsRound};
ghost use Rattle.cos_schedules.specs.declared.step.Step.{Step as AnyStep};
ghost use Rattle.cos_schedules.specs.Schedules.{base_length, round, first_rounds};
ghost use Rattle.cos_schedules.specs.Courses.{Course, fresh_course, GivesAll};
ghost use Rattle.cos_schedules.specs.Stars.{star_step};

/// The steps that a schedule gives, one after another, are its rounds.
pub fn gives_its_rounds()
    ensures { (number ports rounds : ℕ) (steps : List AnyStep) (now : Course)
        → GivesAll (fresh_course number ports) steps now → length steps ≡ rounds * base_length ports
        → steps ≡ first_rounds number ports rounds }
{}

/// A round leaves out no end and no way: it has the turn of each, and a delivery of some bytes each way on each port.
pub fn rounds_are_whole()
    ensures { (number ports x : ℕ) → IsRound ports (map star_step (round number ports x)) }
{}
