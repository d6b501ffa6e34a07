// A list of steps, and how it is read.
ghost use Rattle.std.specs.Prelude.{◌≡◌, [], ◌∷◌, ◌++◌, OnOk};
ghost use Rattle.cos_schedules.specs.Texts.{Adds, ReadsInto};

use crate::line::step_of;
use crate::{Step, StepsFault};
use cos_base::NoMemory;
use cos_text::first_line;
use std::alloc::Global;
use std::marker::Model;

/// A list of steps, which contracts see as the list.
#[derive(Drop)]
pub struct Steps {
    items: Vec<Step>,
}

impl Model for Steps {
    ghost use Rattle.std.specs.Prelude.{List};
    ghost use Rattle.cos_schedules.specs.declared.step.Step.{Step};

    ghost Value = { List Step };

    ghost view = { λ s. s.items.items };
}

impl Steps {
    /// The empty list. It takes no memory.
    fn make(alloc: Global) -> Steps
        ensures { result ≡ [] }
    {
        Steps {
            items: Vec::new(alloc),
        }
    }

    /// The steps.
    pub fn as_slice(&self) -> &[Step]
        ensures { result.now ≡ self.now }
    {
        self.items.as_slice()
    }

    /// Appends one step.
    fn push(&mut self, step: Step) -> Result<(), NoMemory>
        ensures { OnOk result (self.new ≡ self.old ++ step ∷ []) }
    {
        Ok(self.items.push(step)?)
    }
}

/// Adds the step of a line of that number.
fn add(steps: &mut Steps, line: &[u8], number: u64, ports: u32) -> Result<(), StepsFault>
    ensures { Adds ports line.now number steps.old steps.new result }
{
    let Some(step) = step_of(line, ports) else {
        return Err(StepsFault::Line { line: number });
    };
    match steps.push(step) {
        Ok(()) => Ok(()),
        Err(NoMemory) => Err(StepsFault::NoMemory),
    }
}

/// The steps that a text spells, over so many ports.
///
/// A line is `m` for the machine, `d PORT` for a device, `> PORT COUNT` for a delivery to the device, or
/// `< PORT COUNT` for one back. The port is below the number of ports, and the count below 2^32. Numbers are decimal,
/// without leading zeros. The last line may lack its line feed.
pub fn read_steps(alloc: Global, text: &[u8], ports: u32) -> Result<Steps, StepsFault>
    ensures { ReadsInto ports text.now result }
{
    let mut steps = Steps::make(alloc);
    let mut rest = text;
    let mut passed = 0;
    'lines: while !rest.is_empty() {
        let (line, after) = first_line(rest);
        add(&mut steps, line, passed + 1, ports)?;
        rest = after;
        passed += 1;
    }
    Ok(steps)
}
