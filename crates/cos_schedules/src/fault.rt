// What is wrong with a list of steps.

/// Why a text makes no list of steps.
#[derive(Clone, Copy, PartialEq, Eq, Debug, Drop)]
pub enum StepsFault {
    /// The first line that spells no step. Lines are counted from 1.
    Line { line: u64 },
    NoMemory,
}
