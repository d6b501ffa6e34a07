// The schedules by which a world of ends is moved.
use crate::Steps;

/// A schedule: steps without an end.
#[derive(Drop)]
pub enum Schedule {
    /// The rounds of a number.
    Number { number: u32 },
    /// These steps, and then the rounds of number 0.
    Listed { steps: Steps },
}
