//! The order in which a world of ends is moved: lists of steps that a text spells, and schedules, which are rounds
//! without an end.
#![tactic(auto)]

mod draws;
mod fault;
mod laws;
mod line;
mod rounds;
mod schedule;
mod step;
mod steps;

pub use draws::Draws;
pub use fault::StepsFault;
pub use laws::{gives_its_rounds, rounds_are_whole};
pub use rounds::Rounds;
pub use schedule::Schedule;
pub use step::{Step, Way};
pub use steps::{Steps, read_steps};

#[cfg(test)]
mod tests;
