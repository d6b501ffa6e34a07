//! The world of ends: a machine end and device ends in memory, moved by any list of steps.
//!
//! Each step is that of the star of the definitions, and wherever steps lead, what was done so far is a beginning of
//! what the machine does that calls its devices directly. Where the machine end is done, all is as that machine leaves
//! it.
//!
//! That machine, [`direct`], stands beside: what any world is measured against.
#![tactic(auto)]

mod ends;
mod seat;
mod world;

pub use cos_schedules::{Schedule, Step, Steps, Way};
pub use device_turns::DeviceEnd;
pub use direct_machine::outcome::Direct;
pub use direct_machine::{Parts, direct, direct_by_port};
pub use ends::Ends;
pub use world::World;
