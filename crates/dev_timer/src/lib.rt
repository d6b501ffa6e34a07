//! A timer: an interrupt level that is high from a tick on.
#![tactic(auto)]

mod register;
mod timer;

pub use register::Register;
pub use timer::Timer;
