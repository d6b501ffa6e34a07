//! The history of a run of the direct machine: its calls and its boundaries, in the order in which they came.
//!
//! The direct machine keeps none, since most runs need none. It follows from what a run leaves: each call has its tick, and where
//! the boundaries were follows from the plan and the last tick.
#![tactic(auto)]

mod merging;
mod moments;

pub use merging::{history, merged};
pub use moments::{Moment, Moments};
