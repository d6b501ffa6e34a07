//! What the ends of a link send: their own requests and their answers, written in room that was made before.
//!
//! An end makes all room that a turn can need before it changes anything. So each call here takes no memory.
#![tactic(auto)]

mod access;
mod bus_place;
mod lanes;
mod put;

pub use access::{access_of, is_served, put_value, value_of};
pub use bus_place::{BusPlace, Request};
pub use put::{put_packet, put_read, put_write};
