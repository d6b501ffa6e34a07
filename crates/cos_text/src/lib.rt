//! Texts that several crates read or write: numbers in decimal and hexadecimal, bytes in hexadecimal digits, and lines.
#![tactic(auto)]

mod bytes;
mod hexadecimal;
mod lines;
mod numbers;

pub use bytes::{encode, push_bytes};
pub use hexadecimal::{Hexadecimal, push_hexadecimal};
pub use lines::{cut, first_line};
pub use numbers::{read_decimal, read_hexadecimal, read_number};
