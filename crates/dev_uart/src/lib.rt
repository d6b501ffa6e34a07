//! A UART: bytes that arrive one after another, and bytes that are sent.
#![tactic(auto)]

mod register;
mod uart;

pub use register::Register;
pub use uart::Uart;
