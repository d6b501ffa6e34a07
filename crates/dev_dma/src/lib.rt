//! A DMA: it copies bytes from one place of the machine's memory to another.
#![tactic(auto)]

mod dma;
mod engine;
mod register;

pub use dma::Dma;
pub use engine::Engine;
pub use register::Register;
