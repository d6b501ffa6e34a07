//! The commands over assembly: `asm` makes an image of a text, and `dis` lists the words of an image.
#![tactic(auto)]

mod assembly;
mod listing;
mod refusals;
#[cfg(test)]
mod tests;

pub use assembly::asm;
pub use listing::dis;
pub use refusals::{AsmRefusal, DisRefusal};
