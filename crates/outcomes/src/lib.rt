//! How a command ends: it did its work, or it stopped. The form in which every command states its promise stands in
//! `specs/Outcomes.antt`; here are the steps that commands take: reading a file, printing a text, writing a file.
#![tactic(auto)]

mod failures;
mod object;
mod steps;
mod stop;

pub use failures::{FilesFailure, JudgeFault, OutFailure, ReadFault};
pub use object::Object;
pub use steps::{put_before, put_text, read_file, write_file};
pub use stop::Stop;

#[cfg(test)]
mod tests;
