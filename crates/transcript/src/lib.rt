//! The text of a run: a line for each call, and the closing lines.
//!
//! What each line is is defined as a function of its values, in `specs/`; [`call_line`] and [`closing_lines`] append
//! these lines, and [`put_lines`] puts the whole text of a run to a sink in pieces, without asking for memory. Lines are made of
//! [`Piece`]s.
#![tactic(auto)]

mod call_lines;
mod closing;
mod ending;
mod output;
mod pieces;
mod sent;

pub use call_lines::call_line;
pub use closing::closing_lines;
pub use ending::{Ending, Out, Outs};
pub use output::put_lines;
pub use pieces::Piece;
pub use sent::outs_of;
