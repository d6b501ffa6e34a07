//! What the answers of both ends share: those to reads and writes, and the parts of a reply.
//!
//! As in `end_packets`, all room is made before, and no call here takes memory. `specs/` has what both ends say of a
//! packet that was read and of a fault that is told.
#![tactic(auto)]

mod answers;
mod replies;

pub use answers::{answer_by_code, put_read_answer, refuse_read};
pub use replies::{bare_reply, padded};
