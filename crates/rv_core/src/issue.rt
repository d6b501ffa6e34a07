//! How a unit is issued.

use crate::{Hart, HartAccess, Rest};

/// A unit that was issued.
#[derive(Clone, Copy)]
pub enum Issue {
    /// The unit made no access and is done.
    Local(Hart),
    /// The unit makes an access, and is done once that is answered.
    Bus { request: HartAccess, rest: Rest },
    /// The unit was a trap and is done.
    Trap(Hart),
}

/// What a unit waits for: the answer of its access.
#[derive(Clone, Copy)]
pub struct Waiting {
    pub request: HartAccess,
    pub rest: Rest,
}
