// Want of memory.
use std::alloc::{AllocError, AllocFailed};

/// Want of memory. Each fault type of the project has a variant of its own for it, which is merged with no other.
#[derive(Clone, Copy, Debug, PartialEq, Eq, Drop)]
pub struct NoMemory;

impl From<AllocError> for NoMemory {
    fn from(_: AllocError) -> Self {
        NoMemory
    }
}

impl<T: Drop> From<AllocFailed<T>> for NoMemory {
    fn from(_: AllocFailed<T>) -> Self {
        NoMemory
    }
}
