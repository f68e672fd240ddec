//! Faults that carry no data.

use std::alloc::AllocError;

/// Out of memory.
#[derive(Clone, Copy, Debug, Drop)]
pub struct NoMemory;

impl From<AllocError> for NoMemory {
    fn from(_: AllocError) -> NoMemory {
        NoMemory
    }
}

/// A call to the outside failed; the count of faults of the object that was called has risen.
#[derive(Clone, Copy, Debug, Drop)]
pub struct Failed;
