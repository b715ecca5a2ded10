//! Answers for want of room.
use std::alloc::{AllocError, AllocFailed};

/// A list or a table of fixed room has none left.
#[derive(Clone, Copy, Debug, PartialEq, Eq)]
pub struct Full;

/// Memory ran out.
#[derive(Clone, Copy, Debug, PartialEq, Eq)]
pub struct NoMemory;

impl From<AllocError> for NoMemory {
    fn from(_: AllocError) -> Self {
        NoMemory
    }
}

impl<T: Drop> From<AllocFailed<T>> for NoMemory {
    fn from(_: AllocFailed<T>) -> Self {
        NoMemory
    }
}
