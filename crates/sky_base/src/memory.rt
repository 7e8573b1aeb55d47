//! The error of calls for which there is no memory.

use std::alloc::{AllocError, AllocFailed};

/// There was no memory for what was asked. All values are then as before the call, unless the call's
/// own docs say otherwise.
#[derive(Clone, Copy, Debug, PartialEq, Eq)]
pub struct NoMemory;

impl From<AllocError> for NoMemory {
    fn from(_: AllocError) -> NoMemory {
        NoMemory
    }
}

impl<T: Drop> From<AllocFailed<T>> for NoMemory {
    fn from(_: AllocFailed<T>) -> NoMemory {
        NoMemory
    }
}
