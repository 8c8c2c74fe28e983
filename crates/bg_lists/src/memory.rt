//! Want of memory, the one answer whose cause no contract tells.
use std::alloc::{AllocError, AllocFailed};
use thiserror::Error;

/// There was no memory for what a call had to make. A list too long to be numbered by 32 bits counts as that too.
#[derive(Clone, Copy, Debug, PartialEq, Eq, Error)]
#[error("out of memory")]
pub struct OutOfMemory;

/// The answer of a call that can fail for want of memory alone.
pub type Mem<T> = Result<T, OutOfMemory>;

impl From<AllocError> for OutOfMemory {
    fn from(_error: AllocError) -> OutOfMemory {
        OutOfMemory
    }
}

impl<T: Drop> From<AllocFailed<T>> for OutOfMemory {
    fn from(_failed: AllocFailed<T>) -> OutOfMemory {
        OutOfMemory
    }
}
