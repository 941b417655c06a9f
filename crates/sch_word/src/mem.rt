//! Out of memory.

use std::alloc::{AllocError, AllocFailed};
use thiserror::Error;

/// Out of memory, and nothing else.
#[derive(Clone, Copy, Debug, Error)]
#[error("out of memory")]
pub struct Mem;

impl From<AllocError> for Mem {
    fn from(_cause: AllocError) -> Mem {
        Mem
    }
}

impl<T: Drop> From<AllocFailed<T>> for Mem {
    fn from(_cause: AllocFailed<T>) -> Mem {
        Mem
    }
}
