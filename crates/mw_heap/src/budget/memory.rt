//! Out of memory.
use std::alloc::{AllocError, AllocFailed};
use thiserror::Error;

/// Out of memory, or a bound was passed past which the answer is the same: all the cells that a heap can number, the looks that the
/// work of an event, or of a formula, may take, the marks that may be made anew, the jobs of one body's code, the code that is kept, the turns of a run, the
/// switches of a book.
#[derive(Clone, Copy, Debug, PartialEq, Eq, Error)]
#[error("out of memory")]
pub struct Memory;

impl From<AllocError> for Memory {
    ghost from_gives = { λ _ e. Unit {0} };

    fn from(_e: AllocError) -> Memory {
        Memory
    }
}

impl<T: Drop> From<AllocFailed<T>> for Memory {
    ghost from_gives = { λ _ e. Unit {0} };

    fn from(_e: AllocFailed<T>) -> Memory {
        Memory
    }
}
