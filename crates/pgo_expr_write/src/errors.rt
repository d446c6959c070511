// Why an expression was not written.
use std::alloc::AllocError;
use thiserror::Error;

/// There was no memory. This project's choice.
#[derive(Clone, Copy, Debug, PartialEq, Eq, Error)]
#[error("out of memory")]
pub struct NoMemory;

impl From<AllocError> for NoMemory {
    fn from(_error: AllocError) -> NoMemory {
        NoMemory
    }
}
