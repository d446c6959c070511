// Why a value was not written or not read.
use std::alloc::AllocError;
use thiserror::Error;

/// There was no memory. This project's choice.
#[derive(Clone, Copy, Debug, PartialEq, Eq, Error)]
#[error("out of memory")]
pub struct NoMemory;

impl From<AllocError> for NoMemory {
    fn from(_error: AllocError) -> NoMemory {
        NoMemory
    }
}

/// Why a value text was not read. This project's choice.
#[derive(Clone, Copy, Debug, PartialEq, Eq, Error)]
pub enum ValueStop {
    /// The text is no value text, as is seen at this offset in bytes.
    #[error("no value text at {offset}")]
    Bad { offset: usize },
    /// There was no memory.
    #[error("out of memory")]
    NoMemory,
}
