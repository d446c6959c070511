// Why words are no request.
use thiserror::Error;

/// Why words are no request.
#[derive(Clone, Copy, Debug, PartialEq, Eq, Error)]
pub enum WordStop {
    /// The words are outside the grammar of commands.
    #[error("usage")]
    Usage,
    /// There was no memory.
    #[error("no memory")]
    NoMemory,
}
