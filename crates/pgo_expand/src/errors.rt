// Why a specification isn't expanded.
use thiserror::Error;

/// Why a specification isn't expanded.
///
/// - `Wide`: its expansion has more than 1,048,576 nodes; 1,048,577 is shown.
/// - `Deep`: an expression of its module is higher than 512; 513 is shown. Where both hold, it is `Wide`.
/// - `NoMemory`: there was no memory.
///
/// This project's choice.
#[derive(Debug, Drop, Error)]
pub enum ExpandStop {
    #[error("an expansion of {nodes} nodes or more")]
    Wide { nodes: u64 },
    #[error("an expression of height {height} or more")]
    Deep { height: u64 },
    #[error("out of memory")]
    NoMemory,
}
