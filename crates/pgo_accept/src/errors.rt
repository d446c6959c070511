// Why a text is not accepted.
use pgo_bind::errors::BindError;
use pgo_expand::errors::ExpandStop;
use pgo_labels::errors::LabelError;
use pgo_scope::errors::ScopeError;
use thiserror::Error;

/// Why a text is not accepted with these constants, in the order in which the rules are checked.
///
/// - `Syntax`: it spells no specification. The offset counts bytes from 0: it is that of the first token or byte that can't
///   stand at its place, or the text's length.
/// - `Scope`, `Labels`, `Bind`: the first refusal of the rules of names, of labels, and of binding.
/// - `Expand`: its expansion is beyond a limit. It comes of `expansion` alone.
/// - `NoMemory`: there was no memory to read it; want of memory later on is that of the four.
///
/// This project's choice.
#[derive(Debug, Drop, Error)]
pub enum Rejection {
    #[error("syntax at {offset}")]
    Syntax { offset: u64 },
    #[error("names")]
    Scope(ScopeError),
    #[error("labels")]
    Labels(LabelError),
    #[error("binding")]
    Bind(BindError),
    #[error("expansion")]
    Expand(ExpandStop),
    #[error("out of memory")]
    NoMemory,
}
