// Records that a board refused, and why.

use pgo_base::log::Entry;
use pgo_syntax::records::{Note, Refusal};

/// An entry that wasn't accepted, and why.
#[derive(Drop)]
pub struct NotCommitted {
    pub refusal: Refusal,
    pub entry: Entry,
}

/// A note that wasn't accepted, and why.
#[derive(Clone, Copy)]
pub struct NotNoted {
    pub refusal: Refusal,
    pub note: Note,
}
