// What stands behind an instruction.
use pgo_syntax::records::NoteKind;

/// Where an attempt goes on.
#[derive(Clone, Copy)]
pub enum Flow {
    /// at the next instruction
    On,
    /// behind so many more instructions
    Over(usize),
    /// at the same instruction
    Again,
    /// nowhere: the section has ended
    Ended,
    /// nowhere: it found no end
    Noted(NoteKind),
}

/// The access at which an instruction stands.
#[derive(Clone, Copy)]
pub enum Access {
    /// none
    No,
    /// one of a resource that there isn't, or with no value
    Nothing,
    /// one of the resource with this number
    Of(u32),
}
