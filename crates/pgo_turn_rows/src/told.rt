// What is said of a turn.
use pgo_section::worker::Turn;
use pgo_syntax::records::{End, NoteKind, Refusal};
use std::alloc::{AllocError, Global};

fn kind_word(kind: NoteKind) -> &'static str {
    match kind {
        NoteKind::Blocked => "blocked",
        NoteKind::NoValue => "no value",
        NoteKind::AssertFails => "assert",
        NoteKind::Many => "many",
    }
}

fn end_word(end: End) -> &'static str {
    match end {
        End::Done => "idle done",
        End::Stopped => "idle stopped",
        End::Full => "idle full",
        End::Spent => "idle spent",
        End::NoMemory => "idle no memory",
        End::Nobody => "idle nobody",
    }
}

fn refused(alloc: Global, refusal: Refusal) -> Result<String, AllocError> {
    match refusal {
        Refusal::Held { resource, holder } => format!(in alloc; "held {resource} {holder}"),
        Refusal::Down { resource, op } => format!(in alloc; "down {resource} {op}"),
        Refusal::Full { entries } => format!(in alloc; "full {entries}"),
        Refusal::Many { leaves, position } => format!(in alloc; "many {leaves} {position}"),
    }
}

/// What is said of a turn.
pub fn told(alloc: Global, turn: Turn) -> Result<String, AllocError> {
    match turn {
        Turn::Went => String::from_str(alloc, "went"),
        Turn::Committed { n } => format!(in alloc; "committed {n}"),
        Turn::Noted { kind, n } => {
            let kind = kind_word(kind);
            format!(in alloc; "{kind} {n}")
        }
        Turn::Refused { refusal } => refused(alloc, refusal),
        Turn::Idle { end } => String::from_str(alloc, end_word(end)),
        Turn::NoMemory => Err(AllocError),
    }
}
