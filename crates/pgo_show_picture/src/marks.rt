// What is drawn of an attempt, and where.
ghost use Rattle.std.specs.Prelude.{◌≡◌, ◌++◌, IfOk, map, option_map};
ghost use Rattle.pgo_bundle.specs.View.{attempt_view, end_view, logged_entry_view};
ghost use Rattle.pgo_syntax.specs.RecordView.{kind_view};
ghost use Rattle.pgo_show_picture.specs.Marks as spec;

use pgo_bundle::log::{Attempt, LoggedEntry};
use pgo_lexer::bytes::is_same;
use pgo_syntax::records::{End, NoteKind};
use std::alloc::{AllocError, Global};

/// The shape of a note.
pub fn note_shape(kind: NoteKind) -> &'static [u8]
    ensures { result.now ≡ spec.note_shape (kind_view kind) }
{
    match kind {
        NoteKind::Blocked | NoteKind::Many => b"blocked",
        NoteKind::NoValue | NoteKind::AssertFails => b"stopped",
    }
}

/// The shape of a mark.
fn shape(attempt: &Attempt) -> &'static [u8]
    ensures { result.now ≡ spec.shape (attempt_view attempt.now) }
{
    match attempt {
        Attempt::Step { .. } => b"committed",
        Attempt::Noted { kind, .. } => note_shape(*kind),
        Attempt::Held { .. } | Attempt::HeldJournal { .. } => b"held",
        Attempt::Down { .. } => b"failed",
        Attempt::Full { .. } => b"full",
    }
}

/// The number that an attempt's line has.
fn number_of(attempt: &Attempt) -> u64
    ensures { result ≡ spec.number_of (attempt_view attempt.now) }
{
    match attempt {
        Attempt::Step { n } => *n as u64,
        Attempt::Noted { position, .. } => *position as u64,
        Attempt::Held { holder, .. } => *holder as u64,
        Attempt::HeldJournal { holder } => *holder as u64,
        Attempt::Down { operation, .. } => *operation as u64,
        Attempt::Full { entries } => *entries as u64,
    }
}

/// Behind how many entries an attempt that is none stands; the one before it stands behind so many.
pub fn stands_behind(before: u64, attempt: &Attempt) -> u64
    ensures { result ≡ spec.stands_behind before (attempt_view attempt.now) }
{
    match attempt {
        Attempt::Step { n } => *n as u64,
        Attempt::Noted { position, .. } => *position as u64,
        Attempt::Held { .. } | Attempt::HeldJournal { .. } | Attempt::Down { .. } => before,
        Attempt::Full { entries } => *entries as u64,
    }
}

/// Whether it has the shape and the number of the attempt before it.
pub fn is_again(before: Option<&Attempt>, attempt: &Attempt) -> bool
    ensures { result ≡ spec.is_again (option_map (λ r. attempt_view r.now) before.entry) (attempt_view attempt.now) }
{
    match before {
        Some(before) => {
            is_same(shape(before), shape(attempt)) && number_of(before) == number_of(attempt)
        }
        None => false,
    }
}

/// The label of the entry behind so many.
pub fn label_behind(entries: &[LoggedEntry], behind: u64) -> &[u8]
    ensures { result.now ≡ spec.label_behind (map logged_entry_view entries.now) behind }
{
    match entries.get(behind as usize) {
        Some(logged) => logged.entry.label.as_bytes(),
        None => &[],
    }
}

/// How an instance ended.
pub fn ending_text(end: Option<End>) -> &'static [u8]
    ensures { result.now ≡ spec.ending_text (end_view end) }
{
    match end {
        Some(End::Done) => b"at its end",
        Some(End::Stopped) => b"stopped",
        Some(End::Full) => b"journal full",
        Some(End::Spent) => b"attempts spent",
        Some(End::NoMemory) | Some(End::Nobody) | None => b"not ended",
    }
}

/// Adds a byte, as a text of XML has it.
fn push_escaped(bytes: &mut Vec<u8>, byte: u8) -> Result<(), AllocError>
    ensures { IfOk result (λ _. bytes.new.items ≡ bytes.old.items ++ spec.escaped_byte byte) }
{
    if byte == b'&' {
        return bytes.extend_from_slice(b"&amp;");
    }
    if byte == b'<' {
        return bytes.extend_from_slice(b"&lt;");
    }
    if byte == b'>' {
        return bytes.extend_from_slice(b"&gt;");
    }
    bytes.extend_from_slice(&[byte])
}

/// The bytes, as a text of XML has them.
pub fn escaped(alloc: Global, text: &[u8]) -> Result<Vec<u8>, AllocError>
    ensures { IfOk result (λ v. v.items ≡ spec.escaped text.now) }
{
    let mut bytes = Vec::new(alloc);
    for byte in text {
        push_escaped(&mut bytes, *byte)?;
    }
    Ok(bytes)
}
