// Which attempts came to the same.
ghost use Rattle.std.specs.Prelude.{◌≡◌, option_map};
ghost use Rattle.pgo_base.specs.View.{data_of};
ghost use Rattle.pgo_bundle.specs.View.{attempt_view};
ghost use Rattle.pgo_syntax.specs.RecordView.{kind_view};
ghost use Rattle.pgo_show_text.specs.Facts as spec;

use pgo_base::compare::compare;
use pgo_base::text::Text;
use pgo_base::value::Value;
use pgo_bundle::log::Attempt;
use pgo_syntax::records::NoteKind;

/// It is an entry.
pub fn is_step(attempt: &Attempt) -> bool
    ensures { result ≡ spec.is_step (attempt_view attempt.now) }
{
    match attempt {
        Attempt::Step { .. } => true,
        _ => false,
    }
}

/// Whether a note of this kind says that choices were blocked.
pub fn is_blocked_kind(kind: NoteKind) -> bool
    ensures { result ≡ spec.is_blocked_kind (kind_view kind) }
{
    match kind {
        NoteKind::Blocked | NoteKind::Many => true,
        NoteKind::NoValue | NoteKind::AssertFails => false,
    }
}

/// All of its choices were blocked, or as many as are tried.
pub fn is_blocked(attempt: &Attempt) -> bool
    ensures { result ≡ spec.is_blocked (attempt_view attempt.now) }
{
    match attempt {
        Attempt::Noted { kind, .. } => is_blocked_kind(*kind),
        _ => false,
    }
}

/// Another instance, a pre-commit that failed or the full journal refused it.
pub fn is_refused(attempt: &Attempt) -> bool
    ensures { result ≡ spec.is_refused (attempt_view attempt.now) }
{
    match attempt {
        Attempt::Step { .. } | Attempt::Noted { .. } => false,
        Attempt::Held { .. }
        | Attempt::HeldJournal { .. }
        | Attempt::Down { .. }
        | Attempt::Full { .. } => true,
    }
}

/// Whether both are one index, or there is none.
fn is_index(index: &Option<Value>, other: &Option<Value>) -> bool
    ensures { result ≡ spec.is_index (option_map data_of index.now) (option_map data_of other.now) }
{
    match (index, other) {
        (None, None) => true,
        (Some(index), Some(other)) => compare(index, other).is_eq(),
        (None, Some(_)) | (Some(_), None) => false,
    }
}

/// Whether both are one resource.
fn is_resource(
    variable: &Text,
    index: &Option<Value>,
    other: &Text,
    other_index: &Option<Value>,
) -> bool
    ensures { result ≡ spec.is_resource variable.now (option_map data_of index.now) other.now (option_map data_of other_index.now) }
{
    variable.is(other) && is_index(index, other_index)
}

/// The number of a kind.
fn rank(kind: NoteKind) -> u8
    ensures { result ≡ spec.rank (kind_view kind) }
{
    match kind {
        NoteKind::Blocked => 0,
        NoteKind::NoValue => 1,
        NoteKind::AssertFails => 2,
        NoteKind::Many => 3,
    }
}

/// A note of this kind.
fn is_note(kind: NoteKind, attempt: &Attempt) -> bool
    ensures { result ≡ spec.is_note (kind_view kind) (attempt_view attempt.now) }
{
    match attempt {
        Attempt::Noted { kind: other, .. } => rank(kind) == rank(*other),
        _ => false,
    }
}

/// A refusal for the resource that this instance held.
fn is_held(holder: u32, variable: &Text, index: &Option<Value>, attempt: &Attempt) -> bool
    ensures { result ≡ spec.is_held holder variable.now (option_map data_of index.now) (attempt_view attempt.now) }
{
    match attempt {
        Attempt::Held {
            holder: other,
            variable: other_variable,
            index: other_index,
        } => holder == *other && is_resource(variable, index, other_variable, other_index),
        _ => false,
    }
}

/// A refusal for the journal, which this instance held.
fn is_journal_held(holder: u32, attempt: &Attempt) -> bool
    ensures { result ≡ spec.is_journal_held holder (attempt_view attempt.now) }
{
    match attempt {
        Attempt::HeldJournal { holder: other } => holder == *other,
        _ => false,
    }
}

/// A pre-commit of this resource failed.
fn is_down(variable: &Text, index: &Option<Value>, attempt: &Attempt) -> bool
    ensures { result ≡ spec.is_down variable.now (option_map data_of index.now) (attempt_view attempt.now) }
{
    match attempt {
        Attempt::Down {
            variable: other,
            index: other_index,
            ..
        } => is_resource(variable, index, other, other_index),
        _ => false,
    }
}

/// The journal was full.
fn is_full(attempt: &Attempt) -> bool
    ensures { result ≡ spec.is_full (attempt_view attempt.now) }
{
    match attempt {
        Attempt::Full { .. } => true,
        _ => false,
    }
}

/// Whether both came to the same.
pub fn is_alike(attempt: &Attempt, other: &Attempt) -> bool
    ensures { result ≡ spec.is_alike (attempt_view attempt.now) (attempt_view other.now) }
{
    match attempt {
        Attempt::Step { .. } => is_step(other),
        Attempt::Noted { kind, .. } => is_note(*kind, other),
        Attempt::Held {
            holder,
            variable,
            index,
        } => is_held(*holder, variable, index, other),
        Attempt::HeldJournal { holder } => is_journal_held(*holder, other),
        Attempt::Down {
            variable,
            index,
            ..
        } => is_down(variable, index, other),
        Attempt::Full { .. } => is_full(other),
    }
}
