// What the lines of the text say of endings, reports and statuses.
ghost use Rattle.std.specs.Prelude.{◌≡◌, ◌∷◌, [], codes, decimal, option_map, IfOk};
ghost use Rattle.pgo_base.specs.View.{data_of};
ghost use Rattle.pgo_model.specs.Bundle.{indexed_text as indexed};
ghost use Rattle.pgo_model.specs.ModuleText.{flatten};
ghost use Rattle.pgo_bundle.specs.View.{attempt_view, end_view, version_view};
ghost use Rattle.pgo_syntax.specs.RecordView.{kind_view};
ghost use Rattle.pgo_show_text.specs.Phrases as spec;

use crate::texts::indexed_text;
use pgo_base::text::Text;
use pgo_base::value::Value;
use pgo_bundle::log::{Attempt, Version};
use pgo_lines::line::Line;
use pgo_lines::line::Piece::{Bytes, Name, Number};
use pgo_syntax::records::{End, NoteKind};
use std::alloc::{AllocError, Global};

/// What the status of a run says.
pub fn status_text(status: u64) -> &'static [u8]
    ensures { result.now ≡ spec.status_text status }
{
    if status == 0 {
        return b"each instance came to its end";
    }
    if status == 20 {
        return b"an instance was stopped by an expression without a value or an assertion that failed";
    }
    if status == 22 {
        return b"each instance that isn't at Done is blocked, whatever it chooses";
    }
    if status == 23 {
        return b"an instance was refused by the full journal";
    }
    b"an instance did not come to its end"
}

/// A label, or that there is none.
pub fn label_text(label: &[u8]) -> &[u8]
    ensures { result.now ≡ spec.label_text label.now }
{
    match label {
        [] => b"no label",
        [_, ..] => label,
    }
}

/// What an ending says.
pub fn ending_text(end: Option<End>) -> &'static [u8]
    ensures { result.now ≡ spec.ending_text (end_view end) }
{
    match end {
        Some(End::Done) => b"has ended",
        Some(End::Stopped) => b"was stopped",
        Some(End::Full) => b"ended since the journal was full",
        Some(End::Spent) => b"made as many attempts as it may",
        Some(End::NoMemory) | Some(End::Nobody) | None => b"has not ended",
    }
}

/// That an attempt was blocked: in version 1 it tried one of its choices, and since version 2 all of them.
fn blocked_text(version: Version) -> &'static [u8]
    ensures { result.now ≡ spec.blocked_text (version_view version) }
{
    match version {
        Version::One => b"was blocked behind entry ",
        Version::Two => b"no choice was enabled behind entry ",
    }
}

/// The words of a note, before the number of the entry behind which it is.
fn note_text(version: Version, kind: NoteKind) -> &'static [u8]
    ensures { result.now ≡ spec.note_text (version_view version) (kind_view kind) }
{
    match kind {
        NoteKind::Blocked => blocked_text(version),
        NoteKind::NoValue => b"an expression had no value behind entry ",
        NoteKind::AssertFails => b"an assertion failed behind entry ",
        NoteKind::Many => {
            b"its first 65536 choices were blocked, and there are more, behind entry "
        }
    }
}

/// That an instance held a resource.
fn held_text(
    alloc: Global,
    holder: u32,
    variable: &Text,
    index: &Option<Value>,
) -> Result<Line, AllocError>
    ensures { IfOk result (λ l. l ≡ flatten (codes "instance " ∷ decimal holder ∷ codes " held " ∷ indexed variable.now (option_map data_of index.now) ∷ [])) }
{
    let resource = indexed_text(alloc, variable, index)?;
    Line::of(
        alloc,
        &[
            Bytes(b"instance "),
            Number(holder as u64),
            Bytes(b" held "),
            Name(&resource),
        ],
    )
}

/// That an instance held the journal.
fn journal_text(alloc: Global, holder: u32) -> Result<Line, AllocError>
    ensures { IfOk result (λ l. l ≡ flatten (codes "instance " ∷ decimal holder ∷ codes " held $log" ∷ [])) }
{
    Line::of(
        alloc,
        &[
            Bytes(b"instance "),
            Number(holder as u64),
            Bytes(b" held $log"),
        ],
    )
}

/// That pre-commits of a resource failed.
fn down_cause(alloc: Global, variable: &Text, index: &Option<Value>) -> Result<Line, AllocError>
    ensures { IfOk result (λ l. l ≡ flatten (codes "a pre-commit of " ∷ indexed variable.now (option_map data_of index.now) ∷ codes " failed" ∷ [])) }
{
    let resource = indexed_text(alloc, variable, index)?;
    Line::of(
        alloc,
        &[
            Bytes(b"a pre-commit of "),
            Name(&resource),
            Bytes(b" failed"),
        ],
    )
}

/// That a pre-commit of a resource failed.
fn down_text(
    alloc: Global,
    operation: u32,
    variable: &Text,
    index: &Option<Value>,
) -> Result<Line, AllocError>
    ensures { IfOk result (λ l. l ≡ flatten (codes "pre-commit " ∷ decimal operation ∷ codes " of " ∷ indexed variable.now (option_map data_of index.now) ∷ codes " failed" ∷ [])) }
{
    let resource = indexed_text(alloc, variable, index)?;
    Line::of(
        alloc,
        &[
            Bytes(b"pre-commit "),
            Number(operation as u64),
            Bytes(b" of "),
            Name(&resource),
            Bytes(b" failed"),
        ],
    )
}

/// What refused attempts.
pub fn cause_text(alloc: Global, attempt: &Attempt) -> Result<Line, AllocError>
    ensures { IfOk result (λ l. l ≡ spec.cause_text (attempt_view attempt.now)) }
{
    match attempt {
        Attempt::Held {
            holder,
            variable,
            index,
        } => held_text(alloc, *holder, variable, index),
        Attempt::HeldJournal { holder } => journal_text(alloc, *holder),
        Attempt::Down {
            variable,
            index,
            ..
        } => down_cause(alloc, variable, index),
        Attempt::Step { .. } | Attempt::Noted { .. } | Attempt::Full { .. } => {
            Line::of(alloc, &[Bytes(b"the journal was full")])
        }
    }
}

/// What an attempt came to, in a bundle of this version.
pub fn report_text(alloc: Global, version: Version, attempt: &Attempt) -> Result<Line, AllocError>
    ensures { IfOk result (λ l. l ≡ spec.report_text (version_view version) (attempt_view attempt.now)) }
{
    match attempt {
        Attempt::Step { n } => Line::of(
            alloc,
            &[Bytes(b"committed, up to entry "), Number(*n as u64)],
        ),
        Attempt::Noted { kind, position } => Line::of(
            alloc,
            &[Bytes(note_text(version, *kind)), Number(*position as u64)],
        ),
        Attempt::Held {
            holder,
            variable,
            index,
        } => held_text(alloc, *holder, variable, index),
        Attempt::HeldJournal { holder } => journal_text(alloc, *holder),
        Attempt::Down {
            operation,
            variable,
            index,
        } => down_text(alloc, *operation, variable, index),
        Attempt::Full { entries } => Line::of(
            alloc,
            &[
                Bytes(b"the journal was full at entry "),
                Number(*entries as u64),
            ],
        ),
    }
}
