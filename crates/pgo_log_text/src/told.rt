// What entries of version 2 tell besides: prints and notes.
ghost use Rattle.std.specs.Prelude.{[], map, option_map};
ghost use Rattle.pgo_base.specs.View.{data_of};
ghost use Rattle.pgo_bundle.specs.View.{logged_entry_view, logged_note_view};
ghost use Rattle.pgo_model.specs.LogView.{entry_view};
ghost use Rattle.pgo_syntax.specs.RecordView.{kind_view};
ghost use Rattle.pgo_log_text.specs.Lines as spec;
ghost use Rattle.pgo_log_text.specs.Parsers.{Reads, ReadsAs};

use crate::cursor::Cursor;
use crate::entry::{changes, entry_front, entry_made};
use crate::errors::LineStop;
use crate::field::{last_number, last_value, number_field};
use pgo_base::log::{Entry, Values};
use pgo_base::text::Text;
use pgo_base::value::Value;
use pgo_bundle::log::{LoggedEntry, LoggedNote, LoggedNotes};
use pgo_syntax::records::NoteKind;
use std::alloc::Global;

/// It isn't told what was printed.
#[tactic(auto, unfolding(crate::specs::Lines::untold, crate::specs::Lines::word_of))]
fn untold(cursor: &mut Cursor<'_>) -> Result<Option<u32>, LineStop>
    ensures { Reads (spec.untold cursor.old) result cursor.new }
{
    cursor.expect(b"-\n")?;
    Ok(None)
}

/// How many values were printed.
#[tactic(auto, unfolding(crate::specs::Lines::told))]
fn told(cursor: &mut Cursor<'_>) -> Result<Option<u32>, LineStop>
    ensures { Reads (spec.told cursor.old) result cursor.new }
{
    let count = last_number(cursor)?;
    Ok(Some(count))
}

/// How many values were printed, where this is told.
#[tactic(auto, unfolding(crate::specs::Lines::prints_count))]
fn prints_count(cursor: &mut Cursor<'_>) -> Result<Option<u32>, LineStop>
    ensures { Reads (spec.prints_count cursor.old) result cursor.new }
{
    if cursor.begins(b"-") {
        untold(cursor)
    } else {
        told(cursor)
    }
}

/// `print value`.
#[tactic(auto, unfolding(crate::specs::Lines::print))]
fn print(alloc: Global, cursor: &mut Cursor<'_>) -> Result<Value, LineStop>
    ensures { ReadsAs data_of (spec.print cursor.old) result cursor.new }
{
    cursor.expect(b"print ")?;
    last_value(alloc, cursor)
}

/// So many values that were printed.
fn prints(alloc: Global, cursor: &mut Cursor<'_>, count: u32) -> Result<Values, LineStop>
    ensures { Reads (spec.prints count [] cursor.old) result cursor.new }
{
    let mut list = Vec::new(alloc);
    for _turn in 0..count {
        list.push(print(alloc, cursor)?)?;
    }
    Ok(Values::from_vec(list))
}

/// So many values, which are told.
#[tactic(auto, unfolding(crate::specs::Lines::all_prints))]
fn all_prints(
    alloc: Global,
    cursor: &mut Cursor<'_>,
    count: u32,
) -> Result<Option<Values>, LineStop>
    ensures { Reads (spec.all_prints count cursor.old) result cursor.new }
{
    let values = prints(alloc, cursor, count)?;
    Ok(Some(values))
}

/// What was printed, where so many values of it are told.
#[tactic(auto, unfolding(crate::specs::Lines::prints_told))]
fn prints_told(
    alloc: Global,
    cursor: &mut Cursor<'_>,
    count: Option<u32>,
) -> Result<Option<Values>, LineStop>
    ensures { Reads (spec.prints_told count cursor.old) result cursor.new }
{
    match count {
        Some(count) => all_prints(alloc, cursor, count),
        None => Ok(None),
    }
}

/// What was found, at the end of a line.
#[tactic(auto, unfolding(crate::specs::Lines::found, crate::specs::Lines::word_of))]
fn found(cursor: &mut Cursor<'_>) -> Result<NoteKind, LineStop>
    ensures { ReadsAs kind_view (spec.found cursor.old) result cursor.new }
{
    if cursor.begins(b"blocked\n") {
        cursor.expect(b"blocked\n")?;
        return Ok(NoteKind::Blocked);
    }
    if cursor.begins(b"novalue\n") {
        cursor.expect(b"novalue\n")?;
        return Ok(NoteKind::NoValue);
    }
    if cursor.begins(b"assert\n") {
        cursor.expect(b"assert\n")?;
        return Ok(NoteKind::AssertFails);
    }
    cursor.expect(b"many\n")?;
    Ok(NoteKind::Many)
}

/// `note k a kind`.
#[tactic(auto, unfolding(crate::specs::Lines::note))]
fn note(cursor: &mut Cursor<'_>) -> Result<LoggedNote, LineStop>
    ensures { ReadsAs logged_note_view (spec.note cursor.old) result cursor.new }
{
    cursor.expect(b"note ")?;
    let instance = number_field(cursor)?;
    let attempt = number_field(cursor)?;
    let kind = found(cursor)?;
    Ok(LoggedNote {
        instance,
        attempt,
        kind,
    })
}

/// The notes that are next.
pub fn notes(alloc: Global, cursor: &mut Cursor<'_>) -> Result<LoggedNotes, LineStop>
    ensures { ReadsAs (λ ns. map logged_note_view ns) (spec.notes cursor.old) result cursor.new }
{
    let mut notes = LoggedNotes::new(alloc);
    'parts: while cursor.begins(b"note ") {
        notes.push(note(cursor)?)?;
    }
    Ok(notes)
}

/// The entry with this front, and what it printed.
#[tactic(auto, unfolding(crate::specs::Lines::entry_told))]
fn entry_told(
    alloc: Global,
    cursor: &mut Cursor<'_>,
    front: (u32, u32, Text, Text),
) -> Result<(Entry, Option<Values>), LineStop>
    ensures { ReadsAs (λ p. (entry_view p.0, p.1)) (spec.entry_told front cursor.old) result cursor.new }
{
    let count = number_field(cursor)?;
    let told = prints_count(cursor)?;
    let changes = changes(alloc, cursor, count)?;
    let prints = prints_told(alloc, cursor, told)?;
    Ok((entry_made(alloc, front, changes), prints))
}

/// The entry of this number in version 2.
#[tactic(auto, unfolding(crate::specs::Lines::logged_entry))]
pub fn logged_entry(
    alloc: Global,
    cursor: &mut Cursor<'_>,
    number: u32,
) -> Result<LoggedEntry, LineStop>
    ensures { ReadsAs logged_entry_view (spec.logged_entry number cursor.old) result cursor.new }
{
    let front = entry_front(alloc, cursor, number)?;
    let (entry, prints) = entry_told(alloc, cursor, front)?;
    let notes = notes(alloc, cursor)?;
    Ok(LoggedEntry {
        entry,
        prints,
        notes,
    })
}
