// The entries of a log, in either version.
ghost use Rattle.std.specs.Prelude.{[], map};
ghost use Rattle.pgo_bundle.specs.View.{logged_entry_view, logged_note_view, version_view};
ghost use Rattle.pgo_log_text.specs.Lines as spec;
ghost use Rattle.pgo_log_text.specs.Parsers.{ReadsAs};

use crate::cursor::Cursor;
use crate::entry::entry;
use crate::errors::LineStop;
use crate::told::{logged_entry, notes};
use pgo_bundle::log::{LoggedEntries, LoggedEntry, LoggedNotes, Version};
use std::alloc::Global;

/// The entry of this number.
fn entry_as(
    alloc: Global,
    cursor: &mut Cursor<'_>,
    version: Version,
    number: u32,
) -> Result<LoggedEntry, LineStop>
    ensures { ReadsAs logged_entry_view (spec.entry_as (version_view version) number cursor.old) result cursor.new }
{
    match version {
        Version::One => entry(alloc, cursor, number),
        Version::Two => logged_entry(alloc, cursor, number),
    }
}

/// The notes before the first entry.
pub fn first_notes(
    alloc: Global,
    cursor: &mut Cursor<'_>,
    version: Version,
) -> Result<LoggedNotes, LineStop>
    ensures { ReadsAs (λ ns. map logged_note_view ns) (spec.first_notes (version_view version) cursor.old) result cursor.new }
{
    match version {
        Version::One => Ok(LoggedNotes::new(alloc)),
        Version::Two => notes(alloc, cursor),
    }
}

/// The entries, numbered from 1.
pub fn entries(
    alloc: Global,
    cursor: &mut Cursor<'_>,
    version: Version,
) -> Result<LoggedEntries, LineStop>
    ensures { ReadsAs (λ es. map logged_entry_view es) (spec.entries (version_view version) spec.most_parts 1 [] cursor.old) result cursor.new }
{
    let mut entries = LoggedEntries::new(alloc);
    let mut count: u32 = 0;
    'parts: while cursor.begins(b"step ") {
        if count == u32::MAX {
            return Err(LineStop::BadLine);
        }
        count += 1;
        entries.push(entry_as(alloc, cursor, version, count)?)?;
    }
    Ok(entries)
}
