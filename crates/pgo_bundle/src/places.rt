// The lines of a log by their places in its text.
ghost use Rattle.std.specs.Prelude.{◌≡◌, ◌+◌, ◌^◌, ◌-◌, length, map, min, suc};
ghost use Rattle.pgo_bundle.specs.ClaimView.{untied_view};
ghost use Rattle.pgo_bundle.specs.Places as spec;
ghost use Rattle.pgo_bundle.specs.View.{account_view, bundle_log_view, logged_entry_view, logged_note_view, version_view};

use crate::log::{Account, BundleLog, LoggedEntry, LoggedNote, Version};
use crate::untied::Untied;
use pgo_base::slices::first;

/// How many lines an entry has, without the notes behind it.
fn own_size(version: Version, entry: &LoggedEntry) -> usize
    ensures { result ≡ min (spec.own_size (version_view version) (logged_entry_view entry.now)) (2 ^ 64 - 1) }
{
    let size = entry.entry.changes.as_slice().len().saturating_add(1);
    match (version, &entry.prints) {
        (Version::Two, Some(values)) => size.saturating_add(values.as_slice().len()),
        _ => size,
    }
}

/// How many lines notes have.
fn notes_size(version: Version, notes: &[LoggedNote]) -> usize
    ensures { result ≡ spec.notes_size (version_view version) (map logged_note_view notes.now) }
{
    match version {
        Version::One => 0,
        Version::Two => notes.len(),
    }
}

/// How many lines these entries have, with the notes behind each.
fn entries_size(version: Version, entries: &[LoggedEntry]) -> usize
    ensures { result ≡ min (spec.entries_size (version_view version) (map logged_entry_view entries.now)) (2 ^ 64 - 1) }
{
    let mut size: usize = 0;
    for e in entries {
        let own = own_size(version, e).saturating_add(notes_size(version, e.notes.as_slice()));
        size = size.saturating_add(own);
    }
    size
}

/// How many lines these accounts have.
fn accounts_size(accounts: &[Account]) -> usize
    ensures { result ≡ min (spec.accounts_size (map account_view accounts.now)) (2 ^ 64 - 1) }
{
    let mut size: usize = 0;
    for a in accounts {
        let own = a.attempts.as_slice().len().saturating_add(1);
        size = size.saturating_add(own);
    }
    size
}

/// How many lines stand before the entries.
fn front_size(log: &BundleLog) -> usize
    ensures { result ≡ min (spec.front_size (bundle_log_view log.now)) (2 ^ 64 - 1) }
{
    let start = log.start.as_slice().len().saturating_add(1);
    start.saturating_add(notes_size(log.version, log.notes.as_slice()))
}

/// How many lines of the log's text, from its first on, stand before this record.
fn before_record(log: &BundleLog, instance: usize, attempt: usize) -> usize
    ensures { result ≡ min (spec.lines_before (bundle_log_view log.now) (spec.AtRecord instance attempt)) (2 ^ 64 - 1) }
{
    let entries = entries_size(log.version, log.entries.as_slice());
    let accounts = accounts_size(first(log.accounts.as_slice(), instance));
    front_size(log)
        .saturating_add(entries)
        .saturating_add(accounts)
        .saturating_add(attempt)
}

/// How many stand before the entry behind so many.
fn before_entry(log: &BundleLog, entries: usize) -> usize
    ensures { result ≡ min (spec.lines_before (bundle_log_view log.now) (spec.AtEntry (suc entries))) (2 ^ 64 - 1) }
{
    let size = entries_size(log.version, first(log.entries.as_slice(), entries));
    front_size(log).saturating_add(size)
}

/// How many lines the entry behind so many has, without the notes behind it.
fn own_size_at(log: &BundleLog, entries: usize) -> usize
    ensures { result ≡ min (spec.own_size_at (bundle_log_view log.now) entries) (2 ^ 64 - 1) }
{
    match log.entries.as_slice().get(entries) {
        Some(entry) => own_size(log.version, entry),
        None => 0,
    }
}

/// How many stand before the note at this place, which has so many entries before it.
fn before_note(log: &BundleLog, position: usize, place: usize) -> usize
    ensures { result ≡ min (spec.lines_before (bundle_log_view log.now) (spec.AtNote position place)) (2 ^ 64 - 1) }
{
    if position == 0 {
        return log
            .start
            .as_slice()
            .len()
            .saturating_add(1)
            .saturating_add(place);
    }
    let entries = position - 1;
    before_entry(log, entries)
        .saturating_add(own_size_at(log, entries))
        .saturating_add(place)
}

/// How many lines of the log's text, from its first on, stand before this place.
pub fn lines_before(log: &BundleLog, untied: Untied) -> usize
    ensures { result ≡ min (spec.lines_before (bundle_log_view log.now) (untied_view untied)) (2 ^ 64 - 1) }
{
    match untied {
        Untied::Record { instance, attempt } => before_record(log, instance, attempt),
        Untied::Entry { number: 0 } => 0,
        Untied::Entry { number } => before_entry(log, number - 1),
        Untied::Note { position, place } => before_note(log, position, place),
    }
}
