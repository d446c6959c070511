// The notes that records tell, put behind the entries; and the log that is checked.
ghost use Rattle.std.specs.Prelude.{◌≡◌, ◌<◌, ◌^◌, ◌++◌, length, map, IfOk};
ghost use Rattle.pgo_bundle.specs.BundleLog.{checked_log};
ghost use Rattle.pgo_bundle.specs.Migrated.{all_told, note_told, notes_told};
ghost use Rattle.pgo_bundle.specs.Noted as spec;
ghost use Rattle.pgo_bundle.specs.PositionView.{place_view};
ghost use Rattle.pgo_bundle.specs.View.{account_view, attempt_view, bundle_log_view, logged_entry_view, logged_note_view};
ghost use Rattle.pgo_model.specs.LogView.{entry_view, log_view};
ghost use Rattle.pgo_syntax.specs.RecordView.{note_view};

use crate::log::{Account, Accounts, Attempt, BundleLog, LoggedEntries, LoggedNotes};
use crate::positions::{by_position, place_at};
use pgo_base::log::{Entries, Log, Values};
use pgo_syntax::records::Note;
use std::alloc::{AllocError, Global};

/// Adds the note that the record of this attempt of this instance tells, if it tells one.
fn push_note(
    notes: &mut Vec<Note>,
    instance: u32,
    attempt: u32,
    record: &Attempt,
) -> Result<(), AllocError>
    ensures { IfOk result (λ _. map note_view notes.new.items ≡ map note_view notes.old.items ++ note_told instance attempt (attempt_view «record».now)) }
{
    match record {
        Attempt::Noted { kind, position } => {
            notes.push(Note {
                instance,
                attempt,
                kind: *kind,
                position: *position,
            })?;
            Ok(())
        }
        Attempt::Step { .. }
        | Attempt::Held { .. }
        | Attempt::HeldJournal { .. }
        | Attempt::Down { .. }
        | Attempt::Full { .. } => Ok(()),
    }
}

/// Adds those of the records of this instance.
fn push_notes(notes: &mut Vec<Note>, instance: u32, records: &[Attempt]) -> Result<(), AllocError>
    requires { length records.now < 2 ^ 32 }
    ensures { IfOk result (λ _. map note_view notes.new.items ≡ map note_view notes.old.items ++ notes_told instance 1 (map attempt_view records.now)) }
{
    for (i, record) in records.iter().enumerate() {
        push_note(notes, instance, i as u32 + 1, record)?;
    }
    Ok(())
}

/// The notes of all instances, by instance, and by attempt.
fn told_notes(alloc: Global, accounts: &[Account]) -> Result<Vec<Note>, AllocError>
    requires { spec.AreFew (map account_view accounts.now) }
    ensures { IfOk result (λ v. map note_view v.items ≡ all_told 0 (map account_view accounts.now)) }
{
    let mut notes = Vec::new(alloc);
    for (k, account) in accounts.iter().enumerate() {
        push_notes(&mut notes, k as u32, account.attempts.as_slice())?;
    }
    Ok(notes)
}

/// The list at this place once more.
fn place_of(alloc: Global, places: &[LoggedNotes], place: usize) -> Result<LoggedNotes, AllocError>
    ensures { IfOk result (λ ns. map logged_note_view ns ≡ spec.place_of place (map place_view places.now)) }
{
    let notes = Vec::from_slice(alloc, place_at(places, place))?;
    Ok(LoggedNotes::from_vec(notes))
}

/// The entries with the lists of their places behind them.
fn placed(
    alloc: Global,
    entries: LoggedEntries,
    places: &[LoggedNotes],
) -> Result<LoggedEntries, AllocError>
    ensures { IfOk result (λ es. map logged_entry_view es ≡ spec.placed_from 1 (map place_view places.now) (map logged_entry_view entries)) }
{
    let mut list = LoggedEntries::new(alloc);
    for e in entries.into_vec() {
        let notes = place_of(alloc, places, list.as_slice().len() + 1)?;
        list.push(e.with_notes(notes))?;
    }
    Ok(list)
}

/// The entries alone.
fn entries_of(alloc: Global, entries: LoggedEntries) -> Result<Entries, AllocError>
    ensures { IfOk result (λ es. map entry_view es ≡ map (λ e. e.entry) (map logged_entry_view entries)) }
{
    let mut list = Entries::new(alloc);
    for e in entries.into_vec() {
        list.push(e.into_entry())?;
    }
    Ok(list)
}

/// The identifiers of accounts.
fn ids_of(alloc: Global, accounts: Accounts) -> Result<Values, AllocError>
    ensures { IfOk result (λ ids. ids ≡ map (λ a. a.id) (map account_view accounts)) }
{
    let mut list = Vec::new(alloc);
    for a in accounts.into_vec() {
        list.push(a.into_id())?;
    }
    Ok(Values::from_vec(list))
}

impl BundleLog {
    /// The log with the notes that its records tell, by position, of one position by instance, and of one instance by attempt;
    /// without prints.
    pub fn noted(self, alloc: Global) -> Result<BundleLog, AllocError>
        requires few { spec.AreFew (map account_view self.accounts) }
        requires entries { length self.entries < 2 ^ 32 }
        ensures { IfOk result (λ l. bundle_log_view l ≡ spec.noted (bundle_log_view self)) }
    {
        let (version, start, entries, accounts, status) = self.into_parts();
        let told = told_notes(alloc, accounts.as_slice())?;
        let count = entries.as_slice().len() as u32;
        let places = by_position(alloc, told.as_slice(), count)?;
        let notes = place_of(alloc, places.as_slice(), 0)?;
        let entries = placed(alloc, entries, places.as_slice())?;
        Ok(BundleLog {
            version,
            start,
            notes,
            entries,
            accounts,
            status,
        })
    }

    /// The log that is checked: the identifiers of the instances, the start and the entries.
    pub fn into_log(self, alloc: Global) -> Result<Log, AllocError>
        ensures { IfOk result (λ l. log_view l ≡ checked_log (bundle_log_view self)) }
    {
        let (_version, start, entries, accounts, _status) = self.into_parts();
        let entries = entries_of(alloc, entries)?;
        let ids = ids_of(alloc, accounts)?;
        Ok(Log {
            ids,
            start,
            entries,
        })
    }
}
