// Where a log isn't tied.
ghost use Rattle.std.specs.Prelude.{◌≡◌, map, IfOk, option_map};
ghost use Rattle.pgo_bundle.specs.Tables as tables;
ghost use Rattle.pgo_bundle.specs.Untied as spec;
ghost use Rattle.pgo_bundle.specs.View.{account_view, attempt_view, bundle_log_view, logged_entry_view, logged_note_view};
ghost use Rattle.pgo_bundle.specs.ClaimView.{claim_view, rows_view, untied_view};
ghost use Rattle.pgo_syntax.specs.RecordView.{kind_view};

use crate::claims::{Claim, claims_of};
use crate::log::{Account, Attempt, BundleLog, LoggedEntry, LoggedNote};
use pgo_syntax::records::NoteKind;
use std::alloc::{AllocError, Global};

/// Where a log isn't tied: at the record of an attempt, from 1, of an instance; at an entry of this number, from 1; or at a note, by
/// how many entries stand before it, and its place among the notes there, from 0.
#[derive(Clone, Copy)]
pub enum Untied {
    Record { instance: usize, attempt: usize },
    Entry { number: usize },
    Note { position: usize, place: usize },
}

fn same_kind(a: NoteKind, b: NoteKind) -> bool
    ensures { result ≡ spec.same_kind (kind_view a) (kind_view b) }
{
    match (a, b) {
        (NoteKind::Blocked, NoteKind::Blocked) => true,
        (NoteKind::NoValue, NoteKind::NoValue) => true,
        (NoteKind::AssertFails, NoteKind::AssertFails) => true,
        (NoteKind::Many, NoteKind::Many) => true,
        _ => false,
    }
}

/// Whether what is claimed is this entry.
fn is_step(claim: Claim, number: u32) -> bool
    ensures { result ≡ spec.says_so (claim_view claim) (spec.StepLine number) }
{
    match claim {
        Claim::Step { n } => n == number as usize,
        _ => false,
    }
}

/// Whether what is claimed is this note.
fn is_note(claim: Claim, found: NoteKind, after: u32) -> bool
    ensures { result ≡ spec.says_so (claim_view claim) (spec.NoteLine (kind_view found) after) }
{
    match claim {
        Claim::Note { kind, position } => same_kind(kind, found) && position == after as usize,
        _ => false,
    }
}

/// Whether a record says what is claimed of its attempt.
fn says_so(claim: Claim, attempt: &Attempt) -> bool
    ensures { result ≡ spec.says_so (claim_view claim) (attempt_view attempt.now) }
{
    match attempt {
        Attempt::Step { n } => is_step(claim, *n),
        Attempt::Noted { kind, position } => is_note(claim, *kind, *position),
        Attempt::Held { .. }
        | Attempt::HeldJournal { .. }
        | Attempt::Down { .. }
        | Attempt::Full { .. } => matches!(claim, Claim::Nothing),
    }
}

/// Whether a record may stand behind others: the last step among them has this number, and the most of any step or note is that.
fn follows(last: usize, most: usize, attempt: &Attempt) -> bool
    ensures { result ≡ spec.follows last most (attempt_view attempt.now) }
{
    match attempt {
        Attempt::Step { n } => most < *n as usize,
        Attempt::Noted { position, .. } => last <= *position as usize,
        _ => true,
    }
}

fn last_with(last: usize, attempt: &Attempt) -> usize
    ensures { result ≡ spec.last_with last (attempt_view attempt.now) }
{
    match attempt {
        Attempt::Step { n } => *n as usize,
        _ => last,
    }
}

fn most_with(most: usize, attempt: &Attempt) -> usize
    ensures { result ≡ spec.most_with most (attempt_view attempt.now) }
{
    match attempt {
        Attempt::Step { n } => *n as usize,
        Attempt::Noted { position, .. } => most.max(*position as usize),
        _ => most,
    }
}

/// The first record of an account that says something else than what is claimed, or stands in another order.
fn broken_row(row: &[Claim], attempts: &[Attempt]) -> Option<usize>
    ensures { result ≡ tables.broken_row (map claim_view row.now) 1 0 0 (map attempt_view attempts.now) }
{
    let mut last = 0;
    let mut most = 0;
    for i in 0..row.len().min(attempts.len()) {
        let attempt = &attempts[i];
        if !says_so(row[i], attempt) || !follows(last, most, attempt) {
            return Some(i + 1);
        }
        last = last_with(last, attempt);
        most = most_with(most, attempt);
    }
    None
}

/// The first of all.
fn broken_rows(table: &[Vec<Claim>], accounts: &[Account]) -> Option<Untied>
    ensures { option_map untied_view result ≡ tables.broken_rows (rows_view table.now) 0 (map account_view accounts.now) }
{
    for k in 0..table.len().min(accounts.len()) {
        match broken_row(table[k].as_slice(), accounts[k].attempts.as_slice()) {
            Some(attempt) => {
                return Some(Untied::Record {
                    instance: k,
                    attempt,
                });
            }
            None => {}
        }
    }
    None
}

/// Whether the attempt has a record.
fn is_recorded(accounts: &[Account], instance: u32, attempt: u32) -> bool
    ensures { result ≡ spec.is_recorded (map account_view accounts.now) instance attempt }
{
    match accounts.get(instance as usize) {
        Some(account) => attempt != 0 && attempt as usize <= account.attempts.as_slice().len(),
        None => false,
    }
}

/// The first entry whose attempt has no record.
fn unnamed_entry(accounts: &[Account], entries: &[LoggedEntry]) -> Option<Untied>
    ensures { option_map untied_view result ≡ spec.unnamed_entry (map account_view accounts.now) 1 (map logged_entry_view entries.now) }
{
    for (i, e) in entries.iter().enumerate() {
        if !is_recorded(accounts, e.entry.instance, e.entry.attempt) {
            return Some(Untied::Entry { number: i + 1 });
        }
    }
    None
}

/// The first of these notes whose attempt has no record. So many entries stand before them.
fn unnamed_among(accounts: &[Account], notes: &[LoggedNote], position: usize) -> Option<Untied>
    ensures { option_map untied_view result ≡ spec.unnamed_among (map account_view accounts.now) position 0 (map logged_note_view notes.now) }
{
    for (place, n) in notes.iter().enumerate() {
        if !is_recorded(accounts, n.instance, n.attempt) {
            return Some(Untied::Note { position, place });
        }
    }
    None
}

/// The first of the notes behind these entries.
fn unnamed_behind(accounts: &[Account], entries: &[LoggedEntry]) -> Option<Untied>
    ensures { option_map untied_view result ≡ spec.unnamed_behind (map account_view accounts.now) 1 (map logged_entry_view entries.now) }
{
    for (i, e) in entries.iter().enumerate() {
        let found = unnamed_among(accounts, e.notes.as_slice(), i + 1);
        if found.is_some() {
            return found;
        }
    }
    None
}

/// This, or else that.
fn or_else(first: Option<Untied>, second: Option<Untied>) -> Option<Untied>
    ensures { option_map untied_view result ≡ spec.or_else (option_map untied_view first) (option_map untied_view second) }
{
    match first {
        Some(untied) => Some(untied),
        None => second,
    }
}

/// Where the log isn't tied, if anywhere: at the first record that says something else than the entries and notes of its attempt,
/// or whose number breaks the order of those before it; else at the first entry, else at the first note, whose attempt has no
/// record.
///
/// Source: this project's choice.
pub fn first_untied(alloc: Global, log: &BundleLog) -> Result<Option<Untied>, AllocError>
    ensures { IfOk result (λ o. option_map untied_view o ≡ spec.untied_at (bundle_log_view log.now)) }
{
    let table = claims_of(alloc, log)?;
    let accounts = log.accounts.as_slice();
    let broken = broken_rows(table.as_slice(), accounts);
    let entry = unnamed_entry(accounts, log.entries.as_slice());
    let first = unnamed_among(accounts, log.notes.as_slice(), 0);
    let note = or_else(first, unnamed_behind(accounts, log.entries.as_slice()));
    Ok(or_else(broken, or_else(entry, note)))
}
