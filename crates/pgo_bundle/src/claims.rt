// What entries and notes say of each attempt.
ghost use Rattle.std.specs.Prelude.{◌≡◌, map, IfOk};
ghost use Rattle.pgo_bundle.specs.Tables as spec;
ghost use Rattle.pgo_bundle.specs.Untied as untied;
ghost use Rattle.pgo_bundle.specs.View.{account_view, attempt_view, bundle_log_view, logged_entry_view, logged_note_view};
ghost use Rattle.pgo_bundle.specs.ClaimView.{claim_view, row_view, table_view};

use crate::log::{Account, Attempt, BundleLog, LoggedEntry, LoggedNote};
use pgo_syntax::records::NoteKind;
use std::alloc::{AllocError, Global};

/// What entries and notes say of an attempt: nothing, one entry of this number, one note of this kind with so many entries before
/// it, or several things.
#[derive(Clone, Copy)]
pub enum Claim {
    Nothing,
    Step { n: usize },
    Note { kind: NoteKind, position: usize },
    Several,
}

/// What is claimed, and this besides.
fn and_also(claim: Claim, more: Claim) -> Claim
    ensures { claim_view result ≡ untied.and_also (claim_view claim) (claim_view more) }
{
    match claim {
        Claim::Nothing => more,
        _ => Claim::Several,
    }
}

/// This is claimed besides of the attempt of this number, where the row has it.
fn put_in(row: &mut Vec<Claim>, attempt: u32, claim: Claim)
    ensures { row_view row.new ≡ spec.put_in attempt (claim_view claim) (row_view row.old) }
{
    if attempt == 0 {
        return;
    }
    let i = attempt as usize - 1;
    if i < row.len() {
        row[i] = and_also(row[i], claim);
    }
}

/// This is claimed besides of that attempt of the instance of this number, where the table has it.
fn put_claim(table: &mut Vec<Vec<Claim>>, instance: u32, attempt: u32, claim: Claim)
    ensures { table_view table.new ≡ spec.put_claim instance attempt (claim_view claim) (table_view table.old) }
{
    let k = instance as usize;
    if k < table.len() {
        put_in(&mut table[k], attempt, claim);
    }
}

/// What these notes say, with so many entries before them.
#[tactic(auto, unfolding(crate::specs::Tables::put_notes))]
fn put_notes(table: &mut Vec<Vec<Claim>>, notes: &[LoggedNote], position: usize)
    ensures { table_view table.new ≡ spec.put_notes position (map logged_note_view notes.now) (table_view table.old) }
{
    for n in notes {
        let claim = Claim::Note {
            kind: n.kind,
            position,
        };
        put_claim(table, n.instance, n.attempt, claim);
    }
}

/// What the entries say, and the notes behind each.
#[tactic(auto, unfolding(crate::specs::Tables::put_entries))]
fn put_entries(table: &mut Vec<Vec<Claim>>, entries: &[LoggedEntry])
    ensures { table_view table.new ≡ spec.put_entries 1 (map logged_entry_view entries.now) (table_view table.old) }
{
    for (i, e) in entries.iter().enumerate() {
        let n = i + 1;
        put_claim(table, e.entry.instance, e.entry.attempt, Claim::Step { n });
        put_notes(table, e.notes.as_slice(), n);
    }
}

/// A row of nothing for these attempts.
fn empty_row(alloc: Global, attempts: &[Attempt]) -> Result<Vec<Claim>, AllocError>
    ensures { IfOk result (λ r. row_view r ≡ spec.empty_row (map attempt_view attempts.now)) }
{
    let mut row = Vec::new(alloc);
    for _attempt in attempts {
        row.push(Claim::Nothing)?;
    }
    Ok(row)
}

/// A table of nothing for these accounts.
fn empty_table(alloc: Global, accounts: &[Account]) -> Result<Vec<Vec<Claim>>, AllocError>
    ensures { IfOk result (λ t. table_view t ≡ map spec.empty_account (map account_view accounts.now)) }
{
    let mut table = Vec::new(alloc);
    for a in accounts {
        table.push(empty_row(alloc, a.attempts.as_slice())?)?;
    }
    Ok(table)
}

/// What entries and notes say of each attempt that has a record.
pub fn claims_of(alloc: Global, log: &BundleLog) -> Result<Vec<Vec<Claim>>, AllocError>
    ensures { IfOk result (λ t. table_view t ≡ spec.table_of (untied.claim_of (bundle_log_view log.now)) 0 (map account_view log.now.accounts)) }
{
    let mut table = empty_table(alloc, log.accounts.as_slice())?;
    put_notes(&mut table, log.notes.as_slice(), 0);
    put_entries(&mut table, log.entries.as_slice());
    Ok(table)
}
