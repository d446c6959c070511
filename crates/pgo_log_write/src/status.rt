// The status of a run.
ghost use Rattle.std.specs.Prelude.{◌≡◌, false, map, option_map};
ghost use Rattle.pgo_model.specs.Core.{Settings, end_by, status_where};
ghost use Rattle.pgo_model.specs.Log.{Effect};
ghost use Rattle.pgo_model.specs.Machine as machine;
ghost use Rattle.pgo_model.specs.System.{System};
ghost use Rattle.pgo_log_write.specs.IsFinished.{ended, IsFinished, record_of};
ghost use Rattle.pgo_log_write.specs.Status as spec;

use pgo_journal::finished::{Account, Finished};
use pgo_syntax::records::{End, Record};

/// The end that the last of these records shows.
fn last_end(records: &[Record]) -> Option<End>
    ensures { result ≡ option_map ended (end_by (map record_of records.now)) }
{
    let count = records.len();
    if count == 0 {
        return None;
    }
    let i = count - 1;
    records[i].result.shown_end()
}

fn is_stopped(end: Option<End>) -> bool
    ensures { result ≡ spec.is_stopped end }
{
    matches!(end, Some(End::Stopped))
}

fn is_full(end: Option<End>) -> bool
    ensures { result ≡ spec.is_full end }
{
    matches!(end, Some(End::Full))
}

fn is_done(end: Option<End>) -> bool
    ensures { result ≡ spec.is_done end }
{
    matches!(end, Some(End::Done))
}

/// Whether the last record of some instance is a note that no retry can mend.
fn any_stopped(accounts: &[Account]) -> bool
    ensures { result ≡ spec.any_stopped accounts.now }
{
    for a in accounts {
        if is_stopped(last_end(a.records.as_slice())) {
            return true;
        }
    }
    false
}

/// Whether the last record of some instance is the refusal Full.
fn any_full(accounts: &[Account]) -> bool
    ensures { result ≡ spec.any_full accounts.now }
{
    for a in accounts {
        if is_full(last_end(a.records.as_slice())) {
            return true;
        }
    }
    false
}

/// Whether all instances have ended at "Done".
fn all_done(accounts: &[Account]) -> bool
    ensures { result ≡ spec.all_done accounts.now }
{
    for a in accounts {
        if !is_done(a.end) {
            return false;
        }
    }
    true
}

/// The status of these accounts.
fn status_at(accounts: &[Account]) -> u8
    ensures { result ≡ spec.status_at accounts.now }
{
    if any_stopped(accounts) {
        20
    } else if any_full(accounts) {
        23
    } else if all_done(accounts) {
        0
    } else {
        21
    }
}

/// The status of a run that has ended, as its accounts tell it: 20 where the last record of some instance is a note that no retry
/// can mend; else 23 where that of some instance is the refusal Full; else 0 where all instances have ended at "Done"; else 21.
/// Whether it is 22 in place of 21 the last state tells.
///
/// Source: this project's choice.
pub fn run_status(f: &Finished) -> u8
    ensures { (y : System) (settings : Settings) (g : machine.Finished Effect) → IsFinished y settings g f.now → result ≡ status_where false y settings g }
{
    status_at(f.accounts.as_slice())
}
