// What workers that have ended leave.
ghost use Rattle.std.specs.Prelude.{◌≡◌, ◌≤◌, ℕ, length, Some, IfOk};
ghost use Rattle.pgo_closed.specs.SystemRuns.{SystemPremises};
ghost use Rattle.pgo_core.specs.Cores.{AreAccountsOf};
ghost use Rattle.pgo_meaning.specs.System.{system_of};
ghost use Rattle.pgo_model.specs.Machine.{nth};
ghost use Rattle.pgo_syntax.specs.RecordView.{settings_view};
ghost use Rattle.pgo_run_all.specs.LeftBehind.{LeavesClosed, LeavesRun, LeavesWorkers};

use pgo_base::items::Items;
use pgo_closed::closed_runs_are_accounted;
use pgo_core::accounts::{accounts_of, rooms_of};
use pgo_core::exclusive_board::empty_journal;
use pgo_journal::finished::{Account, Finished};
use pgo_journal::journal::Journal;
use pgo_resource::sections::Sections;
use pgo_section::worker::Worker;
use pgo_syntax::bound::Bound;
use pgo_syntax::records::Settings;
use std::alloc::{AllocError, Global};

/// The accounts of workers that have made at most so many attempts each, in order.
fn accounted<P: Drop>(
    alloc: Global,
    workers: &[Worker<P>],
    attempts: u32,
) -> Result<Vec<Account>, AllocError>
    requires bounded { (k : ℕ) (w : Worker P) → nth workers.now k ≡ Some w → length w.records.items ≤ attempts }
    ensures as_many { IfOk result (λ v. length v.items ≡ length workers.now) }
    ensures are { IfOk result (λ v. AreAccountsOf workers.now v.items) }
{
    let rooms = rooms_of(alloc, workers.len(), attempts)?;
    let mut accounts = Vec::with_capacity(alloc, workers.len())?;
    accounts_of(workers, rooms, attempts, &mut accounts);
    Ok(accounts)
}

/// The journal and the accounts of workers that have ended.
pub fn finished<P: Drop, S: Sections<Place = P>>(
    alloc: Global,
    sections: &S,
    journal: Journal,
    workers: Vec<Worker<P>>,
    settings: &Settings,
) -> Result<Finished, AllocError>
    requires premises { SystemPremises (S.system sections.now) (S.tree sections.now) (settings_view settings.now) }
    requires left { LeavesWorkers (S.system sections.now) (S.tree sections.now) (settings_view settings.now) (S.walk sections.now) journal workers.items }
    ensures closed { IfOk result (LeavesClosed (S.system sections.now) (S.tree sections.now) (settings_view settings.now)) }
    ensures run { IfOk result (LeavesRun (S.system sections.now) (settings_view settings.now)) }
{
    closed_runs_are_accounted();
    let accounts = accounted(alloc, workers.as_slice(), settings.attempts)?;
    Ok(Finished {
        journal,
        accounts: Items::from_vec(accounts),
    })
}

/// Where there is no instance: an empty journal, and no account.
pub fn finished_by_nobody<P: Drop, S: Sections<Place = P>>(
    alloc: Global,
    sections: &S,
    bound: &Bound,
    settings: &Settings,
) -> Result<Finished, AllocError>
    requires system { S.system sections.now ≡ system_of bound.now }
    requires premises { SystemPremises (S.system sections.now) (S.tree sections.now) (settings_view settings.now) }
    requires nobody { length bound.now.instances ≡ 0 }
    ensures closed { IfOk result (LeavesClosed (S.system sections.now) (S.tree sections.now) (settings_view settings.now)) }
    ensures run { IfOk result (LeavesRun (S.system sections.now) (settings_view settings.now)) }
{
    let journal = empty_journal(alloc, bound, settings.steps, settings.attempts)?;
    finished(alloc, sections, journal, Vec::new(alloc), settings)
}
