// All instances of a bound specification, each in a thread of its own.
ghost use Rattle.std.specs.Prelude.{◌≡◌, ◌<◌, ℕ, length, vec_len, Some, IfOk};
ghost use Rattle.pgo_base.specs.Lookup.{Vars};
ghost use Rattle.pgo_bound.specs.Sound.{Sound};
ghost use Rattle.pgo_bound.specs.State.{AreDifferent, variables_of};
ghost use Rattle.pgo_meaning.specs.System.{system_of};
ghost use Rattle.pgo_model.specs.Machine.{nth};
ghost use Rattle.pgo_resource.specs.PlainRows.{FitsStart};
ghost use Rattle.pgo_syntax.specs.RecordView.{settings_view};
ghost use Rattle.pgo_workers.specs.Worlds.{layout_of, own_in};
ghost use Rattle.pgo_closed.specs.SystemRuns.{SystemPremises};
ghost use Rattle.pgo_threads.specs.Drives.{Differing};
ghost use Rattle.pgo_run_all.specs.LeftBehind.{LeavesRun, LeavesClosed, LeavesWorkers};

use crate::ending::ended;
use crate::finishing::{finished, finished_by_nobody};
use crate::opening::jobs_of;
use pgo_base::scope::State;
use pgo_core::exclusive_board::empty_journal;
use pgo_joined::joined_runs_are_closed;
use pgo_journal::finished::Finished;
use pgo_journal::journal::Journal;
use pgo_resource::resource::Resource;
use pgo_resource::sections::Sections;
use pgo_section::worker::Worker;
use pgo_shared::shared::Shared;
use pgo_syntax::bound::Bound;
use pgo_syntax::records::Settings;
use pgo_threads::gate::Gate;
use pgo_threads::jobs::run_jobs;
use std::alloc::{AllocError, Global};
use std::thread::Threads;

/// Runs each instance in a thread of its own over one table, until each has ended, and closes the table. There is an instance.
fn run_workers<
    T: Threads + Sync,
    P: Drop + Send,
    S: Sections<Place = P> + Sync,
    R: Resource + Send,
    G: Gate + Sync,
>(
    rt: &T,
    alloc: Global,
    sections: &S,
    bound: &Bound,
    owns: Vec<State>,
    contents: Vec<R>,
    settings: &Settings,
    gate: &G,
) -> Result<(Journal, Vec<Worker<P>>), AllocError>
    requires system { S.system sections.now ≡ system_of bound.now }
    requires asked { Differing (S.system sections.now) (S.tree sections.now) (settings_view settings.now) }
    requires sound { Sound bound.now }
    requires names { AreDifferent (variables_of bound.now.spec) }
    requires instances { 0 < length bound.now.instances }
    requires as_many { vec_len contents ≡ length bound.now.resources }
    requires fit { FitsStart R.shows (layout_of (system_of bound.now)) contents.items }
    requires owns_as_many { length owns.items ≡ length bound.now.instances }
    requires owns { (k : ℕ) (o : Vars) → nth owns.items k ≡ Some o → o ≡ own_in (layout_of (system_of bound.now)) (system_of bound.now).start k }
    ensures { IfOk result (λ t. LeavesWorkers (S.system sections.now) (S.tree sections.now) (settings_view settings.now) (S.walk sections.now) t.0 t.1.items) }
{
    let journal = empty_journal(alloc, bound, settings.steps, settings.attempts)?;
    let resources = contents.len() as u32;
    let (shared, seats) = Shared::open(alloc, bound, contents, journal)?;
    let jobs = jobs_of(alloc, sections, &shared, seats, owns, resources, settings)?;
    let after = run_jobs(rt, alloc, sections, gate, jobs)?;
    let (workers, seats) = ended(alloc, after)?;
    joined_runs_are_closed(&shared, workers.as_slice(), seats.as_slice());
    let Ok((journal, _)) = shared.close(alloc, seats) else {
        return Err(AllocError);
    };
    Ok((journal, workers))
}

/// Runs each instance of a bound specification in a thread of its own, until each has ended, and calls the gate before each turn of an
/// instance and once more when it has ended. It leaves the journal and the account of each instance. `owns` has the own components of each
/// instance at the start, in order, `contents` the content of each resource. Where there is no instance the journal is empty.
///
/// Where the system gives no thread for an instance, it runs behind others, so a gate mustn't wait for another instance without end. The gate
/// may be called from several threads at the same time. Of an instance for which memory was wanting no further call comes; the others run on
/// until they have ended.
///
/// Err comes where memory was wanting in a turn or besides, or where an instance has made 2^64 - 1 turns. Nothing is left then.
///
/// - `closed`: the worker of each instance has ended over its board, and the boards are closed.
/// - `run`: each entry is what its instance's section allows on the state before it, from the start on. The records of each instance say what
///   became of each of its attempts, and each refusal has its cause. Each instance has ended.
///
/// Source: this project's choice.
pub fn run_all<
    T: Threads + Sync,
    P: Drop + Send,
    S: Sections<Place = P> + Sync,
    R: Resource + Send,
    G: Gate + Sync,
>(
    rt: &T,
    alloc: Global,
    sections: &S,
    bound: &Bound,
    owns: Vec<State>,
    contents: Vec<R>,
    settings: &Settings,
    gate: &G,
) -> Result<Finished, AllocError>
    requires system { S.system sections.now ≡ system_of bound.now }
    requires asked { Differing (S.system sections.now) (S.tree sections.now) (settings_view settings.now) }
    requires premises { SystemPremises (S.system sections.now) (S.tree sections.now) (settings_view settings.now) }
    requires sound { Sound bound.now }
    requires names { AreDifferent (variables_of bound.now.spec) }
    requires as_many { vec_len contents ≡ length bound.now.resources }
    requires fit { FitsStart R.shows (layout_of (system_of bound.now)) contents.items }
    requires owns_as_many { length owns.items ≡ length bound.now.instances }
    requires owns { (k : ℕ) (o : Vars) → nth owns.items k ≡ Some o → o ≡ own_in (layout_of (system_of bound.now)) (system_of bound.now).start k }
    ensures closed { IfOk result (LeavesClosed (S.system sections.now) (S.tree sections.now) (settings_view settings.now)) }
    ensures run { IfOk result (LeavesRun (S.system sections.now) (settings_view settings.now)) }
{
    if bound.instances.as_slice().is_empty() {
        return finished_by_nobody(alloc, sections, bound, settings);
    }
    let (journal, workers) = run_workers(
        rt, alloc, sections, bound, owns, contents, settings, gate,
    )?;
    finished(alloc, sections, journal, workers, settings)
}
