// A bound specification, run on threads.
ghost use Rattle.std.specs.Prelude.{◌≡◌, IfOk};
ghost use Rattle.pgo_accept.specs.Answers.{NothingRefuses};
ghost use Rattle.pgo_accesses.specs.Programs.{tree_of};
ghost use Rattle.pgo_bound.specs.Sound.{Sound};
ghost use Rattle.pgo_bound.specs.State.{AreDifferent, variables_of};
ghost use Rattle.pgo_closed.specs.SystemRuns.{SystemPremises};
ghost use Rattle.pgo_execute.specs.Accepts.{Accepts};
ghost use Rattle.pgo_execute.specs.Gives.{Gives};
ghost use Rattle.pgo_execute.specs.Schedules.{Threads};
ghost use Rattle.pgo_log_text.specs.IsBundle.{AreCanonical};
ghost use Rattle.pgo_meaning.specs.LabelSections.{AreUnlabelled};
ghost use Rattle.pgo_meaning.specs.System.{system_of};
ghost use Rattle.pgo_pluscal.specs.PlusCalOf.{pluscal_of};
ghost use Rattle.pgo_run_all.specs.LeftBehind.{LeavesClosed};
ghost use Rattle.pgo_syntax.specs.RecordView.{settings_view};
ghost use Rattle.pgo_threads.specs.Drives.{Differing};

use crate::closed::closed_boards_ran;
use crate::constants::declared_constants;
use crate::execute::Executed;
use crate::run::{counts_are_short, sections};
use crate::status::status_of_run;
use pgo_accounts::{
    closed_boards_are_runs, made_entries_are_runs, texts_keep_states, workers_follow_machines,
};
use pgo_agrees::{premises_hold, texts_are_accepted};
use pgo_base::consts::Consts;
use pgo_base::results::both;
use pgo_journal::finished::Finished;
use pgo_links::linked::linked;
use pgo_log_write::write::write_bundle;
use pgo_pluscal::pluscal::PlusCal;
use pgo_programs::programs_run;
use pgo_run_all::run_all::run_all;
use pgo_run_all::run_parked::run_parked;
use pgo_run_values::spellable_values_are_read_back;
use pgo_runnable::accepted_runs;
use pgo_starts::contents::contents;
use pgo_starts::own::all_own_at_start;
use pgo_syntax::bound::Bound;
use pgo_syntax::records::Settings;
use pgo_threads::gate::Gate;
use pgo_translate::translate::translate;
use pgo_written_runs::read_values_are_canonical;
use std::alloc::{AllocError, Global};
use std::sync::Wait;
use std::thread::Threads;

/// Runs what a specification is bound to, each instance in a thread of its own, until each has ended; where the settings say so, an instance
/// whose attempt was blocked parks.
fn finished_on_threads<T: Threads + Wait + Sync, G: Gate + Sync>(
    rt: &T,
    alloc: Global,
    bound: &Bound,
    settings: &Settings,
    gate: &G,
) -> Result<Finished, AllocError>
    requires macros { AreUnlabelled bound.now.spec.macros }
    requires names { AreDifferent (variables_of bound.now.spec) }
    requires sound { Sound bound.now }
    requires asked { Differing (system_of bound.now) (tree_of bound.now) (settings_view settings.now) }
    requires premises { SystemPremises (system_of bound.now) (tree_of bound.now) (settings_view settings.now) }
    ensures { IfOk result (LeavesClosed (system_of bound.now) (tree_of bound.now) (settings_view settings.now)) }
{
    programs_run();
    let sections = sections(alloc, bound)?;
    let (owns, contents) = both(all_own_at_start(alloc, bound), contents(alloc, bound))?;
    let links = linked(alloc, contents)?;
    if settings.park {
        return run_parked(rt, alloc, &sections, bound, owns, links, settings, gate);
    }
    run_all(rt, alloc, &sections, bound, owns, links, settings, gate)
}

/// Runs a bound specification, whose expansion this is, each instance in a thread of its own.
pub fn expanded_on_threads<T: Threads + Wait + Sync, G: Gate + Sync>(
    rt: &T,
    alloc: Global,
    bound: &Bound,
    expanded: &PlusCal,
    consts: &Consts,
    settings: &Settings,
    gate: &G,
) -> Result<Executed, AllocError>
    requires accepts { Accepts bound.now consts.now }
    requires constants { AreCanonical consts.now }
    requires passes { NothingRefuses bound.now.spec consts.now }
    requires expanded { expanded.now ≡ pluscal_of bound.now.spec }
    ensures { IfOk result (λ r. Gives bound.now.spec consts.now (settings_view settings.now) Threads r.status r.text) }
{
    counts_are_short(settings);
    read_values_are_canonical();
    spellable_values_are_read_back();
    texts_are_accepted();
    premises_hold();
    texts_keep_states();
    workers_follow_machines();
    closed_boards_are_runs();
    closed_boards_ran();
    made_entries_are_runs();
    accepted_runs();
    let made = translate(alloc, expanded)?;
    let constants = declared_constants(alloc, &bound.spec, consts)?;
    let finished = finished_on_threads(rt, alloc, bound, settings, gate)?;
    let status = status_of_run(alloc, bound, &finished)?;
    let text = write_bundle(alloc, &made, &constants, bound, &finished, status)?;
    Ok(Executed { text, status })
}
