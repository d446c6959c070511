// A bound specification, run.
ghost use Rattle.std.specs.Prelude.{◌≡◌, ◌<◌, [], ℕ, true, IfOk};
ghost use Rattle.pgo_accept.specs.Answers.{NothingRefuses};
ghost use Rattle.pgo_accesses.specs.Programs.{tree_of};
ghost use Rattle.pgo_bound.specs.Sound.{Sound};
ghost use Rattle.pgo_bound.specs.State.{AreDifferent, variables_of};
ghost use Rattle.pgo_core.specs.Cores.{CoreFits};
ghost use Rattle.pgo_core.specs.Instances as core;
ghost use Rattle.pgo_core.specs.Instances.{FitsCore, IsSame, Safe, StandsAt, settings_of};
ghost use Rattle.pgo_execute.specs.Accepts.{Accepts};
ghost use Rattle.pgo_execute.specs.Follows.{Follows};
ghost use Rattle.pgo_execute.specs.Gives.{Gives, Leaves};
ghost use Rattle.pgo_execute.specs.Schedules.{schedule_view};
ghost use Rattle.pgo_lower.specs.Agree.{AreLowered};
ghost use Rattle.pgo_meaning.specs.LabelSections.{AreUnlabelled};
ghost use Rattle.pgo_meaning.specs.System.{system_of};
ghost use Rattle.pgo_model.specs.Core.{is_listed};
ghost use Rattle.pgo_pluscal.specs.PlusCalOf.{pluscal_of};
ghost use Rattle.pgo_log_text.specs.IsBundle.{AreCanonical};
ghost use Rattle.pgo_section.specs.Programs.{RunsSystem};
ghost use Rattle.pgo_syntax.specs.RecordView.{settings_view};
ghost use Rattle.pgo_written_runs.specs.Failures.{DownsShort};

use crate::constants::declared_constants;
use crate::execute::Executed;
use crate::schedule::Schedule;
use crate::status::status_of_run;
use pgo_accounts::{
    statuses_are_fine, texts_keep_states, texts_run_as_written, workers_follow_machines,
};
use pgo_agrees::{modules_agree, premises_hold, texts_are_accepted};
use pgo_base::consts::Consts;
use pgo_base::results::both;
use pgo_bundle::{run_logs_are_checked, runs_are_tied};
use pgo_core::instances::Core;
use pgo_definitions::sections::evaluated_for_sections;
use pgo_journal::finished::Finished;
use pgo_links::link::Link;
use pgo_links::linked::linked;
use pgo_log_text::bundle_reader::one_bundle;
use pgo_log_write::write::write_bundle;
use pgo_lower::lower::lower;
use pgo_places::program::Runnable;
use pgo_pluscal::pluscal::PlusCal;
use pgo_programs::programs_run;
use pgo_resource::resource::Resource;
use pgo_resource::sections::Sections;
use pgo_run_values::spellable_values_are_read_back;
use pgo_runnable::accepted_runs;
use pgo_starts::content::Content;
use pgo_starts::contents::contents;
use pgo_starts::own::all_own_at_start;
use pgo_syntax::bound::Bound;
use pgo_syntax::records::{Down, Settings};
use pgo_systems::{notes_tell_of_leaves, pre_commits_are_of_bound_resources};
use pgo_translate::translate::translate;
use pgo_written::modules_are_read_back;
use pgo_written_runs::{read_values_are_canonical, runs_are_read_back};
use std::alloc::{AllocError, Global};

/// Makes the turns of the schedule.
fn run_schedule<S: Sections + Drop, R: Resource>(
    alloc: Global,
    core: &mut Core<S, R>,
    schedule: &Schedule,
) -> Result<(), AllocError>
    requires safe { Safe core.old }
    ensures safe { Safe core.new }
    ensures same { IsSame core.old core.new }
    ensures runs { IfOk result (λ _. Follows (schedule_view schedule.now) core.old core.new) }
{
    match schedule {
        Schedule::Turns(turns) => core.run(alloc, turns.as_slice()),
        Schedule::Rounds => core.rounds(alloc),
    }
}

/// The sections of what a specification is bound to, to be run.
pub fn sections<'a>(alloc: Global, bound: &'a Bound) -> Result<Runnable<'a>, AllocError>
    requires { AreUnlabelled bound.now.spec.macros }
    ensures bound { IfOk result (λ s. s.program.bound ≡ bound.entry) }
    ensures codes { IfOk result (λ s. AreLowered bound.entry.now bound.entry.now.instances s.program.codes.items) }
{
    let definitions = evaluated_for_sections(alloc, bound)?;
    let program = lower(alloc, bound, definitions)?;
    let runnable = Runnable::new(alloc, program)?;
    Ok(runnable)
}

/// The core of what a specification is bound to, before its first turn.
fn opened<'a>(
    alloc: Global,
    bound: &'a Bound,
    settings: &Settings,
) -> Result<Core<Runnable<'a>, Link<Content>>, AllocError>
    requires macros { AreUnlabelled bound.now.spec.macros }
    requires names { AreDifferent (variables_of bound.now.spec) }
    requires sound { Sound bound.now }
    requires runs { RunsSystem (system_of bound.now) (tree_of bound.now) (settings_view settings.now) }
    ensures safe { IfOk result Safe }
    ensures stands { IfOk result (StandsAt []) }
    ensures system { IfOk result (λ c. core.system_of c ≡ system_of bound.entry.now) }
    ensures settings { IfOk result (λ c. settings_of c ≡ settings_view settings.now) }
    ensures fits { IfOk result (λ c. CoreFits (system_of bound.entry.now) (tree_of bound.entry.now) (settings_view settings.now) → FitsCore c) }
{
    programs_run();
    let sections = sections(alloc, bound)?;
    let (owns, contents) = both(all_own_at_start(alloc, bound), contents(alloc, bound))?;
    let links = linked(alloc, contents)?;
    Core::open(alloc, sections, bound, owns, links, settings)
}

/// Runs what a specification is bound to under the schedule, and stops it.
fn finished_under(
    alloc: Global,
    bound: &Bound,
    settings: &Settings,
    schedule: &Schedule,
) -> Result<Finished, AllocError>
    requires macros { AreUnlabelled bound.now.spec.macros }
    requires names { AreDifferent (variables_of bound.now.spec) }
    requires sound { Sound bound.now }
    requires fits { CoreFits (system_of bound.now) (tree_of bound.now) (settings_view settings.now) }
    ensures { IfOk result (Leaves (system_of bound.now) (settings_view settings.now) (schedule_view schedule.now)) }
{
    let mut core = opened(alloc, bound, settings)?;
    run_schedule(alloc, &mut core, schedule)?;
    Ok(core.finish())
}

/// A count is below 2^32.
fn count_is_short(count: u32)
    ensures { count < 4294967296 }
{}

/// The numbers of these pre-commits are below 2^32.
fn numbers_are_short(down: &Down)
    ensures { (r o : ℕ) → is_listed down.now r o ≡ true → o < 4294967296 }
{
    for pair in down.as_slice() {
        count_is_short(pair.1);
    }
}

/// The counts of settings, and the numbers of the pre-commits that are set to fail, are below 2^32.
pub fn counts_are_short(settings: &Settings)
    ensures steps { (settings_view settings.now).steps < 4294967296 }
    ensures attempts { (settings_view settings.now).attempts < 4294967296 }
    ensures failures { DownsShort (settings_view settings.now) }
{
    count_is_short(settings.steps);
    count_is_short(settings.attempts);
    numbers_are_short(&settings.down);
}

/// Runs a bound specification, whose expansion this is.
pub fn expanded_run(
    alloc: Global,
    bound: &Bound,
    expanded: &PlusCal,
    consts: &Consts,
    settings: &Settings,
    schedule: &Schedule,
) -> Result<Executed, AllocError>
    requires accepts { Accepts bound.now consts.now }
    requires constants { AreCanonical consts.now }
    requires passes { NothingRefuses bound.now.spec consts.now }
    requires expanded { expanded.now ≡ pluscal_of bound.now.spec }
    ensures { IfOk result (λ r. Gives bound.now.spec consts.now (settings_view settings.now) (schedule_view schedule.now) r.status r.text) }
{
    counts_are_short(settings);
    read_values_are_canonical();
    spellable_values_are_read_back();
    texts_are_accepted();
    premises_hold();
    texts_keep_states();
    texts_run_as_written();
    workers_follow_machines();
    pre_commits_are_of_bound_resources();
    notes_tell_of_leaves();
    modules_agree();
    modules_are_read_back();
    runs_are_read_back();
    runs_are_tied();
    run_logs_are_checked();
    one_bundle();
    statuses_are_fine();
    accepted_runs();
    let made = translate(alloc, expanded)?;
    let constants = declared_constants(alloc, &bound.spec, consts)?;
    let finished = finished_under(alloc, bound, settings, schedule)?;
    let status = status_of_run(alloc, bound, &finished)?;
    let text = write_bundle(alloc, &made, &constants, bound, &finished, status)?;
    Ok(Executed { text, status })
}
