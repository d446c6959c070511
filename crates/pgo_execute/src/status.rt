// The status of a run: whether all instances that aren't at "Done" are blocked in its last state.
ghost use Rattle.std.specs.Prelude.{◌≡◌, ◌↔◌, if◌then◌else◌, IsTrue, IfOk};
ghost use Rattle.pgo_bound.specs.Sound.{Sound};
ghost use Rattle.pgo_execute.specs.AnySettings.{RunsUnderAny};
ghost use Rattle.pgo_log_write.specs.IsFinished.{IsFinished};
ghost use Rattle.pgo_meaning.specs.LabelSections.{AreUnlabelled};
ghost use Rattle.pgo_meaning.specs.Quiet.{Quiet};
ghost use Rattle.pgo_meaning.specs.System.{system_of};
ghost use Rattle.pgo_model.specs.Core.{Settings, state_behind, status_of};
ghost use Rattle.pgo_model.specs.Log.{Effect};
ghost use Rattle.pgo_model.specs.Machine as machine;
ghost use Rattle.pgo_places.specs.Trees.{tree_in};
ghost use Rattle.pgo_section.specs.Programs.{IsGood, RunsSystem};

use crate::run::sections;
use pgo_base::results::both;
use pgo_base::scope::State;
use pgo_journal::finished::Finished;
use pgo_journal::journal::Journal;
use pgo_log_write::status::run_status;
use pgo_places::program::Runnable;
use pgo_programs::programs_run;
use pgo_section::quiet::quiet;
use pgo_starts::contents::contents_in;
use pgo_starts::own::all_own_in;
use pgo_syntax::bound::Bound;
use std::alloc::{AllocError, Global};

/// The sections of what a specification is bound to, with what workers ask of them.
fn runnable<'a>(alloc: Global, bound: &'a Bound) -> Result<Runnable<'a>, AllocError>
    requires macros { AreUnlabelled bound.now.spec.macros }
    requires sound { Sound bound.now }
    requires runs { RunsUnderAny bound.now }
    ensures bound { IfOk result (λ p. p.program.bound.now ≡ bound.entry.now) }
    ensures runs { IfOk result (λ p. (settings : Settings) → RunsSystem (system_of p.program.bound.now) (tree_in p.program) settings) }
{
    programs_run();
    let sections = sections(alloc, bound)?;
    Ok(sections)
}

/// Whether some instance isn't at "Done" in a state, and each such one is blocked there, whatever it chooses. The sections are those of
/// what is bound.
fn is_quiet_in(
    alloc: Global,
    bound: &Bound,
    sections: &Runnable<'_>,
    s: &State,
) -> Result<bool, AllocError>
    requires bound { sections.now.program.bound.now ≡ bound.now }
    requires sound { Sound bound.now }
    requires runs { (settings : Settings) → RunsSystem (system_of sections.now.program.bound.now) (tree_in sections.now.program) settings }
    ensures { IsGood (system_of bound.now) s.now → IfOk result (λ q. IsTrue q ↔ Quiet bound.now s.now) }
{
    let (owns, contents) = both(all_own_in(alloc, bound, s), contents_in(alloc, bound, s))?;
    quiet(alloc, sections, owns.as_slice(), contents)
}

/// Whether some instance isn't at "Done" in the last state of a run, and each such one is blocked there, whatever it chooses.
fn last_is_quiet(alloc: Global, bound: &Bound, journal: &Journal) -> Result<bool, AllocError>
    requires macros { AreUnlabelled bound.now.spec.macros }
    requires sound { Sound bound.now }
    requires runs { RunsUnderAny bound.now }
    ensures { (settings : Settings) (g : machine.Finished Effect) → journal.now.start ≡ (system_of bound.now).start → journal.now.entries ≡ g.entries → IsGood (system_of bound.now) (state_behind (system_of bound.now) settings g) → IfOk result (λ q. IsTrue q ↔ Quiet bound.now (state_behind (system_of bound.now) settings g)) }
{
    let s = journal.state(alloc, journal.len())?;
    let sections = runnable(alloc, bound)?;
    is_quiet_in(alloc, bound, &sections, &s)
}

/// The status of a run that is neither stopped, nor full, nor done.
fn status_left(quiet: bool) -> u8
    ensures { result ≡ (if quiet then 22 else 21) }
{
    if quiet { 22 } else { 21 }
}

/// The status of a run of what a specification is bound to. The sections are run on the last state only where it would be 21.
pub fn status_of_run(alloc: Global, bound: &Bound, finished: &Finished) -> Result<u8, AllocError>
    requires macros { AreUnlabelled bound.now.spec.macros }
    requires sound { Sound bound.now }
    requires runs { RunsUnderAny bound.now }
    ensures { (settings : Settings) (g : machine.Finished Effect) → IsFinished (system_of bound.now) settings g finished.now → IsGood (system_of bound.now) (state_behind (system_of bound.now) settings g) → IfOk result (λ n. n ≡ status_of (system_of bound.now) settings g) }
{
    let status = run_status(finished);
    if status != 21 {
        return Ok(status);
    }
    let quiet = last_is_quiet(alloc, bound, &finished.journal)?;
    Ok(status_left(quiet))
}
