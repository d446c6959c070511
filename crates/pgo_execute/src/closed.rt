// What is true of a run on threads.
ghost use Rattle.std.specs.Prelude.{◌≤◌, ◌<◌, ℕ, true, List, length};
ghost use Rattle.pgo_base.specs.Data.{Data};
ghost use Rattle.pgo_base.specs.Lookup.{Name};
ghost use Rattle.pgo_model.specs.Core.{Settings, status_of};
ghost use Rattle.pgo_model.specs.Log.{Effect};
ghost use Rattle.pgo_model.specs.Machine.{Entry, Note};
ghost use Rattle.pgo_model.specs.ModuleText.{Text};
ghost use Rattle.pgo_syntax.specs.declared.spec.Spec.{Spec};
ghost use Rattle.pgo_bound.specs.BoundOf.{bound_of};
ghost use Rattle.pgo_bound.specs.Declares.{Declares};
ghost use Rattle.pgo_meaning.specs.System.{system_of};
ghost use Rattle.pgo_workers.specs.View.{Told, View};
ghost use Rattle.pgo_workers.specs.Worker.{Worker};
ghost use Rattle.pgo_mpcal_read.specs.Texts.{SpellsSpec};
ghost use Rattle.pgo_translate.specs.ModuleOf.{constants_with, module_of};
ghost use Rattle.pgo_accept.specs.Answers.{NothingRefuses};
ghost use Rattle.pgo_bundle.specs.Lines.{BundleText};
ghost use Rattle.pgo_bundle.specs.RunLog.{run_log};
ghost use Rattle.pgo_log_text.specs.IsBundle.{AreCanonical};
ghost use Rattle.pgo_accounts.specs.ClosedTexts.{RunIsClosed, left_of};
ghost use Rattle.pgo_written_runs.specs.Failures.{DownsShort};
ghost use Rattle.pgo_execute.specs.Ran.{RanBy};

use pgo_accounts::{closed_boards_are_runs, made_entries_are_runs, texts_keep_states};
use pgo_agrees::{modules_agree, texts_are_accepted};
use pgo_bundle::{run_logs_are_checked, runs_are_tied};
use pgo_log_text::bundle_reader::one_bundle;
use pgo_run_values::spellable_values_are_read_back;
use pgo_systems::{notes_tell_of_leaves, pre_commits_are_of_bound_resources};
use pgo_written::modules_are_read_back;
use pgo_written_runs::{read_values_are_canonical, runs_are_read_back};

/// The law of a run on threads, of the one specification that a text spells, where nothing refuses it with these constants: where each worker
/// has ended over its board and the boards are closed (`RunIsClosed` of pgo_accounts), whatever the schedule was, the bundle of what is left,
/// with the status of its records and its last state, is that of a run on threads that went on until each instance had ended (`RanBy`).
///
/// Its premises besides are those of a run on one thread: the constants are read back from their canonical texts, the counts of the settings and
/// the numbers of the pre-commits that are set to fail are below 2^32, the module's text is no longer than a text may have tokens, and the start
/// is a declared one.
///
/// Source: this project's choice.
pub fn closed_boards_ran()
    ensures { (text : List ℕ) (s : Spec) (consts : List (Name × Data)) (settings : Settings) (entries : List (Entry Effect)) (notes : List Note) (ws : ℕ → Worker) (bs : ℕ → View Effect) (told : ℕ → Told) → SpellsSpec text s → NothingRefuses s consts → AreCanonical consts → length (Text (module_of s)) ≤ 4294967295 → settings.steps < 4294967296 → settings.attempts < 4294967296 → DownsShort settings → Declares (bound_of s consts) (bound_of s consts).start → RunIsClosed s consts settings entries notes ws bs told → RanBy s consts true true settings (left_of s consts settings entries notes ws) (status_of (system_of (bound_of s consts)) settings (left_of s consts settings entries notes ws)) (BundleText (module_of s) (constants_with s consts) (run_log (system_of (bound_of s consts)) settings (left_of s consts settings entries notes ws) (status_of (system_of (bound_of s consts)) settings (left_of s consts settings entries notes ws)))) }
{
    read_values_are_canonical();
    spellable_values_are_read_back();
    texts_are_accepted();
    texts_keep_states();
    modules_agree();
    modules_are_read_back();
    made_entries_are_runs();
    closed_boards_are_runs();
    pre_commits_are_of_bound_resources();
    notes_tell_of_leaves();
    runs_are_read_back();
    runs_are_tied();
    run_logs_are_checked();
    one_bundle();
}
