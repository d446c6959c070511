// Runs of accepted specifications are read back from their bundles.
#![tactic(auto)]

ghost use Rattle.std.specs.Prelude.{◌≤◌, ◌<◌, ◌^◌, ℕ, Bool, IsTrue, List, length};
ghost use Rattle.pgo_base.specs.Data.{Data};
ghost use Rattle.pgo_base.specs.Lookup.{Name};
ghost use Rattle.pgo_model.specs.Accounts.{Accounts, EntriesMade, JointAccounts};
ghost use Rattle.pgo_model.specs.Core.{Core, Reaches, Settings, rules_of, status_of};
ghost use Rattle.pgo_model.specs.BundleParts.{is_run_status};
ghost use Rattle.pgo_model.specs.Log.{Effect};
ghost use Rattle.pgo_model.specs.Machine.{Finished, finished_of};
ghost use Rattle.pgo_model.specs.ModuleText.{Text};
ghost use Rattle.pgo_model.specs.System.{System};
ghost use Rattle.pgo_syntax.specs.declared.spec.Spec.{Spec};
ghost use Rattle.pgo_bound.specs.BoundOf.{bound_of};
ghost use Rattle.pgo_meaning.specs.System.{system_of};
ghost use Rattle.pgo_systems.specs.Failures.{DownsReached};
ghost use Rattle.pgo_expr_read.specs.Texts.{most_tokens};
ghost use Rattle.pgo_mpcal_read.specs.Texts.{SpellsSpec};
ghost use Rattle.pgo_value_text.specs.IsValueText.{IsValueText};
ghost use Rattle.pgo_translate.specs.ModuleOf.{constants_with, module_of};
ghost use Rattle.pgo_accept.specs.Answers.{NothingRefuses};
ghost use Rattle.pgo_bundle.specs.Lines.{BundleText};
ghost use Rattle.pgo_bundle.specs.RunLog.{run_log};
ghost use Rattle.pgo_log_text.specs.IsBundle.{AreCanonical, IsCanonicalValue};
ghost use Rattle.pgo_log_text.specs.ReadBundle.{IsReadBundle};
ghost use Rattle.pgo_log_text.specs.WrittenRun.{IsWrittenRun};
ghost use Rattle.pgo_run_values.specs.Spellable.{AllSpellable};
ghost use Rattle.pgo_written_runs.specs.Failures.{DownsShort};

use pgo_accounts::{made_entries_are_runs, texts_keep_states};
use pgo_agrees::texts_are_accepted;
use pgo_bundle::{runs_are_tied, tied_logs};
use pgo_prints::prints_are_spellable;
use pgo_run_values::{run_values_are_spellable, spellable_values_are_read_back};
use pgo_systems::{bound_accounts, pre_commits_are_of_bound_resources};
use pgo_written::{modules_are_read_back, modules_are_written};

/// Constants whose canonical texts are texts of them (`AreCanonical`), as the words of a command give them.
///
/// - `value`: the value of a text is read back from its canonical text.
/// - `spellable`: values that are read back are spellable (`AllSpellable` of pgo_run_values).
///
/// Source: this project's choice.
pub fn read_values_are_canonical()
    ensures value { (text : List ℕ) (v : Data) → IsValueText text v → IsCanonicalValue v }
    ensures spellable { (consts : List (Name × Data)) → AreCanonical consts → AllSpellable consts }
{
    spellable_values_are_read_back();
}

/// The law of bundles of runs: of the one specification that a text spells, where nothing refuses it with these constants, the constants
/// are read back from their canonical texts, and its module's text is no longer than a text may have tokens; under settings with steps
/// and attempts below 2^32 and with any failing pre-commits whose numbers are below 2^32 (`DownsShort`), and with every list of turns:
///
/// - `made`, `read_made`: the same of any entries that are steps, with accounts of a run on one thread or on several, where each refused
///   pre-commit is of a resource that its instance is bound to (`DownsReached` of pgo_systems).
/// - `run` (`IsWrittenRun` of pgo_log_text): what the core machine leaves can be written and read back, and its records are tied to its
///   entries and notes.
/// - `read` (`IsReadBundle`): so the text of its log (`BundleText` of its `run_log`) is one of the specification's module, the constants
///   and this log.
/// - `status`: the status of a run is one that a bundle may have.
///
/// Source: this project's choice.
pub fn runs_are_read_back()
    ensures made { (text : List ℕ) (s : Spec) (consts : List (Name × Data)) (settings : Settings) (run : Bool) (f : Finished Effect) (status : ℕ) → SpellsSpec text s → NothingRefuses s consts → AreCanonical consts → length (Text (module_of s)) ≤ most_tokens → settings.steps < 2 ^ 32 → settings.attempts < 2 ^ 32 → DownsShort settings → IsTrue (is_run_status status) → EntriesMade (rules_of (system_of (bound_of s consts)) settings) f → ((k : ℕ) → Accounts (rules_of (system_of (bound_of s consts)) settings) (Reaches (system_of (bound_of s consts))) run f k) → JointAccounts (rules_of (system_of (bound_of s consts)) settings) run f → DownsReached (system_of (bound_of s consts)) f → IsWrittenRun (module_of s) (constants_with s consts) (system_of (bound_of s consts)) settings f status }
    ensures read_made { (text : List ℕ) (s : Spec) (consts : List (Name × Data)) (settings : Settings) (run : Bool) (f : Finished Effect) (status : ℕ) → SpellsSpec text s → NothingRefuses s consts → AreCanonical consts → length (Text (module_of s)) ≤ most_tokens → settings.steps < 2 ^ 32 → settings.attempts < 2 ^ 32 → DownsShort settings → IsTrue (is_run_status status) → EntriesMade (rules_of (system_of (bound_of s consts)) settings) f → ((k : ℕ) → Accounts (rules_of (system_of (bound_of s consts)) settings) (Reaches (system_of (bound_of s consts))) run f k) → JointAccounts (rules_of (system_of (bound_of s consts)) settings) run f → DownsReached (system_of (bound_of s consts)) f → IsReadBundle (BundleText (module_of s) (constants_with s consts) (run_log (system_of (bound_of s consts)) settings f status)) (module_of s) (constants_with s consts) (run_log (system_of (bound_of s consts)) settings f status) }
    ensures run { (text : List ℕ) (s : Spec) (consts : List (Name × Data)) (settings : Settings) (turns : List ℕ) (status : ℕ) → SpellsSpec text s → NothingRefuses s consts → AreCanonical consts → length (Text (module_of s)) ≤ most_tokens → settings.steps < 2 ^ 32 → settings.attempts < 2 ^ 32 → DownsShort settings → IsTrue (is_run_status status) → IsWrittenRun (module_of s) (constants_with s consts) (system_of (bound_of s consts)) settings (finished_of (Core (system_of (bound_of s consts)) settings turns)) status }
    ensures read { (text : List ℕ) (s : Spec) (consts : List (Name × Data)) (settings : Settings) (turns : List ℕ) (status : ℕ) → SpellsSpec text s → NothingRefuses s consts → AreCanonical consts → length (Text (module_of s)) ≤ most_tokens → settings.steps < 2 ^ 32 → settings.attempts < 2 ^ 32 → DownsShort settings → IsTrue (is_run_status status) → IsReadBundle (BundleText (module_of s) (constants_with s consts) (run_log (system_of (bound_of s consts)) settings (finished_of (Core (system_of (bound_of s consts)) settings turns)) status)) (module_of s) (constants_with s consts) (run_log (system_of (bound_of s consts)) settings (finished_of (Core (system_of (bound_of s consts)) settings turns)) status) }
    ensures status { (y : System) (settings : Settings) (f : Finished Effect) → IsTrue (is_run_status (status_of y settings f)) }
{
    read_values_are_canonical();
    spellable_values_are_read_back();
    texts_are_accepted();
    texts_keep_states();
    made_entries_are_runs();
    run_values_are_spellable();
    prints_are_spellable();
    runs_are_tied();
    tied_logs();
    bound_accounts();
    pre_commits_are_of_bound_resources();
    modules_are_written();
    modules_are_read_back();
}
