// Values along a run can be written and read back.
#![tactic(auto)]

ghost use Rattle.std.specs.Prelude.{◌≡◌, ◌≤◌, ℕ, List, length, Some};
ghost use Rattle.pgo_base.specs.Data.{Data};
ghost use Rattle.pgo_base.specs.Lookup.{Name};
ghost use Rattle.pgo_base.specs.Size.{depth};
ghost use Rattle.pgo_model.specs.Accounts.{EntriesMade, at};
ghost use Rattle.pgo_model.specs.Core.{Core, Settings, rules_of};
ghost use Rattle.pgo_model.specs.Log.{Effect};
ghost use Rattle.pgo_model.specs.Machine.{Finished, finished_of, nth};
ghost use Rattle.pgo_model.specs.ValueText.{value_text};
ghost use Rattle.pgo_syntax.specs.declared.bound.Instance.{Instance};
ghost use Rattle.pgo_syntax.specs.declared.spec.Spec.{Spec};
ghost use Rattle.pgo_bound.specs.BoundOf.{bound_of};
ghost use Rattle.pgo_bound.specs.State.{id_of};
ghost use Rattle.pgo_meaning.specs.System.{system_of};
ghost use Rattle.pgo_systems.specs.Counted.{AllCounted, IsCounted};
ghost use Rattle.pgo_mpcal_read.specs.Texts.{SpellsSpec};
ghost use Rattle.pgo_value_text.specs.IsValueText.{IsValueText, most_depth};
ghost use Rattle.pgo_accept.specs.Answers.{NothingRefuses};
ghost use Rattle.pgo_run_values.specs.Spellable.{AllLiteralsWritten, AllSpellable, IsSpellable};

use pgo_accounts::{made_entries_are_runs, texts_keep_states};
use pgo_agrees::texts_are_accepted;
use pgo_systems::bound_accounts;
use pgo_value_text::laws::canonical_text_is_value_text;

/// Values whose canonical text is read back, if they are at most 1,024 deep (`IsSpellable`).
///
/// - `texts`: so it is.
/// - `read`: the value of a text is one.
/// - `counted`, `all_counted`: its sets are counted (`IsCounted`).
///
/// Source: this project's choice.
pub fn spellable_values_are_read_back()
    ensures texts { (v : Data) → IsSpellable v → depth v ≤ most_depth → IsValueText (value_text v) v }
    ensures read { (text : List ℕ) (v : Data) → IsValueText text v → IsSpellable v }
    ensures counted { (v : Data) → IsSpellable v → IsCounted v }
    ensures all_counted { (consts : List (Name × Data)) → AllSpellable consts → AllCounted consts }
{
    canonical_text_is_value_text();
}

/// The values of a run can be written: of the one specification that a text spells, where nothing refuses it with these constants, which are
/// such values (`IsSpellable`), with every settings and list of turns.
///
/// - `literals` (`AllLiteralsWritten`): its literals are such values.
/// - `ids`: the identifiers of instances are such values.
/// - `start`: what each variable starts with is one.
/// - `made`: so is what each variable has after n entries that are steps.
/// - `states`: and after n entries of the core machine's journal.
///
/// Source: this project's choice.
pub fn run_values_are_spellable()
    ensures literals { (text : List ℕ) (s : Spec) → SpellsSpec text s → AllLiteralsWritten s }
    ensures ids { (text : List ℕ) (s : Spec) (consts : List (Name × Data)) (k : ℕ) (i : Instance) → SpellsSpec text s → NothingRefuses s consts → AllSpellable consts → nth (bound_of s consts).instances k ≡ Some i → IsSpellable (id_of i) }
    ensures start { (text : List ℕ) (s : Spec) (consts : List (Name × Data)) → SpellsSpec text s → NothingRefuses s consts → AllSpellable consts → AllSpellable (bound_of s consts).start }
    ensures made { (text : List ℕ) (s : Spec) (consts : List (Name × Data)) (settings : Settings) (f : Finished Effect) (n : ℕ) → SpellsSpec text s → NothingRefuses s consts → AllSpellable consts → EntriesMade (rules_of (system_of (bound_of s consts)) settings) f → n ≤ length f.entries → AllSpellable (at (rules_of (system_of (bound_of s consts)) settings) f n) }
    ensures states { (text : List ℕ) (s : Spec) (consts : List (Name × Data)) (settings : Settings) (turns : List ℕ) (n : ℕ) → SpellsSpec text s → NothingRefuses s consts → AllSpellable consts → n ≤ length (Core (system_of (bound_of s consts)) settings turns).entries → AllSpellable (at (rules_of (system_of (bound_of s consts)) settings) (finished_of (Core (system_of (bound_of s consts)) settings turns)) n) }
{
    texts_are_accepted();
    texts_keep_states();
    made_entries_are_runs();
    bound_accounts();
}
