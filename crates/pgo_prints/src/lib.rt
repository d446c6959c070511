// What entries print.
#![tactic(auto)]

ghost use Rattle.std.specs.Prelude.{◌≡◌, ◌≤◌, ℕ, List, length, Some};
ghost use Rattle.pgo_base.specs.Data.{Data};
ghost use Rattle.pgo_base.specs.Lookup.{Name};
ghost use Rattle.pgo_model.specs.Accounts.{EntriesMade};
ghost use Rattle.pgo_model.specs.Core.{Settings, rules_of};
ghost use Rattle.pgo_model.specs.Log.{Effect};
ghost use Rattle.pgo_model.specs.Machine.{Entry, Finished, nth};
ghost use Rattle.pgo_syntax.specs.declared.spec.Spec.{Spec};
ghost use Rattle.pgo_bound.specs.BoundOf.{bound_of};
ghost use Rattle.pgo_meaning.specs.System.{system_of};
ghost use Rattle.pgo_mpcal_read.specs.Texts.{SpellsSpec};
ghost use Rattle.pgo_expand.specs.Limits.{most_nodes};
ghost use Rattle.pgo_accept.specs.Answers.{NothingRefuses};
ghost use Rattle.pgo_run_values.specs.Spellable.{AllSpellable};
ghost use Rattle.pgo_prints.specs.Prints.{EachSpellable};

use pgo_accounts::{made_entries_are_runs, texts_keep_states};
use pgo_agrees::texts_are_accepted;
use pgo_run_values::{run_values_are_spellable, spellable_values_are_read_back};

/// What each entry prints can be written: of the one specification that a text spells, where nothing refuses it with these constants, which are
/// spellable values (`AllSpellable` of pgo_run_values), with every settings, and of any entries that are steps of its sections:
///
/// - `values`: each value that an entry printed is spellable.
/// - `few`: an entry printed at most 1,048,576 values, the limit on the nodes of an expansion.
///
/// Source: this project's choice.
pub fn prints_are_spellable()
    ensures values { (text : List ℕ) (s : Spec) (consts : List (Name × Data)) (settings : Settings) (f : Finished Effect) (p : ℕ) (e : Entry Effect) → SpellsSpec text s → NothingRefuses s consts → AllSpellable consts → EntriesMade (rules_of (system_of (bound_of s consts)) settings) f → nth f.entries p ≡ Some e → EachSpellable e.change.prints }
    ensures few { (text : List ℕ) (s : Spec) (consts : List (Name × Data)) (settings : Settings) (f : Finished Effect) (p : ℕ) (e : Entry Effect) → SpellsSpec text s → NothingRefuses s consts → AllSpellable consts → EntriesMade (rules_of (system_of (bound_of s consts)) settings) f → nth f.entries p ≡ Some e → length e.change.prints ≤ most_nodes }
{
    texts_are_accepted();
    texts_keep_states();
    made_entries_are_runs();
    spellable_values_are_read_back();
    run_values_are_spellable();
}
