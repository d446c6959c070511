// Accepted specifications run: what their sections do is what workers ask of a program.
#![tactic(auto)]

ghost use Rattle.std.specs.Prelude.{◌≡◌, ◌↔◌, ℕ, List, Some};
ghost use Rattle.pgo_base.specs.Data.{Data};
ghost use Rattle.pgo_base.specs.Lookup.{Name, Vars};
ghost use Rattle.pgo_model.specs.Accounts.{Fits};
ghost use Rattle.pgo_model.specs.Core.{Settings, Reaches, rules_of};
ghost use Rattle.pgo_model.specs.Machine.{nth};
ghost use Rattle.pgo_model.specs.State.{AllValues};
ghost use Rattle.pgo_syntax.specs.declared.bound.Instance.{Instance};
ghost use Rattle.pgo_syntax.specs.declared.spec.Spec.{Spec};
ghost use Rattle.pgo_bound.specs.BoundOf.{bound_of};
ghost use Rattle.pgo_bound.specs.Sound.{Sound};
ghost use Rattle.pgo_meaning.specs.System.{system_of};
ghost use Rattle.pgo_systems.specs.Counted.{AllCounted};
ghost use Rattle.pgo_systems.specs.Literals.{StartFits};
ghost use Rattle.pgo_systems.specs.Premises.{EndsAtLabels, IsGoodState, KeepsStates, LiteralsFitIn};
ghost use Rattle.pgo_workers.specs.Sentences.{Runs};
ghost use Rattle.pgo_accesses.specs.Programs.{program_of, tree_of, world_at};
ghost use Rattle.pgo_accesses.specs.Runnable.{Runnable, IsRunState};
ghost use Rattle.pgo_section.specs.Programs.{IsGood, RunsSystem};
ghost use Rattle.pgo_mpcal_read.specs.Texts.{SpellsSpec};
ghost use Rattle.pgo_accept.specs.Answers.{NothingRefuses};
ghost use Rattle.pgo_agrees.specs.Accepted.{IsAccepted};

use pgo_accesses::sections_are_accesses;
use pgo_agrees::texts_are_accepted;
use pgo_meaning::system_states;
use pgo_systems::{system_fits, values_are_given};

/// What an accepted specification (`IsAccepted` of pgo_agrees) is bound to.
///
/// - `sound` (`Sound`): where what it starts with are values (`AllValues`), numbers and identifiers are as they must be, resources
///   differ, and the start is a state.
/// - `runnable` (`Runnable` of pgo_accesses): where it is sound, all that is asked of it, so that its sections are trees of accesses.
/// - `runs` (`Runs` of pgo_workers): so what workers ask of a program is so of its program, with every settings, in its world.
/// - `workers` (`RunsSystem` of pgo_section): so is what a worker's turn and stop ask of the trees of its sections, over its system.
/// - `good`: the states over which they ask it (`IsGood`) are those in which each instance is at a label of its process, or at Done.
/// - `start`: its start is one.
///
/// Source: this project's choice.
pub fn accepted_runs()
    ensures sound { (s : Spec) (consts : List (Name × Data)) → IsAccepted s consts → AllValues (bound_of s consts).start → Sound (bound_of s consts) }
    ensures runnable { (s : Spec) (consts : List (Name × Data)) → IsAccepted s consts → Sound (bound_of s consts) → Runnable (bound_of s consts) }
    ensures runs { (s : Spec) (consts : List (Name × Data)) (settings : Settings) → IsAccepted s consts → Sound (bound_of s consts) → Runs (world_at (bound_of s consts)) (program_of (bound_of s consts) settings) (Reaches (system_of (bound_of s consts))) (IsRunState (bound_of s consts)) }
    ensures workers { (s : Spec) (consts : List (Name × Data)) (settings : Settings) → IsAccepted s consts → Sound (bound_of s consts) → RunsSystem (system_of (bound_of s consts)) (tree_of (bound_of s consts)) settings }
    ensures good { (s : Spec) (consts : List (Name × Data)) (t : Vars) → IsAccepted s consts → Sound (bound_of s consts) → IsGood (system_of (bound_of s consts)) t ↔ IsRunState (bound_of s consts) t }
    ensures start { (s : Spec) (consts : List (Name × Data)) → IsAccepted s consts → Sound (bound_of s consts) → IsGood (system_of (bound_of s consts)) (bound_of s consts).start }
{
    system_states();
    sections_are_accesses();
}

/// What the law of the core machine asks of an accepted specification (`KeepsStates` of pgo_systems), where the sets of its constants
/// are counted (`AllCounted`) and the literals from which its start is made are integers of 64 bits (`StartFits`).
///
/// - `values` (`AllValues`): what it starts with are values.
/// - `keeps` (`KeepsStates`): all that the law asks, where the literals of definitions and of each instance's sections are integers of
///   64 bits too (`LiteralsFitIn`), and each instance's sections end at labels of its process or at Done (`EndsAtLabels`).
/// - `fits` (`Fits`): so its system meets the premises of the machine's law, with every settings.
///
/// Source: this project's choice.
pub fn accepted_states_kept()
    ensures values { (s : Spec) (consts : List (Name × Data)) → AllCounted consts → StartFits s → AllValues (bound_of s consts).start }
    ensures keeps { (s : Spec) (consts : List (Name × Data)) → IsAccepted s consts → AllCounted consts → StartFits s → ((k : ℕ) (i : Instance) → nth (bound_of s consts).instances k ≡ Some i → LiteralsFitIn (bound_of s consts) i) → ((k : ℕ) (i : Instance) → nth (bound_of s consts).instances k ≡ Some i → EndsAtLabels (bound_of s consts) i) → KeepsStates (bound_of s consts) }
    ensures fits { (s : Spec) (consts : List (Name × Data)) (settings : Settings) → IsAccepted s consts → AllCounted consts → StartFits s → ((k : ℕ) (i : Instance) → nth (bound_of s consts).instances k ≡ Some i → LiteralsFitIn (bound_of s consts) i) → ((k : ℕ) (i : Instance) → nth (bound_of s consts).instances k ≡ Some i → EndsAtLabels (bound_of s consts) i) → Fits (rules_of (system_of (bound_of s consts)) settings) (Reaches (system_of (bound_of s consts))) (IsGoodState (bound_of s consts)) }
{
    system_states();
    values_are_given();
    system_fits();
}

/// Of the one specification that a text spells, where nothing refuses it with these constants, and where what it is bound to
/// is sound:
///
/// - `runnable` (`Runnable` of pgo_accesses): its sections are trees of accesses.
/// - `runs` (`Runs` of pgo_workers): so what workers ask of a program is so of its program, with every settings, in its world.
/// - `workers` (`RunsSystem` of pgo_section): so is what a worker's turn and stop ask of the trees of its sections, over its system.
/// - `start`: the start is one of the states over which they ask it (`IsGood`).
///
/// Source: this project's choice.
pub fn texts_run()
    ensures runnable { (text : List ℕ) (s : Spec) (consts : List (Name × Data)) → SpellsSpec text s → NothingRefuses s consts → Sound (bound_of s consts) → Runnable (bound_of s consts) }
    ensures runs { (text : List ℕ) (s : Spec) (consts : List (Name × Data)) (settings : Settings) → SpellsSpec text s → NothingRefuses s consts → Sound (bound_of s consts) → Runs (world_at (bound_of s consts)) (program_of (bound_of s consts) settings) (Reaches (system_of (bound_of s consts))) (IsRunState (bound_of s consts)) }
    ensures workers { (text : List ℕ) (s : Spec) (consts : List (Name × Data)) (settings : Settings) → SpellsSpec text s → NothingRefuses s consts → Sound (bound_of s consts) → RunsSystem (system_of (bound_of s consts)) (tree_of (bound_of s consts)) settings }
    ensures start { (text : List ℕ) (s : Spec) (consts : List (Name × Data)) → SpellsSpec text s → NothingRefuses s consts → Sound (bound_of s consts) → IsGood (system_of (bound_of s consts)) (bound_of s consts).start }
{
    texts_are_accepted();
    accepted_runs();
}
