// Runs of accepted specifications: what the core machine does is a run of the written module.
#![tactic(auto)]

ghost use Rattle.std.specs.Prelude.{◌≡◌, ◌≤◌, ◌↔◌, ℕ, true, false, nat_lt, List, length, Some};
ghost use Rattle.std.specs.List.{AllByRecursion};
ghost use Rattle.pgo_base.specs.Data.{Data, string};
ghost use Rattle.pgo_base.specs.Lookup.{Name, Vars};
ghost use Rattle.pgo_model.specs.Accounts.{Accounts, EntriesMade, JointAccounts, at};
ghost use Rattle.pgo_model.specs.Core.{Core, Reaches, Settings, rules_of, status_of};
ghost use Rattle.pgo_model.specs.IsRun.{IsRun};
ghost use Rattle.pgo_model.specs.Log.{Effect, StateAt};
ghost use Rattle.pgo_model.specs.Machine.{Entry, Finished, Note, after_turns, finished_of, last_state, nth, opened};
ghost use Rattle.pgo_model.specs.Module.{Module};
ghost use Rattle.pgo_model.specs.System.{Member, ids_of};
ghost use Rattle.pgo_model.specs.Variables.{place_of};
ghost use Rattle.pgo_model.specs.Written.{done};
ghost use Rattle.pgo_syntax.specs.declared.bound.Bound.{Bound};
ghost use Rattle.pgo_syntax.specs.declared.bound.Instance.{Instance};
ghost use Rattle.pgo_syntax.specs.declared.spec.Spec.{Spec};
ghost use Rattle.pgo_bound.specs.BoundOf.{bound_of};
ghost use Rattle.pgo_bound.specs.Sound.{Sound};
ghost use Rattle.pgo_meaning.specs.System.{system_of};
ghost use Rattle.pgo_systems.specs.Counted.{AllCounted, IsCounted};
ghost use Rattle.pgo_systems.specs.Gotos.{GotosKnown};
ghost use Rattle.pgo_systems.specs.Premises.{IsGoodState, KeepsStates};
ghost use Rattle.pgo_workers.specs.CoreStands.{Differs};
ghost use Rattle.pgo_workers.specs.View.{Told, View};
ghost use Rattle.pgo_workers.specs.Worker.{Worker};
ghost use Rattle.pgo_workers.specs.Worlds.{layout_of, world_of};
ghost use Rattle.pgo_accesses.specs.Programs.{tree_of};
ghost use Rattle.pgo_section.specs.Programs.{IsGood, RunsSystem, Trees, program_of};
ghost use Rattle.pgo_translate.specs.Agrees.{Agrees};
ghost use Rattle.pgo_translate.specs.ModuleOf.{module_of, constants_with};
ghost use Rattle.pgo_mpcal_read.specs.Texts.{SpellsSpec};
ghost use Rattle.pgo_value_text.specs.IsValueText.{IsValueText};
ghost use Rattle.pgo_accept.specs.Answers.{NothingRefuses};
ghost use Rattle.pgo_agrees.specs.Accepted.{IsAccepted};
ghost use Rattle.pgo_closed.specs.SystemRuns.{EachHasEnd, SystemPremises};
ghost use Rattle.pgo_accounts.specs.ClosedTexts.{PremisesHold, RunIsClosed, left_of};
ghost use Rattle.pgo_accounts.specs.Runs.{NextHolds};
ghost use Rattle.pgo_accounts.specs.Texts.{AllLiteralsFit, NeverJumps};

use pgo_agrees::{modules_agree, texts_are_accepted};
use pgo_closed::closed_runs_are_accounted;
use pgo_runnable::accepted_runs;
use pgo_systems::{bound_accounts, system_fits, values_are_given};

/// What the core machine does for a specification that is accepted with constants (`IsAccepted` of pgo_agrees) and whose states are kept
/// (`KeepsStates` of pgo_systems), as a log of a module that says what it is bound to says (`Agrees` of pgo_translate), with every
/// settings and list of turns:
///
/// - `run` (`IsRun`): its entries are a run of the module: the module's Init is TRUE of the start, and of each entry the action of its label
///   is TRUE of the states before and after it, with `self` as its instance's identifier, which stands at the entry's next label then.
/// - `next` (`NextHolds`): the module's Next is TRUE of each state of that log and the one after it.
///
/// Source: this project's choice.
pub fn journals_are_runs()
    ensures run { (s : Spec) (consts : List (Name × Data)) (m : Module) (settings : Settings) (turns : List ℕ) → IsAccepted s consts → KeepsStates (bound_of s consts) → Agrees m (constants_with s consts) (bound_of s consts) → IsRun m (constants_with s consts) (ids_of (system_of (bound_of s consts))) (bound_of s consts).start (Core (system_of (bound_of s consts)) settings turns).entries }
    ensures next { (s : Spec) (consts : List (Name × Data)) (m : Module) (settings : Settings) (turns : List ℕ) → IsAccepted s consts → KeepsStates (bound_of s consts) → Agrees m (constants_with s consts) (bound_of s consts) → NextHolds m (constants_with s consts) (bound_of s consts).start (Core (system_of (bound_of s consts)) settings turns).entries }
{
    bound_accounts();
}

/// What a text gives of the specification that it spells, and of what that is bound to with constants with which nothing refuses it.
///
/// - `literals` (`AllLiteralsFit`): its literals are integers of 64 bits.
/// - `macros` (`NeverJumps`): in its macros there is no `goto`, and no `while` without a label.
/// - `gotos` (`GotosKnown` of pgo_systems): each `goto` of an instance's archetype names one of its labels or Done, and each `while` has a label.
/// - `counted`: the value of a text has sets of at most 2^63 - 1 members (`IsCounted`).
/// - `sound`: where the constants are such values, what it is bound to is sound.
/// - `kept` (`KeepsStates` of pgo_systems): and its states are kept: the law of the core machine holds of it.
///
/// Source: this project's choice.
pub fn texts_keep_states()
    ensures literals { (text : List ℕ) (s : Spec) → SpellsSpec text s → AllLiteralsFit s }
    ensures macros { (text : List ℕ) (s : Spec) → SpellsSpec text s → AllByRecursion NeverJumps s.macros }
    ensures gotos { (text : List ℕ) (s : Spec) (consts : List (Name × Data)) (k : ℕ) (i : Instance) → SpellsSpec text s → NothingRefuses s consts → nth (bound_of s consts).instances k ≡ Some i → GotosKnown (bound_of s consts) i }
    ensures counted { (text : List ℕ) (v : Data) → IsValueText text v → IsCounted v }
    ensures sound { (text : List ℕ) (s : Spec) (consts : List (Name × Data)) → SpellsSpec text s → NothingRefuses s consts → AllCounted consts → Sound (bound_of s consts) }
    ensures kept { (text : List ℕ) (s : Spec) (consts : List (Name × Data)) → SpellsSpec text s → NothingRefuses s consts → AllCounted consts → KeepsStates (bound_of s consts) }
{
    texts_are_accepted();
    values_are_given();
    system_fits();
}

/// The law of runs: of the one specification that a text spells, where nothing refuses it with these constants and the constants are
/// values whose sets have at most 2^63 - 1 members, with every settings and list of turns, what the core machine does for the system of what
/// it is bound to is told by the specification's module:
///
/// - `run` (`IsRun`): the entries of its journal are a run of the module with the constants.
/// - `next` (`NextHolds`): the module's Next is TRUE of each state of that run and the one after it.
/// - `states`: the state by components after n entries is there, and is the machine's state after them.
/// - `good` (`IsGoodState` of pgo_systems): that state is a state of the system, its sets are counted, and in it each instance is at a label of
///   its process or at Done.
/// - `accounts` (`Accounts`): the records of an instance say what became of each of its attempts.
/// - `joint` (`JointAccounts`): what those of all instances say together.
///
/// Source: this project's choice.
pub fn texts_run_as_written()
    ensures run { (text : List ℕ) (s : Spec) (consts : List (Name × Data)) (settings : Settings) (turns : List ℕ) → SpellsSpec text s → NothingRefuses s consts → AllCounted consts → IsRun (module_of s) (constants_with s consts) (ids_of (system_of (bound_of s consts))) (bound_of s consts).start (Core (system_of (bound_of s consts)) settings turns).entries }
    ensures next { (text : List ℕ) (s : Spec) (consts : List (Name × Data)) (settings : Settings) (turns : List ℕ) → SpellsSpec text s → NothingRefuses s consts → AllCounted consts → NextHolds (module_of s) (constants_with s consts) (bound_of s consts).start (Core (system_of (bound_of s consts)) settings turns).entries }
    ensures states { (text : List ℕ) (s : Spec) (consts : List (Name × Data)) (settings : Settings) (turns : List ℕ) (n : ℕ) → SpellsSpec text s → NothingRefuses s consts → AllCounted consts → n ≤ length (Core (system_of (bound_of s consts)) settings turns).entries → StateAt (bound_of s consts).start (Core (system_of (bound_of s consts)) settings turns).entries n ≡ Some (at (rules_of (system_of (bound_of s consts)) settings) (finished_of (Core (system_of (bound_of s consts)) settings turns)) n) }
    ensures good { (text : List ℕ) (s : Spec) (consts : List (Name × Data)) (settings : Settings) (turns : List ℕ) (n : ℕ) → SpellsSpec text s → NothingRefuses s consts → AllCounted consts → n ≤ length (Core (system_of (bound_of s consts)) settings turns).entries → IsGoodState (bound_of s consts) (at (rules_of (system_of (bound_of s consts)) settings) (finished_of (Core (system_of (bound_of s consts)) settings turns)) n) }
    ensures accounts { (text : List ℕ) (s : Spec) (consts : List (Name × Data)) (settings : Settings) (turns : List ℕ) (k : ℕ) → SpellsSpec text s → NothingRefuses s consts → AllCounted consts → Accounts (rules_of (system_of (bound_of s consts)) settings) (Reaches (system_of (bound_of s consts))) false (finished_of (Core (system_of (bound_of s consts)) settings turns)) k }
    ensures joint { (text : List ℕ) (s : Spec) (consts : List (Name × Data)) (settings : Settings) (turns : List ℕ) → SpellsSpec text s → NothingRefuses s consts → AllCounted consts → JointAccounts (rules_of (system_of (bound_of s consts)) settings) false (finished_of (Core (system_of (bound_of s consts)) settings turns)) }
{
    texts_are_accepted();
    modules_agree();
    bound_accounts();
    texts_keep_states();
    journals_are_runs();
}

/// What is asked of a specification so that workers follow the core machine, where a text spells it, nothing refuses it with these
/// constants, and the constants are values whose sets have at most 2^63 - 1 members:
///
/// - `workers` (`RunsSystem` of pgo_section): what workers ask of the trees of its sections, over its system, with every settings.
/// - `differs` (`Differs` of pgo_workers): whatever the trees are, the entry of an attempt is what differs between the states before it and
///   after it, and changes what it says alone.
/// - `start`: the start is a state over which they ask it (`IsGood`).
/// - `good`: so is the state that the machine comes to by a list of turns.
/// - `holders`: who holds a resource there is an instance.
/// - `few`: there are at most 1,024 resources.
///
/// Source: this project's choice.
pub fn workers_follow_machines()
    ensures workers { (text : List ℕ) (s : Spec) (consts : List (Name × Data)) (settings : Settings) → SpellsSpec text s → NothingRefuses s consts → AllCounted consts → RunsSystem (system_of (bound_of s consts)) (tree_of (bound_of s consts)) settings }
    ensures differs { (text : List ℕ) (s : Spec) (consts : List (Name × Data)) (tree : Trees) (settings : Settings) (runs : RunsSystem (system_of (bound_of s consts)) tree settings) → SpellsSpec text s → NothingRefuses s consts → AllCounted consts → Differs (world_of (layout_of (system_of (bound_of s consts)))) (program_of (system_of (bound_of s consts)) tree settings) (Reaches (system_of (bound_of s consts))) (IsGood (system_of (bound_of s consts))) runs }
    ensures start { (text : List ℕ) (s : Spec) (consts : List (Name × Data)) → SpellsSpec text s → NothingRefuses s consts → AllCounted consts → IsGood (system_of (bound_of s consts)) (bound_of s consts).start }
    ensures good { (text : List ℕ) (s : Spec) (consts : List (Name × Data)) (settings : Settings) (turns : List ℕ) → SpellsSpec text s → NothingRefuses s consts → AllCounted consts → IsGood (system_of (bound_of s consts)) (last_state (rules_of (system_of (bound_of s consts)) settings) (after_turns (rules_of (system_of (bound_of s consts)) settings) opened turns)) }
    ensures holders { (text : List ℕ) (s : Spec) (consts : List (Name × Data)) (settings : Settings) (turns : List ℕ) (r h : ℕ) → SpellsSpec text s → NothingRefuses s consts → AllCounted consts → (after_turns (rules_of (system_of (bound_of s consts)) settings) opened turns).holder r ≡ Some h → nat_lt h (length (system_of (bound_of s consts)).members) ≡ true }
    ensures few { (text : List ℕ) (s : Spec) (consts : List (Name × Data)) → SpellsSpec text s → NothingRefuses s consts → AllCounted consts → length (system_of (bound_of s consts)).resources ≤ 1024 }
{
    texts_are_accepted();
    system_fits();
    accepted_runs();
    texts_keep_states();
}

/// The status of a run of a specification that a text spells, where nothing refuses it with these constants and the constants are values whose
/// sets have at most 2^63 - 1 members, with every settings and list of turns:
///
/// - `fine`: the status (`status_of` of pgo_model) is 0 exactly where each instance is at Done in the last state of the core machine. So where each is,
///   no last record of an instance is a note NoValue or AssertFails, or a refusal Full.
///
/// Source: this project's choice.
pub fn statuses_are_fine()
    ensures fine { (text : List ℕ) (s : Spec) (consts : List (Name × Data)) (settings : Settings) (turns : List ℕ) → SpellsSpec text s → NothingRefuses s consts → AllCounted consts → (status_of (system_of (bound_of s consts)) settings (finished_of (Core (system_of (bound_of s consts)) settings turns)) ≡ 0) ↔ ((n : ℕ) (i : Member) → nth (system_of (bound_of s consts)).members n ≡ Some i → place_of i.id (last_state (rules_of (system_of (bound_of s consts)) settings) (Core (system_of (bound_of s consts)) settings turns)) ≡ Some (string done)) }
{
    system_fits();
    texts_keep_states();
}

/// Entries that are steps of a bound specification's sections (`EntriesMade`), whoever made them and in whatever order turns came:
///
/// - `good`: each state along them is good, where the states of the specification are kept (`KeepsStates` of pgo_systems).
/// - `states`: the state by components after n of them is there, and is that state.
/// - `run`, `next`: they are a run of a module that says what the specification is bound to says, and its Next is TRUE along them.
///
/// Source: this project's choice.
pub fn made_entries_are_runs()
    ensures good { (b : Bound) (settings : Settings) (f : Finished Effect) → KeepsStates b → EntriesMade (rules_of (system_of b) settings) f → (n : ℕ) → n ≤ length f.entries → IsGoodState b (at (rules_of (system_of b) settings) f n) }
    ensures states { (b : Bound) (settings : Settings) (f : Finished Effect) → KeepsStates b → EntriesMade (rules_of (system_of b) settings) f → (n : ℕ) → n ≤ length f.entries → StateAt b.start f.entries n ≡ Some (at (rules_of (system_of b) settings) f n) }
    ensures run { (s : Spec) (consts : List (Name × Data)) (m : Module) (settings : Settings) (f : Finished Effect) → IsAccepted s consts → KeepsStates (bound_of s consts) → Agrees m (constants_with s consts) (bound_of s consts) → EntriesMade (rules_of (system_of (bound_of s consts)) settings) f → IsRun m (constants_with s consts) (ids_of (system_of (bound_of s consts))) (bound_of s consts).start f.entries }
    ensures next { (s : Spec) (consts : List (Name × Data)) (m : Module) (settings : Settings) (f : Finished Effect) → IsAccepted s consts → KeepsStates (bound_of s consts) → Agrees m (constants_with s consts) (bound_of s consts) → EntriesMade (rules_of (system_of (bound_of s consts)) settings) f → NextHolds m (constants_with s consts) (bound_of s consts).start f.entries }
{
    values_are_given();
    system_fits();
}

/// The law of a run on threads. What the law of closed boards (`closed_runs_are_accounted` of pgo_closed) asks holds of each bound specification
/// whose states are kept and good, and whose trees do what its sections do, whatever its start is (`bound`). So it holds of the one specification
/// that a text spells, where nothing refuses it with these constants and the constants are values whose sets have at most 2^63 - 1 members
/// (`premises`); and there, where each worker has ended over its board and the boards are closed (`RunIsClosed`), whatever the schedule was, of what is
/// left (`left_of`)
///
/// - `made`: the entries are steps of its sections.
/// - `accounts`: the records of an instance say what became of each of its attempts; the journal may have been held.
/// - `joint`: what those of all instances say together; each refusal has its cause.
/// - `ended`: each instance has ended.
/// - `fine`: the status is 0 exactly where each instance is at Done in the last state.
///
/// Source: this project's choice.
pub fn closed_boards_are_runs()
    ensures bound { (b : Bound) (settings : Settings) → KeepsStates b → ((t : Vars) → IsGoodState b t → IsGood (system_of b) t) → RunsSystem (system_of b) (tree_of b) settings → SystemPremises (system_of b) (tree_of b) settings }
    ensures premises { (text : List ℕ) (s : Spec) (consts : List (Name × Data)) (settings : Settings) → SpellsSpec text s → NothingRefuses s consts → AllCounted consts → PremisesHold s consts settings }
    ensures made { (text : List ℕ) (s : Spec) (consts : List (Name × Data)) (settings : Settings) (entries : List (Entry Effect)) (notes : List Note) (ws : ℕ → Worker) (bs : ℕ → View Effect) (told : ℕ → Told) → SpellsSpec text s → NothingRefuses s consts → AllCounted consts → RunIsClosed s consts settings entries notes ws bs told → EntriesMade (rules_of (system_of (bound_of s consts)) settings) (left_of s consts settings entries notes ws) }
    ensures accounts { (text : List ℕ) (s : Spec) (consts : List (Name × Data)) (settings : Settings) (entries : List (Entry Effect)) (notes : List Note) (ws : ℕ → Worker) (bs : ℕ → View Effect) (told : ℕ → Told) → SpellsSpec text s → NothingRefuses s consts → AllCounted consts → RunIsClosed s consts settings entries notes ws bs told → (k : ℕ) → Accounts (rules_of (system_of (bound_of s consts)) settings) (Reaches (system_of (bound_of s consts))) true (left_of s consts settings entries notes ws) k }
    ensures joint { (text : List ℕ) (s : Spec) (consts : List (Name × Data)) (settings : Settings) (entries : List (Entry Effect)) (notes : List Note) (ws : ℕ → Worker) (bs : ℕ → View Effect) (told : ℕ → Told) → SpellsSpec text s → NothingRefuses s consts → AllCounted consts → RunIsClosed s consts settings entries notes ws bs told → JointAccounts (rules_of (system_of (bound_of s consts)) settings) true (left_of s consts settings entries notes ws) }
    ensures ended { (text : List ℕ) (s : Spec) (consts : List (Name × Data)) (settings : Settings) (entries : List (Entry Effect)) (notes : List Note) (ws : ℕ → Worker) (bs : ℕ → View Effect) (told : ℕ → Told) → SpellsSpec text s → NothingRefuses s consts → AllCounted consts → RunIsClosed s consts settings entries notes ws bs told → EachHasEnd (system_of (bound_of s consts)) settings (left_of s consts settings entries notes ws) }
    ensures fine { (text : List ℕ) (s : Spec) (consts : List (Name × Data)) (settings : Settings) (entries : List (Entry Effect)) (notes : List Note) (ws : ℕ → Worker) (bs : ℕ → View Effect) (told : ℕ → Told) → SpellsSpec text s → NothingRefuses s consts → AllCounted consts → RunIsClosed s consts settings entries notes ws bs told → (status_of (system_of (bound_of s consts)) settings (left_of s consts settings entries notes ws) ≡ 0) ↔ ((n : ℕ) (i : Member) → nth (system_of (bound_of s consts)).members n ≡ Some i → place_of i.id (at (rules_of (system_of (bound_of s consts)) settings) (left_of s consts settings entries notes ws) (length entries)) ≡ Some (string done)) }
{
    texts_are_accepted();
    system_fits();
    accepted_runs();
    texts_keep_states();
    workers_follow_machines();
    closed_runs_are_accounted();
}
