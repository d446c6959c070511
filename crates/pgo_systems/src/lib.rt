// Bound specifications as systems: what their sections give are values, and the core machine's law holds of them.
#![tactic(auto)]

ghost use Rattle.std.specs.Prelude.{◌≡◌, ◌≤◌, Bool, false, true, ℕ, suc, List, length, Some};
ghost use Rattle.pgo_base.specs.Data.{Data};
ghost use Rattle.pgo_base.specs.Lookup.{Name, Vars};
ghost use Rattle.pgo_base.specs.Tree.{Tree};
ghost use Rattle.pgo_model.specs.Accounts.{Accounts, EntriesMade, Fits, JointAccounts, NoteTrue, StepsAreSections, at};
ghost use Rattle.pgo_model.specs.Choice.{Seeded, words_of};
ghost use Rattle.pgo_model.specs.Core.{Core, Reaches, Settings, rules_of};
ghost use Rattle.pgo_model.specs.Entries.{AllLead};
ghost use Rattle.pgo_model.specs.Log.{Effect, StateAt};
ghost use Rattle.pgo_model.specs.Machine.{Finished, Note, Noted, finished_of, nth};
ghost use Rattle.pgo_model.specs.Outcome.{Kind, Next};
ghost use Rattle.pgo_model.specs.State.{AllValues};
ghost use Rattle.pgo_model.specs.System.{Resource, Words};
ghost use Rattle.pgo_model.specs.SystemFits.{AreOfResources};
ghost use Rattle.pgo_model.specs.SystemState.{IsSystemState};
ghost use Rattle.pgo_model.specs.Val.{Scope, val};
ghost use Rattle.pgo_model.specs.Value.{IsValue};
ghost use Rattle.pgo_syntax.specs.declared.bound.Bound.{Bound};
ghost use Rattle.pgo_syntax.specs.declared.bound.Instance.{Instance};
ghost use Rattle.pgo_syntax.specs.declared.spec.Spec.{Spec};
ghost use Rattle.pgo_bound.specs.BoundOf.{bound_of};
ghost use Rattle.pgo_bound.specs.Sound.{IsAtLabel, IsNumbered};
ghost use Rattle.pgo_bound.specs.State.{AreDifferent, IsState, variables_of};
ghost use Rattle.pgo_sections.specs.Code.{Code};
ghost use Rattle.pgo_sections.specs.Context.{Context};
ghost use Rattle.pgo_sections.specs.Section.{section};
ghost use Rattle.pgo_meaning.specs.Ends.{KeepsElements};
ghost use Rattle.pgo_meaning.specs.NoteTells.{LeavesTell};
ghost use Rattle.pgo_meaning.specs.Sect.{Sect};
ghost use Rattle.pgo_meaning.specs.System.{system_of};
ghost use Rattle.pgo_systems.specs.Counted.{AllCounted, ContextCounted, IsCounted, ScopeCounted};
ghost use Rattle.pgo_systems.specs.Failures.{DownsReached};
ghost use Rattle.pgo_systems.specs.Gotos.{GotosKnown};
ghost use Rattle.pgo_systems.specs.Literals.{CodeFits, LiteralsFit, StartFits};
ghost use Rattle.pgo_systems.specs.Premises.{AllAtLabels, EndsAtLabels, IsCountedState, IsGoodState, KeepsStates, LiteralsFitIn, OwnsApart};
ghost use Rattle.pgo_systems.specs.StatementLiterals.{SpecificationFits, TextFits};

use pgo_meaning::{attempts_tell, ends_are_states, sections_touch, system_states};

/// Expressions and sections give values.
///
/// A value by itself may have any number of members, and `Cardinality` of one with 2^63 members is no integer of 64 bits. So the law speaks of
/// values each of whose sets has at most 2^63 - 1 members (`IsCounted`). What an expression builds has at most 65,536.
///
/// - `values`: where the names in scope, the part that `@` stands for and the states are such values, the definitions give such values of
///   such arguments, and the literals fit 64 bits, the value of an expression is one, where it has one.
/// - `are_values`: such a value is a value.
/// - `sections`: from such values in the start a section ends in such values, where the literals of its code and of its mapping
///   macros fit 64 bits.
/// - `start`: the start of what a specification is bound to has such values, where the constants are such values and the literals fit in
///   definitions, initial values, identifiers and arguments (`StartFits`).
/// - `literals`: the literals of an instance's sections fit where those of the statements do from which they come (`TextFits`).
/// - `states`: an instance's section leads from a state with the domains of the start whose sets are counted to such a state. Its
///   premises are what the rules on names, and binding, are to give (`KeepsElements`), and that literals fit (`LiteralsFitIn`).
///
/// Source: this project's choice.
pub fn values_are_given()
    ensures values { (e : Tree) (s : Scope) (v : Data) → LiteralsFit e → ScopeCounted s → val e s ≡ Some v → IsCounted v }
    ensures are_values { (v : Data) → IsCounted v → IsValue v }
    ensures sections { (k : Context) (c : Code) (d : Words) (t : Vars) (prints : List Data) → ContextCounted k → AllCounted k.start → CodeFits c → (section k c d).end ≡ Next t prints → AllCounted t × AllValues t }
    ensures start { (s : Spec) (consts : List (Name × Data)) → AllCounted consts → StartFits s → AllCounted (bound_of s consts).start }
    ensures literals { (s : Spec) (consts : List (Name × Data)) (i : Instance) → AllCounted consts → StartFits s → TextFits (bound_of s consts) i → LiteralsFitIn (bound_of s consts) i }
    ensures states { (b : Bound) (k : ℕ) (i : Instance) (s t : Vars) (d : Words) (prints : List Data) → nth b.instances k ≡ Some i → KeepsElements b i → LiteralsFitIn b i → IsCountedState b s → (Sect b k s d).end ≡ Next t prints → IsCountedState b t }
{
    ends_are_states();
}

/// Where instances are once a section has ended, where the sections of its instance end at labels of its process or at Done alone
/// (`EndsAtLabels`).
///
/// - `ends`: they do where each `goto` names a label of its archetype or Done, `while`s have labels, and macros have neither labels nor `goto`s nor
///   `while`s (`GotosKnown`), as the grammar and the rules on labels ask.
/// - `place`: the instance is at a label of its process or at Done.
/// - `labels`: so are all instances, where they were before and have identifiers that differ.
///
/// Source: A PlusCal User's Manual.
pub fn labels_are_kept()
    ensures ends { (b : Bound) (i : Instance) → GotosKnown b i → EndsAtLabels b i }
    ensures place { (b : Bound) (k : ℕ) (i : Instance) (s t : Vars) (d : Words) (prints : List Data) → nth b.instances k ≡ Some i → EndsAtLabels b i → IsState b s → (Sect b k s d).end ≡ Next t prints → IsAtLabel i t }
    ensures labels { (b : Bound) (k : ℕ) (i : Instance) (s t : Vars) (d : Words) (prints : List Data) → nth b.instances k ≡ Some i → IsNumbered b → EndsAtLabels b i → IsState b s → AllAtLabels b s → (Sect b k s d).end ≡ Next t prints → AllAtLabels b t }
{}

/// The system of a bound specification meets the premises of the core machine's law, of its good states: the system's states whose sets are
/// counted and in which each instance is at a label of its process or at Done.
///
/// Of all states of the system (`IsSystemState`) the premises don't hold where a section puts `Cardinality(x)` into a variable: a state may have a
/// set of 2^63 members there, and the end is no state then. No run comes to such a state.
///
/// - `fits` (`Fits`): the run starts in a good state, and an attempt leads from one to one; there what an entry records leads to its attempt's end,
///   with its prints, and an attempt reads and writes resources that its instance is bound to.
/// - `owns`: what is an instance's own is no global (a part of `KeepsStates`), in what a specification is bound to whose variables have names that
///   differ.
/// - `kept`: what a specification is bound to meets `KeepsStates`, where it is sound, the rules hold (`SpecificationFits`), the constants' sets are
///   counted and literals fit.
/// - `numbers`: resources stand at their numbers.
/// - `resources`: on each state of the system an attempt reads and writes nothing but resources.
///
/// Its premises (`KeepsStates`) are what binding and the rules on names and labels are to give.
///
/// Source: this project's choice.
pub fn system_fits()
    ensures fits { (b : Bound) (settings : Settings) → KeepsStates b → Fits (rules_of (system_of b) settings) (Reaches (system_of b)) (IsGoodState b) }
    ensures owns { (s : Spec) (consts : List (Name × Data)) (k : ℕ) (i : Instance) → AreDifferent (variables_of s) → nth (bound_of s consts).instances k ≡ Some i → OwnsApart (bound_of s consts) i }
    ensures kept { (s : Spec) (consts : List (Name × Data)) → SpecificationFits s consts → KeepsStates (bound_of s consts) }
    ensures numbers { (b : Bound) (n : ℕ) (r : Resource) → KeepsStates b → nth (system_of b).resources n ≡ Some r → r.number ≡ n }
    ensures resources { (b : Bound) (k : ℕ) (s : Vars) (d : Words) → KeepsStates b → IsSystemState (system_of b) s → AreOfResources (system_of b).resources ((system_of b).sect k s d).trace }
{
    values_are_given();
    labels_are_kept();
    system_states();
    sections_touch();
}

/// The law of the core machine, for the system of a bound specification, every settings and list of turns: what `core_accounts` of `pgo_model` says
/// of a system, with premises on the specification alone (`KeepsStates`).
///
/// - `runs`: each entry of the journal is what its instance's attempt does on the state after the entries before it.
/// - `entries`: each entry records the difference between the states before and after it.
/// - `leads`: the changes that an entry records lead from the state before it to the state after it.
/// - `states`: so the state by components after n entries is there, and is the machine's state after them.
/// - `good`: that state is good: it is a state of the system, and in it each instance is at a label of its process or at Done.
/// - `accounts`: the records of an instance number its attempts from 1, and each says what became of its attempt; its entries and notes are exactly
///   those that its records name, in order.
/// - `joint`: over all instances no failing pre-commit is answered twice, and the number of a `Full` is the journal's length.
///
/// Source: this project's choice.
pub fn bound_accounts()
    ensures runs { (b : Bound) (s : Settings) (turns : List ℕ) → KeepsStates b → StepsAreSections (rules_of (system_of b) s) (finished_of (Core (system_of b) s turns)) }
    ensures entries { (b : Bound) (s : Settings) (turns : List ℕ) → KeepsStates b → EntriesMade (rules_of (system_of b) s) (finished_of (Core (system_of b) s turns)) }
    ensures leads { (b : Bound) (s : Settings) (turns : List ℕ) → KeepsStates b → AllLead (rules_of (system_of b) s) b.start (Core (system_of b) s turns).entries }
    ensures states { (b : Bound) (s : Settings) (turns : List ℕ) → KeepsStates b → (n : ℕ) → n ≤ length (Core (system_of b) s turns).entries → StateAt b.start (Core (system_of b) s turns).entries n ≡ Some (at (rules_of (system_of b) s) (finished_of (Core (system_of b) s turns)) n) }
    ensures good { (b : Bound) (s : Settings) (turns : List ℕ) → KeepsStates b → (n : ℕ) → n ≤ length (Core (system_of b) s turns).entries → IsGoodState b (at (rules_of (system_of b) s) (finished_of (Core (system_of b) s turns)) n) }
    ensures accounts { (b : Bound) (s : Settings) (turns : List ℕ) → KeepsStates b → (k : ℕ) → Accounts (rules_of (system_of b) s) (Reaches (system_of b)) false (finished_of (Core (system_of b) s turns)) k }
    ensures joint { (b : Bound) (s : Settings) (turns : List ℕ) → KeepsStates b → JointAccounts (rules_of (system_of b) s) false (finished_of (Core (system_of b) s turns)) }
{
    values_are_given();
    system_fits();
}

/// What notes say of sections, of whatever a run of a bound specification leaves, with every settings:
///
/// - `note` (`LeavesTell` of pgo_meaning): of a true note (`NoteTrue`), on the state at its position: Blocked, that every leaf of the section is
///   Blocked, of which there are at most 65,536, so that the instance has no step there; NoValue and AssertFails, that the first leaf that isn't
///   Blocked ends so; Many, that the first 65,536 leaves are Blocked, and there are more.
/// - `record`: so of each record that is a note, of an instance whose records say what became of its attempts (`Accounts`).
///
/// Source: this project's choice.
pub fn notes_tell_of_leaves()
    ensures note { (b : Bound) (settings : Settings) (f : Finished Effect) (n : Note) → NoteTrue (rules_of (system_of b) settings) f n → LeavesTell b n.instance (at (rules_of (system_of b) settings) f n.position) (words_of (Seeded settings.seed n.instance n.attempt)) n.kind }
    ensures record { (b : Bound) (settings : Settings) (run : Bool) (f : Finished Effect) (k i p : ℕ) (kind : Kind) → Accounts (rules_of (system_of b) settings) (Reaches (system_of b)) run f k → nth (f.records k) i ≡ Some (Noted kind p) → LeavesTell b k (at (rules_of (system_of b) settings) f p) (words_of (Seeded settings.seed k (suc i))) kind }
{
    attempts_tell();
}

/// A refused pre-commit is of a resource that its instance is bound to (`DownsReached`), for the system of a bound specification that meets
/// `KeepsStates` and every settings, whichever pre-commits are set to fail:
///
/// - `machine`: in what the core machine leaves, with every list of turns.
/// - `contended`: in what any run leaves whose states are good and in which each refusal has its cause, as the records of a run on threads say
///   (`contended` of `JointAccounts`): the attempt's section reads or writes the resource on a state of the run.
///
/// Source: this project's choice.
pub fn pre_commits_are_of_bound_resources()
    ensures machine { (b : Bound) (settings : Settings) (turns : List ℕ) → KeepsStates b → DownsReached (system_of b) (finished_of (Core (system_of b) settings turns)) }
    ensures contended { (b : Bound) (settings : Settings) (f : Finished Effect) → KeepsStates b → JointAccounts (rules_of (system_of b) settings) true f → ((n : ℕ) → n ≤ length f.entries → IsGoodState b (at (rules_of (system_of b) settings) f n)) → DownsReached (system_of b) f }
{
    system_fits();
}
