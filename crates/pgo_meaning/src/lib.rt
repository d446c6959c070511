// What a bound specification means: the section of each label, the steps that sections and their expansions allow, and the
// system that runs.
#![tactic(auto)]

ghost use Rattle.std.specs.Prelude.{◌≡◌, ◌↔◌, ℕ, true, false, List, map, Option, Some, None};
ghost use Rattle.std.specs.List.{AllByRecursion};
ghost use Rattle.pgo_base.specs.Data.{Data, string};
ghost use Rattle.pgo_base.specs.Lookup.{Name, Names, Vars, find};
ghost use Rattle.pgo_base.specs.declared.module.Defined.{Defined};
ghost use Rattle.pgo_model.specs.Machine.{nth};
ghost use Rattle.pgo_model.specs.Outcome.{Kind, Blocked, Many, Outcome, Next, Stuck};
ghost use Rattle.pgo_model.specs.State.{AllValues};
ghost use Rattle.pgo_model.specs.System.{Words, Touched};
ghost use Rattle.pgo_model.specs.SystemFits.{AreOfResources};
ghost use Rattle.pgo_model.specs.SystemState.{IsSystemState};
ghost use Rattle.pgo_model.specs.Written.{pc};
ghost use Rattle.pgo_syntax.specs.Statement.{labeled};
ghost use Rattle.pgo_syntax.specs.declared.bound.Bound.{Bound};
ghost use Rattle.pgo_syntax.specs.declared.bound.Instance.{Instance};
ghost use Rattle.pgo_syntax.specs.declared.bound.Mapping.{Mapping};
ghost use Rattle.pgo_syntax.specs.declared.bound.Mapping.TheVariants.{Identity};
ghost use Rattle.pgo_syntax.specs.declared.spec.Spec.{Spec};
ghost use Rattle.pgo_bound.specs.BoundOf.{bound_of};
ghost use Rattle.pgo_bound.specs.Declares.{value_in};
ghost use Rattle.pgo_bound.specs.Sound.{Sound, IsLabel, labels_among};
ghost use Rattle.pgo_bound.specs.State.{IsState, IsStateOnDomains, id_of};
ghost use Rattle.pgo_model.specs.Names.{is_among};
ghost use Rattle.pgo_sections.specs.Code.{Code, Read, Write};
ghost use Rattle.pgo_sections.specs.Exec.{Gives, if_gives, touching};
ghost use Rattle.pgo_sections.specs.BoundValues.{bindable, value_under};
ghost use Rattle.pgo_sections.specs.Macros.{IsMapped, exec, after_read, after_write};
ghost use Rattle.pgo_sections.specs.SectionRun.{ChoiceMade, SectionRun};
ghost use Rattle.pgo_tries.specs.Attempts.{is_blocked};
ghost use Rattle.pgo_tries.specs.Chosen.{In};
ghost use Rattle.pgo_meaning.specs.Attempt.{SectLeaf, SectTry};
ghost use Rattle.pgo_meaning.specs.Enabled.{Leaves, IsQuiet, FirstEnds, TooMany, is_many};
ghost use Rattle.pgo_meaning.specs.Ends.{KeepsElements};
ghost use Rattle.pgo_meaning.specs.Expansions.{trees_of};
ghost use Rattle.pgo_meaning.specs.LabelSections.{AreUnlabelled, NoneIsDone};
ghost use Rattle.pgo_meaning.specs.Macros.{MacRead, MacWrite};
ghost use Rattle.pgo_meaning.specs.NoteTells.{LeavesTell};
ghost use Rattle.pgo_meaning.specs.Parameters.{reads_by, writes_by};
ghost use Rattle.pgo_meaning.specs.Quiet.{SomeUndone, AreBlockedAt, Quiet};
ghost use Rattle.pgo_meaning.specs.Sect.{context_of, nothing, Sect, Allows};
ghost use Rattle.pgo_meaning.specs.Statements.{label_of};
ghost use Rattle.pgo_meaning.specs.System.{globals_in, system_of};
ghost use Rattle.pgo_meaning.specs.SystemStates.{GlobalsBound, RefsDeclared};
ghost use Rattle.pgo_meaning.specs.TreeAllows.{TreeAllows};
ghost use Rattle.pgo_meaning.specs.TreesAgree.{Named, OwnLabels, TreesAgree, AllTreesAgree, sections_at};

use pgo_sections::{sections_agree, sections_keep};

/// The law of the expansions of a bound specification, over all states.
///
/// - `instances` (`TreesAgree`): of each instance at a label, the label's expanded tree allows exactly the steps that its section
///   allows.
/// - `trees` (`AllTreesAgree`): so do the trees of the whole specification, where the label has a section.
/// - `labels`: so they do at each label of the instance's process.
///
/// The premises are what the grammar and the rules on names and labels are to give (`Named`, `OwnLabels`, `AreUnlabelled`,
/// `NoneIsDone`), but for `few` of `Named`, that no path through an expansion binds 2^64 names, which a limit on its nodes gives.
///
/// Source: this project's choice.
pub fn trees_agree()
    ensures instances { TreesAgree }
    ensures trees { AllTreesAgree }
    ensures labels { (b : Bound) (k : ℕ) (i : Instance) (l : Name) (s t : Vars) → nth b.instances k ≡ Some i → Named b i → OwnLabels b i → AreUnlabelled b.spec.macros → NoneIsDone i → IsLabel i l → IsState b s → IsState b t → value_in s pc (id_of i) ≡ Some (string l) → TreeAllows (trees_of b.spec) b l (id_of i) s t ↔ Allows b k s t }
{
    sections_agree();
}

/// Sections run mapping macros.
///
/// - `reads`, `writes`: in an instance's section, where a mapped parameter has an index and a content, its read is MacRead
///   and its write MacWrite of its macro on that content. The section goes on behind it with the words that are left.
/// - `identity_reads`, `identity_writes`: the identity reads the content and leaves it, and writes what it is given.
///
/// Source: the Modular PlusCal paper.
pub fn macros_run()
    ensures reads { (b : Bound) (i : Instance) (s : Vars) (m : Mapping) (w g : Name) (x : Option Name) (c : Code) (env : Names) (d : Words) (run : SectionRun) (j : Option Data) (old : Data) → IsMapped (context_of b i s) g x env run.changes j old → exec (context_of b i s) (Read w g x (reads_by m) c) env d run ≡ if_gives (MacRead m b.defs (id_of i) old d run.choices) (touching (context_of b i s) g j run) (after_read (context_of b i s) w g j c env d run.changes) }
    ensures writes { (b : Bound) (i : Instance) (s : Vars) (m : Mapping) (w g : Name) (x : Option Name) (env : Names) (d : Words) (run : SectionRun) (j : Option Data) (old v : Data) → IsMapped (context_of b i s) g x env run.changes j old → value_under w env ≡ Some v → exec (context_of b i s) (Write g x w (writes_by m)) env d run ≡ if_gives (MacWrite m b.defs (id_of i) old v d run.choices) (touching (context_of b i s) g j run) (after_write (context_of b i s) g j run.changes) }
    ensures identity_reads { (ds : List Defined) (id old : Data) (d : Words) (choices : List ChoiceMade) → bindable (Some old) ≡ Some old → MacRead Identity ds id old d choices ≡ Gives (old, None) choices }
    ensures identity_writes { (ds : List Defined) (id old v : Data) (d : Words) (choices : List ChoiceMade) → bindable (Some v) ≡ Some v → MacWrite Identity ds id old v d choices ≡ Gives v choices }
{
    sections_agree();
}

/// The sections of an instance are those of its process's labels, where no label stands in a macro.
///
/// - `labels`: they stand in the order of the text, by their written labels.
/// - `each`, `only`: so each label has a section, and what has a section is a label, where none has the name `Done`.
/// - `nowhere`: where an instance is at no label of its process, there is no outcome and nothing is read or written.
///
/// Source: A PlusCal User's Manual.
pub fn sections_of_labels()
    ensures labels { (b : Bound) (i : Instance) → AreUnlabelled b.spec.macros → map (λ c. c.0) (sections_at b i) ≡ map (label_of i.process) (labels_among (labeled i.archetype.body)) }
    ensures each { (b : Bound) (i : Instance) (l : Name) → AreUnlabelled b.spec.macros → NoneIsDone i → IsLabel i l → (c : Code) × (find l (sections_at b i) ≡ Some c) }
    ensures only { (b : Bound) (i : Instance) (l : Name) (c : Code) → AreUnlabelled b.spec.macros → NoneIsDone i → find l (sections_at b i) ≡ Some c → IsLabel i l }
    ensures nowhere { (b : Bound) (k : ℕ) (i : Instance) (s : Vars) (d : Words) → AreUnlabelled b.spec.macros → NoneIsDone i → nth b.instances k ≡ Some i → ((l : Name) → value_in s pc (id_of i) ≡ Some (string l) → IsLabel i l → ⊥) → Sect b k s d ≡ nothing }
{}

/// A section leads from a state to a state, if the values of its end are values.
///
/// - `state`: from a state to a state.
/// - `domains`: from a state in which each element-bound global has the domain that it starts with to such a state.
///
/// The premises are what the rules on names, and binding, are to give (`KeepsElements`).
///
/// Source: this project's choice.
pub fn ends_are_states()
    ensures state { (b : Bound) (k : ℕ) (i : Instance) (s t : Vars) (d : Words) (prints : List Data) → nth b.instances k ≡ Some i → KeepsElements b i → IsState b s → (Sect b k s d).end ≡ Next t prints → AllValues t → IsState b t }
    ensures domains { (b : Bound) (k : ℕ) (i : Instance) (s t : Vars) (d : Words) (prints : List Data) → nth b.instances k ≡ Some i → KeepsElements b i → IsStateOnDomains b s → (Sect b k s d).end ≡ Next t prints → AllValues t → IsStateOnDomains b t }
{
    sections_keep();
}

/// What sections read and write.
///
/// - `resources`: on a state in which each element-bound global has the domain that it starts with, resources alone.
/// - `bound`: nothing but globals that the instance is bound to.
///
/// The premises are that the bound specification is sound, and what the rules on names and binding give (`KeepsElements`,
/// `GlobalsBound`).
///
/// Source: this project's choice.
pub fn sections_touch()
    ensures resources { (b : Bound) (k : ℕ) (i : Instance) (s : Vars) (d : Words) → nth b.instances k ≡ Some i → Sound b → GlobalsBound b → KeepsElements b i → IsStateOnDomains b s → AreOfResources (system_of b).resources (Sect b k s d).trace }
    ensures bound { (b : Bound) (k : ℕ) (i : Instance) (s : Vars) (d : Words) → nth b.instances k ≡ Some i → KeepsElements b i → AllByRecursion (λ c. is_among c.0 (globals_in i.bindings) ≡ true) (Sect b k s d).trace }
{
    sections_keep();
}

/// A state of a bound specification, with the domains that element-bound globals start with, is a state of its system, and
/// the other way round (`same`). Its premise on globals and resources holds of what a specification is bound to, where each
/// `ref` argument is a declared global (`bound`).
///
/// Source: this project's choice.
pub fn system_states()
    ensures same { (b : Bound) (s : Vars) → Sound b → GlobalsBound b → IsSystemState (system_of b) s ↔ IsStateOnDomains b s }
    ensures bound { (s : Spec) (consts : List (Name × Data)) → RefsDeclared s → GlobalsBound (bound_of s consts) }
{}

/// An attempt tries the choices of its section one after another: it says which sections have a step.
///
/// - `leaf`: each of its leaves (`SectLeaf`) is the section with the leaf's words.
/// - `ends`: where it isn't Many it ends as the section does with some words.
/// - `accesses`: each of its accesses the section makes with some words.
/// - `first`: where the section isn't Blocked with its words, it is the section.
/// - `nowhere`: at no label of its process it has no outcome, and reads and writes nothing.
/// - `leaves`: the leaves of a section are what its words lead to: it ends so with some words exactly where one of them does.
/// - `blocked`: with any words it is Blocked exactly where each leaf of the section is Blocked and there are at most 65,536 of them.
/// - `no_step`: then the section is Blocked with all words, and no step is allowed from there.
/// - `found`: where it is neither Blocked nor Many it ends as the first leaf that isn't Blocked does, in the order in which choice d
///   goes round from the arm that word d picks.
/// - `many`: where it is Many, the first 65,536 leaves are Blocked, and there are more.
/// - `notes`: so what a note says of the leaves (`LeavesTell`) is so of an attempt that ends with its kind.
/// - `quiet`: of the instances that aren't at Done none has a step, and there is one, exactly where an attempt of each is Blocked,
///   with whatever words.
///
/// Source: this project's choice.
pub fn attempts_tell()
    ensures leaf { (b : Bound) (k : ℕ) (s : Vars) (w : Words) → (SectLeaf b k s w).section ≡ Sect b k s w }
    ensures ends { (b : Bound) (k : ℕ) (s : Vars) (w : Words) (o : Outcome Vars) → (Stuck Many ≡ o → ⊥) → (SectTry b k s w).end ≡ o → (v : Words) × ((Sect b k s v).end ≡ o) }
    ensures accesses { (b : Bound) (k : ℕ) (s : Vars) (w : Words) (c : Touched) → In c (SectTry b k s w).trace → (v : Words) × In c (Sect b k s v).trace }
    ensures first { (b : Bound) (k : ℕ) (s : Vars) (w : Words) → is_blocked (Sect b k s w).end ≡ false → SectTry b k s w ≡ Sect b k s w }
    ensures nowhere { (b : Bound) (k : ℕ) (i : Instance) (s : Vars) (w : Words) → AreUnlabelled b.spec.macros → NoneIsDone i → nth b.instances k ≡ Some i → ((l : Name) → value_in s pc (id_of i) ≡ Some (string l) → IsLabel i l → ⊥) → SectTry b k s w ≡ nothing }
    ensures leaves { (b : Bound) (k : ℕ) (s : Vars) (o : Outcome Vars) → In o (Leaves b k s) ↔ ((v : Words) × ((Sect b k s v).end ≡ o)) }
    ensures blocked { (b : Bound) (k : ℕ) (s : Vars) (w : Words) → ((SectTry b k s w).end ≡ Stuck Blocked) ↔ IsQuiet b k s }
    ensures no_step { (b : Bound) (k : ℕ) (s : Vars) (w : Words) → (SectTry b k s w).end ≡ Stuck Blocked → ((v : Words) → (Sect b k s v).end ≡ Stuck Blocked) × ((t : Vars) → Allows b k s t → ⊥) }
    ensures found { (b : Bound) (k : ℕ) (s : Vars) (w : Words) (o : Outcome Vars) → (SectTry b k s w).end ≡ o → is_blocked o ≡ false → is_many o ≡ false → FirstEnds b k s w o }
    ensures many { (b : Bound) (k : ℕ) (s : Vars) (w : Words) → (SectTry b k s w).end ≡ Stuck Many → TooMany b k s w }
    ensures notes { (b : Bound) (k : ℕ) (s : Vars) (w : Words) (kind : Kind) → (SectTry b k s w).end ≡ Stuck kind → LeavesTell b k s w kind }
    ensures quiet { (b : Bound) (s : Vars) (w : ℕ → Words) → (SomeUndone b s × AreBlockedAt b s w) ↔ Quiet b s }
{}
