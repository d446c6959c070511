// The laws of trees and of modules, of every specification that the rules of names, labels and binding let pass.
#![tactic(auto)]

ghost use Rattle.std.specs.Prelude.{◌≡◌, ◌↔◌, ℕ, true, List, Some, None};
ghost use Rattle.std.specs.List.{AllByRecursion};
ghost use Rattle.pgo_base.specs.Data.{Data, string};
ghost use Rattle.pgo_base.specs.Lookup.{Name, Vars};
ghost use Rattle.pgo_model.specs.Machine.{nth};
ghost use Rattle.pgo_model.specs.Outcome.{Next};
ghost use Rattle.pgo_model.specs.State.{AllValues};
ghost use Rattle.pgo_model.specs.System.{Words};
ghost use Rattle.pgo_model.specs.SystemFits.{AreOfResources};
ghost use Rattle.pgo_model.specs.SystemState.{IsSystemState};
ghost use Rattle.pgo_model.specs.Written.{pc};
ghost use Rattle.pgo_syntax.specs.declared.spec.Spec.{Spec};
ghost use Rattle.pgo_syntax.specs.declared.bound.Instance.{Instance};
ghost use Rattle.pgo_bound.specs.BoundOf.{bound_of};
ghost use Rattle.pgo_bound.specs.Declares.{value_in};
ghost use Rattle.pgo_bound.specs.Sound.{Sound, IsLabel};
ghost use Rattle.pgo_bound.specs.State.{IsState, IsStateOnDomains, id_of};
ghost use Rattle.pgo_model.specs.Names.{is_among};
ghost use Rattle.pgo_meaning.specs.Ends.{KeepsElements};
ghost use Rattle.pgo_meaning.specs.Expansions.{trees_of};
ghost use Rattle.pgo_meaning.specs.LabelSections.{AreUnlabelled, NoneIsDone};
ghost use Rattle.pgo_meaning.specs.Sect.{Sect, Allows};
ghost use Rattle.pgo_meaning.specs.System.{globals_in, system_of};
ghost use Rattle.pgo_meaning.specs.SystemStates.{RefsDeclared};
ghost use Rattle.pgo_meaning.specs.TreeAllows.{TreeAllows};
ghost use Rattle.pgo_meaning.specs.TreesAgree.{Named, OwnLabels};
ghost use Rattle.pgo_scope.specs.Refusal.{scope_refusal};
ghost use Rattle.pgo_labels.specs.Refusal.{label_refusal};
ghost use Rattle.pgo_heads.specs.Refusals.{bind_refusal};
ghost use Rattle.pgo_mpcal_read.specs.Texts.{SpellsSpec};
ghost use Rattle.pgo_agrees.specs.Accepted.{IsOfText, IsAccepted, AreSmall};
ghost use Rattle.pgo_accept.specs.Answers.{NothingRefuses};
ghost use Rattle.pgo_pluscal.specs.declared.pluscal.PlusCal.{PlusCal};
ghost use Rattle.pgo_pluscal.specs.PlusCalOf.{pluscal_of};
ghost use Rattle.pgo_agrees.specs.Trees.{trees_in};
ghost use Rattle.pgo_translate.specs.Accepted.{Accepted};
ghost use Rattle.pgo_translate.specs.Agrees.{Agrees};
ghost use Rattle.pgo_translate.specs.ModuleOf.{module_with, constants_with};
ghost use Rattle.pgo_translate.specs.Premises.{ModuleNames, StartNames};

use pgo_meaning::{ends_are_states, sections_touch, system_states, trees_agree};
use pgo_translate::module_agrees;

/// What a text gives of the specification that it spells.
///
/// - `of_text` (`IsOfText`): no expression in it has `'` or UNCHANGED, each call has an argument, names are identifiers, and a
///   `yield` stands in mapping macros alone.
/// - `accepted` (`IsAccepted`): so it is accepted with constants with which no rule refuses it.
///
/// Source: the grammar, and which texts spell a specification (`SpellsSpec`).
pub fn texts_are_accepted()
    ensures of_text { (text : List ℕ) (s : Spec) → SpellsSpec text s → IsOfText s }
    ensures accepted { (text : List ℕ) (s : Spec) (consts : List (Name × Data)) → SpellsSpec text s → scope_refusal s ≡ None → label_refusal s ≡ None → bind_refusal s consts ≡ None → IsAccepted s consts }
{}

/// What the rules on names, on labels and of binding give of an accepted specification (`IsAccepted`), and so of each instance
/// of what it is bound to: the premises of the laws of `pgo_meaning`.
///
/// - `macros` (`AreUnlabelled`): no label stands in a macro.
/// - `dones` (`NoneIsDone`): no label of an instance's process has the name `Done`.
/// - `refs` (`RefsDeclared`): each `ref` argument is a declared global.
/// - `labels` (`OwnLabels`): at each label that has a section the trees of the whole specification have the instance's expansion.
/// - `names` (`Named`): names are well formed, where no expansion has 2^64 nodes (`AreSmall`).
/// - `elements` (`KeepsElements`): sections change globals that are bound by element by their elements alone.
///
/// Source: this project's choice.
pub fn premises_hold()
    ensures macros { (s : Spec) (consts : List (Name × Data)) → IsAccepted s consts → AreUnlabelled s.macros }
    ensures dones { (s : Spec) (consts : List (Name × Data)) (k : ℕ) (i : Instance) → IsAccepted s consts → nth (bound_of s consts).instances k ≡ Some i → NoneIsDone i }
    ensures refs { (s : Spec) (consts : List (Name × Data)) → IsAccepted s consts → RefsDeclared s }
    ensures labels { (s : Spec) (consts : List (Name × Data)) (k : ℕ) (i : Instance) → IsAccepted s consts → nth (bound_of s consts).instances k ≡ Some i → OwnLabels (bound_of s consts) i }
    ensures names { (s : Spec) (consts : List (Name × Data)) (k : ℕ) (i : Instance) → IsAccepted s consts → AreSmall s → nth (bound_of s consts).instances k ≡ Some i → Named (bound_of s consts) i }
    ensures elements { (s : Spec) (consts : List (Name × Data)) (k : ℕ) (i : Instance) → IsAccepted s consts → nth (bound_of s consts).instances k ≡ Some i → KeepsElements (bound_of s consts) i }
{}

/// The law of trees of an accepted specification: for each instance at a label of its process, and all states, the expanded
/// tree of that label allows exactly the steps that the label's section allows. No expansion has 2^64 nodes (`AreSmall`), as
/// the limit on expansions asks.
///
/// Source: this project's choice.
pub fn accepted_trees_agree()
    ensures { (s : Spec) (consts : List (Name × Data)) (k : ℕ) (i : Instance) (l : Name) (t u : Vars) → IsAccepted s consts → AreSmall s → nth (bound_of s consts).instances k ≡ Some i → IsLabel i l → IsState (bound_of s consts) t → IsState (bound_of s consts) u → value_in t pc (id_of i) ≡ Some (string l) → TreeAllows (trees_of s) (bound_of s consts) l (id_of i) t u ↔ Allows (bound_of s consts) k t u }
{
    trees_agree();
}

/// What sections of an accepted specification do to states.
///
/// - `state`: a section leads from a state to a state, if the values of its end are values.
/// - `domains`: and with the domains of the start it leads to such a state.
/// - `resources`: where the bound specification is sound, it reads and writes resources alone, on a state with the domains of
///   the start.
/// - `bound`: it reads and writes nothing but globals that the instance is bound to.
/// - `system`: where the bound specification is sound, its states with the domains of the start are those of its system.
///
/// Source: this project's choice.
pub fn accepted_sections()
    ensures state { (s : Spec) (consts : List (Name × Data)) (k : ℕ) (i : Instance) (t u : Vars) (d : Words) (prints : List Data) → IsAccepted s consts → nth (bound_of s consts).instances k ≡ Some i → IsState (bound_of s consts) t → (Sect (bound_of s consts) k t d).end ≡ Next u prints → AllValues u → IsState (bound_of s consts) u }
    ensures domains { (s : Spec) (consts : List (Name × Data)) (k : ℕ) (i : Instance) (t u : Vars) (d : Words) (prints : List Data) → IsAccepted s consts → nth (bound_of s consts).instances k ≡ Some i → IsStateOnDomains (bound_of s consts) t → (Sect (bound_of s consts) k t d).end ≡ Next u prints → AllValues u → IsStateOnDomains (bound_of s consts) u }
    ensures resources { (s : Spec) (consts : List (Name × Data)) (k : ℕ) (i : Instance) (t : Vars) (d : Words) → IsAccepted s consts → nth (bound_of s consts).instances k ≡ Some i → Sound (bound_of s consts) → IsStateOnDomains (bound_of s consts) t → AreOfResources (system_of (bound_of s consts)).resources (Sect (bound_of s consts) k t d).trace }
    ensures bound { (s : Spec) (consts : List (Name × Data)) (k : ℕ) (i : Instance) (t : Vars) (d : Words) → IsAccepted s consts → nth (bound_of s consts).instances k ≡ Some i → AllByRecursion (λ c. is_among c.0 (globals_in i.bindings) ≡ true) (Sect (bound_of s consts) k t d).trace }
    ensures system { (s : Spec) (consts : List (Name × Data)) (t : Vars) → IsAccepted s consts → Sound (bound_of s consts) → IsSystemState (system_of (bound_of s consts)) t ↔ IsStateOnDomains (bound_of s consts) t }
{
    ends_are_states();
    sections_touch();
    system_states();
}

/// The law of expansions: of the one specification that a text spells, where nothing refuses it with these constants, neither the
/// rules of names, of labels and of binding nor the limits of its expansion, let p be its expansion. Then for each instance at a
/// label of its process, and all states, the tree that p has at the label allows exactly the steps that the label's section allows
/// through its mapping macros.
///
/// Source: this project's choice.
pub fn expansions_agree()
    ensures { (text : List ℕ) (s : Spec) (consts : List (Name × Data)) (p : PlusCal) (k : ℕ) (i : Instance) (l : Name) (t u : Vars) → SpellsSpec text s → NothingRefuses s consts → p ≡ pluscal_of s → nth (bound_of s consts).instances k ≡ Some i → IsLabel i l → IsState (bound_of s consts) t → IsState (bound_of s consts) u → value_in t pc (id_of i) ≡ Some (string l) → TreeAllows (trees_in p) (bound_of s consts) l (id_of i) t u ↔ Allows (bound_of s consts) k t u }
{
    texts_are_accepted();
    accepted_trees_agree();
}

/// What is asked of a specification for its module to agree with what it is bound to (`Accepted` of `pgo_translate`), of an accepted
/// specification (`IsAccepted`), where no expansion has 2^64 nodes (`AreSmall`) and the constants' values are values (`AllValues`):
///
/// - `names` (`ModuleNames`): no variable and no further definition of the module is `self` or a made name, they all differ, and none
///   has the name of an operator;
/// - `starts` (`StartNames`): definitions, initial values, identifiers and value arguments name no variable and no further definition;
/// - `all` (`Accepted`): all that is asked.
///
/// Source: this project's choice.
pub fn module_premises_hold()
    ensures names { (s : Spec) (consts : List (Name × Data)) → IsAccepted s consts → ModuleNames s }
    ensures starts { (s : Spec) (consts : List (Name × Data)) → IsAccepted s consts → StartNames s consts }
    ensures all { (s : Spec) (consts : List (Name × Data)) → IsAccepted s consts → AreSmall s → AllValues consts → Accepted s consts }
{}

/// The law of modules: of the one specification that a text spells, where nothing refuses it with these constants, neither the rules of
/// names, of labels and of binding nor the limits of its expansion, and where the constants' values are values, let p be its expansion.
/// Then its module, which has p as its algorithm (`module_with`), with the constants' values says what the bound specification says of
/// steps, of starts and by Next (`Agrees` of `pgo_translate`).
///
/// Source: this project's choice.
pub fn modules_agree()
    ensures { (text : List ℕ) (s : Spec) (consts : List (Name × Data)) (p : PlusCal) → SpellsSpec text s → NothingRefuses s consts → AllValues consts → p ≡ pluscal_of s → Agrees (module_with p) (constants_with s consts) (bound_of s consts) }
{
    texts_are_accepted();
    module_premises_hold();
    module_agrees();
}
