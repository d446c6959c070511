// The module that a specification means, and that it says of steps and of starts what the specification says.
#![tactic(auto)]

ghost use Rattle.std.specs.Prelude.{◌≡◌, List, Some, None};
ghost use Rattle.pgo_base.specs.Data.{Data};
ghost use Rattle.pgo_base.specs.Lookup.{Name, find};
ghost use Rattle.pgo_syntax.specs.declared.spec.Spec.{Spec};
ghost use Rattle.pgo_bound.specs.BoundOf.{bound_of};
ghost use Rattle.pgo_bound.specs.Sound.{WellNamed};
ghost use Rattle.pgo_heads.specs.Refusals.{bind_refusal};
ghost use Rattle.pgo_sections.specs.Expansion.{Expansion};
ghost use Rattle.pgo_meaning.specs.Expansions.{trees_of};
ghost use Rattle.pgo_translate.specs.ModuleOf.{module_of, constants_with};
ghost use Rattle.pgo_translate.specs.Premises.{ModuleNames, TreeNamed, StartNames, ConstantsAreValues};
ghost use Rattle.pgo_translate.specs.Named.{TreesAreNamed};
ghost use Rattle.pgo_translate.specs.Accepted.{Accepted};
ghost use Rattle.pgo_translate.specs.Agrees.{ActsAgree, BeginsAgree, Agrees};

mod ends;
mod init;
mod labels;
mod rows;
pub mod translate;
mod trees;

use pgo_meaning::{sections_of_labels, trees_agree};

/// A label's action is TRUE of exactly the pairs of states where `pc` has the label at the identifier and the label's tree allows
/// the step, whatever the identifier.
///
/// What is asked: the names that the module writes differ (`ModuleNames`), and the label's tree, if it has one, is named as `TreeNamed`
/// says: it binds neither a variable nor `self`, names none of the module's further definitions, has no prime, and assigns at its ends
/// names that it binds.
///
/// Source: the translation of A PlusCal User's Manual.
pub fn actions_agree()
    ensures { (s : Spec) (consts : List (Name × Data)) (a : Name) → ModuleNames s → ((x : Expansion) → find a (trees_of s) ≡ Some x → TreeNamed s x) → ActsAgree (module_of s) (constants_with s consts) (bound_of s consts) (trees_of s) a }
{}

/// Of the states, Init is TRUE of exactly the declared starts.
///
/// What is asked: names (`ModuleNames`, `StartNames`, `WellNamed`); that the constants are values; and that binding refuses
/// nothing.
///
/// Source: the translation of A PlusCal User's Manual.
pub fn starts_agree()
    ensures { (s : Spec) (consts : List (Name × Data)) → ModuleNames s → StartNames s consts → ConstantsAreValues s consts → WellNamed s → bind_refusal s consts ≡ None → BeginsAgree (module_of s) (constants_with s consts) (bound_of s consts) }
{}

/// The expansion of a section is named as its label's action asks, where the section's names are well formed over the variables and
/// the module's further definitions, what they stand for are variables, and the names that the module writes differ (`ModuleNames`).
///
/// Source: this project's choice.
pub fn trees_are_named()
    ensures { TreesAreNamed }
{}

/// The module of a specification agrees with what the specification is bound to, where what is asked of both holds (`Accepted`):
///
/// - `steps`: at each label of an instance's process, the label's action is TRUE of exactly the pairs of states where the instance
///   stands at the label and its section allows the step;
/// - `starts`: of the states, Init is TRUE of exactly the declared starts;
/// - `next`: Next is TRUE of exactly the pairs of states where some instance's action is TRUE, or where all instances are at Done and
///   nothing changes.
///
/// Source: the translation of A PlusCal User's Manual.
pub fn module_agrees()
    ensures { (s : Spec) (consts : List (Name × Data)) → Accepted s consts → Agrees (module_of s) (constants_with s consts) (bound_of s consts) }
{
    actions_agree();
    starts_agree();
    trees_are_named();
    sections_of_labels();
    trees_agree();
}
