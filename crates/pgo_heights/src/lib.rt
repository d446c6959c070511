// How high a specification's module is, said without it, is how high its highest expression is.
#![tactic(auto)]

ghost use Rattle.std.specs.Prelude.{◌≡◌, ◌≤◌, ℕ, List, Some};
ghost use Rattle.pgo_syntax.specs.declared.spec.Spec.{Spec};
ghost use Rattle.pgo_meaning.specs.Expansions.{trees_of};
ghost use Rattle.pgo_expand.specs.Limits.{expand_refusal, most_height, most_nodes, nodes_in};
ghost use Rattle.pgo_expand.specs.Module.{module_height};
ghost use Rattle.pgo_expand.specs.declared.errors.ExpandStop.TheVariants.{Deep};
ghost use Rattle.pgo_translate.specs.ModuleOf.{module_of};
ghost use Rattle.pgo_module_spells.specs.Spells.{SpellsModule};
ghost use Rattle.pgo_heights.specs.Expressions.{IsGreatestHeight, IsHigherThan};

use pgo_module_read::read::spelled_modules_are_written;

/// The law of heights: `module_height` of a specification is the greatest height of its module's expressions. It holds of every
/// specification, whatever refuses it.
///
/// Source: this project's choice.
pub fn heights_are_exact()
    ensures { (s : Spec) → IsGreatestHeight (module_of s) (module_height s) }
{}

/// What is refused as too deep has a module that is too high, and the other way about.
///
/// - `high`: where a specification is refused as too deep, its module has an expression that is higher than 512.
/// - `refused`: where its module has one, and its expansion no more nodes than the limit, it is so refused.
///
/// Source: this project's choice.
pub fn deep_modules_are_high()
    ensures high { (s : Spec) → expand_refusal s ≡ Some (Deep 513) → IsHigherThan (module_of s) most_height }
    ensures refused { (s : Spec) → nodes_in (trees_of s) ≤ most_nodes → IsHigherThan (module_of s) most_height → expand_refusal s ≡ Some (Deep 513) }
{}

/// No text spells the module of a specification that is refused as too deep.
///
/// Source: this project's choice.
pub fn deep_modules_have_no_text()
    ensures { (text : List ℕ) (s : Spec) → expand_refusal s ≡ Some (Deep 513) → SpellsModule text (module_of s) → ⊥ }
{
    spelled_modules_are_written();
}
