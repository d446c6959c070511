// Values within limits: what expressions and definitions give is within limits where what they see is.
#![tactic(auto)]

ghost use Rattle.std.specs.Prelude.{◌≡◌, List, [], Some, None};
ghost use Rattle.std.specs.List.{AllByRecursion};
ghost use Rattle.pgo_base.specs.Data.{Data};
ghost use Rattle.pgo_base.specs.Tree.{Tree};
ghost use Rattle.pgo_model.specs.Val.{Scope, Defined, meanings, val};
ghost use Rattle.pgo_values.specs.Limits.{Limits};
ghost use Rattle.pgo_values.specs.Literals.{DefinedWithin, LiteralsWithin};
ghost use Rattle.pgo_values.specs.Within.{CallsWithin, IsWithin, ScopeWithin};

/// Expressions and definitions give values within limits, whatever the limits are (`Limits`).
///
/// - `values`: where the names in scope, the part that `@` stands for and the states are within the limits, the definitions give such values of
///   such arguments, and the literals are within them, the value of an expression is within them, where it has one.
/// - `definitions`: definitions give such values of such arguments, where constants are such values and the literals in bodies are within the
///   limits.
///
/// Source: this project's choice.
pub fn values_stay_within()
    ensures values { (limits : Limits) (e : Tree) (s : Scope) (v : Data) → LiteralsWithin limits e → ScopeWithin limits s → val e s ≡ Some v → IsWithin limits v }
    ensures definitions { (limits : Limits) (ds : List Defined) → AllByRecursion (DefinedWithin limits) ds → CallsWithin limits (meanings ds [] None) }
{}
