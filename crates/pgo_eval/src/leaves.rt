// Expressions that open no other.
ghost use Rattle.std.specs.Prelude.{◌≡◌};
ghost use Rattle.pgo_base.specs.ExprView.{tree};
ghost use Rattle.pgo_model.specs.Val.{val, value_of_name};
ghost use Rattle.pgo_eval.specs.Leaves.{leaf_value};
ghost use Rattle.pgo_eval.specs.ScopeView.{scope_view};

use crate::held::Held;
use crate::scope::Scope;
use crate::states::primed_value;
use pgo_base::expr::Expr;
use pgo_base::text::Text;
use pgo_base::value::Value;

/// What is found of an expression that opens no other: its value or none; that it is a name which is neither in scope nor a
/// variable; or neither of these.
#[derive(Drop)]
pub enum Leaf<'a, 'e> {
    Value(Option<Held<'a>>),
    Definition(&'e Text),
    Other,
}

/// A name in scope, a variable, a primed name, `@`, a number and a truth value are answered without a level of their own; a
/// name that is neither in scope nor a variable is told apart from other expressions.
pub fn leaf_of<'a, 'e>(e: &'e Expr, s: &Scope<'a, 'a, 'a>) -> Leaf<'a, 'e>
    ensures { leaf_value result (scope_view s.now) (val (tree e.now) (scope_view s.now)) ≡ val (tree e.now) (scope_view s.now) }
{
    match e {
        Expr::Name(x) => named_leaf(x, s),
        Expr::Primed(x) => Leaf::Value(primed_value(x, s)),
        Expr::Number(n) => Leaf::Value(Some(Held::Own(Value::Int(*n)))),
        Expr::Truth(b) => Leaf::Value(Some(Held::Own(Value::Bool(*b)))),
        Expr::At => Leaf::Value(s.part.map(Held::Lent)),
        _ => Leaf::Other,
    }
}

/// What a name stands for in scope or among the variables.
fn named_leaf<'a, 'e>(x: &'e Text, s: &Scope<'a, 'a, 'a>) -> Leaf<'a, 'e>
    ensures { leaf_value result (scope_view s.now) (value_of_name x.now (scope_view s.now)) ≡ value_of_name x.now (scope_view s.now) }
{
    if let Some(v) = s.names.find(x) {
        return Leaf::Value(v.map(Held::Lent));
    }
    if let Some(v) = s.around.state.find(x) {
        return Leaf::Value(Some(Held::Lent(v)));
    }
    Leaf::Definition(x)
}
