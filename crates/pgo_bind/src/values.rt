// The values of expressions, and what a variable starts with by them.
ghost use Rattle.std.specs.Prelude.{◌≡◌, option_map, IfOk};
ghost use Rattle.pgo_base.specs.View.{data_of};
ghost use Rattle.pgo_base.specs.ExprView.{tree};
ghost use Rattle.pgo_bound.specs.Values as values;
ghost use Rattle.pgo_heads.specs.Views.{start_view};

use pgo_base::bindings::Bindings;
use pgo_base::expr::Expr;
use pgo_base::text::Text;
use pgo_base::value::Value;
use pgo_definitions::definitions::EvaluatedDefinitions;
use pgo_definitions::evaluate::value;
use pgo_heads::start_values::{Start, default_value, start_of_value};
use pgo_syntax::binding::Origin;
use std::alloc::{AllocError, Global};

/// The value of an expression that sees the definitions alone.
pub fn closed_value(
    alloc: Global,
    defs: &EvaluatedDefinitions,
    e: &Expr,
) -> Result<Option<Value>, AllocError>
    ensures { IfOk result (λ v. option_map data_of v ≡ values.closed_value defs.now (tree e.now)) }
{
    value(alloc, defs, &Bindings::new(), e)
}

/// The value of an expression that sees `self` as this identifier besides.
pub fn value_at(
    alloc: Global,
    defs: &EvaluatedDefinitions,
    id: &Value,
    e: &Expr,
) -> Result<Option<Value>, AllocError>
    ensures { IfOk result (λ v. option_map data_of v ≡ values.value_at defs.now (data_of id.now) (tree e.now)) }
{
    let self_name = Text::from_slice(alloc, b"self")?;
    let outer = Bindings::new();
    value(
        alloc,
        defs,
        &Bindings::with(&self_name, Some(id), &outer),
        e,
    )
}

/// The start of a variable with `\in e`: the least member.
pub fn start_in(alloc: Global, defs: &EvaluatedDefinitions, e: &Expr) -> Result<Start, AllocError>
    ensures { IfOk result (λ s. start_view s ≡ values.start_in defs.now (tree e.now)) }
{
    let Some(Value::Set(set)) = closed_value(alloc, defs, e)? else {
        return Ok(Start::Missing);
    };
    match set.members() {
        [] => Ok(Start::Empty),
        [least, ..] => Ok(Start::Begins(least.copy(alloc)?)),
    }
}

/// A global's start.
pub fn global_start(
    alloc: Global,
    defs: &EvaluatedDefinitions,
    initial: &Option<Origin>,
) -> Result<Start, AllocError>
    ensures { IfOk result (λ s. start_view s ≡ values.global_start defs.now initial.now) }
{
    match initial {
        None => Ok(Start::Begins(default_value(alloc)?)),
        Some(Origin::Equals(e)) => Ok(start_of_value(closed_value(alloc, defs, e.get())?)),
        Some(Origin::In(e)) => start_in(alloc, defs, e.get()),
    }
}

/// What a value parameter starts with at an identifier.
pub fn argument_start(
    alloc: Global,
    defs: &EvaluatedDefinitions,
    e: &Expr,
    id: &Value,
) -> Result<Start, AllocError>
    ensures { IfOk result (λ s. start_view s ≡ values.argument_start defs.now (tree e.now) (data_of id.now)) }
{
    Ok(start_of_value(value_at(alloc, defs, id, e)?))
}
