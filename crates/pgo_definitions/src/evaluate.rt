// Definitions by their values, and what expressions see of them.
ghost use Rattle.std.specs.Prelude.{◌≡◌, [], List, option_map, IfOk};
ghost use Rattle.pgo_base.specs.ExprView.{tree};
ghost use Rattle.pgo_base.specs.Tree.{Tree};
ghost use Rattle.pgo_base.specs.View.{data_of};
ghost use Rattle.pgo_bound.specs.Values as values;
ghost use Rattle.pgo_model.specs.Val.{Meaning, val};
ghost use Rattle.pgo_definitions.specs.Meant.{meant};
ghost use Rattle.pgo_definitions.specs.Bodies.{bare, with_meaning, with_body};

use crate::definitions::EvaluatedDefinitions;
use pgo_base::bindings::Bindings;
use pgo_base::expr::{Expr, Names, Sub};
use pgo_base::module::{Defined, Defs};
use pgo_base::scope::{Around, Env, State};
use pgo_base::text::Text;
use pgo_base::value::Value;
use pgo_eval::eval::eval;
use pgo_sets::answers::value_or_none;
use std::alloc::{AllocError, Global};

/// These definitions, of which those with true that have no parameters are given by their values: `used` goes from the last
/// definition to the first.
///
/// Err where there is no memory, or where a definition's expressions nest too deep to be evaluated.
pub fn evaluated(
    alloc: Global,
    written: Defs,
    used: &[bool],
) -> Result<EvaluatedDefinitions, AllocError>
    ensures { IfOk result (λ s. s ≡ written) }
{
    let by_value = by_values(alloc, &written, used)?;
    Ok(EvaluatedDefinitions::new(written, by_value))
}

/// The value of an expression that sees these definitions and these names, and no variable.
pub fn value(
    alloc: Global,
    defs: &EvaluatedDefinitions,
    names: &Bindings<'_>,
    e: &Expr,
) -> Result<Option<Value>, AllocError>
    ensures { IfOk result (λ v. option_map data_of v ≡ values.value_with defs.now names.now (tree e.now)) }
{
    value_with(alloc, defs.by_value(), names, e)
}

/// Definitions that mean the same, of which those with true that have no parameters are given by their values: `used` goes from the
/// last definition to the first.
///
/// Err where there is no memory, or where a definition's expressions nest too deep to be evaluated.
pub fn by_values(alloc: Global, defs: &Defs, used: &[bool]) -> Result<Defs, AllocError>
    ensures { IfOk result (λ ds. meant ds ≡ meant defs.now) }
{
    let mut by_value = Defs::new(alloc);
    for d in defs.as_slice() {
        let is_used = from_last(used, by_value.as_slice().len());
        let same = same_by_value(alloc, &by_value, d, is_used)?;
        by_value.push(same)?;
    }
    Ok(by_value)
}

/// The value of an expression that sees these definitions and these names, and no variable.
fn value_with(
    alloc: Global,
    defs: &Defs,
    names: &Bindings<'_>,
    e: &Expr,
) -> Result<Option<Value>, AllocError>
    ensures { IfOk result (λ v. option_map data_of v ≡ values.value_with defs.now names.now (tree e.now)) }
{
    let state = State::from_vec(Vec::new(alloc));
    let env = Env {
        names,
        around: Around::one(&state),
    };
    value_or_none(eval(alloc, defs, e, &env))
}

/// What stands at a place of a list that goes from the last to the first; false where there is nothing.
fn from_last(list: &[bool], i: usize) -> bool {
    let n = list.len();
    if i < n { list[n - 1 - i] } else { false }
}

/// A definition that means the same behind these: by its value where it is used and has no parameters.
fn same_by_value(
    alloc: Global,
    before: &Defs,
    d: &Defined,
    is_used: bool,
) -> Result<Defined, AllocError>
    ensures { IfOk result (λ s. with_meaning (meant before.now) s ≡ with_meaning (meant before.now) d.now) }
{
    match d {
        Defined::Given { name, value } => Ok(Defined::Given {
            name: name.copy(alloc)?,
            value: value.copy(alloc)?,
        }),
        Defined::Means { name, params, body } => {
            let name = name.copy(alloc)?;
            if is_used && params.as_slice().is_empty() {
                return by_value(
                    alloc,
                    name,
                    value_with(alloc, before, &Bindings::new(), body.get())?,
                );
            }
            Ok(Defined::Means {
                name,
                params: params.copy(alloc)?,
                body: body.copy(alloc)?,
            })
        }
    }
}

/// A name without parameters by the value of its body. Where that has none, the body is one that has none either.
fn by_value(alloc: Global, name: Text, value: Option<Value>) -> Result<Defined, AllocError>
    ensures { (before : List Meaning) (e : Tree) → option_map data_of value ≡ val e (bare before) → IfOk result (λ s. with_meaning before s ≡ with_body before name [] e) }
{
    match value {
        Some(value) => Ok(Defined::Given { name, value }),
        None => Ok(Defined::Means {
            name,
            params: Names::from_vec(Vec::new(alloc)),
            body: Sub::new(alloc, Expr::At)?,
        }),
    }
}
