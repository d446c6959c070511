// The evaluator's one call.
ghost use Rattle.std.specs.Prelude.{◌≡◌, map, option_map, IfOk};
ghost use Rattle.pgo_base.specs.ExprView.{tree};
ghost use Rattle.pgo_base.specs.View.{data_of};
ghost use Rattle.pgo_model.specs.ModuleView.{defined_view};
ghost use Rattle.pgo_model.specs.Val.{Val};
ghost use Rattle.pgo_sets.specs.Answers.{Answers};

use crate::evaluate::held;
use crate::held::owned;
use crate::scope::{MOST_LEVELS, Scope};
use pgo_base::expr::Expr;
use pgo_base::module::Defs;
use pgo_base::scope::Env;
use pgo_base::value::Value;
use pgo_sets::errors::EvalStop;
use std::alloc::{AllocError, Global};

/// The value of an expression that sees these definitions and, in `env`, the names in scope, the state and, where there
/// is one, the next state.
///
/// `NoValue` comes exactly where the expression has no value. `NoMemory` comes where there is no memory.
///
/// Source: Specifying Systems; the strong Kleene operators, the limits and the least member of CHOOSE are this project's
/// choice.
pub fn eval(alloc: Global, defs: &Defs, e: &Expr, env: &Env<'_, '_>) -> Result<Value, EvalStop>
    ensures { Answers result (Val (map defined_view defs.now) (tree e.now) env.now.names.now env.now.around.state.now (option_map (λ r. r.now) env.now.around.next)) }
{
    match value(alloc, defs, e, env)? {
        Some(v) => Ok(v),
        None => Err(EvalStop::NoValue),
    }
}

/// The value, or none.
fn value<'x>(
    alloc: Global,
    defs: &'x Defs,
    e: &Expr,
    env: &Env<'x, 'x>,
) -> Result<Option<Value>, AllocError>
    ensures { IfOk result (λ o. option_map data_of o ≡ Val (map defined_view defs.now) (tree e.now) env.now.names.now env.now.around.state.now (option_map (λ r. r.now) env.now.around.next)) }
{
    let s = Scope {
        names: env.names,
        part: None,
        around: env.around,
        defs,
        seen: defs.as_slice().len(),
        left: MOST_LEVELS,
    };
    owned(alloc, held(alloc, e, &s)?)
}
