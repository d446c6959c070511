// Names and calls: what stands for them in scope, among the variables, and among the definitions.
ghost use Rattle.std.specs.Prelude.{◌≡◌, [], length, take, map, option_map, option_and_then, IfOk};
ghost use Rattle.pgo_base.specs.ExprView.{tree};
ghost use Rattle.pgo_base.specs.Tree.{trees, call};
ghost use Rattle.pgo_base.specs.View.{data_of};
ghost use Rattle.pgo_model.specs.ModuleView.{defined_view};
ghost use Rattle.pgo_model.specs.Val.{val, asserted, call_def, value_of_name, value_of_call};
ghost use Rattle.pgo_eval.specs.HeldView.{held_data};
ghost use Rattle.pgo_eval.specs.ScopeView.{scope_view, next_view, body_scope};

use crate::answers::assertion;
use crate::calls::called;
use crate::control::value_with;
use crate::definitions::{arguments, default_value, given, newest};
use crate::evaluate::{held, values};
use crate::held::{Held, lent, own};
use crate::scope::Scope;
use crate::words::is_word;
use pgo_base::bindings::Bindings;
use pgo_base::expr::Expr;
use pgo_base::module::Defined;
use pgo_base::text::Text;
use pgo_base::value::Value;
use std::alloc::{AllocError, Global};

/// What a name stands for: in scope, among the variables, among the definitions.
#[cycle(evaluate)]
pub fn named_value<'a>(
    alloc: Global,
    x: &Text,
    s: &Scope<'a, 'a, 'a>,
) -> Result<Option<Held<'a>>, AllocError>
    ensures { IfOk result (λ o. option_map held_data o ≡ value_of_name x.now (scope_view s.now)) }
{
    if let Some(v) = s.names.find(x) {
        return Ok(v.map(Held::Lent));
    }
    if let Some(v) = s.around.state.find(x) {
        return Ok(Some(Held::Lent(v)));
    }
    applied(alloc, x, Vec::new(alloc), s)
}

/// A call by name: Assert, or another operator or definition on its arguments, which must all have values.
#[cycle(evaluate)]
pub fn call_value<'a>(
    alloc: Global,
    x: &Text,
    list: &[Expr],
    s: &Scope<'a, 'a, 'a>,
) -> Result<Option<Held<'a>>, AllocError>
    ensures { IfOk result (λ o. option_map held_data o ≡ val (call x.now (trees (map tree list.now))) (scope_view s.now)) }
{
    if is_word(x, b"Assert") {
        return asserted(alloc, list, s);
    }
    match values(alloc, list, s)? {
        Some(args) => called_value(alloc, x, args, s),
        None => Ok(None),
    }
}

/// Assert: TRUE where its first argument is; the second is not evaluated.
#[cycle(evaluate)]
fn asserted<'a>(
    alloc: Global,
    list: &[Expr],
    s: &Scope<'a, 'a, 'a>,
) -> Result<Option<Held<'a>>, AllocError>
    ensures { IfOk result (λ o. option_map held_data o ≡ asserted (trees (map tree list.now)) (scope_view s.now)) }
{
    if list.len() != 2 {
        return Ok(None);
    }
    let p = held(alloc, &list[0], s)?;
    Ok(assertion(lent(&p)))
}

/// An operator of the modules or a definition on these arguments; a name in scope and a variable take none.
#[cycle(evaluate)]
fn called_value<'a>(
    alloc: Global,
    x: &Text,
    args: Vec<Value>,
    s: &Scope<'a, 'a, 'a>,
) -> Result<Option<Held<'a>>, AllocError>
    ensures { IfOk result (λ o. option_map held_data o ≡ value_of_call x.now (map data_of args.items) (scope_view s.now)) }
{
    if let Some(v) = called(alloc, x, &args)? {
        return Ok(own(v));
    }
    if s.names.find(x).is_some() || s.around.state.find(x).is_some() {
        return Ok(None);
    }
    applied(alloc, x, args, s)
}

/// The newest definition of a name on these arguments.
#[cycle(evaluate)]
pub fn applied<'a>(
    alloc: Global,
    x: &Text,
    args: Vec<Value>,
    s: &Scope<'a, 'a, 'a>,
) -> Result<Option<Held<'a>>, AllocError>
    ensures { IfOk result (λ o. option_map held_data o ≡ call_def x.now (map data_of args.items) (scope_view s.now).defs) }
{
    let Some(found) = newest(x, s.defs, s.seen) else {
        return default_value(alloc, x, args.len());
    };
    match found.definition {
        Defined::Given { value, .. } => Ok(given(value, args.len())),
        Defined::Means { params, body, .. } => {
            if args.len() != params.as_slice().len() {
                return Ok(None);
            }
            let v = body_value(alloc, params.as_slice(), args, body.get(), found.before, s)?;
            Ok(own(v))
        }
    }
}

/// The value of a definition's body, which sees its arguments and the definitions before it.
#[cycle(evaluate)]
fn body_value<'a>(
    alloc: Global,
    params: &[Text],
    args: Vec<Value>,
    body: &Expr,
    before: usize,
    s: &Scope<'a, 'a, 'a>,
) -> Result<Option<Value>, AllocError>
    requires { length args.items ≡ length params.now }
    ensures { IfOk result (λ o. option_map data_of o ≡ val (tree body.now) (body_scope params.now (map data_of args.items) (map defined_view (take before s.now.defs.now)) s.now.around.state.now (next_view s.now))) }
{
    let named = arguments(alloc, params, args)?;
    let none = Bindings::new();
    let inner = Scope {
        names: &none,
        part: None,
        around: s.around,
        defs: s.defs,
        seen: before,
        left: s.left,
    };
    value_with(alloc, &named, body, &inner)
}
