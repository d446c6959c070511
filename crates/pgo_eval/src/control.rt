// IF, CASE and LET.
ghost use Rattle.std.specs.Prelude.{◌≡◌, map, option_map, option_and_then, IfOk};
ghost use Rattle.pgo_base.specs.BindingsView.{onto, named_view};
ghost use Rattle.pgo_base.specs.ExprView.{tree, named_tree, arm_tree};
ghost use Rattle.pgo_base.specs.Tree.{arms, named, let_in, cond_of};
ghost use Rattle.pgo_base.specs.View.{data_of};
ghost use Rattle.pgo_model.specs.Val.{val, case_value, let_scope, with_names};
ghost use Rattle.pgo_eval.specs.HeldView.{held_data};
ghost use Rattle.pgo_eval.specs.ScopeView.{scope_view};

use crate::answers::truth;
use crate::evaluate::held;
use crate::held::{Held, lent, owned};
use crate::scope::Scope;
use pgo_base::bindings::Bindings;
use pgo_base::expr::Expr;
use pgo_base::named_values::NamedValues;
use pgo_base::text::Text;
use pgo_base::value::Value;
use std::alloc::{AllocError, Global};

/// IF.
#[cycle(evaluate)]
pub fn conditional<'a>(
    alloc: Global,
    p: &Expr,
    a: &Expr,
    b: &Expr,
    s: &Scope<'a, 'a, 'a>,
) -> Result<Option<Held<'a>>, AllocError>
    ensures { IfOk result (λ o. option_map held_data o ≡ val (cond_of (tree p.now) (tree a.now) (tree b.now)) (scope_view s.now)) }
{
    let p = held(alloc, p, s)?;
    match truth(lent(&p)) {
        Some(true) => held(alloc, a, s),
        Some(false) => held(alloc, b, s),
        None => Ok(None),
    }
}

/// CASE: the first arm whose guard is TRUE, where the guards before it are FALSE; else OTHER, where there is one.
#[cycle(evaluate)]
pub fn case_value<'a>(
    alloc: Global,
    list: &[(Expr, Expr)],
    other: Option<&Expr>,
    s: &Scope<'a, 'a, 'a>,
) -> Result<Option<Held<'a>>, AllocError>
    ensures { IfOk result (λ o. option_map held_data o ≡ case_value (arms (map arm_tree list.now)) (scope_view s.now) (option_and_then (λ e. val (tree e.now) (scope_view s.now)) other.entry)) }
{
    for arm in list {
        let guard = held(alloc, &arm.0, s)?;
        match truth(lent(&guard)) {
            Some(true) => return held(alloc, &arm.1, s),
            Some(false) => continue,
            None => return Ok(None),
        }
    }
    match other {
        Some(e) => held(alloc, e, s),
        None => Ok(None),
    }
}

/// LET: each definition is evaluated once, and sees those before it.
#[cycle(evaluate)]
pub fn let_value(
    alloc: Global,
    list: &[(Text, Expr)],
    e: &Expr,
    s: &Scope<'_, '_, '_>,
) -> Result<Option<Value>, AllocError>
    ensures { IfOk result (λ o. option_map data_of o ≡ val (let_in (named (map named_tree list.now)) (tree e.now)) (scope_view s.now)) }
{
    let mut defined = NamedValues::new(alloc);
    for d in list {
        let value = value_with(alloc, &defined, &d.1, s)?;
        let name = d.0.copy(alloc)?;
        defined.push(alloc, name, value)?;
    }
    value_with(alloc, &defined, e, s)
}

/// The value of an expression where these names are in scope before the others, the last one first.
#[cycle(evaluate)]
pub fn value_with(
    alloc: Global,
    list: &NamedValues,
    e: &Expr,
    s: &Scope<'_, '_, '_>,
) -> Result<Option<Value>, AllocError>
    ensures { IfOk result (λ o. option_map data_of o ≡ val (tree e.now) (with_names (onto (map named_view list.now) s.now.names.now) (scope_view s.now))) }
{
    let names = Bindings::with_named(&*list, &*s.names);
    let inner = Scope {
        names: &names,
        ..*s
    };
    owned(alloc, held(alloc, e, &inner)?)
}
