// CHOOSE, filters and images: an expression at each member of one set.
ghost use Rattle.std.specs.Prelude.{◌≡◌, Some, option_map, IfOk};
ghost use Rattle.pgo_base.specs.ExprView.{tree};
ghost use Rattle.pgo_base.specs.Tree.{choose, filter_of, image};
ghost use Rattle.pgo_base.specs.View.{data_of};
ghost use Rattle.pgo_model.specs.Val.{val, with_name};
ghost use Rattle.pgo_eval.specs.ScopeView.{scope_view};

use crate::evaluate::held;
use crate::held::owned;
use crate::members::{set_held, truth_in};
use crate::scope::Scope;
use pgo_base::bindings::Bindings;
use pgo_base::expr::Expr;
use pgo_base::text::Text;
use pgo_base::value::Value;
use pgo_sets::answers::value_or_none;
use pgo_sets::build::set_of;
use std::alloc::{AllocError, Global};

/// The value of an expression where one name more is in scope.
#[cycle(evaluate)]
fn value_named<'a>(
    alloc: Global,
    x: &Text,
    m: &Value,
    e: &Expr,
    s: &Scope<'a, 'a, 'a>,
) -> Result<Option<Value>, AllocError>
    ensures { IfOk result (λ o. option_map data_of o ≡ val (tree e.now) (with_name x.now (Some (data_of m.now)) (scope_view s.now))) }
{
    let names = Bindings::with(&*x, Some(&*m), &*s.names);
    let inner = Scope {
        names: &names,
        ..*s
    };
    owned(alloc, held(alloc, e, &inner)?)
}

/// CHOOSE: the least member for which p is TRUE, where p is a Boolean up to it.
#[cycle(evaluate)]
pub fn chosen<'a>(
    alloc: Global,
    x: &Text,
    r: &Expr,
    p: &Expr,
    s: &Scope<'a, 'a, 'a>,
) -> Result<Option<Value>, AllocError>
    ensures { IfOk result (λ o. option_map data_of o ≡ val (choose x.now (tree r.now) (tree p.now)) (scope_view s.now)) }
{
    let r = held(alloc, r, s)?;
    let Some(set) = set_held(&r) else {
        return Ok(None);
    };
    for m in set.members() {
        match truth_in(value_named(alloc, x, m, p, s)?) {
            Some(true) => return Ok(Some(m.copy(alloc)?)),
            Some(false) => continue,
            None => return Ok(None),
        }
    }
    Ok(None)
}

/// `{x \in r : p}`.
#[cycle(evaluate)]
pub fn filtered<'a>(
    alloc: Global,
    x: &Text,
    r: &Expr,
    p: &Expr,
    s: &Scope<'a, 'a, 'a>,
) -> Result<Option<Value>, AllocError>
    ensures { IfOk result (λ o. option_map data_of o ≡ val (filter_of x.now (tree r.now) (tree p.now)) (scope_view s.now)) }
{
    let r = held(alloc, r, s)?;
    let Some(set) = set_held(&r) else {
        return Ok(None);
    };
    let mut kept = Vec::new(alloc);
    for m in set.members() {
        match truth_in(value_named(alloc, x, m, p, s)?) {
            Some(true) => kept.push(m.copy(alloc)?)?,
            Some(false) => continue,
            None => return Ok(None),
        }
    }
    value_or_none(set_of(kept))
}

/// `{e : x \in r}`.
#[cycle(evaluate)]
pub fn image<'a>(
    alloc: Global,
    e: &Expr,
    x: &Text,
    r: &Expr,
    s: &Scope<'a, 'a, 'a>,
) -> Result<Option<Value>, AllocError>
    ensures { IfOk result (λ o. option_map data_of o ≡ val (image (tree e.now) x.now (tree r.now)) (scope_view s.now)) }
{
    let r = held(alloc, r, s)?;
    let Some(set) = set_held(&r) else {
        return Ok(None);
    };
    let mut all = Vec::new(alloc);
    for m in set.members() {
        match value_named(alloc, x, m, e, s)? {
            Some(v) => all.push(v)?,
            None => return Ok(None),
        }
    }
    value_or_none(set_of(all))
}
