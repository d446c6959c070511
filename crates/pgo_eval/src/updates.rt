// EXCEPT.
ghost use Rattle.std.specs.Prelude.{◌≡◌, Some, map, option_map, option_and_then, IfOk};
ghost use Rattle.pgo_base.specs.ExprView.{tree, path_tree};
ghost use Rattle.pgo_base.specs.Tree.{except, paths, trees};
ghost use Rattle.pgo_base.specs.View.{data_of};
ghost use Rattle.pgo_model.specs.Operators.{put_at};
ghost use Rattle.pgo_model.specs.Val.{val, values_of, with_part};
ghost use Rattle.pgo_eval.specs.HeldView.{function_data};
ghost use Rattle.pgo_eval.specs.Paths.{part_on};
ghost use Rattle.pgo_eval.specs.ScopeView.{scope_view};

use crate::evaluate::{held, values};
use crate::function::{Function, changed, given, value_of};
use crate::held::owned;
use crate::paths::part_on;
use crate::scope::Scope;
use pgo_base::expr::{Expr, Update};
use pgo_base::value::Value;
use std::alloc::{AllocError, Global};

/// `[f EXCEPT !.. = e, ..]`: its updates are made from left to right, each on what those before it gave. The function is
/// copied at most once, where it is lent, when the first new part is there; it is changed in place.
#[cycle(evaluate)]
pub fn except_value<'a>(
    alloc: Global,
    f: &Expr,
    list: &[Update],
    s: &Scope<'a, 'a, 'a>,
) -> Result<Option<Value>, AllocError>
    ensures { IfOk result (λ o. option_map data_of o ≡ val (except (tree f.now) (paths (map path_tree list.now))) (scope_view s.now)) }
{
    let mut now = given(held(alloc, f, s)?);
    for u in list {
        now = updated(alloc, now, u, s)?;
    }
    value_of(alloc, now)
}

/// One update.
#[cycle(evaluate)]
fn updated<'a>(
    alloc: Global,
    f: Option<Function<'a>>,
    u: &Update,
    s: &Scope<'a, 'a, 'a>,
) -> Result<Option<Function<'a>>, AllocError>
    ensures { IfOk result (λ o. option_map function_data o ≡ option_and_then (λ path. option_and_then (λ v. put_at path (λ part. val (tree u.now.value) (with_part part (scope_view s.now))) (Some v)) (option_map function_data f.entry)) (values_of (trees u.now.path) (scope_view s.now))) }
{
    let Some(path) = values(alloc, u.path.as_slice(), s)? else {
        return Ok(None);
    };
    match f {
        Some(f) => updated_at(alloc, f, &path, &u.value, s),
        None => Ok(None),
    }
}

/// The function f with another part at a path. Where an index isn't in a domain the function stays as it is, but the new part
/// must have a value there too.
#[cycle(evaluate)]
fn updated_at<'a>(
    alloc: Global,
    f: Function<'a>,
    path: &[Value],
    e: &Expr,
    s: &Scope<'a, 'a, 'a>,
) -> Result<Option<Function<'a>>, AllocError>
    ensures { IfOk result (λ o. option_map function_data o ≡ put_at (map data_of path.now) (λ part. val (tree e.now) (with_part part (scope_view s.now))) (Some (function_data f.entry))) }
{
    let part = new_part(alloc, f.get(), path, e, s)?;
    match part {
        Some(v) => Ok(changed(f.into_changed(alloc)?.put(path, v)?)),
        None => Ok(None),
    }
}

/// The new part at a path of f: `@` stands for the part that is there.
#[cycle(evaluate)]
fn new_part<'a>(
    alloc: Global,
    f: &Value,
    path: &[Value],
    e: &Expr,
    s: &Scope<'a, 'a, 'a>,
) -> Result<Option<Value>, AllocError>
    ensures { IfOk result (λ o. option_map data_of o ≡ option_and_then (λ part. val (tree e.now) (with_part part (scope_view s.now))) (part_on (map data_of path.now) (data_of f.now))) }
{
    let part = match part_on(f, path) {
        Some(part) => part,
        None => return Ok(None),
    };
    let inner = Scope { part, ..*s };
    owned(alloc, held(alloc, e, &inner)?)
}
