// Quantifiers and functions of binders: what is made of an expression at each choice of members.
ghost use Rattle.std.specs.Prelude.{◌≡◌, map, option_map, IfOk};
ghost use Rattle.pgo_base.specs.ExprView.{tree, bound_tree};
ghost use Rattle.pgo_base.specs.Tree.{quantified, fun_of, bound};
ghost use Rattle.pgo_base.specs.View.{data_of};
ghost use Rattle.pgo_model.specs.Val.{val, ranges, with_names, name_values, names_over};
ghost use Rattle.pgo_eval.specs.Choices.{over_bound, AreAt, chosen};
ghost use Rattle.pgo_eval.specs.PlacesView.{ArePlacesOf};
ghost use Rattle.pgo_eval.specs.ScopeView.{scope_view};

use crate::answers::from_truth;
use crate::choice::{advance, are_few, start};
use crate::evaluate::held;
use crate::held::owned;
use crate::members::{add_binder, keyed, truth_in};
use crate::places::Places;
use crate::quantifiers::{is_decided, joined, over_none};
use crate::scope::Scope;
use pgo_base::bindings::{Bindings, BoundName};
use pgo_base::expr::{Expr, Names, Quantifier};
use pgo_base::value::Value;
use pgo_sets::answers::value_or_none;
use pgo_sets::build::function_of;
use std::alloc::{AllocError, Global};

/// Each bound name with its set. All sets are evaluated outside the names.
#[cycle(evaluate)]
fn bound_names<'a>(
    alloc: Global,
    binders: &[(Names, Expr)],
    s: &Scope<'a, 'a, 'a>,
) -> Result<Option<Vec<BoundName>>, AllocError>
    ensures { IfOk result (λ o. option_map (λ bs. over_bound bs.items) o ≡ ranges (bound (map bound_tree binders.now)) (scope_view s.now)) }
{
    let mut all = Vec::new(alloc);
    for b in binders {
        let set = held(alloc, &b.1, s)?;
        if !add_binder(alloc, &mut all, b.0.as_slice(), set)? {
            return Ok(None);
        }
    }
    Ok(Some(all))
}

/// The value of an expression at a choice of members for these names.
#[cycle(evaluate)]
fn value_bound<'a>(
    alloc: Global,
    names: &[BoundName],
    places: &Places,
    e: &Expr,
    s: &Scope<'a, 'a, 'a>,
) -> Result<Option<Value>, AllocError>
    requires { AreAt names.now × ArePlacesOf names.now places.now }
    ensures { IfOk result (λ o. option_map data_of o ≡ val (tree e.now) (with_names (name_values (names_over (over_bound names.now)) (chosen names.now) s.now.names.now) (scope_view s.now))) }
{
    let all = Bindings::with_bound(&*names, places.lent(), &*s.names);
    let inner = Scope { names: &all, ..*s };
    owned(alloc, held(alloc, e, &inner)?)
}

/// `\E` and `\A`. It stops at the first choice that decides.
#[cycle(evaluate)]
pub fn quantified<'a>(
    alloc: Global,
    q: Quantifier,
    binders: &[(Names, Expr)],
    p: &Expr,
    s: &Scope<'a, 'a, 'a>,
) -> Result<Option<Value>, AllocError>
    ensures { IfOk result (λ o. option_map data_of o ≡ val (quantified q (bound (map bound_tree binders.now)) (tree p.now)) (scope_view s.now)) }
{
    let Some(names) = bound_names(alloc, binders, s)? else {
        return Ok(None);
    };
    let places = Places::of(alloc, names.as_slice())?;
    let mut names = names;
    let mut found = over_none(q);
    let mut more = start(&mut names);
    while more {
        found = joined(
            q,
            found,
            truth_in(value_bound(alloc, &names, &places, p, s)?),
        );
        more = advance(&mut names);
        if is_decided(q, found) {
            return Ok(from_truth(found));
        }
    }
    Ok(from_truth(found))
}

/// `[x \in r, .. |-> e]`.
#[cycle(evaluate)]
pub fn function_value<'a>(
    alloc: Global,
    binders: &[(Names, Expr)],
    e: &Expr,
    s: &Scope<'a, 'a, 'a>,
) -> Result<Option<Value>, AllocError>
    ensures { IfOk result (λ o. option_map data_of o ≡ val (fun_of (bound (map bound_tree binders.now)) (tree e.now)) (scope_view s.now)) }
{
    let Some(names) = bound_names(alloc, binders, s)? else {
        return Ok(None);
    };
    let places = Places::of(alloc, names.as_slice())?;
    let mut names = names;
    if !are_few(&names) {
        return Ok(None);
    }
    let mut pairs = Vec::new(alloc);
    let mut more = start(&mut names);
    while more {
        let v = value_bound(alloc, &names, &places, e, s)?;
        let pair = keyed(alloc, &names, v)?;
        more = advance(&mut names);
        match pair {
            Some(pair) => pairs.push(pair)?,
            None => return Ok(None),
        }
    }
    value_or_none(function_of(pairs))
}
