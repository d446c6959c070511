// How many nodes the indices of a left side have with the arguments of the macros around it in place.
ghost use Rattle.std.specs.Prelude.{◌≡◌, ◌+◌, [], ◌∷◌, option_map, IfOk};
ghost use Rattle.pgo_base.specs.ExprView.{tree};
ghost use Rattle.pgo_base.specs.Tree.{trees};
ghost use Rattle.pgo_effects.specs.Puts.{Layers, puts_left};
ghost use Rattle.pgo_meaning.specs.MacrosPlaced as placed;
ghost use Rattle.pgo_model.specs.Options.{on};
ghost use Rattle.pgo_put_sizes.specs.Lefts as spec;
ghost use Rattle.pgo_put_sizes.specs.Lefts.{index_nodes, name_nodes, spelled_view, spine_nodes, step_nodes, step_view, steps_nodes};
ghost use Rattle.pgo_sections.specs.Access.{name_alone as name_of};
ghost use Rattle.pgo_sizes.specs.Left.{left_after};

use crate::nodes::take_alone;
use pgo_base::expr::{Expr, Exprs};
use pgo_base::text::Text;
use pgo_rewrite::arguments::Arguments;
use pgo_syntax::assignment::{Left, Step};
use std::alloc::{AllocError, Global};

/// The one expression of a list.
fn only(list: &Exprs) -> Option<&Expr>
    ensures { option_map (λ e. tree e.now) result ≡ placed.only (trees list.now) }
{
    let items = list.as_slice();
    if items.len() == 1 {
        Some(&items[0])
    } else {
        None
    }
}

/// The index of an expression that spells a left side, and the expression that is indexed or whose field it is.
#[derive(Clone, Copy)]
pub(crate) struct SpineStep<'a> {
    pub index: Option<&'a Expr>,
    pub inner: &'a Expr,
}

/// The last step of the path that an expression spells.
fn spine_step<'a>(e: &'a Expr) -> Option<SpineStep<'a>>
    ensures { option_map step_view result ≡ spec.spine_step (tree e.entry.now) }
{
    match e {
        Expr::Index(f, list) => match only(list) {
            None => None,
            Some(i) => Some(SpineStep {
                index: Some(i),
                inner: f.get(),
            }),
        },
        Expr::Field(r, _) => Some(SpineStep {
            index: None,
            inner: r.get(),
        }),
        _ => None,
    }
}

/// The name that an expression is.
fn name_alone(e: &Expr) -> Option<&Text>
    ensures { option_map (λ x. x.now) result ≡ name_of (tree e.now) }
{
    match e {
        Expr::Name(x) => Some(x),
        _ => None,
    }
}

/// The name of the left side that an expression spells, if it spells one.
fn head_of<'a>(e: &'a Expr) -> Option<&'a Text>
    ensures { option_map (λ x. x.now) result ≡ spec.head_of (tree e.entry.now) }
{
    let mut e = e;
    while let Some(step) = spine_step(e) {
        e = step.inner;
    }
    name_alone(e)
}

/// An expression that spells a left side, and the name of that.
#[derive(Clone, Copy)]
pub(crate) struct Spelled<'a> {
    pub e: &'a Expr,
    pub name: &'a Text,
}

/// The argument that stands for a name, if it spells a left side.
fn left_for<'a>(es: &'a Arguments, x: &Text) -> Option<Spelled<'a>>
    ensures { (ls : Layers) → name_nodes (es.entry.now ∷ ls) x.now ≡ on (name_nodes ls x.now) (option_map spelled_view result) (λ s. spine_nodes ls s.0 + name_nodes ls s.1) }
{
    match es.find(x) {
        None => None,
        Some(e) => match head_of(e) {
            None => None,
            Some(name) => Some(Spelled { e, name }),
        },
    }
}

/// Takes the nodes of an index, if there is one.
fn take_index(
    alloc: Global,
    layers: &[Arguments],
    index: Option<&Expr>,
    left: u64,
) -> Result<Option<u64>, AllocError>
    ensures { IfOk result (λ o. o ≡ left_after left (index_nodes layers.now (option_map (λ i. tree i.now) index.entry))) }
{
    match index {
        None => Ok(Some(left)),
        Some(i) => take_alone(alloc, layers, i, left),
    }
}

/// Takes the nodes of all indices of an expression that spells a left side.
fn take_spine(
    alloc: Global,
    layers: &[Arguments],
    e: &Expr,
    left: u64,
) -> Result<Option<u64>, AllocError>
    ensures { IfOk result (λ o. o ≡ left_after left (spine_nodes layers.now (tree e.now))) }
{
    let mut left = left;
    let mut e = e;
    while let Some(step) = spine_step(e) {
        match take_index(alloc, layers, step.index, left)? {
            Some(rest) => left = rest,
            None => return Ok(None),
        }
        e = step.inner;
    }
    Ok(Some(left))
}

/// Takes the nodes of the indices that come in by a name.
fn take_name(
    alloc: Global,
    layers: &[Arguments],
    x: &Text,
    left: u64,
) -> Result<Option<u64>, AllocError>
    ensures { IfOk result (λ o. o ≡ left_after left (name_nodes layers.now x.now)) }
{
    let mut left = left;
    let mut x = x;
    for (i, es) in layers.iter().enumerate() {
        let Some(spelled) = left_for(es, x) else {
            continue;
        };
        match take_spine(alloc, &layers[i + 1..], spelled.e, left)? {
            Some(rest) => left = rest,
            None => return Ok(None),
        }
        x = spelled.name;
    }
    Ok(Some(left))
}

/// Takes the nodes of a step of a path.
fn take_step(
    alloc: Global,
    layers: &[Arguments],
    step: &Step,
    left: u64,
) -> Result<Option<u64>, AllocError>
    ensures { IfOk result (λ o. o ≡ left_after left (step_nodes layers.now step.now)) }
{
    match step {
        Step::Field(_) => Ok(Some(left)),
        Step::Index(e) => take_alone(alloc, layers, e.get(), left),
    }
}

/// Takes the nodes of the steps of a path.
fn take_steps(
    alloc: Global,
    layers: &[Arguments],
    path: &[Step],
    left: u64,
) -> Result<Option<u64>, AllocError>
    ensures { IfOk result (λ o. o ≡ left_after left (steps_nodes layers.now path.now)) }
{
    let mut left = left;
    for step in path {
        match take_step(alloc, layers, step, left)? {
            Some(rest) => left = rest,
            None => return Ok(None),
        }
    }
    Ok(Some(left))
}

/// Takes the nodes of the indices of a left side with these arguments in place from what is left of a limit.
///
/// None where less is left than they are. Err only where there is no memory.
pub fn take_left(
    alloc: Global,
    layers: &[Arguments],
    side: &Left,
    left: u64,
) -> Result<Option<u64>, AllocError>
    ensures { IfOk result (λ o. o ≡ left_after left (steps_nodes [] (puts_left layers.now side.now).path)) }
{
    let before = take_name(alloc, layers, &side.name.name, left)?;
    match before {
        None => Ok(None),
        Some(rest) => take_steps(alloc, layers, side.path.as_slice(), rest),
    }
}
