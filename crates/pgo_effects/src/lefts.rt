// Left sides with the arguments of macros in place.
ghost use Rattle.std.specs.Prelude.{◌≡◌, ◌∷◌, ◌++◌, None, map, option_map, IfOk};
ghost use Rattle.pgo_base.specs.ExprView.{tree};
ghost use Rattle.pgo_base.specs.Lookup.{find};
ghost use Rattle.pgo_base.specs.Tree.{name, trees};
ghost use Rattle.pgo_effects.specs.Around.{around_view};
ghost use Rattle.pgo_effects.specs.Puts.{puts_left};
ghost use Rattle.pgo_meaning.specs.MacrosPlaced as spec;
ghost use Rattle.pgo_model.specs.Options.{on};

use crate::around::Around;
use pgo_base::expr::{Expr, Exprs, Sub};
use pgo_base::items::{Copied, Items};
use pgo_base::text::Text;
use pgo_rewrite::arguments::{Arguments, put};
use pgo_rewrite::substitution::Substitution;
use pgo_syntax::assignment::{Left, Step};
use pgo_syntax::name::PlacedName;
use std::alloc::{AllocError, Global};

/// A step of a path with the arguments in place.
fn put_step(alloc: Global, es: &Arguments, step: &Step) -> Result<Step, AllocError>
    ensures { IfOk result (λ s. s ≡ spec.put_step es.now step.now) }
{
    match step {
        Step::Index(e) => Ok(Step::Index(Sub::new(alloc, put(alloc, es, e.get())?)?)),
        Step::Field(f) => Ok(Step::Field(f.copy(alloc)?)),
    }
}

/// Adds the steps of a path with the arguments in place.
fn add_put_steps(
    alloc: Global,
    es: &Arguments,
    path: &[Step],
    out: &mut Vec<Step>,
) -> Result<(), AllocError>
    ensures { IfOk result (λ _. out.new.items ≡ out.old.items ++ map (spec.put_step es.now) path.now) }
{
    for step in path {
        out.push(put_step(alloc, es, step)?)?;
    }
    Ok(())
}

/// The left side with a step more.
fn extended(left: Option<Left>, step: Step) -> Result<Option<Left>, AllocError>
    ensures { IfOk result (λ l. l ≡ option_map (spec.with_step step) left) }
{
    match left {
        None => Ok(None),
        Some(left) => {
            let mut path = left.path;
            path.push(step)?;
            Ok(Some(Left {
                name: left.name,
                path,
            }))
        }
    }
}

/// The first of a list, where nothing is behind it.
fn alone<'a>(e: &'a Expr, rest: &[Expr]) -> Option<&'a Expr>
    ensures { option_map (λ e. tree e.now) result ≡ spec.only (trees (tree e.entry.now ∷ map tree rest.now)) }
{
    match rest.split_first() {
        None => Some(e),
        Some(_) => None,
    }
}

/// The one expression of a list.
fn only(list: &Exprs) -> Option<&Expr>
    ensures { option_map (λ e. tree e.now) result ≡ spec.only (trees list.now) }
{
    match list.as_slice().split_first() {
        None => None,
        Some((e, rest)) => alone(e, rest),
    }
}

/// The left side that a name spells.
fn left_of_name(alloc: Global, x: &Text) -> Result<Option<Left>, AllocError>
    ensures { IfOk result (λ l. l ≡ spec.left_of (name x.now)) }
{
    Ok(Some(Left {
        name: PlacedName {
            name: x.copy(alloc)?,
            place: 0,
        },
        path: Items::new(alloc),
    }))
}

/// The left side that an expression spells, if it spells one. It recurses to the height of the expression.
fn left_of(alloc: Global, e: &Expr) -> Result<Option<Left>, AllocError>
    ensures { IfOk result (λ l. l ≡ spec.left_of (tree e.now)) }
{
    match e {
        Expr::Name(x) => left_of_name(alloc, x),
        Expr::Index(f, list) => match only(list) {
            None => Ok(None),
            Some(i) => {
                let index = Sub::new(alloc, i.copy(alloc)?)?;
                extended(left_of(alloc, f.get())?, Step::Index(index))
            }
        },
        Expr::Field(r, x) => {
            let field = x.copy(alloc)?;
            extended(left_of(alloc, r.get())?, Step::Field(field))
        }
        _ => Ok(None),
    }
}

/// The left side that stands for a name.
fn left_for(alloc: Global, es: &Arguments, x: &Text) -> Result<Option<Left>, AllocError>
    ensures { IfOk result (λ l. l ≡ on None (find x.now es.now) spec.left_of) }
{
    let found = es.tree_for(alloc, x)?;
    match found {
        None => Ok(None),
        Some(e) => {
            let e = Sub::new(alloc, e)?;
            left_of(alloc, e.get())
        }
    }
}

/// A left side with the arguments in place.
fn put_left(alloc: Global, es: &Arguments, left: Left) -> Result<Left, AllocError>
    ensures { IfOk result (λ l. l ≡ spec.put_left es.now left) }
{
    let found = left_for(alloc, es, &left.name.name)?;
    match found {
        None => {
            let mut path = Vec::new(alloc);
            add_put_steps(alloc, es, left.path.as_slice(), &mut path)?;
            Ok(Left {
                name: left.name,
                path: Items::from_vec(path),
            })
        }
        Some(m) => {
            let mut path = m.path.into_vec();
            add_put_steps(alloc, es, left.path.as_slice(), &mut path)?;
            Ok(Left {
                name: m.name,
                path: Items::from_vec(path),
            })
        }
    }
}

/// A left side of the text with the arguments of the macros around it in place.
pub(crate) fn left_under(
    alloc: Global,
    around: &Around<'_>,
    left: &Left,
) -> Result<Left, AllocError>
    ensures { IfOk result (λ l. l ≡ puts_left (around_view around.now).layers left.now) }
{
    let layers: &[Arguments] = &around.layers;
    let mut done = left.copy(alloc)?;
    for es in layers {
        done = put_left(alloc, es, done)?;
    }
    Ok(done)
}
