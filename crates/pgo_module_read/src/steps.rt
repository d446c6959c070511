// The processes of a module, by the body of Next and that of ProcSet.
ghost use Rattle.std.specs.Prelude.{◌≡◌, [], option_map, reverse};
ghost use Rattle.pgo_base.specs.ExprView.{tree};
ghost use Rattle.pgo_expr_read.specs.Steps.{Makes};
ghost use Rattle.pgo_module_read.specs.Building as spec;

use pgo_base::expr::{Expr, Infix, Sub};
use pgo_base::items::Items;
use pgo_base::text::Text;
use pgo_lexer::errors::TextStop;
use std::alloc::Global;

/// A process's name, and the set of its identifiers.
#[derive(Drop)]
pub struct Step {
    pub name: Text,
    pub ids: Sub,
}

fn or_of<'a>(o: Infix, a: &'a Sub, b: &'a Sub) -> Option<(&'a Sub, &'a Sub)>
    ensures { option_map (λ p. (p.0.now, p.1.now)) result ≡ spec.or_of o a.now b.now }
{
    match o {
        Infix::Or => Some((a, b)),
        _ => None,
    }
}

/// The sides of a `\/`.
fn or_parts(e: &Expr) -> Option<(&Sub, &Sub)>
    ensures { option_map (λ p. (p.0.now, p.1.now)) result ≡ spec.or_parts (tree e.now) }
{
    match e {
        Expr::Infix(o, a, b) => or_of(*o, a, b),
        _ => None,
    }
}

fn union_of<'a>(o: Infix, a: &'a Sub, b: &'a Sub) -> Option<(&'a Sub, &'a Sub)>
    ensures { option_map (λ p. (p.0.now, p.1.now)) result ≡ spec.union_of o a.now b.now }
{
    match o {
        Infix::Union => Some((a, b)),
        _ => None,
    }
}

/// The sides of a `\cup`.
pub fn union_parts(e: &Expr) -> Option<(&Sub, &Sub)>
    ensures { option_map (λ p. (p.0.now, p.1.now)) result ≡ spec.union_parts (tree e.now) }
{
    match e {
        Expr::Infix(o, a, b) => union_of(*o, a, b),
        _ => None,
    }
}

fn called(e: &Expr) -> Option<&Text>
    ensures { option_map (λ x. x.now) result ≡ spec.called (tree e.now) }
{
    match e {
        Expr::Call(x, _) => Some(x),
        _ => None,
    }
}

/// The name that a quantified expression calls.
fn process_called(e: &Expr) -> Option<&Text>
    ensures { option_map (λ x. x.now) result ≡ spec.process_called (tree e.now) }
{
    match e {
        Expr::Quantified(_, _, body) => called(body.get()),
        _ => None,
    }
}

/// The process of a step, with this set.
fn step_with(alloc: Global, e: &Sub, ids: &Sub) -> Result<Step, TextStop>
    ensures { Makes (spec.step e.now ids.now) result }
{
    match process_called(e.get()) {
        None => Err(TextStop::at(0)),
        Some(x) => {
            let name = x.copy(alloc)?;
            let ids = ids.copy(alloc)?;
            Ok(Step { name, ids })
        }
    }
}

/// The items from the last to the first.
fn reversed(items: Items<Step>) -> Items<Step>
    ensures { result ≡ reverse items }
{
    let mut list = items.into_vec();
    list.reverse();
    Items::from_vec(list)
}

/// The processes of a disjunction of steps, with their sets, which are the sides of a union.
#[tactic(auto, using(crate::proofs::Turns::step_or, crate::proofs::Turns::step_no_union, crate::proofs::Turns::step_none, crate::proofs::Turns::step_last, crate::proofs::Turns::last_none))]
fn steps_before(alloc: Global, next: &Sub, sets: &Sub) -> Result<Items<Step>, TextStop>
    ensures { Makes (spec.steps_before next.now sets.now []) result }
{
    let mut all = Items::new(alloc);
    let mut next = next;
    let mut sets = sets;
    while let Some((before, last)) = or_parts(next.get()) {
        match union_parts(sets.get()) {
            None => return Err(TextStop::at(0)),
            Some((others, ids)) => {
                all.push(step_with(alloc, last, ids)?)?;
                next = before;
                sets = others;
            }
        }
    }
    all.push(step_with(alloc, next, sets)?)?;
    Ok(reversed(all))
}

/// The processes of the body of Next, which has one more alternative behind them, with their sets by that of ProcSet.
pub fn steps_of(alloc: Global, next: &Sub, sets: &Sub) -> Result<Items<Step>, TextStop>
    ensures { Makes (spec.steps_of next.now sets.now) result }
{
    match or_parts(next.get()) {
        None => Err(TextStop::at(0)),
        Some((steps, _)) => steps_before(alloc, steps, sets),
    }
}
