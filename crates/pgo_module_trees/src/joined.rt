// Expressions joined from the left.
ghost use Rattle.std.specs.Prelude.{◌≡◌, [], reverse, true, false, IfOk};
ghost use Rattle.pgo_base.specs.Tree.{set_of, trees, truth};
ghost use Rattle.pgo_model.specs.Module as written;

use crate::small::binary_of;
use pgo_base::expr::{Expr, Exprs, Infix, Sub};
use std::alloc::{AllocError, Global};

/// e joined with the others, of which the last stands first.
#[tactic(auto, using(crate::proofs::Reversed::reversed_more))]
fn joined(alloc: Global, o: Infix, e: Sub, others: Vec<Sub>) -> Result<Sub, AllocError>
    ensures { IfOk result (λ s. s ≡ written.joined_by o e (reverse others.items)) }
{
    let mut whole = e;
    let mut left = others;
    while let Some(next) = left.pop() {
        whole = binary_of(alloc, o, whole, next)?;
    }
    Ok(whole)
}

/// TRUE or FALSE
fn truth_of(alloc: Global, holds: bool) -> Result<Sub, AllocError>
    ensures { IfOk result (λ s. s ≡ truth holds) }
{
    Sub::new(alloc, Expr::Truth(holds))
}

/// The conjunction of these, of which the last stands first.
#[tactic(auto, using(crate::proofs::Reversed::reversed_more))]
pub fn all_of(alloc: Global, items: Vec<Sub>) -> Result<Sub, AllocError>
    ensures { IfOk result (λ s. s ≡ written.all_of (reverse items.items)) }
{
    let mut left = items;
    match left.pop() {
        Some(first) => joined(alloc, Infix::And, first, left),
        None => truth_of(alloc, true),
    }
}

/// The disjunction of these, of which the last stands first.
#[tactic(auto, using(crate::proofs::Reversed::reversed_more))]
pub fn any_of(alloc: Global, items: Vec<Sub>) -> Result<Sub, AllocError>
    ensures { IfOk result (λ s. s ≡ written.any_of (reverse items.items)) }
{
    let mut left = items;
    match left.pop() {
        Some(first) => joined(alloc, Infix::Or, first, left),
        None => truth_of(alloc, false),
    }
}

/// `{}`
fn empty_set(alloc: Global) -> Result<Sub, AllocError>
    ensures { IfOk result (λ s. s ≡ set_of (trees [])) }
{
    Sub::new(alloc, Expr::SetOf(Exprs::new(alloc)))
}

/// The union of these, of which the last stands first.
#[tactic(auto, using(crate::proofs::Reversed::reversed_more))]
pub fn union_of(alloc: Global, sets: Vec<Sub>) -> Result<Sub, AllocError>
    ensures { IfOk result (λ s. s ≡ written.union_of (reverse sets.items)) }
{
    let mut left = sets;
    match left.pop() {
        Some(first) => joined(alloc, Infix::Union, first, left),
        None => empty_set(alloc),
    }
}
