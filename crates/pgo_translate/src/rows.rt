// The items of a row of statements.
ghost use Rattle.std.specs.Prelude.{◌≡◌, ◌∷◌, ◌++◌, [], reverse, IfOk};
ghost use Rattle.pgo_base.specs.Tree.{Tree};
ghost use Rattle.pgo_model.specs.Module as written;
ghost use Rattle.pgo_translate.specs.Items.{some_in};
ghost use Rattle.pgo_translate.specs.Rows as spec;

use crate::trees::{assert_of, copy_of, only_of, print_of, some_of};
use pgo_base::expr::Sub;
use pgo_base::results::both;
use pgo_base::text::Text;
use pgo_module_trees::joined::all_of;
use pgo_pluscal::part::Step;
use std::alloc::{AllocError, Global};

/// One item.
pub fn one(alloc: Global, e: Sub) -> Result<Vec<Sub>, AllocError>
    ensures { IfOk result (λ v. reverse v.items ≡ e ∷ []) }
{
    let mut list = Vec::new(alloc);
    list.push(e)?;
    Ok(list)
}

/// A choice of a value of r, and these items inside it; of these the last stands first.
fn chosen(
    alloc: Global,
    x: &Text,
    r: Result<Sub, AllocError>,
    rest: Vec<Sub>,
) -> Result<Vec<Sub>, AllocError>
    ensures { (t : Tree) → IfOk r (λ s. s ≡ t) → IfOk result (λ v. reverse v.items ≡ some_in x.now t (written.all_of (reverse rest.items)) ∷ []) }
{
    let (r, p) = both(r, all_of(alloc, rest))?;
    let e = some_of(alloc, x.as_bytes(), r, p)?;
    one(alloc, e)
}

/// An item before these, of which the last stands first.
#[tactic(auto, using(crate::proofs::RowLaws::reversed_more))]
fn before(e: Result<Sub, AllocError>, rest: Vec<Sub>) -> Result<Vec<Sub>, AllocError>
    ensures { (t : Tree) → IfOk e (λ s. s ≡ t) → IfOk result (λ v. reverse v.items ≡ t ∷ reverse rest.items) }
{
    let mut items = rest;
    items.push(e?)?;
    Ok(items)
}

/// The items of a statement and of what follows it, of which the last stands first.
fn step_items(alloc: Global, step: &Step, rest: Vec<Sub>) -> Result<Vec<Sub>, AllocError>
    ensures { IfOk result (λ v. reverse v.items ≡ spec.step_items step.now (reverse rest.items)) }
{
    match step {
        Step::With(x, e) => chosen(alloc, x, only_of(alloc, e), rest),
        Step::In(x, e) => chosen(alloc, x, copy_of(alloc, e), rest),
        Step::Skip => Ok(rest),
        Step::Await(e) => before(copy_of(alloc, e), rest),
        Step::Assert(e) => before(assert_of(alloc, e), rest),
        Step::Print(e) => before(print_of(alloc, e), rest),
    }
}

/// The items of a row of statements and of what follows it, of which the last stands first.
#[tactic(auto, using(crate::proofs::RowLaws::row_more))]
pub fn row_items(alloc: Global, row: &[Step], rest: Vec<Sub>) -> Result<Vec<Sub>, AllocError>
    ensures { IfOk result (λ v. reverse v.items ≡ spec.row_items row.now (reverse rest.items)) }
{
    let mut left = row;
    let mut items = rest;
    while let Some((step, steps)) = left.split_last() {
        items = step_items(alloc, step, items)?;
        left = steps;
    }
    Ok(items)
}
