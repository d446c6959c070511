// The measure behind a statement.
ghost use Rattle.std.specs.Prelude.{◌≡◌, ℕ, suc, max, Option, Some, None, option_map, IfOk};
ghost use Rattle.pgo_expr_read.specs.Heights.{height};
ghost use Rattle.pgo_sections.specs.Nodes.{tree_nodes};
ghost use Rattle.pgo_sizes.specs.Left.{left_after};
ghost use Rattle.pgo_measure.specs.Heights.{capped};
ghost use Rattle.pgo_measure.specs.Looked as spec;

use crate::heights::{joined, one_higher};
use crate::spot::{Spot, depth_inside, height_with};
use crate::tally::{Tally, height_of, spend, spend_with};
use pgo_base::expr::Sub;
use pgo_walk::event::Move;
use std::alloc::{AllocError, Global};

/// What follows stands in a form whose other part has this height.
fn in_form(tally: Tally, height: u64, left: Option<u64>) -> Option<Tally>
    ensures { (g n : ℕ) → height ≡ capped g → left ≡ left_after tally.left n → result ≡ spec.in_form tally g n }
{
    match left {
        None => None,
        Some(left) => Some(Tally {
            left,
            height: height_with(tally.height, tally.spot, one_higher(height)),
            spot: Spot {
                before: None,
                depth: depth_inside(tally.spot),
            },
        }),
    }
}

/// What follows stands behind one item more, of this height.
fn behind_item(tally: Tally, height: u64, left: Option<u64>) -> Option<Tally>
    ensures { (g n : ℕ) → height ≡ capped g → left ≡ left_after tally.left n → result ≡ spec.behind_item tally g n }
{
    match left {
        None => None,
        Some(left) => Some(Tally {
            left,
            height: tally.height,
            spot: Spot {
                before: Some(joined(tally.spot.before, height)),
                depth: tally.spot.depth,
            },
        }),
    }
}

/// Behind a `skip`.
fn behind_skip(tally: Tally) -> Option<Tally>
    ensures { result ≡ option_map (λ l. record tally { left = l }) (left_after tally.left 1) }
{
    match spend(tally.left, 1) {
        None => None,
        Some(left) => Some(Tally {
            left,
            height: tally.height,
            spot: tally.spot,
        }),
    }
}

/// Behind `with (x = e)`.
fn behind_with(alloc: Global, tally: Tally, e: &Sub) -> Result<Option<Tally>, AllocError>
    ensures { IfOk result (λ o. o ≡ spec.in_form tally (suc (height e.now)) (suc (tree_nodes e.now))) }
{
    let left = spend_with(alloc, tally.left, e)?;
    let height = height_of(alloc, e)?;
    Ok(in_form(tally, one_higher(height), left))
}

/// Behind an expression that stands in a form beside what follows.
pub fn beside(alloc: Global, tally: Tally, e: &Sub) -> Result<Option<Tally>, AllocError>
    ensures { IfOk result (λ o. o ≡ spec.in_form tally (height e.now) (suc (tree_nodes e.now))) }
{
    let left = spend_with(alloc, tally.left, e)?;
    let height = height_of(alloc, e)?;
    Ok(in_form(tally, height, left))
}

/// Behind `await e`.
fn behind_await(alloc: Global, tally: Tally, e: &Sub) -> Result<Option<Tally>, AllocError>
    ensures { IfOk result (λ o. o ≡ spec.behind_item tally (height e.now) (suc (tree_nodes e.now))) }
{
    let left = spend_with(alloc, tally.left, e)?;
    let height = height_of(alloc, e)?;
    Ok(behind_item(tally, height, left))
}

/// Behind `assert e`.
fn behind_assert(alloc: Global, tally: Tally, e: &Sub) -> Result<Option<Tally>, AllocError>
    ensures { IfOk result (λ o. o ≡ spec.behind_item tally (suc (max (height e.now) 1)) (suc (tree_nodes e.now))) }
{
    let left = spend_with(alloc, tally.left, e)?;
    let height = height_of(alloc, e)?;
    Ok(behind_item(tally, one_higher(height.max(1)), left))
}

/// Behind `print e`.
fn behind_print(alloc: Global, tally: Tally, e: &Sub) -> Result<Option<Tally>, AllocError>
    ensures { IfOk result (λ o. o ≡ spec.behind_item tally (suc (height e.now)) (suc (tree_nodes e.now))) }
{
    let left = spend_with(alloc, tally.left, e)?;
    let height = height_of(alloc, e)?;
    Ok(behind_item(tally, one_higher(height), left))
}

/// The measure behind a statement; nothing where its nodes pass the limit.
pub fn behind_move(alloc: Global, tally: Tally, m: &Move) -> Result<Option<Tally>, AllocError>
    ensures { IfOk result (λ o. o ≡ spec.looked tally m.now) }
{
    match m {
        Move::With(_, e) => behind_with(alloc, tally, e),
        Move::In(_, e) => beside(alloc, tally, e),
        Move::Skip => Ok(behind_skip(tally)),
        Move::Await(e) => behind_await(alloc, tally, e),
        Move::Assert(e) => behind_assert(alloc, tally, e),
        Move::Print(e) => behind_print(alloc, tally, e),
    }
}
