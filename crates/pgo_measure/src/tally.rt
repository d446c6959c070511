// How many nodes are left, and how high all is, behind a statement.
ghost use Rattle.std.specs.Prelude.{◌≡◌, suc, Option, Some, None, IfOk};
ghost use Rattle.pgo_expr_read.specs.Heights.{height};
ghost use Rattle.pgo_sections.specs.Nodes.{tree_nodes};
ghost use Rattle.pgo_sizes.specs.Left.{left_after};
ghost use Rattle.pgo_measure.specs.Heights.{capped};

use crate::heights::MOST_HEIGHT;
use crate::spot::Spot;
use pgo_base::expr::Sub;
use pgo_sizes::heights::height_up_to;
use pgo_sizes::nodes::take_nodes;
use std::alloc::{AllocError, Global};

/// What is left of the limit on nodes, how high all is so far, and where what comes next stands.
#[derive(Clone, Copy)]
pub struct Tally {
    pub left: u64,
    pub height: u64,
    pub spot: Spot,
}

/// What is left behind so many nodes, if there are so many.
pub fn spend(left: u64, n: u64) -> Option<u64>
    ensures { result ≡ left_after left n }
{
    if n <= left { Some(left - n) } else { None }
}

/// What is left behind a statement's own node and an expression's.
pub fn spend_with(alloc: Global, left: u64, e: &Sub) -> Result<Option<u64>, AllocError>
    ensures { IfOk result (λ o. o ≡ left_after left (suc (tree_nodes e.now))) }
{
    match spend(left, 1) {
        None => Ok(None),
        Some(behind) => take_nodes(alloc, e.get(), behind),
    }
}

/// The height of an expression, up to the most that is told apart.
pub fn height_of(alloc: Global, e: &Sub) -> Result<u64, AllocError>
    ensures { IfOk result (λ h. h ≡ capped (height e.now)) }
{
    height_up_to(alloc, e.get(), MOST_HEIGHT)
}
