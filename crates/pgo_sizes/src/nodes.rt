// How many expressions stand in an expression. Each call goes down to the height of the tree; operands are walked by a loop.
ghost use Rattle.std.specs.Prelude.{◌≡◌, IfOk};
ghost use Rattle.pgo_base.specs.ExprView.{tree};
ghost use Rattle.pgo_operands.specs.Operands.{lent_trees};
ghost use Rattle.pgo_sections.specs.Nodes.{tree_nodes};
ghost use Rattle.pgo_sizes.specs.Left.{left_after};
ghost use Rattle.pgo_sizes.specs.Sums.{nodes_in};

use crate::tuples::own_nodes;
use pgo_base::expr::Expr;
use pgo_operands::operands::operands;
use std::alloc::{AllocError, Global};

/// Takes so many from what is left. None where less is left.
pub fn take(left: u64, count: u64) -> Option<u64>
    ensures { result ≡ left_after left count }
{
    left.checked_sub(count)
}

/// Takes the nodes of an expression from what is left of a limit: one for itself, and one for each of the expressions in it; the index of
/// `f[a, b]` has one for its tuple.
///
/// None where less is left than they are. Err only where there is no memory. It recurses to the height of the expression.
#[cycle(nodes)]
pub fn take_nodes(alloc: Global, e: &Expr, left: u64) -> Result<Option<u64>, AllocError>
    ensures { IfOk result (λ o. o ≡ left_after left (tree_nodes (tree e.now))) }
{
    match take(left, own_nodes(e)) {
        None => Ok(None),
        Some(rest) => {
            let parts = operands(alloc, e)?;
            take_each(alloc, parts.as_slice(), rest)
        }
    }
}

/// Takes the nodes of each of these expressions from what is left of a limit.
#[cycle(nodes)]
fn take_each(alloc: Global, list: &[&Expr], left: u64) -> Result<Option<u64>, AllocError>
    ensures { IfOk result (λ o. o ≡ left_after left (nodes_in (lent_trees list.now))) }
{
    let mut left = left;
    for one in list {
        match take_nodes(alloc, one, left)? {
            Some(rest) => left = rest,
            None => return Ok(None),
        }
    }
    Ok(Some(left))
}
