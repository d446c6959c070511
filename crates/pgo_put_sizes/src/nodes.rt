// How many nodes an expression has with the arguments of the macros around it in place. No expression is made.
ghost use Rattle.std.specs.Prelude.{◌≡◌, IfOk, take as first_of};
ghost use Rattle.pgo_base.specs.ExprView.{tree};
ghost use Rattle.pgo_effects.specs.Puts.{puts_tree};
ghost use Rattle.pgo_operands.specs.Operands.{lent_trees};
ghost use Rattle.pgo_put_sizes.specs.Levels.{operands_under, parts_under};
ghost use Rattle.pgo_put_sizes.specs.Under.{puts_under};
ghost use Rattle.pgo_rewrite.specs.Scoped.{under_at};
ghost use Rattle.pgo_rewrite.specs.Scopes.{in_scope};
ghost use Rattle.pgo_sections.specs.Bound.{below};
ghost use Rattle.pgo_sections.specs.Nodes.{tree_nodes};
ghost use Rattle.pgo_sizes.specs.Left.{left_after};
ghost use Rattle.pgo_sizes.specs.Sums.{nodes_in};

use crate::layers::resolve;
use pgo_base::expr::Expr;
use pgo_operands::operands::operands;
use pgo_rewrite::arguments::Arguments;
use pgo_rewrite::bound_names::{count_at, names_by};
use pgo_rewrite::indexed_names::IndexedNames;
use pgo_rewrite::scopes::Scope;
use pgo_sizes::nodes::take;
use pgo_sizes::tuples::own_nodes;
use std::alloc::{AllocError, Global};

/// Takes the nodes of an expression of the text with these arguments in place from what is left of a limit.
///
/// None where less is left than they are. Err only where there is no memory.
pub fn take_alone(
    alloc: Global,
    layers: &[Arguments],
    e: &Expr,
    left: u64,
) -> Result<Option<u64>, AllocError>
    ensures { IfOk result (λ o. o ≡ left_after left (tree_nodes (puts_tree layers.now (tree e.now)))) }
{
    let scope = Scope::new();
    take_put_nodes(alloc, layers, &scope, e, left)
}

/// Takes the nodes of an expression with these arguments in place from what is left of a limit: the innermost macro's are put in first, and
/// a name that is bound around stays.
///
/// None where less is left than they are. Err only where there is no memory. It takes time about `left`, whatever they are. It recurses to
/// the height of the expression with these arguments in place, and to no more than `left`, since each level takes a node.
#[cycle(nodes)]
pub fn take_put_nodes(
    alloc: Global,
    layers: &[Arguments],
    scope: &Scope<'_>,
    e: &Expr,
    left: u64,
) -> Result<Option<u64>, AllocError>
    ensures { IfOk result (λ o. o ≡ left_after left (tree_nodes (puts_under layers.now (in_scope scope.now) (tree e.now)))) }
{
    let level = resolve(layers, scope, e);
    match take(left, own_nodes(level.e)) {
        None => Ok(None),
        Some(rest) => take_operands(alloc, level.layers, scope, level.e, rest),
    }
}

/// Takes the nodes of the operands of an expression.
#[cycle(nodes)]
fn take_operands(
    alloc: Global,
    layers: &[Arguments],
    scope: &Scope<'_>,
    e: &Expr,
    left: u64,
) -> Result<Option<u64>, AllocError>
    ensures { IfOk result (λ o. o ≡ left_after left (nodes_in (operands_under layers.now (in_scope scope.now) (tree e.now)))) }
{
    let bound = names_by(alloc, e)?;
    let list = operands(alloc, e)?;
    take_each(alloc, layers, scope, e, &bound, list.as_slice(), left)
}

/// Takes the nodes of the operands `list` of an expression `e` that binds the names `bound`.
#[cycle(nodes)]
fn take_each(
    alloc: Global,
    layers: &[Arguments],
    scope: &Scope<'_>,
    e: &Expr,
    bound: &IndexedNames,
    list: &[&Expr],
    left: u64,
) -> Result<Option<u64>, AllocError>
    ensures { IfOk result (λ o. o ≡ left_after left (nodes_in (parts_under layers.now (under_at (tree e.now) bound.now (in_scope scope.now)) 0 (lent_trees list.now)))) }
{
    let mut left = left;
    for (i, one) in list.iter().enumerate() {
        let count = count_at(e, bound.as_slice().len(), i);
        match take_within(alloc, layers, scope, bound, count, one, left)? {
            Some(rest) => left = rest,
            None => return Ok(None),
        }
    }
    Ok(Some(left))
}

/// Takes the nodes of an expression around which the first `count` of these names are bound too, or all where there are fewer. Where there
/// is none the scope stays as it is, so that a look-up goes through the groups that have names.
#[cycle(nodes)]
fn take_within(
    alloc: Global,
    layers: &[Arguments],
    scope: &Scope<'_>,
    bound: &IndexedNames,
    count: usize,
    e: &Expr,
    left: u64,
) -> Result<Option<u64>, AllocError>
    ensures { IfOk result (λ o. o ≡ left_after left (tree_nodes (puts_under layers.now (below (first_of count bound.now) (in_scope scope.now)) (tree e.now)))) }
{
    if count == 0 {
        return take_put_nodes(alloc, layers, scope, e, left);
    }
    let inner = Scope::within(&*scope, &*bound, count);
    take_put_nodes(alloc, layers, &inner, e, left)
}
