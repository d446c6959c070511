// The index of `f[a, b]`, which is a tuple with a node of its own.
ghost use Rattle.std.specs.Prelude.{◌≡◌};
ghost use Rattle.pgo_base.specs.ExprView.{tree};
ghost use Rattle.pgo_base.specs.Tree.{trees};
ghost use Rattle.pgo_sizes.specs.Tuples as spec;

use pgo_base::expr::{Expr, Exprs};

/// Whether these are other than one.
fn are_several(list: &Exprs) -> bool
    ensures { result ≡ spec.are_several (trees list.now) }
{
    list.as_slice().len() != 1
}

/// Whether an expression has an index that is a tuple.
pub(crate) fn has_tuple(e: &Expr) -> bool
    ensures { result ≡ spec.has_tuple (tree e.now) }
{
    match e {
        Expr::Index(_, list) => are_several(list),
        _ => false,
    }
}

/// How many nodes an expression has besides those of its operands: two where its index is a tuple, and else one.
pub fn own_nodes(e: &Expr) -> u64
    ensures { result ≡ spec.own_nodes (tree e.now) }
{
    if has_tuple(e) { 2 } else { 1 }
}
