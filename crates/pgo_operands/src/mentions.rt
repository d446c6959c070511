// Whether a name stands in an expression.
ghost use Rattle.std.specs.Prelude.{◌≡◌, IfOk};
ghost use Rattle.std.specs.List.{list_any};
ghost use Rattle.pgo_base.specs.ExprView.{tree};
ghost use Rattle.pgo_operands.specs.Mentions as spec;
ghost use Rattle.pgo_operands.specs.Operands.{lent_trees};

use crate::operands::operands;
use pgo_base::expr::Expr;
use std::alloc::{AllocError, Global};

/// Whether an expression is this name.
fn is_name(name: &[u8], e: &Expr) -> bool
    ensures { result ≡ spec.is_name name.now (tree e.now) }
{
    match e {
        Expr::Name(x) => name.cmp(x.as_bytes()).is_eq(),
        _ => false,
    }
}

/// Whether a name stands in an expression.
///
/// It stands there where the expression, or a part of it at any depth, is the name alone. A name that is bound, primed,
/// applied, a field or named in UNCHANGED isn't one; a binder hides none. Err only where there is no memory. It recurses
/// to the height of the expression.
#[cycle(mentions)]
pub fn mentions(alloc: Global, name: &[u8], e: &Expr) -> Result<bool, AllocError>
    ensures { IfOk result (λ b. b ≡ spec.mentions name.now (tree e.now)) }
{
    if is_name(name, e) {
        return Ok(true);
    }
    let parts = operands(alloc, e)?;
    any_mentions(alloc, name, parts.as_slice())
}

/// Whether a name stands in one of these expressions.
///
/// Err only where there is no memory.
#[cycle(mentions)]
pub fn any_mentions(alloc: Global, name: &[u8], list: &[&Expr]) -> Result<bool, AllocError>
    ensures { IfOk result (λ b. b ≡ list_any (spec.mentions name.now) (lent_trees list.now)) }
{
    for one in list {
        if mentions(alloc, name, one)? {
            return Ok(true);
        }
    }
    Ok(false)
}
