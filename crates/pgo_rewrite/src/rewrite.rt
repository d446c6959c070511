// The calls: an expression with others in the place of its names, and one with its mapped reads hoisted out of it.
ghost use Rattle.std.specs.Prelude.{◌≡◌, [], IfOk};
ghost use Rattle.pgo_base.specs.ExprView.{tree};
ghost use Rattle.pgo_meaning.specs.Parameters.{all_mapped};
ghost use Rattle.pgo_rewrite.specs.Rewritten.{replacement};
ghost use Rattle.pgo_rewrite.specs.Views.{hoisted_view};
ghost use Rattle.pgo_sections.specs.Access.{hoisted};
ghost use Rattle.pgo_sections.specs.Replaced.{replaced};

use crate::indexed_bindings::IndexedBindings;
use crate::reads::{Hoisted, Reads};
use crate::scopes::Scope;
use crate::substitution::{Nothing, Substitution};
use crate::walk::rewritten;
use pgo_base::expr::Expr;
use std::alloc::{AllocError, Global};

/// An expression with what stands for its names in their place.
///
/// A name that the expression binds around its place stays. Err only where there is no memory.
pub fn substitute<S: Substitution>(alloc: Global, names: &S, e: &Expr) -> Result<Expr, AllocError>
    ensures { IfOk result (λ r. tree r ≡ replaced (replacement (S.stands names.now)) [] (tree e.now)) }
{
    let scope = Scope::new();
    let bindings = IndexedBindings::none(alloc);
    let mut reads = Reads {
        list: Vec::new(alloc),
        used: 0,
    };
    rewritten(alloc, names, &bindings, &scope, e, &mut reads)
}

/// An expression with the reads of the mapped parameters hoisted out of it, where `used` places are in use.
///
/// Err only where there is no memory, or where the reads need more than 2^64 places.
pub fn hoist<'a>(
    alloc: Global,
    bindings: &IndexedBindings<'a>,
    e: &Expr,
    used: u64,
) -> Result<Hoisted<'a>, AllocError>
    ensures { IfOk result (λ h. hoisted_view h ≡ hoisted (all_mapped bindings.now) [] (tree e.now) used) }
{
    let scope = Scope::new();
    let mut reads = Reads {
        list: Vec::new(alloc),
        used,
    };
    let rest = rewritten(alloc, &Nothing, bindings, &scope, e, &mut reads)?;
    let Reads { list, used } = reads;
    Ok(Hoisted {
        reads: list,
        rest,
        used,
    })
}
