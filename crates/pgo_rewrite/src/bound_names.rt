// The names that an expression binds, and how many of them are bound around each of its operands.
ghost use Rattle.std.specs.Prelude.{◌≡◌, [], ◌∷◌, ◌++◌, IfOk};
ghost use Rattle.pgo_base.specs.ExprView.{tree};
ghost use Rattle.pgo_base.specs.Tree.{named, bound};
ghost use Rattle.pgo_rewrite.specs.Scoped as spec;
ghost use Rattle.pgo_sections.specs.Bound.{names_of, names_bound};

use crate::indexed_names::IndexedNames;
use pgo_base::expr::{Binders, Expr, Named};
use pgo_base::text::Text;
use std::alloc::{AllocError, Global};

/// Adds names.
fn add_all(alloc: Global, all: &mut IndexedNames, names: &[Text]) -> Result<(), AllocError>
    ensures { IfOk result (λ _. all.new ≡ all.old ++ names.now) }
{
    for name in names {
        all.push(alloc, name.copy(alloc)?)?;
    }
    Ok(())
}

/// The names of a LET.
fn let_names(alloc: Global, list: &Named) -> Result<IndexedNames, AllocError>
    ensures { IfOk result (λ v. v ≡ names_of (named list.now)) }
{
    let mut all = IndexedNames::new(alloc);
    for item in list.as_slice() {
        all.push(alloc, item.0.copy(alloc)?)?;
    }
    Ok(all)
}

/// The names of binders.
fn binder_names(alloc: Global, list: &Binders) -> Result<IndexedNames, AllocError>
    ensures { IfOk result (λ v. v ≡ names_bound (bound list.now)) }
{
    let mut all = IndexedNames::new(alloc);
    for item in list.as_slice() {
        add_all(alloc, &mut all, item.0.as_slice())?;
    }
    Ok(all)
}

/// One name.
fn one_name(alloc: Global, name: &Text) -> Result<IndexedNames, AllocError>
    ensures { IfOk result (λ v. v ≡ name.now ∷ []) }
{
    let mut all = IndexedNames::new(alloc);
    all.push(alloc, name.copy(alloc)?)?;
    Ok(all)
}

/// The names that an expression binds for its operands, in the order of the text.
///
/// A form that binds none gives none. Err only where there is no memory.
pub fn names_by(alloc: Global, e: &Expr) -> Result<IndexedNames, AllocError>
    ensures { IfOk result (λ v. v ≡ spec.names_by (tree e.now)) }
{
    match e {
        Expr::Let(list, _) => let_names(alloc, list),
        Expr::Quantified(_, list, _) => binder_names(alloc, list),
        Expr::Choose(x, _, _) => one_name(alloc, x),
        Expr::Filter(x, _, _) => one_name(alloc, x),
        Expr::Image(_, x, _) => one_name(alloc, x),
        Expr::FunOf(list, _) => binder_names(alloc, list),
        _ => Ok(IndexedNames::new(alloc)),
    }
}

/// No name around the sets of binders, and all n around what stands behind them.
fn at_body(list: &Binders, n: usize, i: usize) -> usize
    ensures { result ≡ spec.at_body (spec.count_bound (bound list.now)) n i }
{
    if i < list.as_slice().len() { 0 } else { n }
}

/// All n names around the first operand, and none around another.
fn at_first(n: usize, i: usize) -> usize
    ensures { result ≡ spec.at_first n i }
{
    if i == 0 { n } else { 0 }
}

/// How many of the n names of an expression are bound around its operand i, from 0. They are the first of its names.
pub fn count_at(e: &Expr, n: usize, i: usize) -> usize
    ensures { result ≡ spec.count_at (tree e.now) n i }
{
    match e {
        Expr::Let(_, _) => i,
        Expr::Quantified(_, list, _) => at_body(list, n, i),
        Expr::Choose(_, _, _) => i,
        Expr::Filter(_, _, _) => i,
        Expr::Image(_, _, _) => at_first(n, i),
        Expr::FunOf(list, _) => at_body(list, n, i),
        _ => 0,
    }
}
