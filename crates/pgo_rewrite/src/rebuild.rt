// A form of an expression with other operands, which are taken in the order of the text.
ghost use Rattle.std.specs.Prelude.{◌≡◌, IfOk};
ghost use Rattle.pgo_base.specs.ExprView.{tree};
ghost use Rattle.pgo_base.specs.Tree.{trees, named, arms, bound, paths};
ghost use Rattle.pgo_rewrite.specs.Rebuilt as spec;

use crate::parts::Parts;
use pgo_base::expr::{Arms, Binders, Expr, Exprs, Named, Sub, Updates};
use pgo_base::results::both;
use pgo_base::text::Text;
use std::alloc::{AllocError, Global};

/// As many operands as the list has.
fn fill_exprs(alloc: Global, list: &Exprs, parts: &mut Parts) -> Result<Exprs, AllocError>
    ensures list { IfOk result (λ v. v ≡ spec.fill_trees (trees list.now) parts.old) }
    ensures left { IfOk result (λ _. parts.new ≡ spec.behind_trees (trees list.now) parts.old) }
{
    let mut all = Exprs::new(alloc);
    for _item in list.as_slice() {
        all.push(parts.next_sub(alloc)?)?;
    }
    Ok(all)
}

/// The names with other expressions.
fn fill_named(alloc: Global, list: &Named, parts: &mut Parts) -> Result<Named, AllocError>
    ensures list { IfOk result (λ v. v ≡ spec.fill_named (named list.now) parts.old) }
    ensures left { IfOk result (λ _. parts.new ≡ spec.behind_named (named list.now) parts.old) }
{
    let mut all = Named::new(alloc);
    for item in list.as_slice() {
        let name = item.0.copy(alloc)?;
        all.push(name, parts.next_sub(alloc)?)?;
    }
    Ok(all)
}

/// As many arms with other guards and values.
fn fill_arms(alloc: Global, list: &Arms, parts: &mut Parts) -> Result<Arms, AllocError>
    ensures list { IfOk result (λ v. v ≡ spec.fill_arms (arms list.now) parts.old) }
    ensures left { IfOk result (λ _. parts.new ≡ spec.behind_arms (arms list.now) parts.old) }
{
    let mut all = Arms::new(alloc);
    for _item in list.as_slice() {
        let (guard, value) = two(alloc, parts)?;
        all.push(guard, value)?;
    }
    Ok(all)
}

/// The binders with other sets.
fn fill_binders(alloc: Global, list: &Binders, parts: &mut Parts) -> Result<Binders, AllocError>
    ensures list { IfOk result (λ v. v ≡ spec.fill_bound (bound list.now) parts.old) }
    ensures left { IfOk result (λ _. parts.new ≡ spec.behind_bound (bound list.now) parts.old) }
{
    let mut all = Binders::new(alloc);
    for item in list.as_slice() {
        let names = item.0.copy(alloc)?;
        all.push(names, parts.next_sub(alloc)?)?;
    }
    Ok(all)
}

/// As many changes of EXCEPT, each with as many other indices and another value.
fn fill_updates(alloc: Global, list: &Updates, parts: &mut Parts) -> Result<Updates, AllocError>
    ensures list { IfOk result (λ v. v ≡ spec.fill_paths (paths list.now) parts.old) }
    ensures left { IfOk result (λ _. parts.new ≡ spec.behind_paths (paths list.now) parts.old) }
{
    let mut all = Updates::new(alloc);
    for item in list.as_slice() {
        let path = fill_exprs(alloc, &item.path, parts)?;
        all.push(path, parts.next_sub(alloc)?)?;
    }
    Ok(all)
}

/// Two operands.
fn two(alloc: Global, parts: &mut Parts) -> Result<(Sub, Sub), AllocError>
    ensures first { IfOk result (λ p. p.0 ≡ spec.next parts.old) }
    ensures second { IfOk result (λ p. p.1 ≡ spec.next (spec.behind parts.old)) }
    ensures left { IfOk result (λ _. parts.new ≡ spec.behind (spec.behind parts.old)) }
{
    let first = parts.next_sub(alloc)?;
    let second = parts.next_sub(alloc)?;
    Ok((first, second))
}

/// A name, and two operands.
fn named_two(alloc: Global, x: &Text, parts: &mut Parts) -> Result<(Text, (Sub, Sub)), AllocError>
    ensures name { IfOk result (λ p. p.0 ≡ x.now) }
    ensures first { IfOk result (λ p. p.1.0 ≡ spec.next parts.old) }
    ensures second { IfOk result (λ p. p.1.1 ≡ spec.next (spec.behind parts.old)) }
{
    let name = x.copy(alloc)?;
    let pair = two(alloc, parts)?;
    Ok((name, pair))
}

/// Binders with other sets, and an operand behind them.
fn under_binders(
    alloc: Global,
    list: &Binders,
    parts: &mut Parts,
) -> Result<(Binders, Sub), AllocError>
    ensures list { IfOk result (λ p. p.0 ≡ spec.fill_bound (bound list.now) parts.old) }
    ensures operand { IfOk result (λ p. p.1 ≡ spec.next (spec.behind_bound (bound list.now) parts.old)) }
{
    let list = fill_binders(alloc, list, parts)?;
    let a = parts.next_sub(alloc)?;
    Ok((list, a))
}

/// Whether the form of an expression has a list.
fn has_list(e: &Expr) -> bool
    ensures { result ≡ spec.has_list (tree e.now) }
{
    match e {
        Expr::Product(_) | Expr::Tuple(_) | Expr::SetOf(_) | Expr::Call(_, _) => true,
        Expr::Case(_) | Expr::CaseOther(_, _) => true,
        Expr::Let(_, _) | Expr::Record(_) | Expr::RecordSet(_) => true,
        Expr::Quantified(_, _, _) | Expr::FunOf(_, _) => true,
        Expr::Except(_, _) | Expr::Index(_, _) => true,
        _ => false,
    }
}

/// The form of an expression with other operands; `@` stands where there are too few.
///
/// Err only where there is no memory.
pub(crate) fn rebuilt(alloc: Global, e: &Expr, parts: Parts) -> Result<Expr, AllocError>
    ensures { IfOk result (λ r. tree r ≡ spec.rebuilt (tree e.now) parts) }
{
    let mut parts = parts;
    if has_list(e) {
        rebuilt_listed(alloc, e, &mut parts)
    } else {
        rebuilt_fixed(alloc, e, &mut parts)
    }
}

/// The same of a form with a list; another stays as it is.
fn rebuilt_listed(alloc: Global, e: &Expr, parts: &mut Parts) -> Result<Expr, AllocError>
    ensures { IfOk result (λ r. tree r ≡ spec.rebuilt_listed (tree e.now) parts.old) }
{
    match e {
        Expr::Product(_) => Ok(Expr::Product(parts.take_exprs(alloc))),
        Expr::Tuple(_) => Ok(Expr::Tuple(parts.take_exprs(alloc))),
        Expr::SetOf(_) => Ok(Expr::SetOf(parts.take_exprs(alloc))),
        Expr::Call(x, _) => Ok(Expr::Call(x.copy(alloc)?, parts.take_exprs(alloc))),
        Expr::Index(_, _) => {
            let f = parts.next_sub(alloc)?;
            Ok(Expr::Index(f, parts.take_exprs(alloc)))
        }
        Expr::Case(list) => Ok(Expr::Case(fill_arms(alloc, list, parts)?)),
        Expr::CaseOther(list, _) => {
            let list = fill_arms(alloc, list, parts)?;
            Ok(Expr::CaseOther(list, parts.next_sub(alloc)?))
        }
        Expr::Let(list, _) => {
            let list = fill_named(alloc, list, parts)?;
            Ok(Expr::Let(list, parts.next_sub(alloc)?))
        }
        Expr::Record(list) => Ok(Expr::Record(fill_named(alloc, list, parts)?)),
        Expr::RecordSet(list) => Ok(Expr::RecordSet(fill_named(alloc, list, parts)?)),
        Expr::Except(_, list) => {
            let f = parts.next_sub(alloc)?;
            Ok(Expr::Except(f, fill_updates(alloc, list, parts)?))
        }
        Expr::Quantified(q, list, _) => {
            let (list, a) = under_binders(alloc, list, parts)?;
            Ok(Expr::Quantified(*q, list, a))
        }
        Expr::FunOf(list, _) => {
            let (list, a) = under_binders(alloc, list, parts)?;
            Ok(Expr::FunOf(list, a))
        }
        _ => e.copy(alloc),
    }
}

/// The same of a form without a list; another stays as it is.
fn rebuilt_fixed(alloc: Global, e: &Expr, parts: &mut Parts) -> Result<Expr, AllocError>
    ensures { IfOk result (λ r. tree r ≡ spec.rebuilt_fixed (tree e.now) parts.old) }
{
    match e {
        Expr::Prefix(o, _) => Ok(Expr::Prefix(*o, parts.next_sub(alloc)?)),
        Expr::Infix(o, _, _) => {
            let (a, b) = two(alloc, parts)?;
            Ok(Expr::Infix(*o, a, b))
        }
        Expr::If(_, _, _) => {
            let (p, a) = two(alloc, parts)?;
            Ok(Expr::If(p, a, parts.next_sub(alloc)?))
        }
        Expr::Choose(x, _, _) => {
            let (x, (a, b)) = named_two(alloc, x, parts)?;
            Ok(Expr::Choose(x, a, b))
        }
        Expr::Filter(x, _, _) => {
            let (x, (a, b)) = named_two(alloc, x, parts)?;
            Ok(Expr::Filter(x, a, b))
        }
        Expr::Image(_, x, _) => {
            let (x, (a, b)) = named_two(alloc, x, parts)?;
            Ok(Expr::Image(a, x, b))
        }
        Expr::FunSet(_, _) => {
            let (a, b) = two(alloc, parts)?;
            Ok(Expr::FunSet(a, b))
        }
        Expr::Field(_, x) => {
            let (x, a) = both(x.copy(alloc), parts.next_sub(alloc))?;
            Ok(Expr::Field(a, x))
        }
        _ => e.copy(alloc),
    }
}
