// The expressions that stand directly in an expression.
ghost use Rattle.std.specs.Prelude.{◌≡◌, [], ◌∷◌, ◌++◌, map, IfOk};
ghost use Rattle.pgo_base.specs.ExprView.{tree};
ghost use Rattle.pgo_base.specs.Tree.{trees, named, arms, bound, paths};
ghost use Rattle.pgo_operands.specs.Operands as spec;
ghost use Rattle.pgo_operands.specs.Operands.{lent_trees};

use pgo_base::expr::{Arms, Binders, Expr, Exprs, Named, Sub, Updates};
use std::alloc::{AllocError, Global};

/// Adds the expressions of a list.
fn add_members<'a>(parts: &mut Vec<&'a Expr>, list: &'a Exprs) -> Result<(), AllocError>
    ensures { IfOk result (λ _. lent_trees parts.new.items ≡ lent_trees parts.old.items ++ spec.members (trees list.now)) }
{
    let items = list.as_slice();
    for one in items {
        parts.push(one)?;
    }
    Ok(())
}

/// Adds the expressions that have a name.
fn add_named<'a>(parts: &mut Vec<&'a Expr>, list: &'a Named) -> Result<(), AllocError>
    ensures { IfOk result (λ _. lent_trees parts.new.items ≡ lent_trees parts.old.items ++ spec.named_members (named list.now)) }
{
    let items = list.as_slice();
    for one in items {
        parts.push(&one.1)?;
    }
    Ok(())
}

/// Adds the guards and values of CASE.
fn add_arms<'a>(parts: &mut Vec<&'a Expr>, list: &'a Arms) -> Result<(), AllocError>
    ensures { IfOk result (λ _. lent_trees parts.new.items ≡ lent_trees parts.old.items ++ spec.arm_members (arms list.now)) }
{
    let items = list.as_slice();
    for one in items {
        parts.extend_from_slice(&[&one.0, &one.1])?;
    }
    Ok(())
}

/// Adds the sets of binders.
fn add_binders<'a>(parts: &mut Vec<&'a Expr>, list: &'a Binders) -> Result<(), AllocError>
    ensures { IfOk result (λ _. lent_trees parts.new.items ≡ lent_trees parts.old.items ++ spec.bound_members (bound list.now)) }
{
    let items = list.as_slice();
    for one in items {
        parts.push(&one.1)?;
    }
    Ok(())
}

/// Adds the indices and right sides of EXCEPT.
fn add_updates<'a>(parts: &mut Vec<&'a Expr>, list: &'a Updates) -> Result<(), AllocError>
    ensures { IfOk result (λ _. lent_trees parts.new.items ≡ lent_trees parts.old.items ++ spec.path_members (paths list.now)) }
{
    let items = list.as_slice();
    for one in items {
        add_members(parts, &one.path)?;
        parts.push(&one.value)?;
    }
    Ok(())
}

/// One expression, as a list.
///
/// Err only where there is no memory.
pub fn one_part<'a>(alloc: Global, a: &'a Sub) -> Result<Vec<&'a Expr>, AllocError>
    ensures { IfOk result (λ v. lent_trees v.items ≡ a.entry.now ∷ []) }
{
    let mut parts = Vec::new(alloc);
    parts.push(a.get())?;
    Ok(parts)
}

/// Two expressions.
fn two_parts<'a>(alloc: Global, a: &'a Sub, b: &'a Sub) -> Result<Vec<&'a Expr>, AllocError>
    ensures { IfOk result (λ v. lent_trees v.items ≡ a.entry.now ∷ b.entry.now ∷ []) }
{
    let mut parts = Vec::new(alloc);
    parts.push(a.get())?;
    parts.push(b.get())?;
    Ok(parts)
}

/// Three expressions.
fn three_parts<'a>(
    alloc: Global,
    a: &'a Sub,
    b: &'a Sub,
    c: &'a Sub,
) -> Result<Vec<&'a Expr>, AllocError>
    ensures { IfOk result (λ v. lent_trees v.items ≡ a.entry.now ∷ b.entry.now ∷ c.entry.now ∷ []) }
{
    let mut parts = Vec::new(alloc);
    parts.push(a.get())?;
    parts.push(b.get())?;
    parts.push(c.get())?;
    Ok(parts)
}

/// The expressions of a list, in order.
///
/// Err only where there is no memory.
#[tactic(auto, using(crate::proofs::Members::members_of))]
pub fn members<'a>(alloc: Global, list: &'a Exprs) -> Result<Vec<&'a Expr>, AllocError>
    ensures { IfOk result (λ v. lent_trees v.items ≡ list.entry.now) }
{
    let mut parts = Vec::new(alloc);
    add_members(&mut parts, list)?;
    Ok(parts)
}

/// The expressions that have a name.
fn named_members<'a>(alloc: Global, list: &'a Named) -> Result<Vec<&'a Expr>, AllocError>
    ensures { IfOk result (λ v. lent_trees v.items ≡ spec.named_members (named list.entry.now)) }
{
    let mut parts = Vec::new(alloc);
    add_named(&mut parts, list)?;
    Ok(parts)
}

/// The guards and values of CASE.
fn arm_members<'a>(alloc: Global, list: &'a Arms) -> Result<Vec<&'a Expr>, AllocError>
    ensures { IfOk result (λ v. lent_trees v.items ≡ spec.arm_members (arms list.entry.now)) }
{
    let mut parts = Vec::new(alloc);
    add_arms(&mut parts, list)?;
    Ok(parts)
}

/// The sets of binders, and what stands under them.
fn under_binders<'a>(
    alloc: Global,
    list: &'a Binders,
    e: &'a Sub,
) -> Result<Vec<&'a Expr>, AllocError>
    ensures { IfOk result (λ v. lent_trees v.items ≡ spec.bound_members (bound list.entry.now) ++ e.entry.now ∷ []) }
{
    let mut parts = Vec::new(alloc);
    add_binders(&mut parts, list)?;
    parts.push(e.get())?;
    Ok(parts)
}

/// The definitions of a LET and its body.
fn in_let<'a>(alloc: Global, list: &'a Named, e: &'a Sub) -> Result<Vec<&'a Expr>, AllocError>
    ensures { IfOk result (λ v. lent_trees v.items ≡ spec.named_members (named list.entry.now) ++ e.entry.now ∷ []) }
{
    let mut parts = Vec::new(alloc);
    add_named(&mut parts, list)?;
    parts.push(e.get())?;
    Ok(parts)
}

/// The arms of a CASE and that of OTHER.
fn with_other<'a>(alloc: Global, list: &'a Arms, e: &'a Sub) -> Result<Vec<&'a Expr>, AllocError>
    ensures { IfOk result (λ v. lent_trees v.items ≡ spec.arm_members (arms list.entry.now) ++ e.entry.now ∷ []) }
{
    let mut parts = Vec::new(alloc);
    add_arms(&mut parts, list)?;
    parts.push(e.get())?;
    Ok(parts)
}

/// A function and the parts of its EXCEPT.
fn updated<'a>(alloc: Global, e: &'a Sub, list: &'a Updates) -> Result<Vec<&'a Expr>, AllocError>
    ensures { IfOk result (λ v. lent_trees v.items ≡ e.entry.now ∷ spec.path_members (paths list.entry.now)) }
{
    let mut parts = one_part(alloc, e)?;
    add_updates(&mut parts, list)?;
    Ok(parts)
}

/// A function and its indices.
fn indexed<'a>(alloc: Global, e: &'a Sub, list: &'a Exprs) -> Result<Vec<&'a Expr>, AllocError>
    ensures { IfOk result (λ v. lent_trees v.items ≡ e.entry.now ∷ spec.members (trees list.entry.now)) }
{
    let mut parts = one_part(alloc, e)?;
    add_members(&mut parts, list)?;
    Ok(parts)
}

/// The expressions that stand directly in this one, in the order of the text.
///
/// A form without any, as a name, a number or UNCHANGED, gives none. Err only where there is no memory.
#[tactic(auto, using(crate::proofs::Members::members_of))]
pub fn operands<'a>(alloc: Global, e: &'a Expr) -> Result<Vec<&'a Expr>, AllocError>
    ensures { IfOk result (λ v. lent_trees v.items ≡ spec.operands (tree e.entry.now)) }
{
    match e {
        Expr::Prefix(_, a) => one_part(alloc, a),
        Expr::Infix(_, a, b) => two_parts(alloc, a, b),
        Expr::Product(list) => members(alloc, list),
        Expr::If(p, a, b) => three_parts(alloc, p, a, b),
        Expr::Case(list) => arm_members(alloc, list),
        Expr::CaseOther(list, a) => with_other(alloc, list, a),
        Expr::Let(list, a) => in_let(alloc, list, a),
        Expr::Quantified(_, list, a) => under_binders(alloc, list, a),
        Expr::Choose(_, a, b) => two_parts(alloc, a, b),
        Expr::Tuple(list) => members(alloc, list),
        Expr::SetOf(list) => members(alloc, list),
        Expr::Filter(_, a, b) => two_parts(alloc, a, b),
        Expr::Image(a, _, b) => two_parts(alloc, a, b),
        Expr::FunOf(list, a) => under_binders(alloc, list, a),
        Expr::FunSet(a, b) => two_parts(alloc, a, b),
        Expr::Record(list) => named_members(alloc, list),
        Expr::RecordSet(list) => named_members(alloc, list),
        Expr::Except(a, list) => updated(alloc, a, list),
        Expr::Index(a, list) => indexed(alloc, a, list),
        Expr::Field(a, _) => one_part(alloc, a),
        Expr::Call(_, list) => members(alloc, list),
        _ => Ok(Vec::new(alloc)),
    }
}
