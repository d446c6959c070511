// The value of an expression, form by form.
ghost use Rattle.std.specs.Prelude.{◌≡◌, IsTrue, map, Some, option_map, option_and_then, IfOk};
ghost use Rattle.pgo_base.specs.Data.{string};
ghost use Rattle.pgo_base.specs.ExprView.{tree, named_tree};
ghost use Rattle.pgo_base.specs.Tree.{trees, named, binary, index, field};
ghost use Rattle.pgo_base.specs.View.{data_of, pair_of};
ghost use Rattle.pgo_model.specs.Val.{sem, plain, val, values_of, fields, index_of};
ghost use Rattle.pgo_eval.specs.Forms.{is_unbuilt, is_made, is_of_parts};
ghost use Rattle.pgo_eval.specs.HeldView.{held_data, sem_of};
ghost use Rattle.pgo_eval.specs.ScopeView.{scope_view};

use crate::answers::from_truth;
use crate::binders::{function_value, quantified};
use crate::built::{functions, owning, plainly, product, record, records, set, tuple};
use crate::control::{case_value, conditional, let_value};
use crate::evaluated::{Evaluated, value_held};
use crate::held::{Held, lent, owned, part_at};
use crate::leaves::{Leaf, leaf_of};
use crate::names::{applied, call_value, named_value};
use crate::one_name::{chosen, filtered, image};
use crate::operations::{decided, infixed, is_membership, prefixed};
use crate::scope::Scope;
use crate::states::{primed_value, unchanged_value};
use crate::updates::except_value;
use pgo_base::expr::{Expr, Infix};
use pgo_base::text::Text;
use pgo_base::value::Value;
use std::alloc::{AllocError, Global};

/// The value of an expression, or none; want of memory where too many levels are open.
#[cycle(evaluate)]
pub fn held<'a>(
    alloc: Global,
    e: &Expr,
    s: &Scope<'a, 'a, 'a>,
) -> Result<Option<Held<'a>>, AllocError>
    ensures { IfOk result (λ o. option_map held_data o ≡ val (tree e.now) (scope_view s.now)) }
{
    if s.left == 0 {
        return Err(AllocError);
    }
    let inner = Scope {
        left: s.left - 1,
        ..*s
    };
    match leaf_of(e, s) {
        Leaf::Value(v) => Ok(v),
        Leaf::Definition(x) => applied(alloc, x, Vec::new(alloc), &inner),
        Leaf::Other => value_held(alloc, evaluated(alloc, e, &inner)),
    }
}

/// What an expression comes to.
#[cycle(evaluate)]
pub fn evaluated<'a>(
    alloc: Global,
    e: &Expr,
    s: &Scope<'a, 'a, 'a>,
) -> Result<Option<Evaluated<'a>>, AllocError>
    ensures { IfOk result (λ o. sem_of o ≡ sem (tree e.now) (scope_view s.now)) }
{
    match e {
        Expr::Name(x) => plainly(named_value(alloc, x, s)),
        Expr::Primed(x) => plainly(Ok(primed_value(x, s))),
        Expr::Number(n) => owning(Ok(Some(Value::Int(*n)))),
        Expr::Text(t) => owning(string_value(alloc, t)),
        Expr::Truth(b) => owning(Ok(Some(Value::Bool(*b)))),
        Expr::At => plainly(Ok(s.part.map(Held::Lent))),
        Expr::Word(w) => Ok(Some(Evaluated::OfWord(*w))),
        Expr::Prefix(op, a) => prefixed(alloc, *op, held(alloc, a.get(), s)?),
        Expr::Infix(op, a, b) => infix(alloc, *op, a.get(), b.get(), s),
        Expr::Unchanged(names) => owning(Ok(unchanged_value(names.as_slice(), s))),
        Expr::Product(_) | Expr::FunSet(_, _) | Expr::RecordSet(_) => unbuilt(alloc, e, s),
        Expr::Let(_, _)
        | Expr::Quantified(_, _, _)
        | Expr::Choose(_, _, _)
        | Expr::Filter(_, _, _)
        | Expr::Image(_, _, _)
        | Expr::FunOf(_, _)
        | Expr::Except(_, _) => owning(made_value(alloc, e, s)),
        _ => plainly(parts_value(alloc, e, s)),
    }
}

/// A set of tuples, functions or records.
#[cycle(evaluate)]
fn unbuilt<'a>(
    alloc: Global,
    e: &Expr,
    s: &Scope<'a, 'a, 'a>,
) -> Result<Option<Evaluated<'a>>, AllocError>
    requires { IsTrue (is_unbuilt (tree e.now)) }
    ensures { IfOk result (λ o. sem_of o ≡ sem (tree e.now) (scope_view s.now)) }
{
    match e {
        Expr::Product(list) => product(values(alloc, list.as_slice(), s)),
        Expr::FunSet(a, b) => functions(held(alloc, a.get(), s), held(alloc, b.get(), s)),
        Expr::RecordSet(named) => records(fields(alloc, named.as_slice(), s)),
        _ => unreachable!(),
    }
}

/// The value of an expression that binds names, or EXCEPT.
#[cycle(evaluate)]
fn made_value<'a>(
    alloc: Global,
    e: &Expr,
    s: &Scope<'a, 'a, 'a>,
) -> Result<Option<Value>, AllocError>
    requires { IsTrue (is_made (tree e.now)) }
    ensures value { IfOk result (λ o. option_map data_of o ≡ val (tree e.now) (scope_view s.now)) }
    ensures plain { sem (tree e.now) (scope_view s.now) ≡ plain (val (tree e.now) (scope_view s.now)) }
{
    match e {
        Expr::Let(named, e) => let_value(alloc, named.as_slice(), e.get(), s),
        Expr::Quantified(q, binders, p) => { quantified(alloc, *q, binders.as_slice(), p.get(), s) }
        Expr::Choose(x, r, p) => chosen(alloc, x, r.get(), p.get(), s),
        Expr::Filter(x, r, p) => filtered(alloc, x, r.get(), p.get(), s),
        Expr::Image(e, x, r) => image(alloc, e.get(), x, r.get(), s),
        Expr::FunOf(binders, e) => function_value(alloc, binders.as_slice(), e.get(), s),
        Expr::Except(f, updates) => except_value(alloc, f.get(), updates.as_slice(), s),
        _ => unreachable!(),
    }
}

/// The value of an expression that is one of its parts, or is built from their values.
#[cycle(evaluate)]
fn parts_value<'a>(
    alloc: Global,
    e: &Expr,
    s: &Scope<'a, 'a, 'a>,
) -> Result<Option<Held<'a>>, AllocError>
    requires { IsTrue (is_of_parts (tree e.now)) }
    ensures value { IfOk result (λ o. option_map held_data o ≡ val (tree e.now) (scope_view s.now)) }
    ensures plain { sem (tree e.now) (scope_view s.now) ≡ plain (val (tree e.now) (scope_view s.now)) }
{
    match e {
        Expr::If(p, a, b) => conditional(alloc, p.get(), a.get(), b.get(), s),
        Expr::Case(arms) => case_value(alloc, arms.as_slice(), None, s),
        Expr::CaseOther(arms, e) => case_value(alloc, arms.as_slice(), Some(e.get()), s),
        Expr::Tuple(list) => tuple(alloc, values(alloc, list.as_slice(), s)),
        Expr::SetOf(list) => set(values(alloc, list.as_slice(), s)),
        Expr::Record(named) => record(fields(alloc, named.as_slice(), s)),
        Expr::Index(f, list) => index_value(alloc, f.get(), list.as_slice(), s),
        Expr::Field(r, x) => field_value(alloc, r.get(), x, s),
        Expr::Call(x, list) => call_value(alloc, x, list.as_slice(), s),
        _ => unreachable!(),
    }
}

/// A string as a value.
fn string_value(alloc: Global, text: &Text) -> Result<Option<Value>, AllocError>
    ensures { IfOk result (λ v. option_map data_of v ≡ Some (string text.now)) }
{
    Ok(Some(Value::Str(text.copy(alloc)?)))
}

/// An operator between its operands; the right one is left where the left one decides.
#[cycle(evaluate)]
fn infix<'a>(
    alloc: Global,
    op: Infix,
    a: &Expr,
    b: &Expr,
    s: &Scope<'a, 'a, 'a>,
) -> Result<Option<Evaluated<'a>>, AllocError>
    ensures { IfOk result (λ o. sem_of o ≡ sem (binary op (tree a.now) (tree b.now)) (scope_view s.now)) }
{
    let a = held(alloc, a, s)?;
    if is_membership(op) {
        return owning(Ok(from_truth(membership(alloc, a, b, s)?)));
    }
    if let Some(t) = decided(op, lent(&a)) {
        return owning(Ok(Some(Value::Bool(t))));
    }
    let b = held(alloc, b, s)?;
    infixed(alloc, op, a, b)
}

/// Whether a value is in what an expression holds.
#[cycle(evaluate)]
fn membership<'a>(
    alloc: Global,
    x: Option<Held<'a>>,
    e: &Expr,
    s: &Scope<'a, 'a, 'a>,
) -> Result<Option<bool>, AllocError>
    ensures { IfOk result (λ o. o ≡ option_and_then (sem (tree e.now) (scope_view s.now)).holds (option_map held_data x.entry)) }
{
    let Some(x) = x else {
        return Ok(None);
    };
    if s.left == 0 {
        return Err(AllocError);
    }
    let inner = Scope {
        left: s.left - 1,
        ..*s
    };
    match evaluated(alloc, e, &inner)? {
        Some(set) => set.holds(alloc, x.get()),
        None => Ok(None),
    }
}

/// The value of each, where all have one.
#[cycle(evaluate)]
pub fn values<'a>(
    alloc: Global,
    list: &[Expr],
    s: &Scope<'a, 'a, 'a>,
) -> Result<Option<Vec<Value>>, AllocError>
    ensures { IfOk result (λ o. option_map (λ vs. map data_of vs.items) o ≡ values_of (trees (map tree list.now)) (scope_view s.now)) }
{
    let mut all = Vec::with_capacity(alloc, list.len())?;
    for e in list {
        match owned(alloc, held(alloc, e, s)?)? {
            Some(v) => all.push(v)?,
            None => return Ok(None),
        }
    }
    Ok(Some(all))
}

/// Each field, as a string, with its value, where all have one.
#[cycle(evaluate)]
fn fields<'a>(
    alloc: Global,
    list: &[(Text, Expr)],
    s: &Scope<'a, 'a, 'a>,
) -> Result<Option<Vec<(Value, Value)>>, AllocError>
    ensures { IfOk result (λ o. option_map (λ ps. map pair_of ps.items) o ≡ fields (named (map named_tree list.now)) (scope_view s.now)) }
{
    let mut all = Vec::with_capacity(alloc, list.len())?;
    for f in list {
        match owned(alloc, held(alloc, &f.1, s)?)? {
            Some(v) => all.push((Value::Str(f.0.copy(alloc)?), v))?,
            None => return Ok(None),
        }
    }
    Ok(Some(all))
}

/// `f[i, ..]`.
#[cycle(evaluate)]
fn index_value<'a>(
    alloc: Global,
    f: &Expr,
    list: &[Expr],
    s: &Scope<'a, 'a, 'a>,
) -> Result<Option<Held<'a>>, AllocError>
    ensures { IfOk result (λ o. option_map held_data o ≡ val (index (tree f.now) (trees (map tree list.now))) (scope_view s.now)) }
{
    let f = held(alloc, f, s)?;
    let i = index_of(alloc, list, s)?;
    part_at(alloc, f, lent(&i))
}

/// The index of a function: one value, or the tuple of several.
#[cycle(evaluate)]
fn index_of<'a>(
    alloc: Global,
    list: &[Expr],
    s: &Scope<'a, 'a, 'a>,
) -> Result<Option<Held<'a>>, AllocError>
    ensures { IfOk result (λ o. option_map held_data o ≡ option_and_then index_of (values_of (trees (map tree list.now)) (scope_view s.now))) }
{
    if list.is_empty() {
        return Ok(None);
    }
    if list.len() == 1 {
        return held(alloc, &list[0], s);
    }
    tuple(alloc, values(alloc, list, s))
}

/// `r.x`.
#[cycle(evaluate)]
fn field_value<'a>(
    alloc: Global,
    r: &Expr,
    x: &Text,
    s: &Scope<'a, 'a, 'a>,
) -> Result<Option<Held<'a>>, AllocError>
    ensures { IfOk result (λ o. option_map held_data o ≡ val (field (tree r.now) x.now) (scope_view s.now)) }
{
    let r = held(alloc, r, s)?;
    let key = Value::Str(x.copy(alloc)?);
    part_at(alloc, r, Some(&key))
}
