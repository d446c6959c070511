// The operators on sets, but for those that build sets of integers or of sets.
ghost use Rattle.std.specs.Prelude.{◌≡◌, ◌++◌, Bool, map, filter, IfOk};
ghost use Rattle.std.specs.List.Sorted.{IsStrictlySortedBy};
ghost use Rattle.pgo_base.specs.Data.{set, items};
ghost use Rattle.pgo_base.specs.Order.{data_cmp};
ghost use Rattle.pgo_base.specs.View.{data_of};
ghost use Rattle.pgo_model.specs.Operators as operators;
ghost use Rattle.pgo_sets.specs.Answers.{Answers};
ghost use Rattle.pgo_sets.specs.Kept.{same_truth};

use crate::build::{set_of, sorted_set};
use crate::errors::EvalStop;
use crate::lookup::{as_set, contains};
use pgo_base::value::{Set, Value};
use std::alloc::{AllocError, Global};

/// Copies of these values, behind the others.
fn add_copies(alloc: Global, all: &mut Vec<Value>, more: &[Value]) -> Result<(), AllocError>
    ensures { IfOk result (λ _. map data_of all.new.items ≡ map data_of all.old.items ++ map data_of more.now) }
{
    for v in more {
        all.push(v.copy(alloc)?)?;
    }
    Ok(())
}

/// `a \cup b`: the members of a and those of b.
///
/// NoValue where a or b is no set, or the union has more than 65,536 members. Source: "Specifying Systems".
pub fn union(alloc: Global, a: &Value, b: &Value) -> Result<Value, EvalStop>
    ensures { Answers result (operators.union (data_of a.now) (data_of b.now)) }
{
    match (a, b) {
        (Value::Set(left), Value::Set(right)) => {
            let mut members = Vec::new(alloc);
            add_copies(alloc, &mut members, left.members())?;
            add_copies(alloc, &mut members, right.members())?;
            set_of(members)
        }
        _ => Err(EvalStop::NoValue),
    }
}

/// Copies of the members of a that are in b, or of those that aren't.
fn kept(alloc: Global, a: &Set, b: &Set, inside: bool) -> Result<Vec<Value>, AllocError>
    ensures members { IfOk result (λ ms. map data_of ms.items ≡ filter (λ m. same_truth inside (operators.contains m b.now)) a.now) }
    ensures sorted { IfOk result (λ ms. IsStrictlySortedBy data_cmp (map data_of ms.items)) }
{
    let mut members = Vec::new(alloc);
    for m in a.in_order() {
        if contains(b, m) == inside {
            members.push(m.copy(alloc)?)?;
        }
    }
    Ok(members)
}

/// `a \cap b`: the members of a that are in b.
///
/// NoValue where a or b is no set. Source: "Specifying Systems".
pub fn intersect(alloc: Global, a: &Value, b: &Value) -> Result<Value, EvalStop>
    ensures { Answers result (operators.intersect (data_of a.now) (data_of b.now)) }
{
    match (a, b) {
        (Value::Set(left), Value::Set(right)) => sorted_set(kept(alloc, left, right, true)?),
        _ => Err(EvalStop::NoValue),
    }
}

/// `a \ b`: the members of a that aren't in b.
///
/// NoValue where a or b is no set. Source: "Specifying Systems".
pub fn minus(alloc: Global, a: &Value, b: &Value) -> Result<Value, EvalStop>
    ensures { Answers result (operators.minus (data_of a.now) (data_of b.now)) }
{
    match (a, b) {
        (Value::Set(left), Value::Set(right)) => sorted_set(kept(alloc, left, right, false)?),
        _ => Err(EvalStop::NoValue),
    }
}

/// `UNION s`: the members of the members of s.
///
/// NoValue where s is no set of sets, or there are more than 65,536. Source: "Specifying Systems".
pub fn flatten(alloc: Global, s: &Value) -> Result<Value, EvalStop>
    ensures { Answers result (operators.flatten (data_of s.now)) }
{
    match s {
        Value::Set(sets) => union_of(alloc, sets),
        _ => Err(EvalStop::NoValue),
    }
}

/// The members of these sets; none where one is no set.
fn union_of(alloc: Global, sets: &Set) -> Result<Value, EvalStop>
    ensures { Answers result (operators.flatten (set (items sets.now))) }
{
    let mut members = Vec::new(alloc);
    for v in sets.members() {
        let Some(more) = as_set(v) else {
            return Err(EvalStop::NoValue);
        };
        add_copies(alloc, &mut members, more.members())?;
    }
    set_of(members)
}

/// `Cardinality(s)`: how many members s has. It takes no memory.
///
/// NoValue where s is no set. Source: "Specifying Systems", FiniteSets.
pub fn cardinality(s: &Value) -> Result<Value, EvalStop>
    ensures { Answers result (operators.cardinality (data_of s.now)) }
{
    match s {
        Value::Set(set) => Ok(Value::Int(set.members().len() as i64)),
        _ => Err(EvalStop::NoValue),
    }
}
