// The operators on values that are there or not.
ghost use Rattle.std.specs.Prelude.{◌≡◌, Bool, true, false, IsTrue, Option, Some, option_map, option_and_then, IfOk};
ghost use Rattle.pgo_base.specs.View.{data_of};
ghost use Rattle.pgo_model.specs.Val.{unary_sem, binary_value, plain};
ghost use Rattle.pgo_eval.specs.Strict.{is_strict};

use crate::answers::{from_truth, truth};
use crate::arithmetic::{at_most, difference, less, negative, product, quotient, remainder, sum};
use crate::truths::{conjunction, either, equivalence, implication, negation};
use pgo_base::compare::compare;
use pgo_base::expr::{Infix, Prefix};
use pgo_base::value::Value;
use pgo_sets::answers::value_or_none;
use pgo_sets::functions::{domain, merge, single};
use pgo_sets::lookup::{member, subset};
use pgo_sets::powers::power;
use pgo_sets::ranges::range;
use pgo_sets::sequences::concat;
use pgo_sets::set_operators::{flatten, intersect, minus, union};
use std::alloc::{AllocError, Global};

/// An operator before its operand.
pub fn unary(alloc: Global, op: Prefix, a: Option<&Value>) -> Result<Option<Value>, AllocError>
    ensures { IfOk result (λ o. option_map data_of o ≡ (unary_sem op (plain (option_map (λ r. data_of r.now) a.entry))).value) }
{
    let Some(x) = a else {
        return Ok(None);
    };
    match op {
        Prefix::Not => Ok(from_truth(negation(truth(a)))),
        Prefix::Minus => Ok(negative(x)),
        Prefix::Powerset => value_or_none(power(alloc, x)),
        Prefix::Flatten => value_or_none(flatten(alloc, x)),
        Prefix::Domain => value_or_none(domain(alloc, x)),
    }
}

/// An operator on two values or nones. `\in` and `\notin` ask whether the left one is a member of the right one.
pub fn binary(
    alloc: Global,
    op: Infix,
    a: Option<&Value>,
    b: Option<&Value>,
) -> Result<Option<Value>, AllocError>
    ensures { IfOk result (λ o. option_map data_of o ≡ binary_value op (option_map (λ r. data_of r.now) a.entry) (option_map (λ r. data_of r.now) b.entry)) }
{
    match op {
        Infix::Implies => Ok(from_truth(implication(truth(a), truth(b)))),
        Infix::Iff => Ok(from_truth(equivalence(truth(a), truth(b)))),
        Infix::And => Ok(from_truth(conjunction(truth(a), truth(b)))),
        Infix::Or => Ok(from_truth(either(truth(a), truth(b)))),
        _ => match (a, b) {
            (Some(x), Some(y)) => strict(alloc, op, x, y),
            _ => Ok(None),
        },
    }
}

/// An operator that needs both operands.
fn strict(alloc: Global, op: Infix, x: &Value, y: &Value) -> Result<Option<Value>, AllocError>
    requires { IsTrue (is_strict op) }
    ensures { IfOk result (λ o. option_map data_of o ≡ binary_value op (Some (data_of x.now)) (Some (data_of y.now))) }
{
    match op {
        Infix::Equal => Ok(Some(Value::Bool(compare(x, y).is_eq()))),
        Infix::Differs => Ok(Some(Value::Bool(compare(x, y).is_ne()))),
        Infix::Less => Ok(less(x, y)),
        Infix::Greater => Ok(less(y, x)),
        Infix::AtMost => Ok(at_most(x, y)),
        Infix::AtLeast => Ok(at_most(y, x)),
        Infix::In => Ok(from_truth(member(x, y))),
        Infix::NotIn => Ok(from_truth(negation(member(x, y)))),
        Infix::SubsetEq => Ok(from_truth(subset(x, y))),
        Infix::Add => Ok(sum(x, y)),
        Infix::Subtract => Ok(difference(x, y)),
        Infix::Multiply => Ok(product(x, y)),
        Infix::Divide => Ok(quotient(x, y)),
        Infix::Modulo => Ok(remainder(x, y)),
        Infix::Merge => value_or_none(merge(alloc, x, y)),
        Infix::Single => value_or_none(single(alloc, x, y)),
        Infix::Union => value_or_none(union(alloc, x, y)),
        Infix::Intersect => value_or_none(intersect(alloc, x, y)),
        Infix::Without => value_or_none(minus(alloc, x, y)),
        Infix::Range => value_or_none(range(alloc, x, y)),
        Infix::Concat => value_or_none(concat(alloc, x, y)),
        _ => unreachable!(),
    }
}
