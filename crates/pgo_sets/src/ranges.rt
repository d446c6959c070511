// Sets of integers.
ghost use Rattle.std.specs.Prelude.{◌≡◌, int_lt, false, map, IfOk};
ghost use Rattle.std.specs.List.Sorted.{IsStrictlySortedBy};
ghost use Rattle.pgo_base.specs.Order.{data_cmp};
ghost use Rattle.pgo_base.specs.View.{data_of};
ghost use Rattle.pgo_model.specs.Operators as operators;
ghost use Rattle.pgo_sets.specs.Answers.{Answers};

use crate::build::{MOST_MEMBERS, sorted_set};
use crate::errors::EvalStop;
use pgo_base::value::Value;
use std::alloc::{AllocError, Global};

/// `a .. b`: the integers from a to b.
///
/// NoValue where a or b is no integer, or there are more than 65,536; none is made then. Source: "Specifying Systems".
pub fn range(alloc: Global, a: &Value, b: &Value) -> Result<Value, EvalStop>
    ensures { Answers result (operators.on_integers operators.range (data_of a.now) (data_of b.now)) }
{
    match (a, b) {
        (Value::Int(low), Value::Int(high)) => integers(alloc, *low, *high),
        _ => Err(EvalStop::NoValue),
    }
}

/// The set of the integers from low to high.
fn integers(alloc: Global, low: i64, high: i64) -> Result<Value, EvalStop>
    ensures { Answers result (operators.range low high) }
{
    if high < low {
        return sorted_set(Vec::new(alloc));
    }
    if high.abs_diff(low) >= MOST_MEMBERS as u64 {
        return Err(EvalStop::NoValue);
    }
    sorted_set(upward(alloc, low, high)?)
}

/// The integers from low to high, in order.
fn upward(alloc: Global, low: i64, high: i64) -> Result<Vec<Value>, AllocError>
    requires { int_lt high low ≡ false }
    ensures members { IfOk result (λ ms. map data_of ms.items ≡ operators.upward low (operators.span low high)) }
    ensures sorted { IfOk result (λ ms. IsStrictlySortedBy data_cmp (map data_of ms.items)) }
{
    let mut members = Vec::new(alloc);
    let mut next = low;
    while next < high {
        members.push(Value::Int(next))?;
        next += 1;
    }
    members.push(Value::Int(high))?;
    Ok(members)
}
