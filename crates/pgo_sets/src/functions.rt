// The operators on functions.
ghost use Rattle.std.specs.Prelude.{◌≡◌, ◌++◌, map, IfOk};
ghost use Rattle.std.specs.List.Sorted.{IsStrictlySortedBy};
ghost use Rattle.pgo_base.specs.Data.{keys};
ghost use Rattle.pgo_base.specs.Order.{data_cmp};
ghost use Rattle.pgo_base.specs.PairsView.{all_pairs};
ghost use Rattle.pgo_base.specs.View.{data_of, pair_of};
ghost use Rattle.pgo_model.specs.Operators as operators;
ghost use Rattle.pgo_sets.specs.Answers.{Answers};
ghost use Rattle.pgo_sets.specs.Replaced.{with_value};

use crate::build::{function_of, sorted_function, sorted_set};
use crate::errors::EvalStop;
use crate::lookup::{at, key_place, value_at};
use pgo_base::pairs::Pairs;
use pgo_base::value::{Fun, Value};
use std::alloc::{AllocError, Global};

/// `f[i]`: the value of f at i, copied.
///
/// NoValue where f is no function or i isn't in its domain. Source: "Specifying Systems".
pub fn apply(alloc: Global, f: &Value, i: &Value) -> Result<Value, EvalStop>
    ensures { Answers result (operators.apply (data_of f.now) (data_of i.now)) }
{
    match at(f, i) {
        Some(v) => Ok(v.copy(alloc)?),
        None => Err(EvalStop::NoValue),
    }
}

/// `DOMAIN f`: the set of the keys of f.
///
/// NoValue where f is no function. Source: "Specifying Systems".
pub fn domain(alloc: Global, f: &Value) -> Result<Value, EvalStop>
    ensures { Answers result (operators.domain (data_of f.now)) }
{
    match f {
        Value::Fun(function) => sorted_set(keys_of(alloc, function)?),
        _ => Err(EvalStop::NoValue),
    }
}

/// Copies of the keys of a function, which are in order.
fn keys_of(alloc: Global, function: &Fun) -> Result<Vec<Value>, AllocError>
    ensures keys { IfOk result (λ ks. map data_of ks.items ≡ keys function.now) }
    ensures sorted { IfOk result (λ ks. IsStrictlySortedBy data_cmp (map data_of ks.items)) }
{
    let pairs = function.in_order();
    let mut domain = Vec::with_capacity(alloc, pairs.len())?;
    for i in 0..pairs.len() {
        domain.push(pairs.at(i).0.copy(alloc)?)?;
    }
    Ok(domain)
}

/// `k :> v`: the function on k alone that has v there.
///
/// NoValue where it is deeper than 2,048. Source: "Specifying Systems", TLC.
pub fn single(alloc: Global, k: &Value, v: &Value) -> Result<Value, EvalStop>
    ensures { Answers result (operators.single (data_of k.now) (data_of v.now)) }
{
    let mut pairs = Vec::with_capacity(alloc, 1)?;
    pairs.push((k.copy(alloc)?, v.copy(alloc)?))?;
    function_of(pairs)
}

/// `f @@ g`: the function on both domains that has what f has, and elsewhere what g has.
///
/// NoValue where f or g is no function, or there are more than 65,536 keys. Source: "Specifying Systems", TLC.
pub fn merge(alloc: Global, f: &Value, g: &Value) -> Result<Value, EvalStop>
    ensures { Answers result (operators.merge (data_of f.now) (data_of g.now)) }
{
    match (f, g) {
        (Value::Fun(left), Value::Fun(right)) => {
            let mut pairs = Vec::new(alloc);
            add_pairs(alloc, &mut pairs, left.pairs())?;
            add_pairs(alloc, &mut pairs, right.pairs())?;
            function_of(pairs)
        }
        _ => Err(EvalStop::NoValue),
    }
}

/// Copies of these pairs, behind the others.
fn add_pairs(
    alloc: Global,
    all: &mut Vec<(Value, Value)>,
    more: Pairs<'_>,
) -> Result<(), AllocError>
    ensures { IfOk result (λ _. map pair_of all.new.items ≡ map pair_of all.old.items ++ map pair_of (all_pairs more.entry)) }
{
    for i in 0..more.len() {
        let p = more.at(i);
        all.push((p.0.copy(alloc)?, p.1.copy(alloc)?))?;
    }
    Ok(())
}

/// `[f EXCEPT ![i] = v]`: f with v at i; f where i isn't in its domain.
///
/// NoValue where f is no function. Source: "Specifying Systems".
pub fn except(alloc: Global, f: &Value, i: &Value, v: &Value) -> Result<Value, EvalStop>
    ensures { Answers result (operators.except (data_of f.now) (data_of i.now) (data_of v.now)) }
{
    match f {
        Value::Fun(function) => with_value_at(alloc, function, i, v),
        _ => Err(EvalStop::NoValue),
    }
}

/// The function with another value at one key; where the key is not there, the same function.
fn with_value_at(
    alloc: Global,
    function: &Fun,
    key: &Value,
    value: &Value,
) -> Result<Value, EvalStop>
    ensures { Answers result (with_value (data_of key.now) (data_of value.now) function.now) }
{
    if value_at(function, key).is_none() {
        return Ok(Value::Fun(function.copy(alloc)?));
    }
    sorted_function(replaced(alloc, function, key, value)?)
}

/// Copies of the pairs of a function, with another value at one key. Where the key is not there, the pairs are the same.
pub fn replaced(
    alloc: Global,
    function: &Fun,
    key: &Value,
    value: &Value,
) -> Result<Vec<(Value, Value)>, AllocError>
    ensures pairs { IfOk result (λ ps. map pair_of ps.items ≡ operators.replace_at (data_of key.now) (data_of value.now) function.now) }
    ensures sorted { IfOk result (λ ps. IsStrictlySortedBy data_cmp (keys (map pair_of ps.items))) }
{
    let Some(place) = key_place(function, key) else {
        return pairs_of(alloc, function);
    };
    let v = value.copy(alloc)?;
    let other = function.copy(alloc)?;
    let (changed, _) = other.replace_at(place, v)?;
    let pairs = changed.into_pairs()?;
    Ok(pairs)
}

/// Copies of the pairs of a function.
fn pairs_of(alloc: Global, function: &Fun) -> Result<Vec<(Value, Value)>, AllocError>
    ensures pairs { IfOk result (λ ps. map pair_of ps.items ≡ function.now) }
    ensures sorted { IfOk result (λ ps. IsStrictlySortedBy data_cmp (keys (map pair_of ps.items))) }
{
    let other = function.copy(alloc)?;
    let pairs = other.into_pairs()?;
    Ok(pairs)
}
