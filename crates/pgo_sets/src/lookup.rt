// Finding a member of a set and the value of a function at a key, by binary search, and a variable of a list, all without
// memory.
ghost use Rattle.std.specs.Prelude.{◌≡◌, length, map, Some, option_map};
ghost use Rattle.std.specs.List.Sorted.{IsStrictlySortedBy};
ghost use Rattle.pgo_base.specs.Data.{boolean, keys};
ghost use Rattle.pgo_base.specs.Order.{data_cmp};
ghost use Rattle.pgo_base.specs.PairsView.{all_pairs};
ghost use Rattle.pgo_base.specs.View.{data_of, named_data, pair_of};
ghost use Rattle.pgo_model.specs.Operators as operators;
ghost use Rattle.pgo_model.specs.Steps.{IsPlaced, place_in};
ghost use Rattle.pgo_model.specs.Val as meanings;
ghost use Rattle.pgo_sets.specs.KeyPlace as places;

use pgo_base::compare::compare;
use pgo_base::pairs::Pairs;
use pgo_base::text::Text;
use pgo_base::value::{Fun, Set, Value};
use std::cmp::Ordering;

/// The set that a value is; none where it is no set.
pub fn as_set(v: &Value) -> Option<&Set>
    ensures { option_map (λ r. r.now) result ≡ operators.members_of (data_of v.now) }
{
    match v {
        Value::Set(set) => Some(set),
        _ => None,
    }
}

/// Whether v is a member of this set.
pub fn contains(set: &Set, v: &Value) -> bool
    ensures { result ≡ operators.contains (data_of v.now) set.now }
{
    set.in_order().binary_search(v).is_ok()
}

/// The place of a key among the pairs of this function; none where it isn't in its domain.
pub fn key_place(function: &Fun, key: &Value) -> Option<usize>
    ensures { result ≡ places.key_place (data_of key.now) function.now }
{
    place_among(function.in_order(), key)
}

/// The place of a key among these pairs, which are in the order of their keys: what is left is halved again and again.
fn place_among(pairs: Pairs<'_>, key: &Value) -> Option<usize>
    requires { IsStrictlySortedBy data_cmp (keys (map pair_of (all_pairs pairs))) }
    ensures { result ≡ places.key_place (data_of key.now) (map pair_of (all_pairs pairs.entry)) }
{
    let mut low = 0;
    let mut high = pairs.len();
    while low < high {
        let middle = low + (high - low) / 2;
        match compare(&pairs.at(middle).0, key) {
            Ordering::Less => low = middle + 1,
            Ordering::Equal => return Some(middle),
            Ordering::Greater => high = middle,
        }
    }
    None
}

/// The value of this function at a key; none where the key isn't in its domain.
pub fn value_at<'a>(function: &'a Fun, key: &Value) -> Option<&'a Value>
    ensures { option_map (λ r. data_of r.now) result ≡ operators.lookup (data_of key.now) function.now }
{
    match key_place(function, key) {
        Some(i) => Some(&function.pairs().at(i).1),
        None => None,
    }
}

/// Whether each member of the inner set is one of the outer set.
pub fn includes(outer: &Set, inner: &Set) -> bool
    ensures { result ≡ operators.included inner.now outer.now }
{
    for m in inner.members() {
        if !contains(outer, m) {
            return false;
        }
    }
    true
}

/// Whether v is a member of s; none where s is no set. Source: "Specifying Systems", `\in`.
pub fn member(v: &Value, s: &Value) -> Option<bool>
    ensures { result ≡ operators.is_member (data_of v.now) (Some (data_of s.now)) }
{
    match s {
        Value::Set(set) => Some(contains(set, v)),
        _ => None,
    }
}

/// The value of f at i; none where f is no function or i isn't in its domain. Source: "Specifying Systems", `f[i]`.
pub fn at<'a>(f: &'a Value, i: &Value) -> Option<&'a Value>
    ensures { option_map (λ r. data_of r.now) result ≡ operators.apply (data_of f.now) (data_of i.now) }
{
    match f {
        Value::Fun(function) => value_at(function, i),
        _ => None,
    }
}

/// Whether each member of a is one of b; none where a or b is no set. Source: "Specifying Systems", `\subseteq`.
pub fn subset(a: &Value, b: &Value) -> Option<bool>
    ensures { option_map boolean result ≡ operators.subset (data_of a.now) (data_of b.now) }
{
    match (a, b) {
        (Value::Set(inner), Value::Set(outer)) => Some(includes(outer, inner)),
        _ => None,
    }
}

/// Whether v is in `SUBSET s`; none where s is no set.
pub fn is_in_power(v: &Value, s: &Value) -> Option<bool>
    ensures { result ≡ option_map (λ ms. meanings.is_subset ms (data_of v.now)) (operators.members_of (data_of s.now)) }
{
    match s {
        Value::Set(outer) => Some(is_subset_of(v, outer)),
        _ => None,
    }
}

/// Whether v is a set of some of these members.
fn is_subset_of(v: &Value, outer: &Set) -> bool
    ensures { result ≡ meanings.is_subset outer.now (data_of v.now) }
{
    match v {
        Value::Set(inner) => includes(outer, inner),
        _ => false,
    }
}

/// Whether v is in `a .. b`; none where a or b is no integer.
pub fn is_in_range(v: &Value, a: &Value, b: &Value) -> Option<bool>
    ensures { result ≡ meanings.range_holds (data_of v.now) (data_of a.now) (data_of b.now) }
{
    match (a, b) {
        (Value::Int(low), Value::Int(high)) => Some(is_between(v, *low, *high)),
        _ => None,
    }
}

/// Whether v is one of the integers from low to high.
fn is_between(v: &Value, low: i64, high: i64) -> bool
    ensures { result ≡ operators.within_range low high (data_of v.now) }
{
    match v {
        Value::Int(n) => low <= *n && *n <= high,
        _ => false,
    }
}

/// The place of the first variable of the name.
pub fn place_in(name: &Text, list: &[(Text, Value)]) -> Option<usize>
    ensures place { result ≡ place_in name.now (map named_data list.now) }
    ensures within { IsPlaced result (length list.now) }
{
    for (i, p) in list.iter().enumerate() {
        if name.is(&p.0) {
            return Some(i);
        }
    }
    None
}
