// The one order of all values.
ghost use Rattle.std.specs.Prelude.{◌≡◌, ℕ, List, [], ◌∷◌, ◌++◌, length, map, IfOk};
ghost use Rattle.std.specs.Cmp.Lexicographic.{slice_cmp};
ghost use Rattle.std.specs.Ordering.{nat_cmp, int_cmp, ordering_then};
ghost use Rattle.pgo_base.specs.Order.{data_cmp, kind};
ghost use Rattle.pgo_base.specs.View.{data_of, pair_of, key_of, value_of};
ghost use Rattle.pgo_base.specs.PairsView.{all_pairs};

use crate::pairs::Pairs;
use crate::value::Value;
use std::cmp::Ordering;

fn kind(v: &Value) -> u8
    ensures { result ≡ kind (data_of v.now) }
{
    match v {
        Value::Bool(_) => 0,
        Value::Int(_) => 1,
        Value::Str(_) => 2,
        Value::Model(_) => 3,
        Value::Set(_) => 4,
        Value::Fun(_) => 5,
    }
}

/// The order of two values.
#[cycle(compare)]
pub fn compare(a: &Value, b: &Value) -> Ordering
    ensures { result ≡ data_cmp (data_of a.now) (data_of b.now) }
{
    match (a, b) {
        (Value::Bool(x), Value::Bool(y)) => x.cmp(y),
        (Value::Int(x), Value::Int(y)) => x.cmp(y),
        (Value::Str(x), Value::Str(y)) => x.compare(y),
        (Value::Model(x), Value::Model(y)) => x.compare(y),
        (Value::Set(x), Value::Set(y)) => compare_sets(x.members(), y.members()),
        (Value::Fun(x), Value::Fun(y)) => compare_functions(x.pairs(), y.pairs()),
        _ => kind(a).cmp(&kind(b)),
    }
}

/// The order of the sets of these members: by their number, then by the members.
#[cycle(compare)]
fn compare_sets(xs: &[Value], ys: &[Value]) -> Ordering
    ensures { result ≡ ordering_then (nat_cmp (length xs.now) (length ys.now)) (slice_cmp data_cmp (map data_of xs.now) (map data_of ys.now)) }
{
    let counts = xs.len().cmp(&ys.len());
    if counts.is_ne() {
        return counts;
    }
    compare_members(xs, ys)
}

/// The order of the functions of these pairs: by their number, then by the keys, then by the values.
#[cycle(compare)]
fn compare_functions(xs: Pairs<'_>, ys: Pairs<'_>) -> Ordering
    ensures { result ≡ ordering_then (ordering_then (nat_cmp (length (all_pairs xs.entry)) (length (all_pairs ys.entry))) (slice_cmp data_cmp (map key_of (all_pairs xs.entry)) (map key_of (all_pairs ys.entry)))) (slice_cmp data_cmp (map value_of (all_pairs xs.entry)) (map value_of (all_pairs ys.entry))) }
{
    let sizes = xs.len().cmp(&ys.len());
    if sizes.is_ne() {
        return sizes;
    }
    let domains = compare_keys(xs, ys);
    if domains.is_ne() {
        return domains;
    }
    compare_values(xs, ys)
}

#[cycle(compare)]
fn compare_members(xs: &[Value], ys: &[Value]) -> Ordering
    ensures { result ≡ slice_cmp data_cmp (map data_of xs.now) (map data_of ys.now) }
{
    let n = xs.len().min(ys.len());
    for i in 0..n {
        let first = compare(&xs[i], &ys[i]);
        if first.is_ne() {
            return first;
        }
    }
    xs.len().cmp(&ys.len())
}

#[cycle(compare)]
fn compare_keys(xs: Pairs<'_>, ys: Pairs<'_>) -> Ordering
    ensures { result ≡ slice_cmp data_cmp (map key_of (all_pairs xs.entry)) (map key_of (all_pairs ys.entry)) }
{
    let n = xs.len().min(ys.len());
    for i in 0..n {
        let first = compare(&xs.at(i).0, &ys.at(i).0);
        if first.is_ne() {
            return first;
        }
    }
    xs.len().cmp(&ys.len())
}

#[cycle(compare)]
fn compare_values(xs: Pairs<'_>, ys: Pairs<'_>) -> Ordering
    ensures { result ≡ slice_cmp data_cmp (map value_of (all_pairs xs.entry)) (map value_of (all_pairs ys.entry)) }
{
    let n = xs.len().min(ys.len());
    for i in 0..n {
        let first = compare(&xs.at(i).1, &ys.at(i).1);
        if first.is_ne() {
            return first;
        }
    }
    xs.len().cmp(&ys.len())
}
