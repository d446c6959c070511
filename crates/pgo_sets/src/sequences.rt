// The operators on sequences, which are functions on 1 .. n.
ghost use Rattle.std.specs.Prelude.{◌≡◌, ◌<◌, ◌≤◌, ◌+◌, ◌^◌, ℕ, suc, pos, vec_len, List, [], ◌∷◌, ◌++◌, length, take, drop, Some, None, if◌then◌else◌, map, option_map, option_and_then, IfOk};
ghost use Rattle.std.specs.List.Sorted.{IsStrictlySortedBy};
ghost use Rattle.pgo_base.specs.Data.{Data, integer, keys};
ghost use Rattle.pgo_base.specs.Order.{data_cmp};
ghost use Rattle.pgo_base.specs.PairsView.{all_pairs};
ghost use Rattle.pgo_base.specs.View.{data_of, pair_of, value_of};
ghost use Rattle.pgo_model.specs.Operators as operators;
ghost use Rattle.pgo_model.specs.Sequences as sequences;
ghost use Rattle.pgo_sets.specs.Answers.{Answers};

use crate::build::{MOST_MEMBERS, built, sorted_function};
use crate::errors::EvalStop;
use pgo_base::compare::compare;
use pgo_base::pairs::Pairs;
use pgo_base::value::{Fun, Value};
use std::alloc::{AllocError, Global};

/// The sequence of these elements: the function on 1 .. n that has them.
///
/// NoValue where it has more than 65,536 elements or is deeper than 2,048.
pub fn sequence_of(alloc: Global, elements: Vec<Value>) -> Result<Value, EvalStop>
    ensures { Answers result (operators.sequence (map data_of elements.items)) }
{
    if elements.len() > MOST_MEMBERS {
        return Err(EvalStop::NoValue);
    }
    sorted_function(numbered(alloc, elements)?)
}

/// These elements with their numbers from 1, which are in order.
fn numbered(alloc: Global, elements: Vec<Value>) -> Result<Vec<(Value, Value)>, AllocError>
    requires { vec_len elements ≤ operators.most_members }
    ensures pairs { IfOk result (λ ps. map pair_of ps.items ≡ operators.sequence_at 1 (map data_of elements.items)) }
    ensures sorted { IfOk result (λ ps. IsStrictlySortedBy data_cmp (keys (map pair_of ps.items))) }
{
    let mut pairs = Vec::with_capacity(alloc, elements.len())?;
    for v in elements {
        pairs.push((number(pairs.len()), v))?;
    }
    Ok(pairs)
}

/// The number of the element behind n others.
pub fn number(n: usize) -> Value
    requires { n + 1 < 2 ^ 63 }
    ensures { data_of result ≡ integer (pos (suc n)) }
{
    Value::Int(n as i64 + 1)
}

/// The pairs of a sequence, which are in the order of their numbers; none where s is no sequence.
fn elements(s: &Value) -> Option<Pairs<'_>>
    ensures { option_map (λ r. map value_of (all_pairs r)) result ≡ sequences.elements (data_of s.now) }
{
    match s {
        Value::Fun(function) => counted(function),
        _ => None,
    }
}

/// The pairs of this function, where its keys are 1, 2 and so on.
fn counted(function: &Fun) -> Option<Pairs<'_>>
    ensures { option_map (λ r. map value_of (all_pairs r)) result ≡ sequences.elements_from 1 function.now }
{
    let pairs = function.in_order();
    if are_numbers(pairs) {
        Some(pairs)
    } else {
        None
    }
}

/// Whether the keys of these pairs are 1, 2 and so on. As they are in order, each once, the first and the last tell.
fn are_numbers(pairs: Pairs<'_>) -> bool
    requires { IsStrictlySortedBy data_cmp (keys (map pair_of (all_pairs pairs))) }
    ensures { (if result then Some (map value_of (all_pairs pairs.entry)) else None) ≡ sequences.elements_from 1 (map pair_of (all_pairs pairs.entry)) }
{
    let count = pairs.len();
    if count == 0 {
        return true;
    }
    let last = count - 1;
    let begins = is_number(&pairs.at(0).0, 0);
    let ends = is_number(&pairs.at(last).0, last);
    begins && ends
}

/// Whether v is the number of the element behind n others.
fn is_number(v: &Value, n: usize) -> bool
    requires { n + 1 < 2 ^ 63 }
    ensures { result ≡ operators.same_data (data_of v.now) (integer (pos (suc n))) }
{
    compare(v, &number(n)).is_eq()
}

/// Copies of the values of some pairs, so many from a place on, behind the others, with the numbers that follow.
fn add_numbered(
    alloc: Global,
    all: &mut Vec<(Value, Value)>,
    pairs: Pairs<'_>,
    from: usize,
    count: usize,
) -> Result<(), AllocError>
    requires part { from + count ≤ length (all_pairs pairs) }
    requires few { vec_len all.old + count ≤ operators.most_members }
    ensures count { IfOk result (λ _. vec_len all.new ≡ vec_len all.old + count) }
    ensures pairs { IfOk result (λ _. (vs : List Data) → map pair_of all.old.items ≡ operators.sequence_at 1 vs → map pair_of all.new.items ≡ operators.sequence_at 1 (vs ++ take count (drop from (map value_of (all_pairs pairs.entry))))) }
{
    for i in 0..count {
        let key = number(all.len());
        let v = pairs.at(from + i).1.copy(alloc)?;
        all.push((key, v))?;
    }
    Ok(())
}

/// The pairs of the sequence of so many elements from a place on: the values are copied, and numbered anew.
fn numbered_part(
    alloc: Global,
    pairs: Pairs<'_>,
    from: usize,
    count: usize,
) -> Result<Vec<(Value, Value)>, AllocError>
    requires part { from + count ≤ length (all_pairs pairs) }
    requires few { count ≤ operators.most_members }
    ensures { IfOk result (λ ps. map pair_of ps.items ≡ operators.sequence_at 1 (take count (drop from (map value_of (all_pairs pairs.entry))))) }
{
    let mut part = Vec::with_capacity(alloc, count)?;
    add_numbered(alloc, &mut part, pairs, from, count)?;
    Ok(part)
}

/// The sequence of so many elements of these from a place on.
fn part_of(alloc: Global, pairs: Pairs<'_>, from: usize, count: usize) -> Result<Value, EvalStop>
    requires { from + count ≤ length (all_pairs pairs) }
    ensures { Answers result (operators.sequence (take count (drop from (map value_of (all_pairs pairs.entry))))) }
{
    if count > MOST_MEMBERS {
        return Err(EvalStop::NoValue);
    }
    sorted_function(numbered_part(alloc, pairs, from, count)?)
}

/// `Len(s)`: how many elements s has. It takes no memory.
///
/// NoValue where s is no sequence. Source: "Specifying Systems", Sequences.
pub fn len(s: &Value) -> Result<Value, EvalStop>
    ensures { Answers result (sequences.len (data_of s.now)) }
{
    match elements(s) {
        Some(pairs) => Ok(Value::Int(pairs.len() as i64)),
        None => Err(EvalStop::NoValue),
    }
}

/// `Head(s)`: the first element, copied.
///
/// NoValue where s is no sequence or has no element. Source: "Specifying Systems", Sequences.
pub fn head(alloc: Global, s: &Value) -> Result<Value, EvalStop>
    ensures { Answers result (sequences.head (data_of s.now)) }
{
    match elements(s) {
        Some(pairs) => first_element(alloc, pairs),
        None => Err(EvalStop::NoValue),
    }
}

/// The value of the first of these pairs, copied.
fn first_element(alloc: Global, pairs: Pairs<'_>) -> Result<Value, EvalStop>
    ensures { Answers result (sequences.first_element (map value_of (all_pairs pairs.entry))) }
{
    if pairs.len() == 0 {
        return Err(EvalStop::NoValue);
    }
    Ok(pairs.at(0).1.copy(alloc)?)
}

/// `Tail(s)`: the sequence of all elements but the first.
///
/// NoValue where s is no sequence or has no element. Source: "Specifying Systems", Sequences.
pub fn tail(alloc: Global, s: &Value) -> Result<Value, EvalStop>
    ensures { Answers result (sequences.tail (data_of s.now)) }
{
    match elements(s) {
        Some(pairs) => later_elements(alloc, pairs),
        None => Err(EvalStop::NoValue),
    }
}

/// The sequence of the values of all of these pairs but the first.
fn later_elements(alloc: Global, pairs: Pairs<'_>) -> Result<Value, EvalStop>
    ensures { Answers result (sequences.later_elements (map value_of (all_pairs pairs.entry))) }
{
    let count = pairs.len();
    if count == 0 {
        return Err(EvalStop::NoValue);
    }
    part_of(alloc, pairs, 1, count - 1)
}

/// `Append(s, x)`: the elements of s, and x behind them. Where s is long, the most of its elements are not copied, but have one
/// more owner.
///
/// NoValue where s is no sequence, or there are more than 65,536 elements. Source: "Specifying Systems", Sequences.
pub fn append(alloc: Global, s: &Value, x: &Value) -> Result<Value, EvalStop>
    ensures { Answers result (sequences.append (data_of s.now) (data_of x.now)) }
{
    match s {
        Value::Fun(function) => with_behind(alloc, function.copy(alloc)?, x.copy(alloc)?),
        _ => Err(EvalStop::NoValue),
    }
}

/// The same, where the sequence and the element are given away: a sequence that nobody else has is changed in place.
pub fn append_to(alloc: Global, s: Value, x: Value) -> Result<Value, EvalStop>
    ensures { Answers result (sequences.append (data_of s) (data_of x)) }
{
    match s {
        Value::Fun(function) => with_behind(alloc, function, x),
        _ => Err(EvalStop::NoValue),
    }
}

/// The sequence that this function is, with x behind its elements.
fn with_behind(alloc: Global, function: Fun, x: Value) -> Result<Value, EvalStop>
    ensures { Answers result (option_and_then (λ vs. operators.sequence (vs ++ data_of x ∷ [])) (sequences.elements_from 1 function)) }
{
    if counted(&function).is_none() {
        return Err(EvalStop::NoValue);
    }
    let count = function.len();
    if count >= MOST_MEMBERS {
        return Err(EvalStop::NoValue);
    }
    let longer = function.append(alloc, number(count), x)?;
    built(count + 1, Value::Fun(longer))
}

/// `s \o t`: the elements of s, and behind them those of t.
///
/// NoValue where s or t is no sequence, or there are more than 65,536 elements. Source: "Specifying Systems",
/// Sequences.
pub fn concat(alloc: Global, s: &Value, t: &Value) -> Result<Value, EvalStop>
    ensures { Answers result (sequences.concat (data_of s.now) (data_of t.now)) }
{
    let (Some(left), Some(right)) = (elements(s), elements(t)) else {
        return Err(EvalStop::NoValue);
    };
    joined(alloc, left, right)
}

/// The sequence of the values of these pairs, and behind them those of the others.
fn joined(alloc: Global, left: Pairs<'_>, right: Pairs<'_>) -> Result<Value, EvalStop>
    ensures { Answers result (operators.sequence (map value_of (all_pairs left.entry) ++ map value_of (all_pairs right.entry))) }
{
    if left.len() + right.len() > MOST_MEMBERS {
        return Err(EvalStop::NoValue);
    }
    sorted_function(numbered_both(alloc, left, right)?)
}

/// The pairs of that sequence.
fn numbered_both(
    alloc: Global,
    left: Pairs<'_>,
    right: Pairs<'_>,
) -> Result<Vec<(Value, Value)>, AllocError>
    requires { length (all_pairs left) + length (all_pairs right) ≤ operators.most_members }
    ensures { IfOk result (λ ps. map pair_of ps.items ≡ operators.sequence_at 1 (map value_of (all_pairs left.entry) ++ map value_of (all_pairs right.entry))) }
{
    let mut both = Vec::with_capacity(alloc, left.len() + right.len())?;
    add_numbered(alloc, &mut both, left, 0, left.len())?;
    add_numbered(alloc, &mut both, right, 0, right.len())?;
    Ok(both)
}

/// `SubSeq(s, m, n)`: the elements m to n of s, which are numbered from 1; none where m is above n.
///
/// NoValue where s is no sequence, m or n is no integer, or one of m .. n is not the number of an element. Source:
/// "Specifying Systems", Sequences.
pub fn sub_seq(alloc: Global, s: &Value, m: &Value, n: &Value) -> Result<Value, EvalStop>
    ensures { Answers result (sequences.sub_seq (data_of s.now) (data_of m.now) (data_of n.now)) }
{
    let Some(pairs) = elements(s) else {
        return Err(EvalStop::NoValue);
    };
    match (m, n) {
        (Value::Int(first), Value::Int(last)) => slice(alloc, pairs, *first, *last),
        _ => Err(EvalStop::NoValue),
    }
}

/// The sequence of the values of the pairs first to last, which are numbered from 1.
fn slice(alloc: Global, pairs: Pairs<'_>, first: i64, last: i64) -> Result<Value, EvalStop>
    ensures { Answers result (sequences.slice (map value_of (all_pairs pairs.entry)) first last) }
{
    if last < first {
        return sequence_of(alloc, Vec::new(alloc));
    }
    if first < 1 || last > pairs.len() as i64 {
        return Err(EvalStop::NoValue);
    }
    let from = first as usize - 1;
    part_of(alloc, pairs, from, last as usize - from)
}
