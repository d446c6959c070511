// Sets of functions: products, all functions from one set to another, and sets of records.
ghost use Rattle.std.specs.Prelude.{◌≡◌, ◌<◌, [], ◌∷◌, ℕ, suc, pos, map, option_map, option_and_then, IfOk};
ghost use Rattle.std.specs.List.Sorted.{IsStrictlySortedBy};
ghost use Rattle.pgo_base.specs.Data.{keys, integer};
ghost use Rattle.pgo_base.specs.Order.{data_cmp};
ghost use Rattle.pgo_base.specs.PairsView.{all_pairs};
ghost use Rattle.pgo_base.specs.View.{data_of, pair_of};
ghost use Rattle.pgo_model.specs.FunctionSets as sets;
ghost use Rattle.pgo_sets.specs.Answers.{Answers};
ghost use Rattle.pgo_sets.specs.Choices.{choice_of, key_in, members_in, pairs_at, function_at};

use crate::build::{MOST_MEMBERS, set_of, sorted_function};
use crate::choice::{self, Choice};
use crate::errors::EvalStop;
use crate::lookup::contains;
use crate::sequences::number;
use pgo_base::compare::compare;
use pgo_base::pairs::Pairs;
use pgo_base::value::{Fun, Set, Value};
use std::alloc::{AllocError, Global};

/// `a \X b`: the pairs of a member of a and one of b.
///
/// NoValue where a or b is no set, or there are more than 65,536 pairs; none is made then. Source: "Specifying
/// Systems".
pub fn product(alloc: Global, a: &Value, b: &Value) -> Result<Value, EvalStop>
    ensures { Answers result (sets.product (data_of a.now) (data_of b.now)) }
{
    match (a, b) {
        (Value::Set(left), Value::Set(right)) => pairs_of(alloc, left, right),
        _ => Err(EvalStop::NoValue),
    }
}

/// The set of the pairs of a member of the left set and one of the right.
fn pairs_of(alloc: Global, left: &Set, right: &Set) -> Result<Value, EvalStop>
    ensures { Answers result (sets.functions_over ((integer (pos 1), left.now) ∷ (integer (pos 2), right.now) ∷ [])) }
{
    let mut choices = Vec::with_capacity(alloc, 2)?;
    choices.push(element_choice(0, left))?;
    choices.push(element_choice(1, right))?;
    functions_over(alloc, choices.as_slice())
}

/// The choice of the element behind n others.
fn element_choice<'a>(n: usize, members: &'a Set) -> Choice<'a>
    requires { n < 2 }
    ensures { choice_of result ≡ (integer (pos (suc n)), members.now) }
{
    Choice {
        key: number(n),
        members,
    }
}

/// The product of these sets: the sequences of one member from each.
///
/// NoValue where one is no set, or there are more than 65,536 sequences; none is made then. Source: "Specifying
/// Systems".
pub fn product_of(alloc: Global, factors: &[Value]) -> Result<Value, EvalStop>
    ensures { Answers result (option_and_then sets.functions_over (sets.product_choices (map data_of factors.now))) }
{
    match choice::product_choices(alloc, factors)? {
        Some(choices) => functions_over(alloc, choices.as_slice()),
        None => Err(EvalStop::NoValue),
    }
}

/// `[a -> b]`: the functions on a whose values are in b.
///
/// NoValue where a or b is no set, or there are more than 65,536 functions; none is made then. Source: "Specifying
/// Systems".
pub fn functions(alloc: Global, a: &Value, b: &Value) -> Result<Value, EvalStop>
    ensures { Answers result (sets.functions (data_of a.now) (data_of b.now)) }
{
    match (a, b) {
        (Value::Set(domain), Value::Set(members)) => {
            let choices = choice::function_choices(alloc, domain.in_order(), members)?;
            functions_over(alloc, choices.as_slice())
        }
        _ => Err(EvalStop::NoValue),
    }
}

/// `[k : s, ..]`: the records with a member of the set of each field. Of a field that stands twice the left one counts.
///
/// NoValue where one is no set, or there are more than 65,536 records; none is made then. Source: "Specifying
/// Systems".
pub fn records(alloc: Global, fields: Vec<(Value, Value)>) -> Result<Value, EvalStop>
    ensures { Answers result (option_and_then sets.functions_over (sets.record_choices (map pair_of fields.items))) }
{
    let fields = Fun::from_pairs(fields)?;
    match choice::record_choices(alloc, fields.in_order())? {
        Some(choices) => functions_over(alloc, choices.as_slice()),
        None => Err(EvalStop::NoValue),
    }
}

/// The set of the functions with these keys, in order, and at each a member of its set.
fn functions_over(alloc: Global, choices: &[Choice<'_>]) -> Result<Value, EvalStop>
    requires { IsStrictlySortedBy data_cmp (map key_in choices.now) }
    ensures { Answers result (sets.functions_over (map choice_of choices.now)) }
{
    let count = choice::count(choices);
    if count > MOST_MEMBERS {
        return Err(EvalStop::NoValue);
    }
    let mut all = Vec::with_capacity(alloc, count)?;
    for number in 0..count {
        all.push(function(alloc, choices, count, number)?)?;
    }
    set_of(all)
}

/// The function with this number, of so many.
fn function(
    alloc: Global,
    choices: &[Choice<'_>],
    count: usize,
    number: usize,
) -> Result<Value, EvalStop>
    requires sorted { IsStrictlySortedBy data_cmp (map key_in choices.now) }
    requires count { count ≡ sets.choice_count (map members_in choices.now) }
    requires number { number < count }
    ensures { Answers result (function_at number choices.now) }
{
    sorted_function(pairs(alloc, choices, count, number)?)
}

/// The pairs of that function.
fn pairs(
    alloc: Global,
    choices: &[Choice<'_>],
    count: usize,
    number: usize,
) -> Result<Vec<(Value, Value)>, AllocError>
    requires count { count ≡ sets.choice_count (map members_in choices.now) }
    requires number { number < count }
    ensures { IfOk result (λ ps. map pair_of ps.items ≡ pairs_at number choices.now) }
{
    let mut pairs = Vec::with_capacity(alloc, choices.len())?;
    let mut block = count;
    let mut rest = number;
    for c in choices {
        let members = c.members.members();
        block /= members.len();
        let v = members[rest / block].copy(alloc)?;
        rest %= block;
        pairs.push((c.key.copy(alloc)?, v))?;
    }
    Ok(pairs)
}

/// Whether v is in the product of these sets, without building it; none where one is no set.
pub fn is_in_product(
    alloc: Global,
    v: &Value,
    factors: &[Value],
) -> Result<Option<bool>, AllocError>
    ensures { IfOk result (λ o. o ≡ option_map (λ cs. sets.fits cs (data_of v.now)) (sets.product_choices (map data_of factors.now))) }
{
    match choice::product_choices(alloc, factors)? {
        Some(choices) => Ok(Some(choice::fits(choices.as_slice(), v))),
        None => Ok(None),
    }
}

/// Whether v is a record of these fields, without building their set; none where one is no set.
pub fn is_in_records(
    alloc: Global,
    v: &Value,
    fields: Vec<(Value, Value)>,
) -> Result<Option<bool>, AllocError>
    ensures { IfOk result (λ o. o ≡ option_map (λ cs. sets.fits cs (data_of v.now)) (sets.record_choices (map pair_of fields.items))) }
{
    let fields = Fun::from_pairs(fields)?;
    match choice::record_choices(alloc, fields.in_order())? {
        Some(choices) => Ok(Some(choice::fits(choices.as_slice(), v))),
        None => Ok(None),
    }
}

/// Whether v is in `[a -> b]`, without building it and without memory; none where a or b is no set.
pub fn is_in_functions(v: &Value, a: &Value, b: &Value) -> Option<bool>
    ensures { result ≡ option_map (λ cs. sets.fits cs (data_of v.now)) (sets.function_choices (data_of a.now) (data_of b.now)) }
{
    match (a, b) {
        (Value::Set(domain), Value::Set(members)) => Some(is_function_between(v, domain, members)),
        _ => None,
    }
}

/// Whether v is a function on this domain whose values are members of the set.
fn is_function_between(v: &Value, domain: &Set, members: &Set) -> bool
    ensures { result ≡ sets.fits (map (λ k. (k, members.now)) domain.now) (data_of v.now) }
{
    match v {
        Value::Fun(function) => pairs_fit(function.pairs(), domain.members(), members),
        _ => false,
    }
}

/// Whether the keys are these, and the values are members of the set.
fn pairs_fit(pairs: Pairs<'_>, domain: &[Value], members: &Set) -> bool
    ensures { result ≡ sets.graph_fits (map (λ k. (data_of k, members.now)) domain.now) (map pair_of (all_pairs pairs.entry)) }
{
    if pairs.len() != domain.len() {
        return false;
    }
    for i in 0..pairs.len() {
        let p = pairs.at(i);
        if compare(&p.0, &domain[i]).is_ne() || !contains(members, &p.1) {
            return false;
        }
    }
    true
}
