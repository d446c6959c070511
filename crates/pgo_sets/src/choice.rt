// What the values of a function are chosen from.
ghost use Rattle.std.specs.Prelude.{◌≡◌, ◌-◌, ◌^◌, min, option_map, map, IfOk};
ghost use Rattle.pgo_base.specs.PairsView.{all_pairs};
ghost use Rattle.pgo_base.specs.View.{data_of, pair_of};
ghost use Rattle.pgo_model.specs.FunctionSets as sets;
ghost use Rattle.pgo_sets.specs.Choices.{choice_of, members_in};

use crate::lookup::{as_set, contains};
use crate::sequences::number;
use pgo_base::compare::compare;
use pgo_base::pairs::Pairs;
use pgo_base::value::{Set, Value};
use std::alloc::{AllocError, Global};

/// A key, and the set from which the value there comes.
#[derive(Drop)]
pub struct Choice<'a> {
    pub key: Value,
    pub members: &'a Set,
}

/// The choices of a product: the keys are 1 and so on. None where a factor is no set.
pub fn product_choices<'a>(
    alloc: Global,
    factors: &'a [Value],
) -> Result<Option<Vec<Choice<'a>>>, AllocError>
    ensures { IfOk result (λ o. option_map (λ cs. map choice_of cs.items) o ≡ sets.product_choices (map data_of factors.now)) }
{
    let mut choices = Vec::new(alloc);
    for i in 0..factors.len() {
        let Some(members) = as_set(&factors[i]) else {
            return Ok(None);
        };
        let key = number(i);
        choices.push(Choice { key, members })?;
    }
    Ok(Some(choices))
}

/// The choices of a set of functions from one set to another.
pub fn function_choices<'a>(
    alloc: Global,
    domain: &[Value],
    members: &'a Set,
) -> Result<Vec<Choice<'a>>, AllocError>
    ensures { IfOk result (λ cs. map choice_of cs.items ≡ map (λ k. (data_of k, members.now)) domain.now) }
{
    let mut choices = Vec::new(alloc);
    for k in domain {
        let key = k.copy(alloc)?;
        choices.push(Choice { key, members })?;
    }
    Ok(choices)
}

/// The choices of a set of records with these fields. None where one is no set.
pub fn record_choices<'a>(
    alloc: Global,
    fields: Pairs<'a>,
) -> Result<Option<Vec<Choice<'a>>>, AllocError>
    ensures { IfOk result (λ o. option_map (λ cs. map choice_of cs.items) o ≡ sets.choices_of (map pair_of (all_pairs fields.entry))) }
{
    let mut choices = Vec::new(alloc);
    for i in 0..fields.len() {
        let p = fields.at(i);
        let Some(members) = as_set(&p.1) else {
            return Ok(None);
        };
        let key = p.0.copy(alloc)?;
        choices.push(Choice { key, members })?;
    }
    Ok(Some(choices))
}

/// How many lists of one member from each there are, or 2^64 - 1 where there are more.
pub fn count(choices: &[Choice<'_>]) -> usize
    ensures { result ≡ min (sets.choice_count (map members_in choices.now)) (2 ^ 64 - 1) }
{
    let mut count: usize = 1;
    for c in choices {
        count = count.saturating_mul(c.members.len());
    }
    count
}

/// Whether v is a function whose keys are these, with a value from the set of each.
pub fn fits(choices: &[Choice<'_>], v: &Value) -> bool
    ensures { result ≡ sets.fits (map choice_of choices.now) (data_of v.now) }
{
    match v {
        Value::Fun(function) => pairs_fit(choices, function.pairs()),
        _ => false,
    }
}

/// Whether the keys are these, with a value from the set of each.
fn pairs_fit(choices: &[Choice<'_>], pairs: Pairs<'_>) -> bool
    ensures { result ≡ sets.graph_fits (map choice_of choices.now) (map pair_of (all_pairs pairs.entry)) }
{
    if choices.len() != pairs.len() {
        return false;
    }
    for i in 0..choices.len() {
        let c = &choices[i];
        let p = pairs.at(i);
        if compare(&p.0, &c.key).is_ne() || !contains(c.members, &p.1) {
            return false;
        }
    }
    true
}
