// Forms made from the values of their parts.
ghost use Rattle.std.specs.Prelude.{◌≡◌, List, map, Option, option_map, option_and_then, IfOk};
ghost use Rattle.pgo_base.specs.Data.{Data};
ghost use Rattle.pgo_base.specs.View.{data_of, pair_of};
ghost use Rattle.pgo_model.specs.Operators.{both, set_from, function_from, sequence};
ghost use Rattle.pgo_model.specs.FunctionSets.{product_choices, function_choices, record_choices};
ghost use Rattle.pgo_model.specs.Val.{plain, range_sem, functions_sem, power_sem};
ghost use Rattle.pgo_eval.specs.HeldView.{held_data, sem_of};

use crate::answers::held_or_none;
use crate::evaluated::Evaluated;
use crate::held::Held;
use pgo_base::value::Value;
use pgo_sets::build::{function_of, set_of};
use pgo_sets::sequences::sequence_of;
use std::alloc::{AllocError, Global};

/// What an expression with this value comes to.
pub fn plainly<'a>(
    v: Result<Option<Held<'a>>, AllocError>,
) -> Result<Option<Evaluated<'a>>, AllocError>
    ensures { (d : Option Data) → IfOk v.entry (λ h. option_map held_data h ≡ d) → IfOk result (λ o. sem_of o ≡ plain d) }
{
    match v? {
        Some(v) => Ok(Some(Evaluated::OfValue(v))),
        None => Ok(None),
    }
}

/// What an expression with this value of its own comes to.
pub fn owning<'a>(v: Result<Option<Value>, AllocError>) -> Result<Option<Evaluated<'a>>, AllocError>
    ensures { (d : Option Data) → IfOk v (λ x. option_map data_of x ≡ d) → IfOk result (λ o. sem_of o ≡ plain d) }
{
    Ok(with_value(v?))
}

/// The same, where there was memory for the value.
pub fn with_value<'a>(v: Option<Value>) -> Option<Evaluated<'a>>
    ensures { sem_of result ≡ plain (option_map data_of v) }
{
    match v {
        Some(v) => Some(Evaluated::OfValue(Held::Own(v))),
        None => None,
    }
}

/// `SUBSET s`.
pub fn subsets<'a>(s: Option<Held<'a>>) -> Option<Evaluated<'a>>
    ensures { sem_of result ≡ power_sem (option_map held_data s.entry) }
{
    match s {
        Some(s) => Some(Evaluated::Subsets(s)),
        None => None,
    }
}

/// `a .. b`.
pub fn range<'a>(a: Option<Held<'a>>, b: Option<Held<'a>>) -> Option<Evaluated<'a>>
    ensures { sem_of result ≡ range_sem (option_map held_data a.entry) (option_map held_data b.entry) }
{
    match (a, b) {
        (Some(a), Some(b)) => Some(Evaluated::Range(a, b)),
        _ => None,
    }
}

/// `[a -> b]`.
pub fn functions<'a>(
    a: Result<Option<Held<'a>>, AllocError>,
    b: Result<Option<Held<'a>>, AllocError>,
) -> Result<Option<Evaluated<'a>>, AllocError>
    ensures { (d e : Option Data) → IfOk a.entry (λ h. option_map held_data h ≡ d) → IfOk b.entry (λ h. option_map held_data h ≡ e)
        → IfOk result (λ o. sem_of o ≡ functions_sem (both function_choices d e)) }
{
    match (a?, b?) {
        (Some(a), Some(b)) => Ok(Some(Evaluated::Functions(a, b))),
        _ => Ok(None),
    }
}

/// The product of these sets.
pub fn product<'a>(
    factors: Result<Option<Vec<Value>>, AllocError>,
) -> Result<Option<Evaluated<'a>>, AllocError>
    ensures { (d : Option (List Data)) → IfOk factors (λ f. option_map (λ vs. map data_of vs.items) f ≡ d)
        → IfOk result (λ o. sem_of o ≡ functions_sem (option_and_then product_choices d)) }
{
    match factors? {
        Some(factors) => Ok(Some(Evaluated::Product(factors))),
        None => Ok(None),
    }
}

/// `[k : s, ..]`.
pub fn records<'a>(
    fields: Result<Option<Vec<(Value, Value)>>, AllocError>,
) -> Result<Option<Evaluated<'a>>, AllocError>
    ensures { (d : Option (List (Data × Data))) → IfOk fields (λ f. option_map (λ ps. map pair_of ps.items) f ≡ d)
        → IfOk result (λ o. sem_of o ≡ functions_sem (option_and_then record_choices d)) }
{
    match fields? {
        Some(fields) => Ok(Some(Evaluated::Records(fields))),
        None => Ok(None),
    }
}

/// `[k |-> v, ..]`.
pub fn record<'a>(
    fields: Result<Option<Vec<(Value, Value)>>, AllocError>,
) -> Result<Option<Held<'a>>, AllocError>
    ensures { (d : Option (List (Data × Data))) → IfOk fields (λ f. option_map (λ ps. map pair_of ps.items) f ≡ d)
        → IfOk result (λ o. option_map held_data o ≡ option_and_then function_from d) }
{
    match fields? {
        Some(fields) => held_or_none(function_of(fields)),
        None => Ok(None),
    }
}

/// `{v, ..}`.
pub fn set<'a>(
    members: Result<Option<Vec<Value>>, AllocError>,
) -> Result<Option<Held<'a>>, AllocError>
    ensures { (d : Option (List Data)) → IfOk members (λ m. option_map (λ vs. map data_of vs.items) m ≡ d)
        → IfOk result (λ o. option_map held_data o ≡ option_and_then set_from d) }
{
    match members? {
        Some(members) => held_or_none(set_of(members)),
        None => Ok(None),
    }
}

/// `<<v, ..>>`.
pub fn tuple<'a>(
    alloc: Global,
    elements: Result<Option<Vec<Value>>, AllocError>,
) -> Result<Option<Held<'a>>, AllocError>
    ensures { (d : Option (List Data)) → IfOk elements (λ m. option_map (λ vs. map data_of vs.items) m ≡ d)
        → IfOk result (λ o. option_map held_data o ≡ option_and_then sequence d) }
{
    match elements? {
        Some(elements) => held_or_none(sequence_of(alloc, elements)),
        None => Ok(None),
    }
}
