// Sets and functions that are made of their parts.
ghost use Rattle.std.specs.Prelude.{◌≡◌, map, option_map, IfOk};
ghost use Rattle.pgo_base.specs.Data.{set, function, items};
ghost use Rattle.pgo_base.specs.Data as values;
ghost use Rattle.pgo_base.specs.Sets.{in_order};
ghost use Rattle.pgo_base.specs.View.{data_of, pair_of};
ghost use Rattle.pgo_base.specs.Pairs.{pairs_in_order};
ghost use Rattle.pgo_model.specs.Operators.{sequence_at};
ghost use Rattle.pgo_value_text.specs.Reading as spec;

use pgo_base::value::{Fun, Set, Value};
use std::alloc::{AllocError, Global};

/// The set of these members.
pub fn set_from(members: Vec<Value>) -> Result<Value, AllocError>
    ensures { IfOk result (λ v. data_of v ≡ set (items (in_order (map data_of members.items)))) }
{
    Ok(Value::Set(Set::from_members(members)?))
}

/// The function of these pairs; of several with one key the first holds.
pub fn function_from(list: Vec<(Value, Value)>) -> Result<Value, AllocError>
    ensures { IfOk result (λ v. data_of v ≡ function (values.pairs (pairs_in_order (map pair_of list.items)))) }
{
    Ok(Value::Fun(Fun::from_pairs(list)?))
}

/// The record of these fields, where none stands twice.
pub fn record_from(fields: Vec<(Value, Value)>) -> Result<Option<Value>, AllocError>
    ensures { IfOk result (λ o. option_map data_of o ≡ spec.record_from (map pair_of fields.items)) }
{
    let count = fields.len();
    let record = Fun::from_pairs(fields)?;
    if record.len() == count {
        Ok(Some(Value::Fun(record)))
    } else {
        Ok(None)
    }
}

/// These elements, numbered from 1.
fn numbered(alloc: Global, elements: Vec<Value>) -> Result<Vec<(Value, Value)>, AllocError>
    ensures { IfOk result (λ v. map pair_of v.items ≡ sequence_at 1 (map data_of elements.items)) }
{
    let mut numbered = Vec::with_capacity(alloc, elements.len())?;
    for element in elements {
        let number = (numbered.len() + 1) as i64;
        numbered.push((Value::Int(number), element))?;
    }
    Ok(numbered)
}

/// The function on 1, 2 and so on with these elements.
pub fn tuple_from(alloc: Global, elements: Vec<Value>) -> Result<Value, AllocError>
    ensures { IfOk result (λ v. data_of v ≡ function (values.pairs (sequence_at 1 (map data_of elements.items)))) }
{
    Ok(Value::Fun(Fun::from_sorted(numbered(alloc, elements)?)?))
}
