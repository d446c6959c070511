// Rule 4: two processes have an identifier.
ghost use Rattle.std.specs.Prelude.{◌≡◌, map, option_map, IfOk};
ghost use Rattle.pgo_base.specs.View.{data_of};
ghost use Rattle.pgo_base.specs.ValueCode.{value_from};
ghost use Rattle.pgo_heads.specs.Answers.{Passes};
ghost use Rattle.pgo_heads.specs.Findings as findings;
ghost use Rattle.pgo_heads.specs.SameId as spec;
ghost use Rattle.pgo_heads.specs.declared.errors.BindError.TheVariants as errors;

use crate::errors::BindError;
use pgo_base::compare::compare;
use pgo_base::value::Value;
use std::alloc::{AllocError, Global};

/// These values in value order.
fn ordered(values: Vec<Value>) -> Result<Vec<Value>, AllocError>
    ensures { IfOk result (λ v. map data_of v.items ≡ spec.ordered (map data_of values.items)) }
{
    let mut list = values;
    list.sort()?;
    Ok(list)
}

/// The first that stands directly behind one that is the same.
fn repeated_behind<'a>(first: &'a Value, rest: &'a [Value]) -> Option<&'a Value>
    ensures { option_map (λ r. data_of r.now) result ≡ findings.first (spec.repeated_behind (data_of first.now) (map data_of rest.now)) }
{
    let mut before = first;
    for v in rest {
        if compare(before, v).is_eq() {
            return Some(v);
        }
        before = v;
    }
    None
}

/// The first that stands directly behind one that is the same.
fn repeated(list: &[Value]) -> Option<&Value>
    ensures { option_map (λ r. data_of r.now) result ≡ findings.first (spec.repeated (map data_of list.now)) }
{
    match list.split_first() {
        None => None,
        Some((first, rest)) => repeated_behind(first, rest),
    }
}

/// Refuses an identifier that stands twice among those of all processes.
pub fn ids_differ(alloc: Global, ids: Vec<Value>) -> Result<(), BindError>
    ensures { Passes (option_map (λ id. errors.SameId (value_from id)) (findings.first (spec.repeated (spec.ordered (map data_of ids.items))))) result }
{
    let list = ordered(ids)?;
    match repeated(list.as_slice()) {
        None => Ok(()),
        Some(id) => Err(BindError::SameId {
            id: id.copy(alloc)?,
        }),
    }
}
