// Which archetype runs under which identifiers, with which arguments.
ghost use Rattle.std.specs.Prelude.{◌≡◌, map, None, option_map, IfOk};
ghost use Rattle.pgo_base.specs.View.{data_of};
ghost use Rattle.pgo_base.specs.ExprView.{tree};
ghost use Rattle.pgo_model.specs.Operators.{members_of};
ghost use Rattle.pgo_bound.specs.Runs as specs;
ghost use Rattle.pgo_heads.specs.Views.{run_view};

use crate::values::closed_value;
use pgo_base::value::Value;
use pgo_definitions::definitions::EvaluatedDefinitions;
use pgo_heads::indexed_spec::IndexedSpec;
use pgo_heads::runs::{Run, matched};
use pgo_syntax::archetype::Archetype;
use pgo_syntax::binding::Origin;
use pgo_syntax::process::Process;
use pgo_syntax::spec::Spec;
use std::alloc::{AllocError, Global};

/// These values once more.
fn copies(alloc: Global, values: &[Value]) -> Result<Vec<Value>, AllocError>
    ensures { IfOk result (λ v. map data_of v.items ≡ map data_of values.now) }
{
    let mut list = Vec::with_capacity(alloc, values.len())?;
    for v in values {
        list.push(v.copy(alloc)?)?;
    }
    Ok(list)
}

/// The members of a set.
fn members(alloc: Global, value: &Value) -> Result<Option<Vec<Value>>, AllocError>
    ensures { IfOk result (λ o. option_map (λ v. map data_of v.items) o ≡ members_of (data_of value.now)) }
{
    match value {
        Value::Set(set) => Ok(Some(copies(alloc, set.members())?)),
        _ => Ok(None),
    }
}

/// The members of a set, if it is one.
fn members_of(alloc: Global, value: Option<Value>) -> Result<Option<Vec<Value>>, AllocError>
    ensures { IfOk result (λ o. option_map (λ v. map data_of v.items) o ≡ specs.members_in (option_map data_of value)) }
{
    match &value {
        None => Ok(None),
        Some(v) => members(alloc, v),
    }
}

/// The value alone, if there is one.
fn alone(alloc: Global, value: Option<Value>) -> Result<Option<Vec<Value>>, AllocError>
    ensures { IfOk result (λ o. option_map (λ v. map data_of v.items) o ≡ specs.alone (option_map data_of value)) }
{
    match value {
        None => Ok(None),
        Some(v) => Ok(Some(vec![in alloc; v]?)),
    }
}

/// The identifiers of a process, in value order.
fn ids_of(
    alloc: Global,
    defs: &EvaluatedDefinitions,
    origin: &Origin,
) -> Result<Option<Vec<Value>>, AllocError>
    ensures { IfOk result (λ o. option_map (λ v. map data_of v.items) o ≡ specs.ids_of defs.now origin.now) }
{
    match origin {
        Origin::Equals(e) => alone(alloc, closed_value(alloc, defs, e.get())?),
        Origin::In(e) => members_of(alloc, closed_value(alloc, defs, e.get())?),
    }
}

/// A process with this archetype.
fn run_with<'a>(
    alloc: Global,
    defs: &EvaluatedDefinitions,
    process: &'a Process,
    archetype: &'a Archetype,
) -> Result<Run<'a>, AllocError>
    ensures { IfOk result (λ r. run_view r ≡ specs.run_with defs.now process.now archetype.now) }
{
    let params = archetype.params.as_slice();
    Ok(Run {
        process,
        archetype,
        handed: matched(alloc, params, process.arguments.as_slice())?,
        ids: ids_of(alloc, defs, &process.ids)?,
    })
}

/// The processes whose archetype is there, in the order of the text.
pub fn runs_of<'a>(
    alloc: Global,
    spec: &'a Spec,
    defs: &EvaluatedDefinitions,
) -> Result<Vec<Run<'a>>, AllocError>
    ensures { IfOk result (λ v. map run_view v.items ≡ specs.runs_of spec.now defs.now) }
{
    let indexed = IndexedSpec::new(alloc, spec)?;
    let mut list = Vec::new(alloc);
    for p in spec.processes.as_slice() {
        match indexed.archetype_named(&p.archetype.name) {
            None => continue,
            Some(a) => {
                list.push(run_with(alloc, defs, p, a)?)?;
                continue;
            }
        }
    }
    Ok(list)
}
