// Rule 5: the identifiers of a process are no set with a value, or one is too deep.
ghost use Rattle.std.specs.Prelude.{◌≡◌, map, option_map};
ghost use Rattle.pgo_base.specs.View.{data_of};
ghost use Rattle.pgo_heads.specs.Answers.{Passes};
ghost use Rattle.pgo_heads.specs.Findings as findings;
ghost use Rattle.pgo_heads.specs.IdsNoValue as spec;
ghost use Rattle.pgo_heads.specs.Views.{run_view};
ghost use Rattle.pgo_heads.specs.declared.errors.BindError.TheVariants as errors;

use crate::errors::BindError;
use crate::runs::Run;
use pgo_base::depth::is_deeper;
use pgo_base::value::Value;
use std::alloc::Global;

/// Whether some identifier is too deep.
fn is_some_deep(ids: &[Value]) -> bool
    ensures { result ≡ spec.is_some_deep (map data_of ids.now) }
{
    for id in ids {
        if is_deeper(id, 255) {
            return true;
        }
    }
    false
}

/// Whether the identifiers have no value, or one of them is too deep.
fn has_no_ids(ids: &Option<Vec<Value>>) -> bool
    ensures { result ≡ spec.has_no_ids (option_map (λ v. map data_of v.items) ids.now) }
{
    match ids {
        None => true,
        Some(ids) => is_some_deep(ids.as_slice()),
    }
}

/// Refuses a process whose identifiers have no value, or one that is too deep.
pub fn ids_known(alloc: Global, runs: &[Run<'_>]) -> Result<(), BindError>
    ensures { Passes (option_map errors.IdsNoValue (findings.first (spec.ids_unknown (map run_view runs.now)))) result }
{
    for r in runs {
        if has_no_ids(&r.ids) {
            return Err(BindError::IdsNoValue {
                process: r.process.name.name.copy(alloc)?,
            });
        }
    }
    Ok(())
}
