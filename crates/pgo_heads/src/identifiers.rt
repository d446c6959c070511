// The identifiers of all processes.
ghost use Rattle.std.specs.Prelude.{◌≡◌, ◌++◌, map, IfOk};
ghost use Rattle.pgo_base.specs.View.{data_of};
ghost use Rattle.pgo_bound.specs.Runs.{all_ids};
ghost use Rattle.pgo_heads.specs.Views.{run_view};

use crate::runs::Run;
use pgo_base::value::Value;
use std::alloc::{AllocError, Global};

/// The identifiers of a process, once more, at the end.
fn add_ids(alloc: Global, ids: &[Value], list: &mut Vec<Value>) -> Result<(), AllocError>
    ensures { IfOk result (λ _. map data_of list.new.items ≡ map data_of list.old.items ++ map data_of ids.now) }
{
    for id in ids {
        list.push(id.copy(alloc)?)?;
    }
    Ok(())
}

/// The identifiers of all processes, once more.
pub fn all_ids(alloc: Global, runs: &[Run<'_>]) -> Result<Vec<Value>, AllocError>
    ensures { IfOk result (λ v. map data_of v.items ≡ all_ids (map run_view runs.now)) }
{
    let mut list = Vec::new(alloc);
    for r in runs {
        add_ids(alloc, r.run_ids(), &mut list)?;
    }
    Ok(list)
}
