// The globals with what they start with.
ghost use Rattle.std.specs.Prelude.{◌≡◌, map, IfOk};
ghost use Rattle.pgo_bound.specs.BoundOf as specs;
ghost use Rattle.pgo_heads.specs.Views.{run_view, global_view};

use crate::values::global_start;
use pgo_definitions::definitions::EvaluatedDefinitions;
use pgo_heads::globals::GlobalStart;
use pgo_heads::kinds::Kinds;
use pgo_heads::runs::Run;
use pgo_syntax::spec::Spec;
use std::alloc::{AllocError, Global};

/// The globals in the order of declaration.
pub fn globals_of<'a>(
    alloc: Global,
    spec: &'a Spec,
    defs: &EvaluatedDefinitions,
    runs: &[Run<'_>],
) -> Result<Vec<GlobalStart<'a>>, AllocError>
    ensures { IfOk result (λ v. map global_view v.items ≡ specs.globals_of spec.now defs.now (map run_view runs.now)) }
{
    let kinds = Kinds::new(alloc, runs)?;
    let mut list = Vec::new(alloc);
    for declaration in spec.globals.as_slice() {
        let kind = kinds.kind_of(&declaration.name.name);
        let start = global_start(alloc, defs, &declaration.initial)?;
        list.push(GlobalStart {
            declaration,
            kind,
            start,
        })?;
    }
    Ok(list)
}
