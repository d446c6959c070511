// The instances: each process at each of its identifiers.
ghost use Rattle.std.specs.Prelude.{◌≡◌, ◌≤◌, ◌+◌, ◌++◌, length, map, IfOk};
ghost use Rattle.pgo_base.specs.View.{data_of};
ghost use Rattle.pgo_bound.specs.BoundOf as specs;
ghost use Rattle.pgo_heads.specs.Views.{run_view};

use crate::indexed_spec::IndexedSpec;
use crate::mapping::{bindings_of, copy_bindings};
use crate::runs::Run;
use pgo_base::items::Copied;
use pgo_base::value::Value;
use pgo_syntax::bound::{Binding, Bindings, Instance};
use pgo_syntax::spec::Spec;
use std::alloc::{AllocError, Global};

/// The instance of a process at an identifier.
fn instance_at(
    alloc: Global,
    run: &Run<'_>,
    bindings: Vec<Binding>,
    number: u32,
    id: &Value,
) -> Result<Instance, AllocError>
    ensures { IfOk result (λ i. i ≡ specs.instance_with bindings.items number (run_view run.now, data_of id.now)) }
{
    Ok(Instance {
        number,
        id: id.copy(alloc)?,
        process: run.process.name.name.copy(alloc)?,
        archetype: run.archetype.copy(alloc)?,
        bindings: Bindings::from_vec(bindings),
    })
}

/// The instances of a process, at the end.
fn add_instances(
    alloc: Global,
    spec: &IndexedSpec<'_>,
    run: &Run<'_>,
    list: &mut Vec<Instance>,
) -> Result<(), AllocError>
    requires { length list.old.items + length (specs.places_of_run (run_view run.now)) ≤ 64 }
    ensures { IfOk result (λ _. list.new.items ≡ list.old.items ++ specs.numbered (specs.instance_at spec.now) (length list.old.items) (specs.places_of_run (run_view run.now))) }
{
    let bindings = bindings_of(alloc, spec, run)?;
    for id in run.run_ids() {
        let number = list.len() as u32;
        let copied = copy_bindings(alloc, bindings.as_slice())?;
        list.push(instance_at(alloc, run, copied, number, id)?)?;
    }
    Ok(())
}

/// The instances, numbered.
pub fn instances_of(
    alloc: Global,
    spec: &Spec,
    runs: &[Run<'_>],
) -> Result<Vec<Instance>, AllocError>
    requires { length (specs.places_of (map run_view runs.now)) ≤ 64 }
    ensures { IfOk result (λ v. v.items ≡ specs.instances_of spec.now (map run_view runs.now)) }
{
    let indexed = IndexedSpec::new(alloc, spec)?;
    let mut list = Vec::new(alloc);
    for r in runs {
        add_instances(alloc, &indexed, r, &mut list)?;
    }
    Ok(list)
}
