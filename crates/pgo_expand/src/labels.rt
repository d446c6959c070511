// The sections of a process.
ghost use Rattle.std.specs.Prelude.{◌≡◌, IfOk};
ghost use Rattle.pgo_meaning.specs.Expansions.{process_bindings};

use pgo_heads::indexed_spec::IndexedSpec;
use pgo_heads::mapping::bindings_of;
use pgo_heads::runs::{Run, matched};
use pgo_syntax::archetype::Archetype;
use pgo_syntax::bound::Binding;
use pgo_syntax::process::Process;
use std::alloc::{AllocError, Global};

/// What a process binds the parameters of its archetype to, whatever its identifiers are.
pub fn bindings(
    alloc: Global,
    spec: &IndexedSpec<'_>,
    process: &Process,
    archetype: &Archetype,
) -> Result<Vec<Binding>, AllocError>
    ensures { IfOk result (λ v. v.items ≡ process_bindings spec.now process.now archetype.now) }
{
    let handed = matched(
        alloc,
        archetype.params.as_slice(),
        process.arguments.as_slice(),
    )?;
    let run = Run {
        process,
        archetype,
        handed,
        ids: None,
    };
    bindings_of(alloc, spec, &run)
}
