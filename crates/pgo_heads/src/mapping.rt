// What each parameter stands for.
ghost use Rattle.std.specs.Prelude.{◌≡◌, option_map, IfOk};
ghost use Rattle.pgo_bound.specs.Runs as specs;
ghost use Rattle.pgo_heads.specs.Spoken.{mapping_by_first, spoken_view};
ghost use Rattle.pgo_heads.specs.Views.{handed_view, run_view};

use crate::indexed_spec::IndexedSpec;
use crate::mapping_clauses::{MappingClauses, Spoken};
use crate::runs::{Handed, Run};
use pgo_base::items::Copied;
use pgo_base::text::Text;
use pgo_syntax::archetype::Extent;
use pgo_syntax::bound::{Binding, Mapping, Target};
use pgo_syntax::process::Argument;
use std::alloc::{AllocError, Global};

/// What an argument is mapped by that no clause speaks of.
fn mapping_without(extent: Extent) -> Option<Mapping>
    ensures { result ≡ specs.mapping_without extent }
{
    match extent {
        Extent::Whole => None,
        Extent::Element => Some(Mapping::Identity),
    }
}

/// What the clauses that speak of an argument make of it.
fn mapping_by(
    alloc: Global,
    spec: &IndexedSpec<'_>,
    extent: Extent,
    spoken: Option<Spoken<'_>>,
) -> Result<Option<Mapping>, AllocError>
    ensures { IfOk result (λ m. m ≡ mapping_by_first spec.now extent (option_map spoken_view spoken.entry)) }
{
    let Some(by) = spoken else {
        return Ok(mapping_without(extent));
    };
    match spec.mapping_named(&by.first.mapping.name) {
        None => Ok(None),
        Some(m) => Ok(Some(Mapping::Macro(m.copy(alloc)?))),
    }
}

/// What a process makes of the argument of this number, which is this global.
fn mapping_of(
    alloc: Global,
    spec: &IndexedSpec<'_>,
    clauses: &MappingClauses<'_>,
    number: u64,
    global: &Text,
    extent: Extent,
) -> Result<Option<Mapping>, AllocError>
    ensures { IfOk result (λ m. m ≡ specs.mapping_by spec.now extent (specs.speaking number global.now clauses.now)) }
{
    mapping_by(alloc, spec, extent, clauses.speaking(number, global))
}

/// What a parameter stands for that is handed this argument.
fn target_of(
    alloc: Global,
    spec: &IndexedSpec<'_>,
    clauses: &MappingClauses<'_>,
    number: u64,
    argument: &Argument,
) -> Result<Target, AllocError>
    ensures { IfOk result (λ t. t ≡ specs.target_of spec.now clauses.now number argument.now) }
{
    match argument {
        Argument::Value(_, e) => Ok(Target::Value(e.copy(alloc)?)),
        Argument::Ref(global, extent) => {
            let mapping = mapping_of(alloc, spec, clauses, number, &global.name, *extent)?;
            Ok(Target::Global {
                name: global.name.copy(alloc)?,
                extent: *extent,
                mapping,
            })
        }
    }
}

/// A parameter with what it stands for.
fn binding_of(
    alloc: Global,
    spec: &IndexedSpec<'_>,
    clauses: &MappingClauses<'_>,
    h: &Handed<'_>,
) -> Result<Binding, AllocError>
    ensures { IfOk result (λ b. b ≡ specs.binding_of spec.now clauses.now (handed_view h.now)) }
{
    let target = target_of(alloc, spec, clauses, h.number, h.argument)?;
    Ok(Binding {
        parameter: h.parameter.name.name.copy(alloc)?,
        target,
    })
}

/// A binding for each parameter, in order.
pub fn bindings_of(
    alloc: Global,
    spec: &IndexedSpec<'_>,
    run: &Run<'_>,
) -> Result<Vec<Binding>, AllocError>
    ensures { IfOk result (λ v. v.items ≡ specs.bindings_of spec.now (run_view run.now)) }
{
    let clauses = MappingClauses::new(alloc, run.process.clauses.as_slice())?;
    let mut list = Vec::with_capacity(alloc, run.handed.len())?;
    for h in &run.handed {
        list.push(binding_of(alloc, spec, &clauses, h)?)?;
    }
    Ok(list)
}

/// The same once more.
fn copy_target(alloc: Global, target: &Target) -> Result<Target, AllocError>
    ensures { IfOk result (λ t. t ≡ target.now) }
{
    match target {
        Target::Value(e) => Ok(Target::Value(e.copy(alloc)?)),
        Target::Global {
            name,
            extent,
            mapping,
        } => Ok(Target::Global {
            name: name.copy(alloc)?,
            extent: *extent,
            mapping: copy_mapping(alloc, mapping)?,
        }),
    }
}

/// The same once more, if there is one.
fn copy_mapping(alloc: Global, mapping: &Option<Mapping>) -> Result<Option<Mapping>, AllocError>
    ensures { IfOk result (λ m. m ≡ mapping.now) }
{
    match mapping {
        None => Ok(None),
        Some(m) => Ok(Some(m.copy(alloc)?)),
    }
}

/// The same bindings once more.
pub fn copy_bindings(alloc: Global, bindings: &[Binding]) -> Result<Vec<Binding>, AllocError>
    ensures { IfOk result (λ v. v.items ≡ bindings.now) }
{
    let mut list = Vec::with_capacity(alloc, bindings.len())?;
    for b in bindings {
        list.push(Binding {
            parameter: b.parameter.copy(alloc)?,
            target: copy_target(alloc, &b.target)?,
        })?;
    }
    Ok(list)
}
