// The value parameters and the locals of a process, by their written names.
ghost use Rattle.std.specs.Prelude.{◌≡◌, ◌++◌, map, IfOk};
ghost use Rattle.std.specs.List.{filter_map};
ghost use Rattle.pgo_bound.specs.BoundOf.{optional};
ghost use Rattle.pgo_expand.specs.Module.{own_in};
ghost use Rattle.pgo_heads.specs.Views.{handed_view};
ghost use Rattle.pgo_pluscal.specs.PlusCalOf.{local_declaration, own_declarations, parameter_declaration, written_name as expected_name};

use pgo_base::items::Items;
use pgo_base::text::Text;
use pgo_heads::indexed_spec::IndexedSpec;
use pgo_heads::runs::{Handed, matched};
use pgo_syntax::archetype::Archetype;
use pgo_syntax::binding::Origin;
use pgo_syntax::declaration::{Declaration, Declarations};
use pgo_syntax::name::{PlacedName, written_name};
use pgo_syntax::process::{Argument, Process};
use std::alloc::{AllocError, Global};

/// The written name of a value parameter or a local, with the place of the name.
fn placed_name(alloc: Global, process: &Text, name: &PlacedName) -> Result<PlacedName, AllocError>
    ensures { IfOk result (λ x. x ≡ expected_name process.now name.now) }
{
    Ok(PlacedName {
        name: written_name(alloc, process.as_bytes(), &name.name)?,
        place: name.place,
    })
}

/// Adds a value parameter; one that stands for a global is no variable.
fn add_parameter(
    alloc: Global,
    list: &mut Vec<Declaration>,
    process: &Text,
    handed: &Handed<'_>,
) -> Result<(), AllocError>
    ensures { IfOk result (λ _. list.new.items ≡ list.old.items ++ optional (parameter_declaration process.now (handed_view handed.now).parameter.name (handed_view handed.now).argument)) }
{
    match handed.argument {
        Argument::Ref(_, _) => Ok(()),
        Argument::Value(_, e) => {
            let name = placed_name(alloc, process, &handed.parameter.name)?;
            let initial = Some(Origin::Equals(e.copy(alloc)?));
            list.push(Declaration { name, initial })?;
            Ok(())
        }
    }
}

/// Adds the value parameters.
fn add_parameters(
    alloc: Global,
    list: &mut Vec<Declaration>,
    process: &Text,
    handed: &[Handed<'_>],
) -> Result<(), AllocError>
    ensures { IfOk result (λ _. list.new.items ≡ list.old.items ++ filter_map (λ h. parameter_declaration process.now h.parameter.name h.argument) (map handed_view handed.now)) }
{
    for h in handed {
        add_parameter(alloc, list, process, h)?;
    }
    Ok(())
}

/// What a local starts with, once more.
fn copy_start(alloc: Global, initial: &Option<Origin>) -> Result<Option<Origin>, AllocError>
    ensures { IfOk result (λ o. o ≡ initial.now) }
{
    match initial {
        None => Ok(None),
        Some(origin) => Ok(Some(origin.copy(alloc)?)),
    }
}

/// Adds the locals.
fn add_locals(
    alloc: Global,
    list: &mut Vec<Declaration>,
    process: &Text,
    locals: &[Declaration],
) -> Result<(), AllocError>
    ensures { IfOk result (λ _. list.new.items ≡ list.old.items ++ map (local_declaration process.now) locals.now) }
{
    for d in locals {
        let name = placed_name(alloc, process, &d.name)?;
        let initial = copy_start(alloc, &d.initial)?;
        list.push(Declaration { name, initial })?;
    }
    Ok(())
}

/// Those of a process that runs an archetype: its value parameters, and then its locals.
fn own_by(
    alloc: Global,
    process: &Process,
    archetype: &Archetype,
) -> Result<Declarations, AllocError>
    ensures { IfOk result (λ ds. ds ≡ own_declarations process.now archetype.now) }
{
    let mut list = Vec::new(alloc);
    let handed = matched(
        alloc,
        archetype.params.as_slice(),
        process.arguments.as_slice(),
    )?;
    add_parameters(alloc, &mut list, &process.name.name, handed.as_slice())?;
    add_locals(
        alloc,
        &mut list,
        &process.name.name,
        archetype.locals.as_slice(),
    )?;
    Ok(Items::from_vec(list))
}

/// Those of a process; none where it hasn't its archetype.
pub fn own_of(
    alloc: Global,
    process: &Process,
    spec: &IndexedSpec<'_>,
) -> Result<Declarations, AllocError>
    ensures { IfOk result (λ ds. ds ≡ own_in spec.now.archetypes process.now) }
{
    match spec.archetype_named(&process.archetype.name) {
        None => Ok(Items::new(alloc)),
        Some(archetype) => own_by(alloc, process, archetype),
    }
}
