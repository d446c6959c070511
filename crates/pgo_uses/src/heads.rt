// The names in the heads of a specification's units.
ghost use Rattle.std.specs.Prelude.{◌≡◌, [], ◌∷◌, ◌++◌, map, IfOk};
ghost use Rattle.pgo_uses.specs.Heads as spec;
ghost use Rattle.pgo_uses.specs.PieceView.{placed_names};

use crate::tables::all_definitions;
use pgo_syntax::declaration::Definition;
use pgo_syntax::name::PlacedName;
use pgo_syntax::process::{Argument, MappingClause, MappingTarget, Process};
use pgo_syntax::spec::Spec;
use std::alloc::{AllocError, Global};

/// Adds these names.
fn add_names<'a>(out: &mut Vec<&'a PlacedName>, list: &'a [PlacedName]) -> Result<(), AllocError>
    ensures { IfOk result (λ _. placed_names out.new.items ≡ placed_names out.old.items ++ list.now) }
{
    for x in list {
        out.push(x)?;
    }
    Ok(())
}

fn add_definition_names<'a>(
    out: &mut Vec<&'a PlacedName>,
    list: &[&'a Definition],
) -> Result<(), AllocError>
    ensures { IfOk result (λ _. placed_names out.new.items ≡ placed_names out.old.items ++ spec.definition_names (map (λ d. d.now) list.now)) }
{
    for d in list {
        let d: &'a Definition = *d;
        out.push(&d.name)?;
    }
    Ok(())
}

/// The names of constants, definitions and globals, which share one scope.
pub fn shared_names<'a>(alloc: Global, s: &'a Spec) -> Result<Vec<&'a PlacedName>, AllocError>
    ensures { IfOk result (λ v. placed_names v.items ≡ spec.shared_names s.now) }
{
    let mut out = Vec::new(alloc);
    add_shared_names(alloc, s, &mut out)?;
    Ok(out)
}

/// Adds the names of constants, definitions and globals.
pub fn add_shared_names<'a>(
    alloc: Global,
    s: &'a Spec,
    out: &mut Vec<&'a PlacedName>,
) -> Result<(), AllocError>
    ensures { IfOk result (λ _. placed_names out.new.items ≡ placed_names out.old.items ++ spec.shared_names s.now) }
{
    add_names(out, s.constants.as_slice())?;
    let definitions = all_definitions(alloc, s)?;
    add_definition_names(out, definitions.as_slice())?;
    add_declared_names(out, s)
}

fn add_declared_names<'a>(out: &mut Vec<&'a PlacedName>, s: &'a Spec) -> Result<(), AllocError>
    ensures { IfOk result (λ _. placed_names out.new.items ≡ placed_names out.old.items ++ spec.declared_names s.now.globals) }
{
    for d in s.globals.as_slice() {
        out.push(&d.name)?;
    }
    Ok(())
}

/// Adds the names of macros.
pub fn add_macro_names<'a>(out: &mut Vec<&'a PlacedName>, s: &'a Spec) -> Result<(), AllocError>
    ensures { IfOk result (λ _. placed_names out.new.items ≡ placed_names out.old.items ++ spec.macro_names s.now.macros) }
{
    for m in s.macros.as_slice() {
        out.push(&m.name)?;
    }
    Ok(())
}

/// Adds the names of mapping macros.
pub fn add_mapping_names<'a>(out: &mut Vec<&'a PlacedName>, s: &'a Spec) -> Result<(), AllocError>
    ensures { IfOk result (λ _. placed_names out.new.items ≡ placed_names out.old.items ++ spec.mapping_names s.now.mappings) }
{
    for m in s.mappings.as_slice() {
        out.push(&m.name)?;
    }
    Ok(())
}

/// Adds the names of archetypes.
pub fn add_archetype_names<'a>(out: &mut Vec<&'a PlacedName>, s: &'a Spec) -> Result<(), AllocError>
    ensures { IfOk result (λ _. placed_names out.new.items ≡ placed_names out.old.items ++ spec.archetype_names s.now.archetypes) }
{
    for r in s.archetypes.as_slice() {
        out.push(&r.name)?;
    }
    Ok(())
}

/// Adds the names of processes.
pub fn add_process_names<'a>(out: &mut Vec<&'a PlacedName>, s: &'a Spec) -> Result<(), AllocError>
    ensures { IfOk result (λ _. placed_names out.new.items ≡ placed_names out.old.items ++ spec.process_names s.now.processes) }
{
    for p in s.processes.as_slice() {
        out.push(&p.name)?;
    }
    Ok(())
}

/// Adds the names that the specification declares in heads.
fn add_unit_names<'a>(
    alloc: Global,
    s: &'a Spec,
    out: &mut Vec<&'a PlacedName>,
) -> Result<(), AllocError>
    ensures { IfOk result (λ _. placed_names out.new.items ≡ placed_names out.old.items ++ spec.unit_names s.now) }
{
    add_shared_names(alloc, s, out)?;
    add_macro_names(out, s)?;
    add_mapping_names(out, s)?;
    add_archetype_names(out, s)?;
    add_process_names(out, s)
}

/// The names that the specification declares in heads.
pub fn unit_names<'a>(alloc: Global, s: &'a Spec) -> Result<Vec<&'a PlacedName>, AllocError>
    ensures { IfOk result (λ v. placed_names v.items ≡ spec.unit_names s.now) }
{
    let mut out = Vec::new(alloc);
    add_unit_names(alloc, s, &mut out)?;
    Ok(out)
}

fn add_argument_name<'a>(
    out: &mut Vec<&'a PlacedName>,
    argument: &'a Argument,
) -> Result<(), AllocError>
    ensures { IfOk result (λ _. placed_names out.new.items ≡ placed_names out.old.items ++ spec.argument_names (argument.now ∷ [])) }
{
    match argument {
        Argument::Value(_, _) => Ok(()),
        Argument::Ref(x, _) => {
            out.push(x)?;
            Ok(())
        }
    }
}

fn add_argument_names<'a>(
    out: &mut Vec<&'a PlacedName>,
    list: &'a [Argument],
) -> Result<(), AllocError>
    ensures { IfOk result (λ _. placed_names out.new.items ≡ placed_names out.old.items ++ spec.argument_names list.now) }
{
    for argument in list {
        add_argument_name(out, argument)?;
    }
    Ok(())
}

fn add_target_name<'a>(
    out: &mut Vec<&'a PlacedName>,
    target: &'a MappingTarget,
) -> Result<(), AllocError>
    ensures { IfOk result (λ _. placed_names out.new.items ≡ placed_names out.old.items ++ spec.target_names target.now) }
{
    match target {
        MappingTarget::Global { name, .. } => {
            out.push(name)?;
            Ok(())
        }
        MappingTarget::Argument { .. } => Ok(()),
    }
}

fn add_clause_names<'a>(
    out: &mut Vec<&'a PlacedName>,
    list: &'a [MappingClause],
) -> Result<(), AllocError>
    ensures { IfOk result (λ _. placed_names out.new.items ≡ placed_names out.old.items ++ spec.clause_names list.now) }
{
    for clause in list {
        add_target_name(out, &clause.target)?;
        out.push(&clause.mapping)?;
    }
    Ok(())
}

/// Adds the names in the heads of processes, but for their own.
fn add_named_by<'a>(out: &mut Vec<&'a PlacedName>, list: &'a [Process]) -> Result<(), AllocError>
    ensures { IfOk result (λ _. placed_names out.new.items ≡ placed_names out.old.items ++ spec.named_by list.now) }
{
    for p in list {
        out.push(&p.archetype)?;
        add_argument_names(out, p.arguments.as_slice())?;
        add_clause_names(out, p.clauses.as_slice())?;
    }
    Ok(())
}

/// All names in heads.
pub fn head_names<'a>(alloc: Global, s: &'a Spec) -> Result<Vec<&'a PlacedName>, AllocError>
    ensures { IfOk result (λ v. placed_names v.items ≡ spec.head_names s.now) }
{
    let mut out = Vec::new(alloc);
    out.push(&s.name)?;
    add_names(&mut out, s.extends.as_slice())?;
    out.push(&s.algorithm)?;
    add_unit_names(alloc, s, &mut out)?;
    add_named_by(&mut out, s.processes.as_slice())?;
    Ok(out)
}
