// The names that stand in a specification.
ghost use Rattle.std.specs.Prelude.{◌≡◌, [], ◌∷◌, ◌++◌, IfOk};
ghost use Rattle.pgo_uses.specs.AllUses as spec;
ghost use Rattle.pgo_uses.specs.Scopes.{row_names};
ghost use Rattle.pgo_uses.specs.Tables as tables;

use crate::names::Names;
use crate::scopes::Scope;
use crate::tables::all_definitions;
use crate::unit_uses::{
    add_archetype, add_definition, add_global, add_macro, add_mapping, add_process,
};
use crate::uses::Use;
use pgo_base::text::Text;
use pgo_syntax::spec::Spec;
use std::alloc::{AllocError, Global};

/// The names that stand in a specification, with what is known at each.
pub fn all_uses(alloc: Global, s: &Spec) -> Result<Vec<Use>, AllocError>
    ensures { IfOk result (λ v. v.items ≡ spec.all_uses s.now) }
{
    let mut out = Vec::new(alloc);
    add_definitions(alloc, s, &mut out)?;
    add_globals(alloc, s, &mut out)?;
    add_macros(alloc, s, &mut out)?;
    add_mappings(alloc, s, &mut out)?;
    add_archetypes(alloc, s, &mut out)?;
    add_processes(alloc, s, &mut out)?;
    Ok(out)
}

fn add_definitions(alloc: Global, s: &Spec, out: &mut Vec<Use>) -> Result<(), AllocError>
    ensures { IfOk result (λ _. out.new.items ≡ out.old.items ++ spec.definitions_uses 0 (tables.all_definitions s.now)) }
{
    let list = all_definitions(alloc, s)?;
    for (i, d) in list.iter().enumerate() {
        add_definition(alloc, i, d, out)?;
    }
    Ok(())
}

fn add_globals(alloc: Global, s: &Spec, out: &mut Vec<Use>) -> Result<(), AllocError>
    ensures { IfOk result (λ _. out.new.items ≡ out.old.items ++ spec.globals_uses 0 s.now.globals) }
{
    let list = s.globals.as_slice();
    for (i, d) in list.iter().enumerate() {
        add_global(alloc, i, d, out)?;
    }
    Ok(())
}

fn add_macros(alloc: Global, s: &Spec, out: &mut Vec<Use>) -> Result<(), AllocError>
    ensures { IfOk result (λ _. out.new.items ≡ out.old.items ++ spec.macros_uses 0 s.now.macros) }
{
    let list = s.macros.as_slice();
    for (i, m) in list.iter().enumerate() {
        add_macro(alloc, i, m, out)?;
    }
    Ok(())
}

/// The names of the content and of the value in a mapping macro.
fn mapping_names(alloc: Global) -> Result<Names, AllocError>
    ensures { IfOk result (λ n. row_names n ≡ tables.variable_name ∷ tables.value_name ∷ []) }
{
    let variable = Text::from_slice(alloc, b"$variable")?;
    let value = Text::from_slice(alloc, b"$value")?;
    let mut names = Names::new(alloc);
    names.push(alloc, &variable, 0)?;
    names.push(alloc, &value, 0)?;
    Ok(names)
}

fn add_mappings(alloc: Global, s: &Spec, out: &mut Vec<Use>) -> Result<(), AllocError>
    ensures { IfOk result (λ _. out.new.items ≡ out.old.items ++ spec.mappings_uses s.now.mappings) }
{
    let names = mapping_names(alloc)?;
    let scope = Scope::of(&names);
    for m in s.mappings.as_slice() {
        add_mapping(alloc, &scope, m, out)?;
    }
    Ok(())
}

fn add_archetypes(alloc: Global, s: &Spec, out: &mut Vec<Use>) -> Result<(), AllocError>
    ensures { IfOk result (λ _. out.new.items ≡ out.old.items ++ spec.archetypes_uses 0 s.now.archetypes) }
{
    let list = s.archetypes.as_slice();
    for (i, r) in list.iter().enumerate() {
        add_archetype(alloc, i, r, out)?;
    }
    Ok(())
}

fn add_processes(alloc: Global, s: &Spec, out: &mut Vec<Use>) -> Result<(), AllocError>
    ensures { IfOk result (λ _. out.new.items ≡ out.old.items ++ spec.processes_uses s.now.processes) }
{
    for p in s.processes.as_slice() {
        add_process(alloc, p, out)?;
    }
    Ok(())
}
