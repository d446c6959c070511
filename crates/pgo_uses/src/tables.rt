// The names that a specification declares.
ghost use Rattle.std.specs.Prelude.{◌≡◌, [], ◌++◌, map, IfOk};
ghost use Rattle.pgo_uses.specs.Tables as spec;

use crate::names::Names;
use pgo_syntax::archetype::Archetypes;
use pgo_syntax::declaration::{Declarations, Definition, Definitions};
use pgo_syntax::macros::{Macros, MappingMacros};
use pgo_syntax::name::PlacedNames;
use pgo_syntax::spec::Spec;
use std::alloc::{AllocError, Global};

/// The names of each kind, in order: a definition with the number of its parameters, and so a macro and an archetype.
#[derive(Drop)]
pub struct Tables {
    pub constants: Names,
    pub definitions: Names,
    pub globals: Names,
    pub macros: Names,
    pub mappings: Names,
    pub archetypes: Names,
}

/// The names that this specification declares.
pub fn tables_of(alloc: Global, s: &Spec) -> Result<Tables, AllocError>
    ensures { IfOk result (λ t. t ≡ spec.tables_of s.now) }
{
    Ok(Tables {
        constants: name_rows(alloc, &s.constants)?,
        definitions: definition_rows(alloc, s)?,
        globals: variable_rows(alloc, &s.globals)?,
        macros: macro_rows(alloc, &s.macros)?,
        mappings: mapping_rows(alloc, &s.mappings)?,
        archetypes: archetype_rows(alloc, &s.archetypes)?,
    })
}

/// The definitions of a specification: those before the algorithm, and those of `define`.
pub(crate) fn all_definitions<'a>(
    alloc: Global,
    s: &'a Spec,
) -> Result<Vec<&'a Definition>, AllocError>
    ensures { IfOk result (λ v. map (λ d. d.now) v.items ≡ spec.all_definitions s.now) }
{
    let mut all = Vec::new(alloc);
    add_definitions(&mut all, &s.definitions)?;
    if let Some(defined) = &s.define {
        add_definitions(&mut all, defined)?;
    }
    Ok(all)
}

/// Adds these definitions.
fn add_definitions<'a>(
    all: &mut Vec<&'a Definition>,
    list: &'a Definitions,
) -> Result<(), AllocError>
    ensures { IfOk result (λ _. map (λ d. d.now) all.new.items ≡ map (λ d. d.now) all.old.items ++ list.now) }
{
    for d in list.as_slice() {
        all.push(d)?;
    }
    Ok(())
}

fn name_rows(alloc: Global, list: &PlacedNames) -> Result<Names, AllocError>
    ensures { IfOk result (λ names. names ≡ spec.name_rows list.now) }
{
    let mut names = Names::new(alloc);
    for x in list.as_slice() {
        names.push(alloc, &x.name, 0)?;
    }
    Ok(names)
}

fn definition_rows(alloc: Global, s: &Spec) -> Result<Names, AllocError>
    ensures { IfOk result (λ names. names ≡ spec.definition_rows (spec.all_definitions s.now)) }
{
    let all = all_definitions(alloc, s)?;
    let mut names = Names::new(alloc);
    for d in all.as_slice() {
        names.push(alloc, &d.name.name, d.params.as_slice().len())?;
    }
    Ok(names)
}

fn variable_rows(alloc: Global, list: &Declarations) -> Result<Names, AllocError>
    ensures { IfOk result (λ names. names ≡ spec.variable_rows list.now) }
{
    let mut names = Names::new(alloc);
    for d in list.as_slice() {
        names.push(alloc, &d.name.name, 0)?;
    }
    Ok(names)
}

fn macro_rows(alloc: Global, list: &Macros) -> Result<Names, AllocError>
    ensures { IfOk result (λ names. names ≡ spec.macro_rows list.now) }
{
    let mut names = Names::new(alloc);
    for m in list.as_slice() {
        names.push(alloc, &m.name.name, m.params.as_slice().len())?;
    }
    Ok(names)
}

fn mapping_rows(alloc: Global, list: &MappingMacros) -> Result<Names, AllocError>
    ensures { IfOk result (λ names. names ≡ spec.mapping_rows list.now) }
{
    let mut names = Names::new(alloc);
    for m in list.as_slice() {
        names.push(alloc, &m.name.name, 0)?;
    }
    Ok(names)
}

fn archetype_rows(alloc: Global, list: &Archetypes) -> Result<Names, AllocError>
    ensures { IfOk result (λ names. names ≡ spec.archetype_rows list.now) }
{
    let mut names = Names::new(alloc);
    for r in list.as_slice() {
        names.push(alloc, &r.name.name, r.params.as_slice().len())?;
    }
    Ok(names)
}
