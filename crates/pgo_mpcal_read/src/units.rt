// The units of an algorithm.
ghost use Rattle.std.specs.Prelude.{◌≡◌, Some, None};
ghost use Rattle.pgo_expr_read.specs.Steps as steps;
ghost use Rattle.pgo_expr_read.specs.Steps.{Reads};
ghost use Rattle.pgo_mpcal_read.specs.ReadingSpec as spec;
ghost use Rattle.pgo_mpcal_read.specs.ReadingSpec.{Updates};
ghost use Rattle.pgo_mpcal_read.specs.ReadingStatements.{goes_on};
ghost use Rattle.pgo_mpcal_read.specs.ReadingUnits as units;
ghost use Rattle.pgo_mpcal_read.specs.Units.{no_units};

use crate::allowed::{Context, if_allowed_from};
use crate::cursor::Cursor;
use crate::declarations::variables;
use crate::depths::{MacroDepth, MacroDepths};
use crate::whole_parts::{archetype, define, macro_definition, mapping_macro, process};
use pgo_lexer::errors::TextStop;
use pgo_lexer::symbol::{Bracket, Keyword, Symbol};
use pgo_syntax::archetype::{Archetype, Archetypes};
use pgo_syntax::declaration::{Declarations, Definitions};
use pgo_syntax::macros::{Macro, Macros, MappingMacros};
use pgo_syntax::name::PlacedName;
use pgo_syntax::process::{Process, Processes};
use std::alloc::Global;

/// The units that were read, those of one kind in the order of the text, with the depths of the macros among them.
#[derive(Drop)]
pub struct Units {
    pub define: Option<Definitions>,
    pub macros: Macros,
    pub depths: MacroDepths,
    pub mappings: MappingMacros,
    pub archetypes: Archetypes,
    pub globals: Option<Declarations>,
    pub processes: Processes,
}

/// No unit.
fn no_units(alloc: Global) -> Units
    ensures { result ≡ no_units }
{
    Units {
        define: None,
        macros: Macros::new(alloc),
        depths: MacroDepths::new(alloc),
        mappings: MappingMacros::new(alloc),
        archetypes: Archetypes::new(alloc),
        globals: None,
        processes: Processes::new(alloc),
    }
}

#[tactic(auto, unfolding(crate::specs::ReadingSpec::define_unit))]
fn define_unit(alloc: Global, cursor: &mut Cursor<'_>, all: &mut Units) -> Result<(), TextStop>
    ensures { Updates (spec.define_unit all.old cursor.old) result all.new cursor.new }
{
    match &all.define {
        Some(_) => return Err(cursor.refuse()),
        None => {}
    }
    let start = cursor.rest();
    let read = define(alloc, cursor);
    let definitions = if_allowed_from(Context::Plain, start, cursor, read)?;
    all.define = Some(definitions);
    Ok(())
}

#[tactic(auto, unfolding(crate::specs::ReadingSpec::macro_unit))]
fn macro_unit(alloc: Global, cursor: &mut Cursor<'_>, all: &mut Units) -> Result<(), TextStop>
    ensures { Updates (spec.macro_unit all.old cursor.old) result all.new cursor.new }
{
    let start = cursor.rest();
    let read = macro_definition(alloc, &all.depths, cursor);
    let m = if_allowed_from(Context::Macro, start, cursor, read)?;
    let name = m.part.name.name.copy(alloc)?;
    let depth = m.depth;
    all.macros.push(m.part)?;
    all.depths.push(alloc, MacroDepth { name, depth })?;
    Ok(())
}

#[tactic(auto, unfolding(crate::specs::ReadingSpec::mapping_unit))]
fn mapping_unit(alloc: Global, cursor: &mut Cursor<'_>, all: &mut Units) -> Result<(), TextStop>
    ensures { Updates (spec.mapping_unit all.old cursor.old) result all.new cursor.new }
{
    let m = mapping_macro(alloc, &all.depths, cursor)?;
    all.mappings.push(m)?;
    Ok(())
}

#[tactic(auto, unfolding(crate::specs::ReadingSpec::archetype_unit))]
fn archetype_unit(alloc: Global, cursor: &mut Cursor<'_>, all: &mut Units) -> Result<(), TextStop>
    ensures { Updates (spec.archetype_unit all.old cursor.old) result all.new cursor.new }
{
    let start = cursor.rest();
    let read = archetype(alloc, &all.depths, cursor);
    let a = if_allowed_from(Context::Plain, start, cursor, read)?;
    all.archetypes.push(a)?;
    Ok(())
}

#[tactic(auto, unfolding(crate::specs::ReadingSpec::globals_unit))]
fn globals_unit(alloc: Global, cursor: &mut Cursor<'_>, all: &mut Units) -> Result<(), TextStop>
    ensures { Updates (spec.globals_unit all.old cursor.old) result all.new cursor.new }
{
    match &all.globals {
        Some(_) => return Err(cursor.refuse()),
        None => {}
    }
    let start = cursor.rest();
    let read = variables(alloc, cursor);
    let declarations = if_allowed_from(Context::Plain, start, cursor, read)?;
    all.globals = Some(declarations);
    Ok(())
}

#[tactic(auto, unfolding(crate::specs::ReadingSpec::process_unit))]
fn process_unit(alloc: Global, cursor: &mut Cursor<'_>, all: &mut Units) -> Result<(), TextStop>
    ensures { Updates (spec.process_unit all.old cursor.old) result all.new cursor.new }
{
    let start = cursor.rest();
    let read = process(alloc, cursor);
    let p = if_allowed_from(Context::Plain, start, cursor, read)?;
    all.processes.push(p)?;
    Ok(())
}

/// One unit more.
#[tactic(auto, unfolding(crate::specs::ReadingSpec::unit))]
fn unit(alloc: Global, cursor: &mut Cursor<'_>, all: &mut Units) -> Result<(), TextStop>
    ensures { Updates (spec.unit all.old cursor.old) result all.new cursor.new }
{
    if cursor.sees(Symbol::Keyword(Keyword::Define)) {
        define_unit(alloc, cursor, all)
    } else if cursor.sees(Symbol::Keyword(Keyword::Macro)) {
        macro_unit(alloc, cursor, all)
    } else if cursor.sees(Symbol::Keyword(Keyword::Mapping)) {
        mapping_unit(alloc, cursor, all)
    } else if cursor.sees(Symbol::Keyword(Keyword::Archetype)) {
        archetype_unit(alloc, cursor, all)
    } else if cursor.sees(Symbol::Keyword(Keyword::Variables)) {
        globals_unit(alloc, cursor, all)
    } else if cursor.sees(Symbol::Keyword(Keyword::Fair))
        || cursor.sees(Symbol::Keyword(Keyword::Process))
    {
        process_unit(alloc, cursor, all)
    } else {
        Err(cursor.refuse())
    }
}

/// Units up to a `}`.
fn all_units(alloc: Global, cursor: &mut Cursor<'_>) -> Result<Units, TextStop>
    ensures { Reads (steps.all_folded goes_on spec.unit no_units cursor.old) result cursor.new }
{
    let mut all = no_units(alloc);
    for _turn in 0..cursor.left() {
        if cursor.sees(Symbol::Close(Bracket::Curly)) {
            return Ok(all);
        }
        unit(alloc, cursor, &mut all)?;
    }
    Ok(all)
}

/// An algorithm: its name and its units.
#[tactic(auto, unfolding(crate::specs::ReadingSpec::algorithm))]
pub fn algorithm(alloc: Global, cursor: &mut Cursor<'_>) -> Result<(PlacedName, Units), TextStop>
    ensures { Reads (spec.algorithm cursor.old) result cursor.new }
{
    let name = cursor.name(alloc)?;
    cursor.expect(Symbol::Open(Bracket::Curly))?;
    let units = all_units(alloc, cursor)?;
    cursor.expect(Symbol::Close(Bracket::Curly))?;
    Ok((name, units))
}
