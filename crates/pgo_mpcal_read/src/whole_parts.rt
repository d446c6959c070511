// Macros, mapping macros, archetypes and processes.
ghost use Rattle.std.specs.Prelude.{◌≡◌};
ghost use Rattle.pgo_expr_read.specs.Steps.{Reads};
ghost use Rattle.pgo_mpcal_read.specs.ReadingUnits as spec;

use crate::assignments::origin;
use crate::cursor::Cursor;
use crate::declarations::locals;
use crate::depths::MacroDepths;
use crate::item::{in_brackets, row};
use crate::statements::{Statements, statement};
use crate::with_depth::WithDepth;
use pgo_base::expr::Infix;
use pgo_lexer::errors::TextStop;
use pgo_lexer::symbol::{Bracket, Keyword, Symbol};
use pgo_syntax::archetype::Archetype;
use pgo_syntax::binding::Origin;
use pgo_syntax::declaration::Definitions;
use pgo_syntax::macros::{Macro, MappingMacro};
use pgo_syntax::name::PlacedName;
use pgo_syntax::process::Process;
use pgo_syntax::statement::Block;
use std::alloc::Global;

/// The greatest depth of a statement.
pub const MOST_DEPTH: u32 = 128;

/// The block of a unit, where these are the macros before it.
#[tactic(auto, unfolding(crate::specs::ReadingUnits::block))]
fn block(
    alloc: Global,
    macros: &MacroDepths,
    cursor: &mut Cursor<'_>,
) -> Result<WithDepth<Block>, TextStop>
    ensures { Reads (spec.block macros.now cursor.old) result cursor.new }
{
    Statements {
        alloc,
        macros,
        limit: MOST_DEPTH,
        below: MOST_DEPTH,
        statement,
    }
    .body(cursor)
}

/// `define { definitions }`.
#[tactic(auto, unfolding(crate::specs::ReadingUnits::define))]
pub fn define(alloc: Global, cursor: &mut Cursor<'_>) -> Result<Definitions, TextStop>
    ensures { Reads (spec.define cursor.old) result cursor.new }
{
    cursor.expect(Symbol::Keyword(Keyword::Define))?;
    cursor.expect(Symbol::Open(Bracket::Curly))?;
    let all = row(alloc, cursor)?;
    cursor.expect(Symbol::Close(Bracket::Curly))?;
    Ok(all)
}

/// A macro, with the depth of its body.
#[tactic(auto, unfolding(crate::specs::ReadingUnits::macro_definition))]
pub fn macro_definition(
    alloc: Global,
    macros: &MacroDepths,
    cursor: &mut Cursor<'_>,
) -> Result<WithDepth<Macro>, TextStop>
    ensures { Reads (spec.macro_definition macros.now cursor.old) result cursor.new }
{
    cursor.expect(Symbol::Keyword(Keyword::Macro))?;
    let name = cursor.name(alloc)?;
    let params = in_brackets(alloc, cursor)?;
    let b = block(alloc, macros, cursor)?;
    let depth = b.depth;
    let body = b.part;
    let part = Macro { name, params, body };
    Ok(WithDepth { depth, part })
}

/// A mapping macro.
#[tactic(auto, unfolding(crate::specs::ReadingUnits::mapping_macro))]
pub fn mapping_macro(
    alloc: Global,
    macros: &MacroDepths,
    cursor: &mut Cursor<'_>,
) -> Result<MappingMacro, TextStop>
    ensures { Reads (spec.mapping_macro macros.now cursor.old) result cursor.new }
{
    cursor.expect(Symbol::Keyword(Keyword::Mapping))?;
    cursor.expect(Symbol::Keyword(Keyword::Macro))?;
    let name = cursor.name(alloc)?;
    cursor.expect(Symbol::Open(Bracket::Curly))?;
    cursor.expect(Symbol::Keyword(Keyword::Read))?;
    let r = block(alloc, macros, cursor)?;
    cursor.expect(Symbol::Keyword(Keyword::Write))?;
    let w = block(alloc, macros, cursor)?;
    cursor.expect(Symbol::Close(Bracket::Curly))?;
    let read = r.part;
    let write = w.part;
    Ok(MappingMacro { name, read, write })
}

/// An archetype.
#[tactic(auto, unfolding(crate::specs::ReadingUnits::archetype))]
pub fn archetype(
    alloc: Global,
    macros: &MacroDepths,
    cursor: &mut Cursor<'_>,
) -> Result<Archetype, TextStop>
    ensures { Reads (spec.archetype macros.now cursor.old) result cursor.new }
{
    cursor.expect(Symbol::Keyword(Keyword::Archetype))?;
    let name = cursor.name(alloc)?;
    let params = in_brackets(alloc, cursor)?;
    let locals = locals(alloc, cursor)?;
    let b = block(alloc, macros, cursor)?;
    let body = b.part;
    Ok(Archetype {
        name,
        params,
        locals,
        body,
    })
}

/// Goes past `fair` or `fair+`, which may stand here.
#[tactic(auto, unfolding(crate::specs::ReadingUnits::fair, crate::specs::Reading::past))]
fn fair(cursor: &mut Cursor<'_>)
    ensures { cursor.new ≡ spec.fair cursor.old }
{
    if cursor.sees(Symbol::Keyword(Keyword::Fair)) {
        cursor.skip();
        cursor.eat(Symbol::Infix(Infix::Add));
    }
}

/// The name and the identifiers of a process.
#[tactic(auto, unfolding(crate::specs::ReadingUnits::process_head))]
fn process_head(alloc: Global, cursor: &mut Cursor<'_>) -> Result<(PlacedName, Origin), TextStop>
    ensures { Reads (spec.process_head cursor.old) result cursor.new }
{
    cursor.expect(Symbol::Keyword(Keyword::Process))?;
    cursor.expect(Symbol::Open(Bracket::Round))?;
    let name = cursor.name(alloc)?;
    let ids = origin(alloc, cursor)?;
    cursor.expect(Symbol::Close(Bracket::Round))?;
    Ok((name, ids))
}

/// What stands behind them.
#[tactic(auto, unfolding(crate::specs::ReadingUnits::process_tail))]
fn process_tail(
    alloc: Global,
    cursor: &mut Cursor<'_>,
    head: (PlacedName, Origin),
) -> Result<Process, TextStop>
    ensures { Reads (spec.process_tail head cursor.old) result cursor.new }
{
    cursor.expect(Symbol::Defines)?;
    cursor.expect(Symbol::Keyword(Keyword::Instance))?;
    let archetype = cursor.name(alloc)?;
    let arguments = in_brackets(alloc, cursor)?;
    let clauses = row(alloc, cursor)?;
    cursor.eat(Symbol::Semicolon);
    let (name, ids) = head;
    Ok(Process {
        name,
        ids,
        archetype,
        arguments,
        clauses,
    })
}

/// A process.
#[tactic(auto, unfolding(crate::specs::ReadingUnits::process))]
pub fn process(alloc: Global, cursor: &mut Cursor<'_>) -> Result<Process, TextStop>
    ensures { Reads (spec.process cursor.old) result cursor.new }
{
    fair(cursor);
    let head = process_head(alloc, cursor)?;
    process_tail(alloc, cursor, head)
}
