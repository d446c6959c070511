// The header of a specification.
ghost use Rattle.std.specs.Prelude.{◌≡◌, length, Some};
ghost use Rattle.pgo_expr_read.specs.Steps as steps;
ghost use Rattle.pgo_expr_read.specs.Steps.{Reads};
ghost use Rattle.pgo_mpcal_read.specs.ReadingSpec as spec;

use crate::cursor::Cursor;
use crate::item::{Item, behind, items};
use pgo_base::expr::Infix;
use pgo_lexer::errors::TextStop;
use pgo_lexer::symbol::Symbol;
use pgo_syntax::declaration::{Definition, Definitions};
use pgo_syntax::name::{PlacedName, PlacedNames};
use std::alloc::Global;

/// What stands before the algorithm.
#[derive(Drop)]
pub struct Header {
    pub name: PlacedName,
    pub extends: PlacedNames,
    pub constants: PlacedNames,
    pub definitions: Definitions,
}

/// How many further dashes stand behind one that ends at this offset, each where the one before it ends.
fn more_dashes(cursor: &mut Cursor<'_>, first: usize) -> usize
    ensures { spec.more_dashes (length cursor.old) 0 first cursor.old ≡ Some (result, cursor.new) }
{
    let mut count: usize = 0;
    let mut stop = first;
    for _turn in 0..cursor.left() {
        if !cursor.sees_minus(stop) {
            return count;
        }
        stop = cursor.stop();
        cursor.skip();
        count += 1;
    }
    count
}

/// A row of four dashes or more.
#[tactic(auto, unfolding(crate::specs::ReadingSpec::dashes))]
pub fn dashes(cursor: &mut Cursor<'_>) -> Result<(), TextStop>
    ensures { Reads (spec.dashes cursor.old) result cursor.new }
{
    if !cursor.sees(Symbol::Infix(Infix::Subtract)) {
        return Err(cursor.refuse());
    }
    let stop = cursor.stop();
    cursor.skip();
    if more_dashes(cursor, stop) >= 3 {
        Ok(())
    } else {
        Err(cursor.refuse())
    }
}

/// Names behind EXTENDS, if it stands there.
#[tactic(auto, unfolding(crate::specs::ReadingSpec::extends))]
fn extends(alloc: Global, cursor: &mut Cursor<'_>) -> Result<PlacedNames, TextStop>
    ensures { Reads (spec.extends cursor.old) result cursor.new }
{
    if cursor.begins_list(b"EXTENDS") {
        cursor.skip();
        items(alloc, cursor, Symbol::Comma)
    } else {
        Ok(PlacedNames::new(alloc))
    }
}

/// The line of MODULE, and EXTENDS.
#[tactic(auto, unfolding(crate::specs::ReadingSpec::title))]
fn title(alloc: Global, cursor: &mut Cursor<'_>) -> Result<Header, TextStop>
    ensures { Reads (spec.title cursor.old) result cursor.new }
{
    dashes(cursor)?;
    cursor.expect_word(b"MODULE")?;
    let name = cursor.name(alloc)?;
    dashes(cursor)?;
    let extends = extends(alloc, cursor)?;
    Ok(Header {
        name,
        extends,
        constants: PlacedNames::new(alloc),
        definitions: Definitions::new(alloc),
    })
}

/// Constants, behind their word.
#[tactic(auto, unfolding(crate::specs::ReadingSpec::constants_part))]
fn constants_part(
    alloc: Global,
    cursor: &mut Cursor<'_>,
    before: Header,
) -> Result<Header, TextStop>
    ensures { Reads (spec.constants_part before cursor.old) result cursor.new }
{
    let constant = cursor.name(alloc)?;
    let Header {
        name,
        extends,
        mut constants,
        definitions,
    } = before;
    constants.push(constant)?;
    let constants = behind(alloc, cursor, Symbol::Comma, constants)?;
    Ok(Header {
        name,
        extends,
        constants,
        definitions,
    })
}

/// A definition.
#[tactic(auto, unfolding(crate::specs::ReadingSpec::definition_part))]
fn definition_part(
    alloc: Global,
    cursor: &mut Cursor<'_>,
    before: Header,
) -> Result<Header, TextStop>
    ensures { Reads (spec.definition_part before cursor.old) result cursor.new }
{
    let d = Definition::read(alloc, cursor)?;
    let mut all = before;
    all.definitions.push(d)?;
    Ok(all)
}

/// Constants, or a definition.
#[tactic(auto, unfolding(crate::specs::ReadingSpec::part))]
fn part(alloc: Global, cursor: &mut Cursor<'_>, before: Header) -> Result<Header, TextStop>
    ensures { Reads (spec.part before cursor.old) result cursor.new }
{
    if cursor.begins_list(b"CONSTANT") || cursor.begins_list(b"CONSTANTS") {
        cursor.skip();
        constants_part(alloc, cursor, before)
    } else {
        definition_part(alloc, cursor, before)
    }
}

/// Constants and definitions up to the end of the tokens.
fn parts(alloc: Global, cursor: &mut Cursor<'_>, first: Header) -> Result<Header, TextStop>
    ensures { Reads (steps.all_folded spec.some_left spec.part first cursor.old) result cursor.new }
{
    let mut all = first;
    for _turn in 0..cursor.left() {
        if !cursor.some_left() {
            return Ok(all);
        }
        all = part(alloc, cursor, all)?;
    }
    Ok(all)
}

/// The header.
#[tactic(auto, unfolding(crate::specs::ReadingSpec::header))]
pub fn read_header(alloc: Global, cursor: &mut Cursor<'_>) -> Result<Header, TextStop>
    ensures { Reads (spec.header cursor.old) result cursor.new }
{
    let first = title(alloc, cursor)?;
    parts(alloc, cursor, first)
}
