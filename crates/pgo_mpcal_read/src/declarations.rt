// Definitions and declarations.
ghost use Rattle.pgo_expr_read.specs.Steps as steps;
ghost use Rattle.pgo_mpcal_read.specs.Reading as reading;
ghost use Rattle.pgo_expr_read.specs.Steps.{Reads};
ghost use Rattle.pgo_mpcal_read.specs.Reading.{Passes};
ghost use Rattle.pgo_mpcal_read.specs.ReadingSpec.{Updates};
ghost use Rattle.pgo_mpcal_read.specs.ReadingUnits as spec;

use crate::assignments::origin;
use crate::cursor::Cursor;
use crate::item::{Item, RowItem, items};
use pgo_base::expr::Infix;
use pgo_lexer::errors::TextStop;
use pgo_lexer::symbol::{Bracket, Keyword, Symbol};
use pgo_lexer::token::Lexeme;
use pgo_syntax::declaration::{Declaration, Declarations, Definition};
use pgo_syntax::name::{PlacedName, PlacedNames};
use std::alloc::Global;

/// A definition of this name with parameters, behind the `(`.
#[tactic(auto, unfolding(crate::specs::ReadingUnits::with_params))]
fn with_params(
    alloc: Global,
    cursor: &mut Cursor<'_>,
    name: PlacedName,
) -> Result<Definition, TextStop>
    ensures { Reads (spec.with_params name cursor.old) result cursor.new }
{
    let params = items(alloc, cursor, Symbol::Comma)?;
    cursor.expect(Symbol::Close(Bracket::Round))?;
    cursor.expect(Symbol::Defines)?;
    let body = cursor.expression(alloc)?;
    Ok(Definition { name, params, body })
}

impl Item for Definition {
    ghost parser = { spec.definition };

    /// A definition.
    #[tactic(auto, unfolding(crate::specs::ReadingUnits::definition, crate::specs::ReadingUnits::without_params))]
    fn read(alloc: Global, cursor: &mut Cursor<'_>) -> Result<Definition, TextStop> {
        let name = cursor.name(alloc)?;
        if cursor.eat(Symbol::Open(Bracket::Round)) {
            return with_params(alloc, cursor, name);
        }
        cursor.expect(Symbol::Defines)?;
        let body = cursor.expression(alloc)?;
        let params = PlacedNames::new(alloc);
        Ok(Definition { name, params, body })
    }
}

impl RowItem for Definition {
    ghost begins = { reading.sees_name };

    fn is_next(cursor: &Cursor<'_>) -> bool {
        cursor.sees_name()
    }
}

/// A declaration.
#[tactic(auto, unfolding(crate::specs::ReadingUnits::declaration, crate::specs::ReadingUnits::with_value))]
fn declaration(alloc: Global, cursor: &mut Cursor<'_>) -> Result<Declaration, TextStop>
    ensures { Reads (spec.declaration cursor.old) result cursor.new }
{
    let name = cursor.name(alloc)?;
    if cursor.sees(Symbol::Infix(Infix::Equal)) || cursor.sees(Symbol::Infix(Infix::In)) {
        let o = origin(alloc, cursor)?;
        let initial = Some(o);
        return Ok(Declaration { name, initial });
    }
    let initial = None;
    Ok(Declaration { name, initial })
}

/// Goes past what stands between a declaration, which was read from `before` on, and the next one.
#[tactic(auto, unfolding(crate::specs::ReadingUnits::declaration_ended))]
fn end_declaration(cursor: &mut Cursor<'_>, before: &[Lexeme]) -> Result<(), TextStop>
    ensures { Passes (spec.declaration_ended before.now cursor.old) result cursor.new }
{
    if cursor.sees(Symbol::Comma) {
        cursor.skip();
        if cursor.sees_name() {
            return Ok(());
        }
        return Err(cursor.refuse());
    }
    cursor.end(before)
}

/// One declaration more.
#[tactic(auto, unfolding(crate::specs::ReadingUnits::one_more_declaration))]
fn more_declarations(
    alloc: Global,
    cursor: &mut Cursor<'_>,
    all: &mut Declarations,
) -> Result<(), TextStop>
    ensures { Updates (spec.one_more_declaration all.old cursor.old) result all.new cursor.new }
{
    let before = cursor.rest();
    let d = declaration(alloc, cursor)?;
    end_declaration(cursor, before)?;
    all.push(d)?;
    Ok(())
}

/// Further declarations, as far as they go.
fn declarations_behind(
    alloc: Global,
    cursor: &mut Cursor<'_>,
    first: Declarations,
) -> Result<Declarations, TextStop>
    ensures { Reads (steps.all_folded reading.sees_name spec.one_more_declaration first cursor.old) result cursor.new }
{
    let mut all = first;
    for _turn in 0..cursor.left() {
        if !cursor.sees_name() {
            return Ok(all);
        }
        more_declarations(alloc, cursor, &mut all)?;
    }
    Ok(all)
}

/// `variables` and declarations, one or more.
#[tactic(auto, unfolding(crate::specs::ReadingUnits::variables, crate::specs::ReadingUnits::declarations))]
pub fn variables(alloc: Global, cursor: &mut Cursor<'_>) -> Result<Declarations, TextStop>
    ensures { Reads (spec.variables cursor.old) result cursor.new }
{
    cursor.expect(Symbol::Keyword(Keyword::Variables))?;
    let mut first = Declarations::new(alloc);
    more_declarations(alloc, cursor, &mut first)?;
    declarations_behind(alloc, cursor, first)
}

/// The variables of an archetype, if it has some.
#[tactic(auto, unfolding(crate::specs::ReadingUnits::locals))]
pub fn locals(alloc: Global, cursor: &mut Cursor<'_>) -> Result<Declarations, TextStop>
    ensures { Reads (spec.locals cursor.old) result cursor.new }
{
    if cursor.sees(Symbol::Keyword(Keyword::Variables)) {
        variables(alloc, cursor)
    } else {
        Ok(Declarations::new(alloc))
    }
}
