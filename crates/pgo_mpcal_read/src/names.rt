// Lists of names and of expressions.
ghost use Rattle.pgo_mpcal_read.specs.Reading as reading;
ghost use Rattle.pgo_expr_read.specs.Steps.{Reads};
ghost use Rattle.pgo_mpcal_read.specs.ReadingSpec.{Updates};

use crate::cursor::Cursor;
use crate::item::Item;
use pgo_base::expr::Exprs;
use pgo_lexer::errors::TextStop;
use pgo_lexer::symbol::{Bracket, Symbol};
use pgo_syntax::name::PlacedName;
use std::alloc::Global;

impl Item for PlacedName {
    ghost parser = { reading.name };

    fn read(alloc: Global, cursor: &mut Cursor<'_>) -> Result<PlacedName, TextStop> {
        cursor.name(alloc)
    }
}

/// One expression more, behind a comma.
#[tactic(auto, unfolding(crate::specs::Reading::one_behind))]
fn more_expressions(alloc: Global, cursor: &mut Cursor<'_>, all: &mut Exprs) -> Result<(), TextStop>
    ensures { Updates (reading.one_behind Symbol.Comma reading.expression all.old cursor.old) result all.new cursor.new }
{
    cursor.expect(Symbol::Comma)?;
    let a = cursor.expression(alloc)?;
    all.push(a)?;
    Ok(())
}

/// Expressions behind commas, as far as they go.
fn expressions_behind(
    alloc: Global,
    cursor: &mut Cursor<'_>,
    first: Exprs,
) -> Result<Exprs, TextStop>
    ensures { Reads (reading.behind Symbol.Comma reading.expression first cursor.old) result cursor.new }
{
    let mut all = first;
    for _turn in 0..cursor.left() {
        if !cursor.sees(Symbol::Comma) {
            return Ok(all);
        }
        more_expressions(alloc, cursor, &mut all)?;
    }
    Ok(all)
}

/// Expressions with commas between them.
#[tactic(auto, unfolding(crate::specs::Reading::items))]
fn expressions(alloc: Global, cursor: &mut Cursor<'_>) -> Result<Exprs, TextStop>
    ensures { Reads (reading.items Symbol.Comma reading.expression cursor.old) result cursor.new }
{
    let a = cursor.expression(alloc)?;
    let mut first = Exprs::new(alloc);
    first.push(a)?;
    expressions_behind(alloc, cursor, first)
}

/// Expressions in `( )`.
#[tactic(auto, unfolding(crate::specs::Reading::in_brackets, crate::specs::Reading::some_in_brackets))]
pub fn expressions_in_brackets(alloc: Global, cursor: &mut Cursor<'_>) -> Result<Exprs, TextStop>
    ensures { Reads (reading.in_brackets reading.expression cursor.old) result cursor.new }
{
    cursor.expect(Symbol::Open(Bracket::Round))?;
    if cursor.eat(Symbol::Close(Bracket::Round)) {
        return Ok(Exprs::new(alloc));
    }
    let all = expressions(alloc, cursor)?;
    cursor.expect(Symbol::Close(Bracket::Round))?;
    Ok(all)
}
