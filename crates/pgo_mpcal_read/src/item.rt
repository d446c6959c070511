// Lists, by how one item is read.
ghost use Rattle.std.specs.Prelude.{◌≡◌, Bool, List};
ghost use Rattle.pgo_lexer.specs.declared.token.Lexeme.{Lexeme};
ghost use Rattle.pgo_mpcal_read.specs.Reading as reading;
ghost use Rattle.pgo_expr_read.specs.Steps.{Reads};
ghost use Rattle.pgo_mpcal_read.specs.Reading.{Parser};
ghost use Rattle.pgo_mpcal_read.specs.ReadingSpec.{Updates};

use crate::cursor::Cursor;
use pgo_base::items::Items;
use pgo_lexer::errors::TextStop;
use pgo_lexer::symbol::{Bracket, Symbol};
use std::alloc::Global;

/// What lists are made of.
pub trait Item: Drop {
    ghost parser: { Parser Self };

    /// An item, which must be next.
    fn read(alloc: Global, cursor: &mut Cursor<'_>) -> Result<Self, TextStop>
        ensures { Reads (parser cursor.old) result cursor.new };
}

/// What stands in rows, one behind another.
pub trait RowItem: Item {
    ghost begins: { List Lexeme → Bool };

    /// Whether an item is next.
    fn is_next(cursor: &Cursor<'_>) -> bool
        ensures { result ≡ begins cursor.now };
}

/// One item more, behind this sign.
#[tactic(auto, unfolding(crate::specs::Reading::one_behind))]
fn one_behind<T: Item>(
    alloc: Global,
    cursor: &mut Cursor<'_>,
    sign: Symbol,
    all: &mut Items<T>,
) -> Result<(), TextStop>
    ensures { Updates (reading.one_behind sign T.parser all.old cursor.old) result all.new cursor.new }
{
    cursor.expect(sign)?;
    let item = T::read(alloc, cursor)?;
    all.push(item)?;
    Ok(())
}

/// Items behind this sign, as far as they go.
pub fn behind<T: Item>(
    alloc: Global,
    cursor: &mut Cursor<'_>,
    sign: Symbol,
    first: Items<T>,
) -> Result<Items<T>, TextStop>
    ensures { Reads (reading.behind sign T.parser first cursor.old) result cursor.new }
{
    let mut all = first;
    for _turn in 0..cursor.left() {
        if !cursor.sees(sign) {
            return Ok(all);
        }
        one_behind(alloc, cursor, sign, &mut all)?;
    }
    Ok(all)
}

/// One item or more, with this sign between them.
#[tactic(auto, unfolding(crate::specs::Reading::items))]
pub fn items<T: Item>(
    alloc: Global,
    cursor: &mut Cursor<'_>,
    sign: Symbol,
) -> Result<Items<T>, TextStop>
    ensures { Reads (reading.items sign T.parser cursor.old) result cursor.new }
{
    let item = T::read(alloc, cursor)?;
    let mut first = Items::new(alloc);
    first.push(item)?;
    behind(alloc, cursor, sign, first)
}

/// Items in `( )`, with commas between them.
#[tactic(auto, unfolding(crate::specs::Reading::in_brackets, crate::specs::Reading::some_in_brackets))]
pub fn in_brackets<T: Item>(alloc: Global, cursor: &mut Cursor<'_>) -> Result<Items<T>, TextStop>
    ensures { Reads (reading.in_brackets T.parser cursor.old) result cursor.new }
{
    cursor.expect(Symbol::Open(Bracket::Round))?;
    if cursor.eat(Symbol::Close(Bracket::Round)) {
        return Ok(Items::new(alloc));
    }
    let all = items(alloc, cursor, Symbol::Comma)?;
    cursor.expect(Symbol::Close(Bracket::Round))?;
    Ok(all)
}

/// One item more.
#[tactic(auto, unfolding(crate::specs::Reading::one_more))]
fn one_more<T: Item>(
    alloc: Global,
    cursor: &mut Cursor<'_>,
    all: &mut Items<T>,
) -> Result<(), TextStop>
    ensures { Updates (reading.one_more T.parser all.old cursor.old) result all.new cursor.new }
{
    let item = T::read(alloc, cursor)?;
    all.push(item)?;
    Ok(())
}

/// Items, as far as they go.
pub fn row<T: RowItem>(alloc: Global, cursor: &mut Cursor<'_>) -> Result<Items<T>, TextStop>
    ensures { Reads (reading.row T.begins T.parser cursor.old) result cursor.new }
{
    let mut all = Items::new(alloc);
    for _turn in 0..cursor.left() {
        if !T::is_next(cursor) {
            return Ok(all);
        }
        one_more(alloc, cursor, &mut all)?;
    }
    Ok(all)
}
