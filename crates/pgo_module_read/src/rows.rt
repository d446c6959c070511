// Definitions of a module, and rows of them.
ghost use Rattle.std.specs.Prelude.{◌≡◌, IfOk};
ghost use Rattle.pgo_expr_read.specs.Steps.{Reads};
ghost use Rattle.pgo_mpcal_read.specs.Reading as reading;
ghost use Rattle.pgo_mpcal_read.specs.ReadingSpec.{Updates};
ghost use Rattle.pgo_syntax.specs.PlacedNames.{names_of};
ghost use Rattle.pgo_module_read.specs.Reading as spec;

use pgo_base::expr::{Names, Sub};
use pgo_base::items::Items;
use pgo_base::module::{Action, Defined, Defs};
use pgo_lexer::errors::TextStop;
use pgo_lexer::symbol::{Bracket, Symbol};
use pgo_mpcal_read::cursor::Cursor;
use pgo_mpcal_read::item::items;
use pgo_syntax::name::{PlacedName, PlacedNames};
use std::alloc::{AllocError, Global};

/// The greatest height of an expression of a module.
const MOST_HEIGHT: u32 = 512;

/// Names without their places.
pub fn bare(alloc: Global, names: PlacedNames) -> Result<Names, AllocError>
    ensures { IfOk result (λ xs. xs ≡ names_of names) }
{
    let mut list = Names::new(alloc);
    for x in names.into_vec() {
        list.push(x.name)?;
    }
    Ok(list)
}

/// An expression of a module.
pub fn expression(alloc: Global, cursor: &mut Cursor<'_>) -> Result<Sub, TextStop>
    ensures { Reads (spec.expression cursor.old) result cursor.new }
{
    cursor.expression_within(alloc, MOST_HEIGHT)
}

/// A definition of this name with parameters, behind the `(`.
#[tactic(auto, unfolding(crate::specs::Reading::with_parameters))]
fn with_parameters(
    alloc: Global,
    cursor: &mut Cursor<'_>,
    name: PlacedName,
) -> Result<Defined, TextStop>
    ensures { Reads (spec.with_parameters name cursor.old) result cursor.new }
{
    let list = items(alloc, cursor, Symbol::Comma)?;
    cursor.expect(Symbol::Close(Bracket::Round))?;
    cursor.expect(Symbol::Defines)?;
    let body = expression(alloc, cursor)?;
    let params = bare(alloc, list)?;
    let name = name.name;
    Ok(Defined::Means { name, params, body })
}

/// A definition of this name without parameters, behind the name.
#[tactic(auto, unfolding(crate::specs::Reading::without_parameters))]
fn without_parameters(
    alloc: Global,
    cursor: &mut Cursor<'_>,
    name: PlacedName,
) -> Result<Defined, TextStop>
    ensures { Reads (spec.without_parameters name cursor.old) result cursor.new }
{
    cursor.expect(Symbol::Defines)?;
    let body = expression(alloc, cursor)?;
    let params = Names::new(alloc);
    let name = name.name;
    Ok(Defined::Means { name, params, body })
}

/// A definition.
#[tactic(auto, unfolding(crate::specs::Reading::definition))]
fn definition(alloc: Global, cursor: &mut Cursor<'_>) -> Result<Defined, TextStop>
    ensures { Reads (spec.definition cursor.old) result cursor.new }
{
    let name = cursor.name(alloc)?;
    if cursor.eat(Symbol::Open(Bracket::Round)) {
        with_parameters(alloc, cursor, name)
    } else {
        without_parameters(alloc, cursor, name)
    }
}

/// One definition more.
#[tactic(auto, unfolding(pgo_mpcal_read::specs::Reading::one_more))]
fn more_definitions(alloc: Global, cursor: &mut Cursor<'_>, all: &mut Defs) -> Result<(), TextStop>
    ensures { Updates (reading.one_more spec.definition all.old cursor.old) result all.new cursor.new }
{
    let d = definition(alloc, cursor)?;
    all.push(d)?;
    Ok(())
}

/// The definitions up to the word VARIABLES with a name behind it.
pub fn definitions(alloc: Global, cursor: &mut Cursor<'_>) -> Result<Defs, TextStop>
    ensures { Reads (spec.definitions cursor.old) result cursor.new }
{
    let mut all = Defs::new(alloc);
    for _turn in 0..cursor.left() {
        if cursor.begins_list(b"VARIABLES") {
            return Ok(all);
        }
        more_definitions(alloc, cursor, &mut all)?;
    }
    Ok(all)
}

/// `(self) ==`
pub fn with_self(cursor: &mut Cursor<'_>) -> Result<(), TextStop>
    ensures { Reads (spec.fixed spec.with_self cursor.old) result cursor.new }
{
    cursor.expect(Symbol::Open(Bracket::Round))?;
    cursor.expect_word(b"self")?;
    cursor.expect(Symbol::Close(Bracket::Round))?;
    cursor.expect(Symbol::Defines)?;
    Ok(())
}

/// A definition with the parameter `self`.
#[tactic(auto, unfolding(crate::specs::Reading::action))]
fn action(alloc: Global, cursor: &mut Cursor<'_>) -> Result<Action, TextStop>
    ensures { Reads (spec.action cursor.old) result cursor.new }
{
    let name = cursor.name(alloc)?;
    with_self(cursor)?;
    let body = expression(alloc, cursor)?;
    let name = name.name;
    Ok(Action { name, body })
}

/// One definition with the parameter `self` more.
#[tactic(auto, unfolding(pgo_mpcal_read::specs::Reading::one_more))]
fn more_actions(
    alloc: Global,
    cursor: &mut Cursor<'_>,
    all: &mut Items<Action>,
) -> Result<(), TextStop>
    ensures { Updates (reading.one_more spec.action all.old cursor.old) result all.new cursor.new }
{
    let a = action(alloc, cursor)?;
    all.push(a)?;
    Ok(())
}

/// The definitions with the parameter `self`, as far as definitions have parameters.
pub fn actions(alloc: Global, cursor: &mut Cursor<'_>) -> Result<Items<Action>, TextStop>
    ensures { Reads (spec.actions cursor.old) result cursor.new }
{
    let mut all = Items::new(alloc);
    for _turn in 0..cursor.left() {
        if !cursor.sees_second(Symbol::Open(Bracket::Round)) {
            return Ok(all);
        }
        more_actions(alloc, cursor, &mut all)?;
    }
    Ok(all)
}

/// The body of the definition of this name, which has no parameters.
#[tactic(auto, unfolding(crate::specs::Reading::body_of))]
pub fn body_of(alloc: Global, cursor: &mut Cursor<'_>, name: &[u8]) -> Result<Sub, TextStop>
    ensures { Reads (spec.body_of name.now cursor.old) result cursor.new }
{
    cursor.expect_word(name)?;
    cursor.expect(Symbol::Defines)?;
    expression(alloc, cursor)
}
