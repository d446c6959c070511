// Assignments, and the names of a `with`.
ghost use Rattle.pgo_expr_read.specs.Steps.{Reads};
ghost use Rattle.pgo_mpcal_read.specs.ReadingStatements as spec;

use crate::cursor::Cursor;
use crate::item::{Item, RowItem, row};
use pgo_base::expr::Infix;
use pgo_base::text::Text;
use pgo_lexer::errors::TextStop;
use pgo_lexer::symbol::{Bracket, Symbol};
use pgo_syntax::assignment::{Assignment, Left, Step};
use pgo_syntax::binding::{Origin, WithName};
use pgo_syntax::name::PlacedName;
use std::alloc::Global;

impl Item for Step {
    ghost parser = { spec.path_step };

    /// `[i]` or `.f`.
    #[tactic(auto, unfolding(crate::specs::ReadingStatements::path_step, crate::specs::ReadingStatements::field_step, crate::specs::ReadingStatements::index_step))]
    fn read(alloc: Global, cursor: &mut Cursor<'_>) -> Result<Step, TextStop> {
        if cursor.eat(Symbol::Dot) {
            let field = cursor.name(alloc)?;
            return Ok(Step::Field(field.name));
        }
        cursor.expect(Symbol::Open(Bracket::Square))?;
        let index = cursor.expression(alloc)?;
        cursor.expect(Symbol::Close(Bracket::Square))?;
        Ok(Step::Index(index))
    }
}

impl RowItem for Step {
    ghost begins = { spec.sees_step };

    /// Whether a step of a path is next.
    fn is_next(cursor: &Cursor<'_>) -> bool {
        cursor.sees(Symbol::Open(Bracket::Square)) || cursor.sees(Symbol::Dot)
    }
}

/// What an assignment changes: a variable, or `$variable`.
#[tactic(auto, unfolding(crate::specs::ReadingStatements::assigned, crate::specs::ReadingStatements::variable))]
fn assigned(alloc: Global, cursor: &mut Cursor<'_>) -> Result<PlacedName, TextStop>
    ensures { Reads (spec.assigned cursor.old) result cursor.new }
{
    if !cursor.sees(Symbol::Variable) {
        return cursor.name(alloc);
    }
    let place = cursor.mark(Symbol::Variable)?;
    let name = Text::from_slice(alloc, b"$variable")?;
    Ok(PlacedName { name, place })
}

/// A left side.
#[tactic(auto, unfolding(crate::specs::ReadingStatements::left))]
fn left(alloc: Global, cursor: &mut Cursor<'_>) -> Result<Left, TextStop>
    ensures { Reads (spec.left cursor.old) result cursor.new }
{
    let name = assigned(alloc, cursor)?;
    let path = row(alloc, cursor)?;
    Ok(Left { name, path })
}

impl Item for Assignment {
    ghost parser = { spec.assignment };

    /// `left := e`.
    #[tactic(auto, unfolding(crate::specs::ReadingStatements::assignment))]
    fn read(alloc: Global, cursor: &mut Cursor<'_>) -> Result<Assignment, TextStop> {
        let left = left(alloc, cursor)?;
        cursor.expect(Symbol::Assign)?;
        let right = cursor.expression(alloc)?;
        Ok(Assignment { left, right })
    }
}

/// `= e` or `\in e`.
#[tactic(auto, unfolding(crate::specs::ReadingStatements::origin_of, crate::specs::ReadingStatements::equals, crate::specs::ReadingStatements::member))]
pub fn origin(alloc: Global, cursor: &mut Cursor<'_>) -> Result<Origin, TextStop>
    ensures { Reads (spec.origin_of cursor.old) result cursor.new }
{
    if cursor.eat(Symbol::Infix(Infix::Equal)) {
        let e = cursor.expression(alloc)?;
        return Ok(Origin::Equals(e));
    }
    cursor.expect(Symbol::Infix(Infix::In))?;
    let e = cursor.range(alloc)?;
    Ok(Origin::In(e))
}

impl Item for WithName {
    ghost parser = { spec.with_name };

    /// A name that a `with` binds.
    #[tactic(auto, unfolding(crate::specs::ReadingStatements::with_name))]
    fn read(alloc: Global, cursor: &mut Cursor<'_>) -> Result<WithName, TextStop> {
        let name = cursor.name(alloc)?;
        let origin = origin(alloc, cursor)?;
        Ok(WithName { name, origin })
    }
}
