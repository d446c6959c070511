// Parameters, arguments and mapping clauses.
ghost use Rattle.pgo_expr_read.specs.Steps.{Reads};
ghost use Rattle.pgo_mpcal_read.specs.ReadingUnits as spec;

use crate::cursor::Cursor;
use crate::item::{Item, RowItem};
use pgo_lexer::errors::TextStop;
use pgo_lexer::symbol::{Bracket, Keyword, Symbol};
use pgo_syntax::archetype::{Extent, Parameter, ParameterKind};
use pgo_syntax::process::{Argument, MappingClause, MappingTarget};
use std::alloc::Global;

/// Nothing, or `[_]`.
#[tactic(auto, unfolding(crate::specs::ReadingUnits::extent, crate::specs::ReadingUnits::element))]
fn extent(cursor: &mut Cursor<'_>) -> Result<Extent, TextStop>
    ensures { Reads (spec.extent cursor.old) result cursor.new }
{
    if !cursor.sees(Symbol::Open(Bracket::Square)) {
        return Ok(Extent::Whole);
    }
    cursor.expect(Symbol::Open(Bracket::Square))?;
    cursor.expect(Symbol::Underscore)?;
    cursor.expect(Symbol::Close(Bracket::Square))?;
    Ok(Extent::Element)
}

impl Item for Parameter {
    ghost parser = { spec.parameter };

    /// A parameter of an archetype.
    #[tactic(auto, unfolding(crate::specs::ReadingUnits::parameter, crate::specs::ReadingUnits::ref_parameter, crate::specs::ReadingUnits::value_parameter))]
    fn read(alloc: Global, cursor: &mut Cursor<'_>) -> Result<Parameter, TextStop> {
        if cursor.eat(Symbol::Keyword(Keyword::Ref)) {
            let name = cursor.name(alloc)?;
            let extent = extent(cursor)?;
            let kind = ParameterKind::Ref(extent);
            return Ok(Parameter { name, kind });
        }
        let name = cursor.name(alloc)?;
        let kind = ParameterKind::Value;
        Ok(Parameter { name, kind })
    }
}

impl Item for Argument {
    ghost parser = { spec.argument };

    /// An argument of an instance. An expression has the place of its first token.
    #[tactic(auto, unfolding(crate::specs::ReadingUnits::argument, crate::specs::ReadingUnits::ref_argument, crate::specs::ReadingUnits::value_argument))]
    fn read(alloc: Global, cursor: &mut Cursor<'_>) -> Result<Argument, TextStop> {
        if cursor.eat(Symbol::Keyword(Keyword::Ref)) {
            let name = cursor.name(alloc)?;
            let extent = extent(cursor)?;
            return Ok(Argument::Ref(name, extent));
        }
        let place = cursor.place()?;
        let e = cursor.expression(alloc)?;
        Ok(Argument::Value(place, e))
    }
}

/// What a mapping clause speaks of.
#[tactic(auto, unfolding(crate::specs::ReadingUnits::target, crate::specs::ReadingUnits::numbered_target, crate::specs::ReadingUnits::named_target))]
fn target(alloc: Global, cursor: &mut Cursor<'_>) -> Result<MappingTarget, TextStop>
    ensures { Reads (spec.target cursor.old) result cursor.new }
{
    if cursor.sees(Symbol::At) {
        let place = cursor.mark(Symbol::At)?;
        let number = cursor.number()?;
        let extent = extent(cursor)?;
        return Ok(MappingTarget::Argument {
            place,
            number,
            extent,
        });
    }
    let name = cursor.name(alloc)?;
    let extent = extent(cursor)?;
    Ok(MappingTarget::Global { name, extent })
}

impl Item for MappingClause {
    ghost parser = { spec.clause };

    /// `mapping target via name`.
    #[tactic(auto, unfolding(crate::specs::ReadingUnits::clause))]
    fn read(alloc: Global, cursor: &mut Cursor<'_>) -> Result<MappingClause, TextStop> {
        cursor.expect(Symbol::Keyword(Keyword::Mapping))?;
        let target = target(alloc, cursor)?;
        cursor.expect(Symbol::Keyword(Keyword::Via))?;
        let mapping = cursor.name(alloc)?;
        Ok(MappingClause { target, mapping })
    }
}

impl RowItem for MappingClause {
    ghost begins = { spec.sees_clause };

    /// Whether a mapping clause is next, and no mapping macro.
    fn is_next(cursor: &Cursor<'_>) -> bool {
        cursor.sees(Symbol::Keyword(Keyword::Mapping))
            && !cursor.sees_second(Symbol::Keyword(Keyword::Macro))
    }
}
