// The parts that an expression's text is made of.
ghost use Rattle.std.specs.Prelude.{◌≡◌, ◌++◌, map, IfOk};
ghost use Rattle.pgo_expr_write.specs.Parts.{see};
ghost use Rattle.pgo_expr_write.specs.Pieces as spec;

use pgo_base::expr::{Expr, Sub};
use pgo_base::text::Text;
use std::alloc::AllocError;

/// A part of an expression's text.
#[derive(Clone, Copy)]
pub enum Part<'a> {
    /// Bytes as they stand.
    Bytes(&'a [u8]),
    Name(&'a Text),
    /// A string, in quotes and with its escapes.
    Quoted(&'a Text),
    Number(i64),
    /// An expression, in `( )` where it is an application or an open form.
    Operand(&'a Sub),
    /// The same, of a member of a list.
    Member(&'a Expr),
}

/// Adds these parts.
pub fn add<'a>(parts: &mut Vec<Part<'a>>, row: &[Part<'a>]) -> Result<(), AllocError>
    ensures { IfOk result (λ _. map see parts.new.items ≡ map see parts.old.items ++ map see row.now) }
{
    parts.extend_from_slice(row)
}

/// Adds the word between two parts of a list, before each but the first.
pub fn add_between<'a>(
    parts: &mut Vec<Part<'a>>,
    word: &'a [u8],
    place: usize,
) -> Result<(), AllocError>
    ensures { IfOk result (λ _. map see parts.new.items ≡ map see parts.old.items ++ spec.before word.now place) }
{
    if place == 0 {
        return Ok(());
    }
    add(parts, &[Part::Bytes(word)])
}
