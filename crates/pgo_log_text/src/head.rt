// The head of a bundle: its constants, and the bytes of its module.
ghost use Rattle.std.specs.Prelude.{[]};
ghost use Rattle.pgo_base.specs.View.{named_data};
ghost use Rattle.pgo_bundle.specs.View.{version_view};
ghost use Rattle.pgo_log_text.specs.Lines as spec;
ghost use Rattle.pgo_log_text.specs.Parsers.{Reads, ReadsAs};

use crate::cursor::Cursor;
use crate::errors::LineStop;
use crate::field::{last_number, last_value};
use pgo_base::consts::Consts;
use pgo_base::text::Text;
use pgo_base::value::Value;
use pgo_bundle::log::Version;
use std::alloc::Global;

/// A constant's line: `name = value`.
#[tactic(auto, unfolding(crate::specs::Lines::constant_line))]
fn constant_line(alloc: Global, cursor: &mut Cursor<'_>) -> Result<(Text, Value), LineStop>
    ensures { ReadsAs named_data (spec.constant_line cursor.old) result cursor.new }
{
    let name = cursor.name(alloc)?;
    cursor.expect(b" = ")?;
    let value = last_value(alloc, cursor)?;
    Ok((name, value))
}

/// So many constants.
fn constants(alloc: Global, cursor: &mut Cursor<'_>, count: u32) -> Result<Consts, LineStop>
    ensures { Reads (spec.constants count [] cursor.old) result cursor.new }
{
    let mut list = Vec::new(alloc);
    for _turn in 0..count {
        list.push(constant_line(alloc, cursor)?)?;
    }
    Ok(Consts::from_vec(list))
}

/// The line of the version.
#[tactic(auto, unfolding(crate::specs::Lines::version, crate::specs::Lines::word_of))]
fn version(cursor: &mut Cursor<'_>) -> Result<Version, LineStop>
    ensures { ReadsAs version_view (spec.version cursor.old) result cursor.new }
{
    if cursor.begins(b"pgo 2\n") {
        cursor.expect(b"pgo 2\n")?;
        return Ok(Version::Two);
    }
    cursor.expect(b"pgo 1\n")?;
    Ok(Version::One)
}

/// The constants.
#[tactic(auto, unfolding(crate::specs::Lines::constants_part))]
fn constants_part(alloc: Global, cursor: &mut Cursor<'_>) -> Result<Consts, LineStop>
    ensures { Reads (spec.constants_part cursor.old) result cursor.new }
{
    cursor.expect(b"consts ")?;
    let count = last_number(cursor)?;
    constants(alloc, cursor, count)
}

/// The version and the constants.
#[tactic(auto, unfolding(crate::specs::Lines::opening))]
pub fn opening(alloc: Global, cursor: &mut Cursor<'_>) -> Result<(Version, Consts), LineStop>
    ensures { ReadsAs (λ p. (version_view p.0, p.1)) (spec.opening cursor.old) result cursor.new }
{
    let version = version(cursor)?;
    let consts = constants_part(alloc, cursor)?;
    Ok((version, consts))
}

/// The bytes of the module.
#[tactic(auto, unfolding(crate::specs::Lines::module_part))]
pub fn module_part<'a>(cursor: &mut Cursor<'a>) -> Result<&'a [u8], LineStop>
    ensures { ReadsAs (λ s. s.now) (spec.module_part cursor.old) result cursor.new }
{
    cursor.expect(b"module ")?;
    let count = last_number(cursor)?;
    cursor.take(count)
}
