// The fields of a line.
ghost use Rattle.pgo_base.specs.View.{data_of};
ghost use Rattle.pgo_log_text.specs.Lines as spec;
ghost use Rattle.pgo_log_text.specs.Parsers.{Reads, ReadsAs};

use crate::cursor::Cursor;
use crate::errors::LineStop;
use pgo_base::text::Text;
use pgo_base::value::Value;
use std::alloc::Global;

/// This number.
#[tactic(auto, unfolding(crate::specs::Lines::this_number))]
pub fn this_number(cursor: &mut Cursor<'_>, wanted: usize) -> Result<(), LineStop>
    ensures { Reads (spec.this_number wanted cursor.old) result cursor.new }
{
    if cursor.number()? as usize == wanted {
        Ok(())
    } else {
        Err(LineStop::BadLine)
    }
}

/// This number, and a blank.
#[tactic(auto, unfolding(crate::specs::Lines::this_field))]
pub fn this_field(cursor: &mut Cursor<'_>, wanted: usize) -> Result<(), LineStop>
    ensures { Reads (spec.this_field wanted cursor.old) result cursor.new }
{
    this_number(cursor, wanted)?;
    cursor.expect(b" ")
}

/// A number and a blank.
#[tactic(auto, unfolding(crate::specs::Lines::number_field))]
pub fn number_field(cursor: &mut Cursor<'_>) -> Result<u32, LineStop>
    ensures { Reads (spec.number_field cursor.old) result cursor.new }
{
    let number = cursor.number()?;
    cursor.expect(b" ")?;
    Ok(number)
}

/// A name and a blank.
#[tactic(auto, unfolding(crate::specs::Lines::name_field))]
pub fn name_field(alloc: Global, cursor: &mut Cursor<'_>) -> Result<Text, LineStop>
    ensures { Reads (spec.name_field cursor.old) result cursor.new }
{
    let name = cursor.name(alloc)?;
    cursor.expect(b" ")?;
    Ok(name)
}

/// A number at the end of a line.
#[tactic(auto, unfolding(crate::specs::Lines::last_number))]
pub fn last_number(cursor: &mut Cursor<'_>) -> Result<u32, LineStop>
    ensures { Reads (spec.last_number cursor.old) result cursor.new }
{
    let number = cursor.number()?;
    cursor.expect(b"\n")?;
    Ok(number)
}

/// A value at the end of a line.
#[tactic(auto, unfolding(crate::specs::Lines::last_value))]
pub fn last_value(alloc: Global, cursor: &mut Cursor<'_>) -> Result<Value, LineStop>
    ensures { ReadsAs data_of (spec.last_value cursor.old) result cursor.new }
{
    let value = cursor.value(alloc)?;
    cursor.expect(b"\n")?;
    Ok(value)
}
