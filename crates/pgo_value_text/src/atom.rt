// The values without parts.
ghost use Rattle.std.specs.Prelude.{◌≡◌, IfOk, option_map};
ghost use Rattle.pgo_base.specs.View.{data_of};
ghost use Rattle.pgo_value_text.specs.Reading as spec;
ghost use Rattle.pgo_value_text.specs.Parsers.{ReadsAs};

use crate::cursor::Cursor;
use crate::integer::{negative, positive};
use crate::stop::Stop;
use crate::words::are_digits;
use pgo_base::text::Text;
use pgo_base::value::Value;
use pgo_text::names::{is_name, same_bytes};
use std::alloc::{AllocError, Global};

/// The value that a word spells.
#[tactic(auto, unfolding(crate::specs::Reading::word_value))]
fn word_value(alloc: Global, word: &[u8]) -> Result<Option<Value>, AllocError>
    ensures { IfOk result (λ o. option_map data_of o ≡ spec.word_value word.now) }
{
    if same_bytes(word, b"TRUE") {
        return Ok(Some(Value::Bool(true)));
    }
    if same_bytes(word, b"FALSE") {
        return Ok(Some(Value::Bool(false)));
    }
    if are_digits(word) {
        return Ok(positive(word).map(|z| Value::Int(z)));
    }
    if is_name(word) {
        Ok(Some(Value::Model(Text::from_slice(alloc, word)?)))
    } else {
        Ok(None)
    }
}

#[tactic(auto, unfolding(crate::specs::Reading::word_atom))]
fn word_atom(cursor: &mut Cursor<'_>, alloc: Global) -> Result<Value, Stop>
    ensures { ReadsAs data_of (spec.word_atom cursor.old) result cursor.new }
{
    let word = cursor.word();
    match word_value(alloc, word)? {
        Some(value) => Ok(value),
        None => Err(Stop::Bad {
            left: cursor.left(),
        }),
    }
}

#[tactic(auto, unfolding(crate::specs::Reading::negative_atom))]
fn negative_atom(cursor: &mut Cursor<'_>) -> Result<Value, Stop>
    ensures { ReadsAs data_of (spec.negative_atom cursor.old) result cursor.new }
{
    cursor.expect(b"-")?;
    let word = cursor.word();
    match negative(word) {
        Some(z) => Ok(Value::Int(z)),
        None => Err(Stop::Bad {
            left: cursor.left(),
        }),
    }
}

#[tactic(auto, unfolding(crate::specs::Reading::string_atom))]
fn string_atom(cursor: &mut Cursor<'_>, alloc: Global) -> Result<Value, Stop>
    ensures { ReadsAs data_of (spec.string_atom cursor.old) result cursor.new }
{
    cursor.expect(b"\"")?;
    Ok(Value::Str(cursor.string(alloc)?))
}

/// A value without parts.
#[tactic(auto, unfolding(crate::specs::Reading::atom))]
pub fn atom(cursor: &mut Cursor<'_>, alloc: Global) -> Result<Value, Stop>
    ensures { ReadsAs data_of (spec.atom cursor.old) result cursor.new }
{
    if cursor.begins(b"\"") {
        string_atom(cursor, alloc)
    } else if cursor.begins(b"-") {
        negative_atom(cursor)
    } else {
        word_atom(cursor, alloc)
    }
}

/// A record's field, as a string with blanks around it.
#[tactic(auto, unfolding(crate::specs::Reading::field, crate::specs::Reading::spaced))]
pub fn spaced_field(cursor: &mut Cursor<'_>, alloc: Global) -> Result<Value, Stop>
    ensures { ReadsAs data_of (spec.spaced spec.field cursor.old) result cursor.new }
{
    cursor.skip_blanks();
    let word = cursor.word();
    if !is_name(word) {
        return Err(Stop::Bad {
            left: cursor.left(),
        });
    }
    let field = Text::from_slice(alloc, word)?;
    cursor.skip_blanks();
    Ok(Value::Str(field))
}
