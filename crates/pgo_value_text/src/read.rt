// A value from its text.
ghost use Rattle.std.specs.Prelude.{◌≡◌, map, codes, IfOk, IfErr};
ghost use Rattle.pgo_base.specs.Data.{Data};
ghost use Rattle.pgo_base.specs.View.{data_of, pair_of};
ghost use Rattle.pgo_value_text.specs.IsValueText.{IsValueText};
ghost use Rattle.pgo_value_text.specs.ReadValue.{IsOnly, IsWithin};
ghost use Rattle.pgo_value_text.specs.Reading as spec;
ghost use Rattle.pgo_value_text.specs.Parsers.{ReadsAs, MakesAs};

use crate::atom::{atom, spaced_field};
use crate::built::{function_from, record_from, set_from, tuple_from};
use crate::cursor::Cursor;
use crate::errors::ValueStop;
use crate::small::is_small;
use crate::stop::Stop;
use pgo_base::value::Value;
use std::alloc::Global;

/// How deep a text may nest.
const MOST_DEPTH: usize = 1024;

/// How a function's pairs are written.
#[derive(Clone, Copy)]
enum PairForm {
    /// `a |-> 1, b |-> 2`
    Fields,
    /// `k :> v @@ l :> w`
    Mappings,
}

/// The word between two pairs.
fn between(form: PairForm) -> &'static [u8]
    ensures { result.now ≡ spec.between form }
{
    match form {
        PairForm::Fields => b",",
        PairForm::Mappings => b"@@",
    }
}

/// The value of which the bytes are a text, whose parts may come in any order.
///
/// - `Bad` comes exactly where the bytes are a text of no value. The offset in bytes is where that is seen: at the first
///   byte with which the text can't go on, behind a word that spells no value or no field, or behind a record with a
///   field that stands twice; at the text's end where it ends too early or where a part has too many members.
/// - `NoMemory` comes where there is no memory.
///
/// Source: "Specifying Systems" and this project's choice.
pub fn read_value(alloc: Global, text: &[u8]) -> Result<Value, ValueStop>
    ensures found { IfOk result (λ v. IsValueText text.now (data_of v)) }
    ensures only { (d : Data) → IsValueText text.now d → IsOnly d result }
    ensures within { IfErr result (IsWithin text.now) }
{
    match whole(alloc, text) {
        Ok(value) => Ok(value),
        Err(Stop::Bad { left }) => Err(ValueStop::Bad {
            offset: text.len().saturating_sub(left),
        }),
        Err(Stop::NoMemory) => Err(ValueStop::NoMemory),
    }
}

/// The value that the whole text spells, where no part of it has too many members.
#[tactic(auto, unfolding(crate::specs::Reading::whole))]
fn whole(alloc: Global, text: &[u8]) -> Result<Value, Stop>
    ensures { MakesAs data_of (spec.whole text.now) result }
{
    let mut cursor = Cursor::new(text);
    let value = value(&mut cursor, alloc, MOST_DEPTH)?;
    if cursor.left() == 0 && is_small(&value) {
        Ok(value)
    } else {
        Err(Stop::Bad {
            left: cursor.left(),
        })
    }
}

/// A value that nests at most so deep.
#[cycle(value)]
#[tactic(auto, unfolding(crate::specs::Reading::form))]
fn value(cursor: &mut Cursor<'_>, alloc: Global, depth: usize) -> Result<Value, Stop>
    ensures { ReadsAs data_of (spec.value depth cursor.old) result cursor.new }
{
    if depth == 0 {
        return Err(Stop::Bad {
            left: cursor.left(),
        });
    }
    if cursor.begins(b"{") {
        set(cursor, alloc, depth - 1)
    } else if cursor.begins(b"<<") {
        tuple(cursor, alloc, depth - 1)
    } else if cursor.begins(b"[") {
        record(cursor, alloc, depth - 1)
    } else if cursor.begins(b"(") {
        function(cursor, alloc, depth - 1)
    } else {
        atom(cursor, alloc)
    }
}

/// A value with blanks around it.
#[cycle(value)]
#[tactic(auto, unfolding(crate::specs::Reading::spaced))]
fn spaced_value(cursor: &mut Cursor<'_>, alloc: Global, depth: usize) -> Result<Value, Stop>
    ensures { ReadsAs data_of (spec.spaced (spec.value depth) cursor.old) result cursor.new }
{
    cursor.skip_blanks();
    let value = value(cursor, alloc, depth)?;
    cursor.skip_blanks();
    Ok(value)
}

/// One value or more, parted by commas.
#[cycle(value)]
fn some_values(cursor: &mut Cursor<'_>, alloc: Global, depth: usize) -> Result<Vec<Value>, Stop>
    ensures { ReadsAs (λ v. map data_of v.items) (spec.parted (codes ",") (spec.spaced (spec.value depth)) cursor.old) result cursor.new }
{
    let mut values = vec![in alloc; spaced_value(cursor, alloc, depth)?]?;
    for _turn in 0..cursor.left() {
        if !cursor.begins(b",") {
            return Ok(values);
        }
        cursor.expect(b",")?;
        values.push(spaced_value(cursor, alloc, depth)?)?;
    }
    Ok(values)
}

/// No value before this word, or some that are parted by commas.
#[cycle(value)]
#[tactic(auto, unfolding(crate::specs::Reading::listed))]
fn values(
    cursor: &mut Cursor<'_>,
    alloc: Global,
    depth: usize,
    close: &[u8],
) -> Result<Vec<Value>, Stop>
    ensures { ReadsAs (λ v. map data_of v.items) (spec.listed close.now (spec.value depth) cursor.old) result cursor.new }
{
    if cursor.is_before(close) {
        cursor.skip_blanks();
        Ok(Vec::new(alloc))
    } else {
        some_values(cursor, alloc, depth)
    }
}

/// `{a, b}`.
#[cycle(value)]
#[tactic(auto, unfolding(crate::specs::Reading::set_of))]
fn set(cursor: &mut Cursor<'_>, alloc: Global, depth: usize) -> Result<Value, Stop>
    ensures { ReadsAs data_of (spec.set_of (spec.value depth) cursor.old) result cursor.new }
{
    cursor.expect(b"{")?;
    let members = values(cursor, alloc, depth, b"}")?;
    cursor.expect(b"}")?;
    Ok(set_from(members)?)
}

/// `<<a, b>>`.
#[cycle(value)]
#[tactic(auto, unfolding(crate::specs::Reading::tuple_of))]
fn tuple(cursor: &mut Cursor<'_>, alloc: Global, depth: usize) -> Result<Value, Stop>
    ensures { ReadsAs data_of (spec.tuple_of (spec.value depth) cursor.old) result cursor.new }
{
    cursor.expect(b"<<")?;
    let elements = values(cursor, alloc, depth, b">>")?;
    cursor.expect(b">>")?;
    Ok(tuple_from(alloc, elements)?)
}

/// A pair in this form.
#[cycle(value)]
#[tactic(auto, unfolding(crate::specs::Reading::pair_in, crate::specs::Reading::joined))]
fn pair(
    cursor: &mut Cursor<'_>,
    alloc: Global,
    depth: usize,
    form: PairForm,
) -> Result<(Value, Value), Stop>
    ensures { ReadsAs pair_of (spec.pair_in form (spec.value depth) cursor.old) result cursor.new }
{
    match form {
        PairForm::Fields => {
            let key = spaced_field(cursor, alloc)?;
            cursor.expect(b"|->")?;
            Ok((key, spaced_value(cursor, alloc, depth)?))
        }
        PairForm::Mappings => {
            let key = spaced_value(cursor, alloc, depth)?;
            cursor.expect(b":>")?;
            Ok((key, spaced_value(cursor, alloc, depth)?))
        }
    }
}

/// One pair or more.
#[cycle(value)]
fn pairs(
    cursor: &mut Cursor<'_>,
    alloc: Global,
    depth: usize,
    form: PairForm,
) -> Result<Vec<(Value, Value)>, Stop>
    ensures { ReadsAs (λ v. map pair_of v.items) (spec.pairs_in form (spec.value depth) cursor.old) result cursor.new }
{
    let word = between(form);
    let mut pairs = vec![in alloc; pair(cursor, alloc, depth, form)?]?;
    for _turn in 0..cursor.left() {
        if !cursor.begins(word) {
            return Ok(pairs);
        }
        cursor.expect(word)?;
        pairs.push(pair(cursor, alloc, depth, form)?)?;
    }
    Ok(pairs)
}

/// `[a |-> 1, b |-> 2]`.
#[cycle(value)]
#[tactic(auto, unfolding(crate::specs::Reading::record_of))]
fn record(cursor: &mut Cursor<'_>, alloc: Global, depth: usize) -> Result<Value, Stop>
    ensures { ReadsAs data_of (spec.record_of (spec.value depth) cursor.old) result cursor.new }
{
    cursor.expect(b"[")?;
    let fields = pairs(cursor, alloc, depth, PairForm::Fields)?;
    cursor.expect(b"]")?;
    match record_from(fields)? {
        Some(record) => Ok(record),
        None => Err(Stop::Bad {
            left: cursor.left(),
        }),
    }
}

/// `(k :> v @@ l :> w)`.
#[cycle(value)]
#[tactic(auto, unfolding(crate::specs::Reading::function_of))]
fn function(cursor: &mut Cursor<'_>, alloc: Global, depth: usize) -> Result<Value, Stop>
    ensures { ReadsAs data_of (spec.function_of (spec.value depth) cursor.old) result cursor.new }
{
    cursor.expect(b"(")?;
    let mappings = pairs(cursor, alloc, depth, PairForm::Mappings)?;
    cursor.expect(b")")?;
    Ok(function_from(mappings)?)
}
