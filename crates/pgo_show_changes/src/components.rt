// Components by their texts.
ghost use Rattle.std.specs.Prelude.{◌≡◌, ◌++◌, codes, Some, IfOk, map, option_map};
ghost use Rattle.pgo_base.specs.PairsView.{all_pairs};
ghost use Rattle.pgo_base.specs.View.{data_of, named_data, pair_of};
ghost use Rattle.pgo_model.specs.Bundle.{component_text, indexed_text};
ghost use Rattle.pgo_model.specs.LogView.{component_view};
ghost use Rattle.pgo_model.specs.ValueText as text;
ghost use Rattle.pgo_value_text.specs.Reading.{begins};
ghost use Rattle.pgo_show_changes.specs.Components as spec;

use pgo_base::log::Component;
use pgo_base::pairs::Pairs;
use pgo_base::text::Text;
use pgo_base::value::Value;
use pgo_lexer::bytes::is_same;
use pgo_lines::line::Line;
use pgo_lines::line::Piece::{Bytes, Name};
use pgo_value_text::write::write_value;
use std::alloc::{AllocError, Global};

/// The text of a value.
pub fn value_text(alloc: Global, value: &Value) -> Result<Text, AllocError>
    ensures { IfOk result (λ t. t ≡ text.value_text (data_of value.now)) }
{
    match write_value(alloc, value) {
        Ok(text) => Ok(text),
        Err(_) => Err(AllocError),
    }
}

/// The text of a variable at an index that has this text.
#[tactic(auto, using(crate::proofs::Texts::part_pieces))]
fn part_line<'texts>(
    alloc: Global,
    name: &'texts Text,
    index: &'texts Text,
) -> Result<Line, AllocError>
    ensures { IfOk result (λ l. l ≡ name.now ++ codes "[" ++ index.now ++ codes "]") }
{
    Line::of(
        alloc,
        &[
            Name(name),
            Bytes(b"["),
            Bytes(index.as_bytes()),
            Bytes(b"]"),
        ],
    )
}

/// The text of a variable at an index.
fn part_text(alloc: Global, name: &Text, index: &Value) -> Result<Line, AllocError>
    ensures { IfOk result (λ l. l ≡ indexed_text name.now (Some (data_of index.now))) }
{
    let index = value_text(alloc, index)?;
    part_line(alloc, name, &index)
}

/// The text of a variable, or of one at an index.
fn indexed(alloc: Global, name: &Text, index: &Option<Value>) -> Result<Line, AllocError>
    ensures { IfOk result (λ l. l ≡ indexed_text name.now (option_map data_of index.now)) }
{
    match index {
        Some(index) => part_text(alloc, name, index),
        None => Line::of(alloc, &[Name(name)]),
    }
}

/// The text of a component.
pub fn component_text(alloc: Global, component: &Component) -> Result<Line, AllocError>
    ensures { IfOk result (λ l. l ≡ component_text (component_view component.now)) }
{
    indexed(alloc, &component.variable, &component.index)
}

/// Whether a variable at an index has this text.
fn is_part(alloc: Global, word: &[u8], name: &Text, index: &Value) -> Result<bool, AllocError>
    ensures { IfOk result (λ b. b ≡ text.same_bytes word.now (indexed_text name.now (Some (data_of index.now)))) }
{
    let part = part_text(alloc, name, index)?;
    Ok(is_same(word, part.as_bytes()))
}

/// The values of a function at its indices.
#[tactic(auto, using(crate::proofs::Parts::graph_of))]
fn parts(value: &Value) -> Pairs<'_>
    ensures { map pair_of (all_pairs result) ≡ spec.parts (data_of value.now) }
{
    match value {
        Value::Fun(f) => f.pairs(),
        _ => Pairs::none(),
    }
}

/// The value at the index with which a variable has this text.
fn part_value<'a>(
    alloc: Global,
    word: &[u8],
    name: &Text,
    parts: Pairs<'a>,
) -> Result<Option<&'a Value>, AllocError>
    ensures { IfOk result (λ o. option_map (λ r. data_of r.now) o ≡ spec.part_value word.now name.now (map pair_of (all_pairs parts.entry))) }
{
    for i in 0..parts.len() {
        let part = parts.at(i);
        if is_part(alloc, word, name, &part.0)? {
            return Ok(Some(&part.1));
        }
    }
    Ok(None)
}

/// The value of a variable, or at one of its indices, that has this text.
fn value_in<'a>(
    alloc: Global,
    word: &[u8],
    variable: &'a (Text, Value),
) -> Result<Option<&'a Value>, AllocError>
    ensures { IfOk result (λ o. option_map (λ r. data_of r.now) o ≡ spec.value_in word.now (named_data variable.now).0 (named_data variable.now).1) }
{
    if variable.0.is_bytes(word) {
        return Ok(Some(&variable.1));
    }
    part_value(alloc, word, &variable.0, parts(&variable.1))
}

/// The value of the component that has this text; none, where these variables have no such component.
pub fn content_of<'a>(
    alloc: Global,
    word: &[u8],
    variables: &'a [(Text, Value)],
) -> Result<Option<&'a Value>, AllocError>
    ensures { IfOk result (λ o. option_map (λ r. data_of r.now) o ≡ spec.content_of word.now (map named_data variables.now)) }
{
    for variable in variables {
        match value_in(alloc, word, variable)? {
            Some(value) => return Ok(Some(value)),
            None => {}
        }
    }
    Ok(None)
}

/// Whether these bytes stand at the front.
fn begins(bytes: &[u8], wanted: &[u8]) -> bool
    ensures { result ≡ begins wanted.now bytes.now }
{
    bytes.starts_with(wanted)
}

/// Whether what stands before an index of this variable is the beginning of a text.
fn begins_part(alloc: Global, word: &[u8], name: &Text) -> Result<bool, AllocError>
    ensures { IfOk result (λ b. b ≡ begins (name.now ++ codes "[") word.now) }
{
    let front = Line::of(alloc, &[Name(name), Bytes(b"[")])?;
    Ok(begins(word, front.as_bytes()))
}

/// Whether a text is that of a variable at an index, or of a part of a variable as a whole.
fn concerns_at(
    alloc: Global,
    word: &[u8],
    name: &Text,
    index: &Option<Value>,
) -> Result<bool, AllocError>
    ensures { IfOk result (λ b. b ≡ spec.concerns_at word.now name.now (option_map data_of index.now)) }
{
    match index {
        Some(index) => is_part(alloc, word, name, index),
        None => begins_part(alloc, word, name),
    }
}

/// Whether a change of this component is one of the component that has this text, of a part of it, or of the whole of which it is a part.
pub fn concerns(alloc: Global, word: &[u8], component: &Component) -> Result<bool, AllocError>
    ensures { IfOk result (λ b. b ≡ spec.concerns word.now (component_view component.now)) }
{
    if component.variable.is_bytes(word) {
        return Ok(true);
    }
    concerns_at(alloc, word, &component.variable, &component.index)
}
