// The words of fields.
ghost use Rattle.std.specs.Prelude.{◌≡◌, ◌++◌, codes, map, option_map, IfOk};
ghost use Rattle.pgo_base.specs.View.{data_of};
ghost use Rattle.pgo_meaning.specs.System.{resource_of};
ghost use Rattle.pgo_model.specs.Bundle.{end_text, indexed_text, kind_text, note_word, refused_text};
ghost use Rattle.pgo_model.specs.ValueText.{value_text};
ghost use Rattle.pgo_syntax.specs.RecordView.{kind_view};
ghost use Rattle.pgo_bundle.specs.Lines.{found_text};
ghost use Rattle.pgo_log_write.specs.Lines.{end_view};

use pgo_base::text::Text;
use pgo_base::value::Value;
use pgo_syntax::bound::Resource;
use pgo_syntax::records::{End, NoteKind};
use pgo_value_text::write::write_value;
use std::alloc::{AllocError, Global};

/// The number by which a record names the journal.
const JOURNAL: u32 = 1024;

/// The text of a value.
pub fn written(alloc: Global, value: &Value) -> Result<Text, AllocError>
    ensures { IfOk result (λ t. t ≡ value_text (data_of value.now)) }
{
    match write_value(alloc, value) {
        Ok(text) => Ok(text),
        Err(_) => Err(AllocError),
    }
}

/// `x[index]`.
fn at_index(alloc: Global, name: &Text, index: &Value) -> Result<Text, AllocError>
    ensures { IfOk result (λ t. t ≡ name.now ++ codes "[" ++ value_text (data_of index.now) ++ codes "]") }
{
    let value = written(alloc, index)?;
    let mut bytes = Vec::from_slice(alloc, name.as_bytes())?;
    bytes.push(b'[')?;
    bytes.extend_from_slice(value.as_bytes())?;
    bytes.push(b']')?;
    Ok(Text::from_bytes(bytes)?)
}

/// `x`, or `x[index]`.
pub fn indexed(alloc: Global, name: &Text, index: &Option<Value>) -> Result<Text, AllocError>
    ensures { IfOk result (λ t. t ≡ indexed_text name.now (option_map data_of index.now)) }
{
    match index {
        None => name.copy(alloc),
        Some(value) => at_index(alloc, name, value),
    }
}

/// The resource or the journal that a refusal names.
pub fn refused(alloc: Global, resources: &[Resource], number: u32) -> Result<Text, AllocError>
    ensures { IfOk result (λ t. t ≡ refused_text (map resource_of resources.now) number) }
{
    if number == JOURNAL {
        return Text::from_slice(alloc, b"$log");
    }
    match resources.get(number as usize) {
        None => Ok(Text::new(alloc)),
        Some(resource) => indexed(alloc, &resource.global, &resource.index),
    }
}

/// The word before the kind of a note.
pub fn word_before_kind(kind: NoteKind) -> &'static [u8]
    ensures { result.now ≡ note_word (kind_view kind) }
{
    match kind {
        NoteKind::Blocked | NoteKind::NoValue | NoteKind::AssertFails => b"note",
        NoteKind::Many => b"many", // the number of leaves follows
    }
}

/// The kind of a note; where it found too many leaves, the number of those that it tried.
pub fn kind_word(kind: NoteKind) -> &'static [u8]
    ensures { result.now ≡ kind_text (kind_view kind) }
{
    match kind {
        NoteKind::Blocked => b"blocked",
        NoteKind::NoValue => b"novalue",
        NoteKind::AssertFails => b"assert",
        NoteKind::Many => b"65536",
    }
}

/// What was found, in the line of a note.
pub fn found_word(kind: NoteKind) -> &'static [u8]
    ensures { result.now ≡ found_text (kind_view kind) }
{
    match kind {
        NoteKind::Blocked => b"blocked",
        NoteKind::NoValue => b"novalue",
        NoteKind::AssertFails => b"assert",
        NoteKind::Many => b"many",
    }
}

/// How an instance ended.
pub fn end_word(end: Option<End>) -> &'static [u8]
    ensures { result.now ≡ end_text (end_view end) }
{
    match end {
        Some(End::Done) => b"done",
        Some(End::Stopped) => b"stopped",
        Some(End::Full) => b"full",
        Some(End::Spent) => b"spent",
        Some(End::NoMemory) | Some(End::Nobody) | None => b"paused",
    }
}
