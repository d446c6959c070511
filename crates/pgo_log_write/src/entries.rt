// Values by name, entries and notes.
ghost use Rattle.std.specs.Prelude.{◌≡◌, ◌∷◌, ◌++◌, [], codes, decimal, length, map, IfOk};
ghost use Rattle.pgo_base.specs.View.{data_of, named_data};
ghost use Rattle.pgo_bundle.specs.Lines.{logged_lines, note_line, print_line, prints_count, prints_lines, step_line};
ghost use Rattle.pgo_bundle.specs.View.{logged_note_view};
ghost use Rattle.pgo_log_write.specs.Fields.{field_text};
ghost use Rattle.pgo_log_write.specs.Told.{logged_view, told_view};
ghost use Rattle.pgo_model.specs.Bundle.{change_line, fields, value_line};
ghost use Rattle.pgo_model.specs.LogView.{change_view, entry_view};
ghost use Rattle.pgo_model.specs.ModuleText.{flatten, line};

use crate::line::Field::{Number, Word};
use crate::line::{Field, push_line};
use crate::words::{found_word, indexed, written};
use pgo_base::log::{Change, Entry};
use pgo_base::text::Text;
use pgo_base::value::Value;
use pgo_bundle::log::LoggedNote;
use std::alloc::{AllocError, Global};

/// Adds the line of a name and its value.
#[tactic(auto, using(crate::proofs::Joined::value_fields))]
fn push_value(
    bytes: &mut Vec<u8>,
    alloc: Global,
    name: &Text,
    value: &Value,
) -> Result<(), AllocError>
    ensures { IfOk result (λ _. bytes.new.items ≡ bytes.old.items ++ value_line (name.now, data_of value.now)) }
{
    let text = written(alloc, value)?;
    push_line(
        bytes,
        &[Word(name.as_bytes()), Word(b"="), Word(text.as_bytes())],
    )
}

/// Adds the line of a word and of how many values there are, and theirs.
pub fn push_values(
    bytes: &mut Vec<u8>,
    alloc: Global,
    word: &[u8],
    values: &[(Text, Value)],
) -> Result<(), AllocError>
    ensures { IfOk result (λ _. bytes.new.items ≡ bytes.old.items
        ++ flatten (line (fields (word.now ∷ decimal (length values.now) ∷ [])) ∷ map value_line (map named_data values.now))) }
{
    push_line(bytes, &[Word(word), Number(values.len() as u64)])?;
    for p in values {
        push_value(bytes, alloc, &p.0, &p.1)?;
    }
    Ok(())
}

/// Adds the line of a component and its new value.
#[tactic(auto, using(crate::proofs::Joined::set_fields))]
fn push_change(bytes: &mut Vec<u8>, alloc: Global, change: &Change) -> Result<(), AllocError>
    ensures { IfOk result (λ _. bytes.new.items ≡ bytes.old.items ++ change_line (change_view change.now)) }
{
    let component = indexed(alloc, &change.component.variable, &change.component.index)?;
    let value = written(alloc, &change.value)?;
    push_line(
        bytes,
        &[
            Word(b"set"),
            Word(component.as_bytes()),
            Word(b"="),
            Word(value.as_bytes()),
        ],
    )
}

/// Adds the lines of what an entry changes.
fn push_changes(bytes: &mut Vec<u8>, alloc: Global, changes: &[Change]) -> Result<(), AllocError>
    ensures { IfOk result (λ _. bytes.new.items ≡ bytes.old.items ++ flatten (map change_line (map change_view changes.now))) }
{
    for change in changes {
        push_change(bytes, alloc, change)?;
    }
    Ok(())
}

/// Adds the line of a value that was printed.
fn push_print(bytes: &mut Vec<u8>, alloc: Global, value: &Value) -> Result<(), AllocError>
    ensures { IfOk result (λ _. bytes.new.items ≡ bytes.old.items ++ print_line (data_of value.now)) }
{
    let text = written(alloc, value)?;
    push_line(bytes, &[Word(b"print"), Word(text.as_bytes())])
}

/// Adds the lines of what was printed.
fn push_prints(bytes: &mut Vec<u8>, alloc: Global, values: &[Value]) -> Result<(), AllocError>
    ensures { IfOk result (λ _. bytes.new.items ≡ bytes.old.items ++ flatten (map print_line (map data_of values.now))) }
{
    for value in values {
        push_print(bytes, alloc, value)?;
    }
    Ok(())
}

/// Adds the lines of what was printed, where it is told.
fn push_told(bytes: &mut Vec<u8>, alloc: Global, prints: Option<&[Value]>) -> Result<(), AllocError>
    ensures { IfOk result (λ _. bytes.new.items ≡ bytes.old.items ++ flatten (prints_lines (told_view prints.entry))) }
{
    match prints {
        Some(values) => push_prints(bytes, alloc, values),
        None => Ok(()),
    }
}

/// How many values were printed, where it is told.
fn prints_count<'a>(prints: Option<&[Value]>) -> Field<'a>
    ensures { field_text result ≡ prints_count (told_view prints.entry) }
{
    match prints {
        Some(values) => Number(values.len() as u64),
        None => Word(b"-"),
    }
}

/// Adds the line of a note.
fn push_note(bytes: &mut Vec<u8>, note: LoggedNote) -> Result<(), AllocError>
    ensures { IfOk result (λ _. bytes.new.items ≡ bytes.old.items ++ note_line (logged_note_view note)) }
{
    push_line(
        bytes,
        &[
            Word(b"note"),
            Number(note.instance as u64),
            Number(note.attempt as u64),
            Word(found_word(note.kind)),
        ],
    )
}

/// Adds the lines of notes.
pub fn push_notes(bytes: &mut Vec<u8>, notes: &[LoggedNote]) -> Result<(), AllocError>
    ensures { IfOk result (λ _. bytes.new.items ≡ bytes.old.items ++ flatten (map note_line (map logged_note_view notes.now))) }
{
    for note in notes {
        push_note(bytes, *note)?;
    }
    Ok(())
}

/// Adds the first line of entry number n, which printed this.
fn push_step(
    bytes: &mut Vec<u8>,
    n: u64,
    entry: &Entry,
    prints: Option<&[Value]>,
) -> Result<(), AllocError>
    ensures { IfOk result (λ _. bytes.new.items ≡ bytes.old.items ++ step_line n (entry_view entry.now) (told_view prints.entry)) }
{
    push_line(
        bytes,
        &[
            Word(b"step"),
            Number(n),
            Number(entry.instance as u64),
            Number(entry.attempt as u64),
            Word(entry.label.as_bytes()),
            Word(entry.next.as_bytes()),
            Number(entry.changes.as_slice().len() as u64),
            prints_count(prints),
        ],
    )
}

/// Adds the lines of entry number n, of what it printed, and of the notes behind it.
pub fn push_entry(
    bytes: &mut Vec<u8>,
    alloc: Global,
    n: u64,
    entry: &Entry,
    prints: Option<&[Value]>,
    notes: &[LoggedNote],
) -> Result<(), AllocError>
    ensures { IfOk result (λ _. bytes.new.items ≡ bytes.old.items ++ flatten (logged_lines n (logged_view entry.now prints.entry notes.now))) }
{
    push_step(bytes, n, entry, prints)?;
    push_changes(bytes, alloc, entry.changes.as_slice())?;
    push_told(bytes, alloc, prints)?;
    push_notes(bytes, notes)
}
