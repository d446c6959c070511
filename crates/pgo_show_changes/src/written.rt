// The lines of changes.
ghost use Rattle.std.specs.Prelude.{◌≡◌, ◌∷◌, ◌++◌, [], if◌then◌else◌, map, IfOk};
ghost use Rattle.pgo_base.specs.View.{data_of};
ghost use Rattle.pgo_bundle.specs.View.{logged_entry_view};
ghost use Rattle.pgo_model.specs.LogView.{change_view, entry_view};
ghost use Rattle.pgo_show_changes.specs.Changes as spec;
ghost use Rattle.pgo_show_changes.specs.Components.{concerns};

use crate::components::{component_text, concerns, value_text};
use pgo_base::log::{Change, Entry};
use pgo_base::value::Value;
use pgo_bundle::log::LoggedEntry;
use pgo_lines::line::Lines;
use pgo_lines::line::Piece::{Bytes, Name, Number};
use std::alloc::{AllocError, Global};

/// The line of a component's text and that of its value before the first entry.
fn push_start_texts<'texts>(
    lines: &mut Lines,
    alloc: Global,
    word: &'texts [u8],
    value: &'texts [u8],
) -> Result<(), AllocError>
    ensures { IfOk result (λ _. lines.new ≡ lines.old ++ spec.start_with word.now value.now ∷ []) }
{
    lines.push(
        alloc,
        &[Bytes(b"start: "), Bytes(word), Bytes(b" = "), Bytes(value)],
    )
}

/// The line of the value before the first entry.
pub fn push_start(
    lines: &mut Lines,
    alloc: Global,
    word: &[u8],
    value: &Value,
) -> Result<(), AllocError>
    ensures { IfOk result (λ _. lines.new ≡ lines.old ++ spec.start_line word.now (data_of value.now) ∷ []) }
{
    let value = value_text(alloc, value)?;
    push_start_texts(lines, alloc, word, value.as_bytes())
}

/// The line of these texts, of a component and of its value, in the entry of this number.
fn push_change_texts<'texts>(
    lines: &mut Lines,
    alloc: Global,
    number: u64,
    entry: &'texts Entry,
    component: &'texts [u8],
    value: &'texts [u8],
) -> Result<(), AllocError>
    ensures { IfOk result (λ _. lines.new ≡ lines.old ++ spec.change_with number (entry_view entry.now) component.now value.now ∷ []) }
{
    lines.push(
        alloc,
        &[
            Bytes(b"entry "),
            Number(number),
            Bytes(b", instance "),
            Number(entry.instance as u64),
            Bytes(b", attempt "),
            Number(entry.attempt as u64),
            Bytes(b", "),
            Name(&entry.label),
            Bytes(b": "),
            Bytes(component),
            Bytes(b" = "),
            Bytes(value),
        ],
    )
}

/// The line of a change of the entry of this number.
fn push_change(
    lines: &mut Lines,
    alloc: Global,
    number: u64,
    entry: &Entry,
    change: &Change,
) -> Result<(), AllocError>
    ensures { IfOk result (λ _. lines.new ≡ lines.old ++ spec.change_line number (entry_view entry.now) (change_view change.now) ∷ []) }
{
    let component = component_text(alloc, &change.component)?;
    let value = value_text(alloc, &change.value)?;
    push_change_texts(
        lines,
        alloc,
        number,
        entry,
        component.as_bytes(),
        value.as_bytes(),
    )
}

/// The line of a change, where it concerns the component.
fn push_concerned(
    lines: &mut Lines,
    alloc: Global,
    word: &[u8],
    number: u64,
    entry: &Entry,
    change: &Change,
) -> Result<(), AllocError>
    ensures { IfOk result (λ _. lines.new ≡ (if concerns word.now (change_view change.now).component then lines.old ++ spec.change_line number (entry_view entry.now) (change_view change.now) ∷ [] else lines.old)) }
{
    if concerns(alloc, word, &change.component)? {
        return push_change(lines, alloc, number, entry, change);
    }
    Ok(())
}

/// The lines of those of these changes that concern the component.
#[tactic(auto, unfolding(crate::specs::Changes::with_changes))]
fn push_changes(
    lines: &mut Lines,
    alloc: Global,
    word: &[u8],
    number: u64,
    entry: &Entry,
    changes: &[Change],
) -> Result<(), AllocError>
    ensures { IfOk result (λ _. lines.new ≡ spec.with_changes word.now number (entry_view entry.now) (map change_view changes.now) lines.old) }
{
    for change in changes {
        push_concerned(lines, alloc, word, number, entry, change)?;
    }
    Ok(())
}

/// The lines of entries.
#[tactic(auto, unfolding(crate::specs::Changes::with_entries))]
pub fn push_entries(
    lines: &mut Lines,
    alloc: Global,
    word: &[u8],
    entries: &[LoggedEntry],
) -> Result<(), AllocError>
    ensures { IfOk result (λ _. lines.new ≡ spec.with_entries word.now 0 (map logged_entry_view entries.now) lines.old) }
{
    for (before, logged) in entries.iter().enumerate() {
        let number = before as u64 + 1;
        push_changes(
            lines,
            alloc,
            word,
            number,
            &logged.entry,
            logged.entry.changes.as_slice(),
        )?;
    }
    Ok(())
}
