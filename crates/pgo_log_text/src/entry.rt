// The changes of entries, and the entries of version 1.
ghost use Rattle.std.specs.Prelude.{◌≡◌, [], map, option_map};
ghost use Rattle.pgo_base.specs.View.{data_of};
ghost use Rattle.pgo_model.specs.LogView.{change_view, entry_view};
ghost use Rattle.pgo_log_text.specs.Lines as spec;
ghost use Rattle.pgo_bundle.specs.View.{logged_entry_view};
ghost use Rattle.pgo_log_text.specs.Parsers.{Reads, ReadsAs};

use crate::cursor::Cursor;
use crate::errors::LineStop;
use crate::field::{last_number, last_value, name_field, number_field, this_field};
use pgo_base::log::{Change, Changes, Component, Entry, Owner, Values};
use pgo_base::text::Text;
use pgo_base::value::Value;
use pgo_bundle::log::{LoggedEntry, LoggedNotes};
use std::alloc::Global;

/// `[index]`.
#[tactic(auto, unfolding(crate::specs::Lines::index_part))]
fn index_part(alloc: Global, cursor: &mut Cursor<'_>) -> Result<Value, LineStop>
    ensures { ReadsAs data_of (spec.index_part cursor.old) result cursor.new }
{
    cursor.expect(b"[")?;
    let index = cursor.value(alloc)?;
    cursor.expect(b"]")?;
    Ok(index)
}

/// An index, or none.
#[tactic(auto, unfolding(crate::specs::Lines::index))]
pub fn index(alloc: Global, cursor: &mut Cursor<'_>) -> Result<Option<Value>, LineStop>
    ensures { ReadsAs (λ o. option_map data_of o) (spec.index cursor.old) result cursor.new }
{
    if cursor.begins(b"[") {
        let index = index_part(alloc, cursor)?;
        Ok(Some(index))
    } else {
        Ok(None)
    }
}

/// `set x = value` or `set x[index] = value`.
#[tactic(auto, unfolding(crate::specs::Lines::change))]
fn change(alloc: Global, cursor: &mut Cursor<'_>) -> Result<Change, LineStop>
    ensures { ReadsAs change_view (spec.change cursor.old) result cursor.new }
{
    cursor.expect(b"set ")?;
    let variable = cursor.name(alloc)?;
    let index = index(alloc, cursor)?;
    cursor.expect(b" = ")?;
    let value = last_value(alloc, cursor)?;
    Ok(Change {
        component: Component {
            variable,
            index,
            owner: Owner::Unowned,
        },
        value,
    })
}

/// So many changes.
pub fn changes(alloc: Global, cursor: &mut Cursor<'_>, count: u32) -> Result<Changes, LineStop>
    ensures { ReadsAs (λ cs. map change_view cs) (spec.changes count [] cursor.old) result cursor.new }
{
    let mut changes = Changes::new(alloc);
    for _turn in 0..count {
        changes.push(change(alloc, cursor)?)?;
    }
    Ok(changes)
}

/// The front of the line of the entry of this number: its instance, its attempt and its labels.
#[tactic(auto, unfolding(crate::specs::Lines::entry_front))]
pub fn entry_front(
    alloc: Global,
    cursor: &mut Cursor<'_>,
    number: u32,
) -> Result<(u32, u32, Text, Text), LineStop>
    ensures { Reads (spec.entry_front number cursor.old) result cursor.new }
{
    cursor.expect(b"step ")?;
    this_field(cursor, number as usize)?;
    let instance = number_field(cursor)?;
    let attempt = number_field(cursor)?;
    let label = name_field(alloc, cursor)?;
    let next = name_field(alloc, cursor)?;
    Ok((instance, attempt, label, next))
}

/// The entry with this front and these changes.
pub fn entry_made(alloc: Global, front: (u32, u32, Text, Text), changes: Changes) -> Entry
    ensures { entry_view result ≡ spec.entry_made front (map change_view changes) }
{
    let (instance, attempt, label, next) = front;
    Entry {
        instance,
        attempt,
        label,
        next,
        changes,
        prints: Values::new(alloc),
    }
}

/// The entry of this number in version 1.
#[tactic(auto, unfolding(crate::specs::Lines::entry))]
pub fn entry(alloc: Global, cursor: &mut Cursor<'_>, number: u32) -> Result<LoggedEntry, LineStop>
    ensures { ReadsAs logged_entry_view (spec.entry number cursor.old) result cursor.new }
{
    let front = entry_front(alloc, cursor, number)?;
    let count = last_number(cursor)?;
    let changes = changes(alloc, cursor, count)?;
    Ok(LoggedEntry {
        entry: entry_made(alloc, front, changes),
        prints: None,
        notes: LoggedNotes::new(alloc),
    })
}
