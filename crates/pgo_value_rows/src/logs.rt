// The constants and the parts of a log as texts of one line.
use crate::answers::text_of;
use pgo_base::consts::Consts;
use pgo_base::log::{Change, Entry, Log};
use pgo_base::results::both;
use pgo_base::text::Text;
use pgo_base::value::Value;
use pgo_sheet::answers::push_word;
use std::alloc::{AllocError, Global};

/// The part of this name: `constants`, `ids`, `start` or `entries`. Without a name it is said that the log is read; another name stands
/// for none.
pub fn part_of(
    alloc: Global,
    consts: &Consts,
    log: &Log,
    part: &str,
) -> Result<String, AllocError> {
    match part {
        "" => String::from_str(alloc, "read"),
        "constants" => named(alloc, consts.as_slice()),
        "ids" => ids(alloc, log.ids.as_slice()),
        "start" => named(alloc, log.start.as_slice()),
        "entries" => entries(alloc, log.entries.as_slice()),
        _ => String::from_str(alloc, "no such part"),
    }
}

/// The identifiers with commas between.
fn ids(alloc: Global, ids: &[Value]) -> Result<String, AllocError> {
    let mut text = String::new(alloc);
    for id in ids {
        let id = text_of(alloc, id)?;
        push_word(&mut text, ", ", id.as_str())?;
    }
    Ok(text)
}

/// `x = 0, y = 1`
fn named(alloc: Global, values: &[(Text, Value)]) -> Result<String, AllocError> {
    let mut text = String::new(alloc);
    for (x, value) in values {
        let name = String::from_utf8_lossy(alloc, x.as_bytes());
        let (name, value) = both(name, text_of(alloc, value))?;
        let word = format!(in alloc; "{name} = {value}")?;
        push_word(&mut text, ", ", word.as_str())?;
    }
    Ok(text)
}

/// The entries with semicolons between.
fn entries(alloc: Global, entries: &[Entry]) -> Result<String, AllocError> {
    let mut text = String::new(alloc);
    for entry in entries {
        let word = entry_text(alloc, entry)?;
        push_word(&mut text, "; ", word.as_str())?;
    }
    Ok(text)
}

/// The instance, the attempt, the labels before and after, and the changes.
fn entry_text(alloc: Global, entry: &Entry) -> Result<String, AllocError> {
    let (label, next) = both(
        String::from_utf8_lossy(alloc, entry.label.as_bytes()),
        String::from_utf8_lossy(alloc, entry.next.as_bytes()),
    )?;
    let mut text = format!(in alloc; "{} {} {label} {next}:", entry.instance, entry.attempt)?;
    for change in entry.changes.as_slice() {
        text.push_str(change_text(alloc, change)?.as_str())?;
    }
    Ok(text)
}

/// ` x = 1` or ` x[2] = 1`
fn change_text(alloc: Global, change: &Change) -> Result<String, AllocError> {
    let name = String::from_utf8_lossy(alloc, change.component.variable.as_bytes());
    let (name, value) = both(name, text_of(alloc, &change.value))?;
    match &change.component.index {
        None => format!(in alloc; " {name} = {value}"),
        Some(index) => {
            let index = text_of(alloc, index)?;
            format!(in alloc; " {name}[{index}] = {value}")
        }
    }
}
