// What is left of a closed table.
use pgo_base::log::{Entry, Owner};
use pgo_base::value::Value;
use pgo_journal::journal::Journal;
use pgo_resource::resource::Resource;
use pgo_sheet::answers::push_word;
use pgo_starts::content::Content;
use pgo_syntax::records::Note;
use std::alloc::{AllocError, Global};

/// The resource and the number that an entry changes it to; none where it is no such entry.
fn changed(entry: &Entry) -> Option<(u32, i64)> {
    let change = entry.changes.as_slice().first()?;
    match (change.component.owner, &change.value) {
        (Owner::OfResource(r), Value::Int(v)) => Some((r, *v)),
        _ => None,
    }
}

/// The number that a content is, and 0 where it is none.
fn number_of(alloc: Global, content: &Content) -> Result<i64, AllocError> {
    match content.value(alloc)? {
        Value::Int(n) => Ok(n),
        _ => Ok(0),
    }
}

/// Adds what an entry says.
fn add_entry(alloc: Global, answer: &mut String, entry: &Entry) -> Result<(), AllocError> {
    let (r, v) = changed(entry).unwrap_or((u32::MAX, 0));
    let said = format!(in alloc; "entry {} {r} {v}", entry.instance)?;
    push_word(answer, "; ", said.as_str())
}

/// Adds what a note says.
fn add_note(alloc: Global, answer: &mut String, note: &Note) -> Result<(), AllocError> {
    let said = format!(in alloc; "note {} {}", note.instance, note.position)?;
    push_word(answer, "; ", said.as_str())
}

/// Adds the journal's entries and notes, and the contents, to what was said.
pub fn told(
    alloc: Global,
    answer: &mut String,
    journal: &Journal,
    contents: &[Content],
) -> Result<(), AllocError> {
    for i in 0..journal.len() {
        add_entry(alloc, answer, journal.entry(i + 1))?;
    }
    for note in journal.notes() {
        add_note(alloc, answer, note)?;
    }
    for content in contents {
        let said = format!(in alloc; "content {}", number_of(alloc, content)?)?;
        push_word(answer, "; ", said.as_str())?;
    }
    Ok(())
}

/// The sum of the contents.
fn sum(alloc: Global, contents: &[Content]) -> Result<i64, AllocError> {
    let mut sum = 0i64;
    for content in contents {
        sum = sum.wrapping_add(number_of(alloc, content)?);
    }
    Ok(sum)
}

/// How many entries change a resource to another number than the one behind that of the entry before.
fn jumps(alloc: Global, journal: &Journal, resources: usize) -> Result<u64, AllocError> {
    let mut last = Vec::new(alloc);
    last.resize(resources, 0i64)?;
    let mut jumps = 0u64;
    for i in 0..journal.len() {
        let (r, v) = changed(journal.entry(i + 1)).unwrap_or((u32::MAX, 0));
        match last.get_mut(r as usize) {
            Some(before) if v == before.wrapping_add(1) => *before = v,
            _ => jumps = jumps.wrapping_add(1),
        }
    }
    Ok(jumps)
}

/// How many entries and notes there are, the sum of the contents, and how many entries don't follow on another.
pub fn counted(
    alloc: Global,
    journal: &Journal,
    contents: &[Content],
) -> Result<String, AllocError> {
    let sum = sum(alloc, contents)?;
    let jumps = jumps(alloc, journal, contents.len())?;
    format!(in alloc;
        "{} entries, {} notes, sum {sum}, {jumps} jumps",
        journal.len(),
        journal.notes().len()
    )
}
