// Texts of specifications and what the check of labels answers.
use crate::answer::Answer;
use crate::texts::Asked;
use pgo_labels::errors::LabelError;
use pgo_labels::labels;
use pgo_mpcal_read::reader::read_spec;
use std::alloc::{AllocError, Global};

pub fn answer(asked: &Asked<'_>) -> Result<Answer, AllocError> {
    match read_spec(asked.alloc, asked.text) {
        Ok(spec) => judged(asked.alloc, labels(asked.alloc, &spec)),
        Err(stop) => Answer::refused(asked.alloc, stop, asked.start),
    }
}

fn judged(alloc: Global, verdict: Result<(), LabelError>) -> Result<Answer, AllocError> {
    match verdict {
        Ok(()) => Ok(Answer::Read(String::from_str(alloc, "ok")?)),
        Err(LabelError::NoMemory) => Err(AllocError),
        Err(e) => Ok(Answer::Refused(refusal(alloc, &e)?)),
    }
}

/// The refusal with the names that it has.
fn refusal(alloc: Global, e: &LabelError) -> Result<String, AllocError> {
    let mut words = format!(in alloc; "{e:?}")?;
    for name in names(e) {
        if !name.is_empty() {
            let name = String::from_utf8_lossy(alloc, name)?;
            write!(words, " {name}")?;
        }
    }
    Ok(words)
}

/// The names of a refusal, of which the second may be none.
fn names(e: &LabelError) -> [&[u8]; 2] {
    match e {
        LabelError::NeedsLabel { archetype, after } => [archetype.as_bytes(), after.as_bytes()],
        LabelError::LabelHere { archetype, label } => [archetype.as_bytes(), label.as_bytes()],
        LabelError::UnknownLabel { archetype, label } => [archetype.as_bytes(), label.as_bytes()],
        LabelError::LabelTwice { archetype, label } => [archetype.as_bytes(), label.as_bytes()],
        LabelError::ReservedDone { archetype } => [archetype.as_bytes(), b""],
        LabelError::YieldRule { mapping } => [mapping.as_bytes(), b""],
        LabelError::TooManyLabels { archetype } => [archetype.as_bytes(), b""],
        LabelError::NoMemory => [b"", b""],
    }
}
