// Answers as texts, and what a row wants.
use pgo_base::text::Text;
use pgo_base::value::Value;
use pgo_sets::errors::EvalStop;
use pgo_value_text::errors::ValueStop;
use pgo_value_text::read::read_value;
use pgo_value_text::write::write_value;
use std::alloc::{AllocError, Global};

pub fn name(alloc: Global, word: &str) -> Result<Text, AllocError> {
    Text::from_slice(alloc, word.as_bytes())
}

/// The value of a text; none where it is no value text.
pub fn value(alloc: Global, text: &str) -> Result<Option<Value>, AllocError> {
    match read_value(alloc, text.as_bytes()) {
        Ok(v) => Ok(Some(v)),
        Err(ValueStop::Bad { .. }) => Ok(None),
        Err(ValueStop::NoMemory) => Err(AllocError),
    }
}

/// The canonical text of a value.
pub fn text_of(alloc: Global, v: &Value) -> Result<String, AllocError> {
    match write_value(alloc, v) {
        Ok(text) => String::from_utf8_lossy(alloc, text.as_bytes()),
        Err(_) => Err(AllocError),
    }
}

/// The value that was given, as a text.
pub fn given(alloc: Global, answer: Result<Value, EvalStop>) -> Result<String, AllocError> {
    match answer {
        Ok(v) => text_of(alloc, &v),
        Err(EvalStop::NoValue) => String::from_str(alloc, "no value"),
        Err(EvalStop::NoMemory) => Err(AllocError),
    }
}

/// The canonical text of the value that a row wants, or what it wants in place of a value.
pub fn wanted(alloc: Global, text: &str) -> Result<String, AllocError> {
    match value(alloc, text)? {
        Some(v) => text_of(alloc, &v),
        None => String::from_str(alloc, text),
    }
}
