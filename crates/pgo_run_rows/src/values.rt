// Values of a line.
use pgo_base::value::Value;
use pgo_value_text::errors::ValueStop;
use pgo_value_text::read::read_value;
use pgo_value_text::write::write_value;
use std::alloc::{AllocError, Global};

/// The value of a text; none where it is no value text.
pub fn value(alloc: Global, text: &str) -> Result<Option<Value>, AllocError> {
    match read_value(alloc, text.as_bytes()) {
        Ok(v) => Ok(Some(v)),
        Err(ValueStop::Bad { .. }) => Ok(None),
        Err(ValueStop::NoMemory) => Err(AllocError),
    }
}

/// The canonical text of a value.
pub fn text_of(alloc: Global, v: &Value) -> Result<String, AllocError> {
    match write_value(alloc, v) {
        Ok(text) => String::from_utf8_lossy(alloc, text.as_bytes()),
        Err(_) => Err(AllocError),
    }
}
