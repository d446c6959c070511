// Value texts: the canonical text of the value, or where a text is no value text.
use crate::answers::text_of;
use pgo_sheet::answers::unless_same;
use pgo_sheet::sheet::Subject;
use pgo_sheet::text_builder::TextBuilder;
use pgo_value_text::errors::ValueStop;
use pgo_value_text::read::read_value;
use std::alloc::{AllocError, Global};

/// The text that the row asks about.
#[derive(Drop)]
pub struct Values {
    alloc: Global,
    text: TextBuilder,
}

impl Values {
    pub fn new(alloc: Global) -> Values {
        Values {
            alloc,
            text: TextBuilder::new(alloc),
        }
    }

    fn answer(&self) -> Result<String, AllocError> {
        match read_value(self.alloc, self.text.text.as_slice()) {
            Ok(v) => text_of(self.alloc, &v),
            Err(ValueStop::NoMemory) => Err(AllocError),
            Err(stop) => format!(in self.alloc; "{stop}"),
        }
    }
}

impl Subject for Values {
    fn take(&mut self, key: &str, text: &str) -> Result<bool, AllocError> {
        if key == "value" {
            return self.text.begin(text);
        }
        self.text.take(key, text)
    }

    fn end(&mut self, wanted: &str) -> Result<Option<String>, AllocError> {
        let answer = self.answer()?;
        if wanted == "as given" && answer.as_bytes() == self.text.text.as_slice() {
            return Ok(None);
        }
        Ok(unless_same(answer, wanted))
    }
}
