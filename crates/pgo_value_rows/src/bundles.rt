// Bundles: what is read from a text of named parts, of which a row changes some.
use crate::logs::part_of;
use pgo_log_text::bundle_reader::read_bundle;
use pgo_log_text::errors::LogStop;
use pgo_sheet::answers::unless_same;
use pgo_sheet::sheet::Subject;
use pgo_sheet::template::Template;
use std::alloc::{AllocError, Global};

/// The text with what the row changes in it, and which part of the log the row asks for.
#[derive(Drop)]
pub struct Bundles {
    alloc: Global,
    text: Template,
    part: String,
}

impl Bundles {
    pub fn new(alloc: Global) -> Bundles {
        Bundles {
            alloc,
            text: Template::new(alloc),
            part: String::new(alloc),
        }
    }

    /// `refused`, with the line where the row asks for `line`.
    fn refused(&self, line: usize) -> Result<String, AllocError> {
        let alloc = self.alloc;
        match self.part.as_str() {
            "line" => format!(in alloc; "refused at {line}"),
            _ => String::from_str(alloc, "refused"),
        }
    }

    /// What is read: `refused`, or `read`, or the part that is asked for. The newline that ends the last line of the text is no part of the bundle.
    fn answer(&self) -> Result<String, AllocError> {
        let text = self.text.changed()?;
        let bundle = text.as_str().strip_suffix("\n").unwrap_or("");
        match read_bundle(self.alloc, bundle.as_bytes()) {
            Ok((_module, consts, bundle)) => {
                let log = bundle.into_log(self.alloc)?;
                part_of(self.alloc, &consts, &log, self.part.as_str())
            }
            Err(LogStop::BadLog { line }) => self.refused(line),
            Err(LogStop::NoMemory) => Err(AllocError),
        }
    }
}

impl Subject for Bundles {
    fn take(&mut self, key: &str, text: &str) -> Result<bool, AllocError> {
        if key == "show" {
            self.part = String::from_str(self.alloc, text)?;
            return Ok(true);
        }
        self.text.take(key, text)
    }

    fn end(&mut self, wanted: &str) -> Result<Option<String>, AllocError> {
        let answer = self.answer()?;
        self.text.end_row();
        self.part = String::new(self.alloc);
        Ok(unless_same(answer, wanted))
    }
}
