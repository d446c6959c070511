// Bound systems: a specification, its constants, and what it is bound to or why it is not accepted.
use crate::described::described;
use pgo_accept::accept::accept;
use pgo_accept::lines::rejection_line;
use pgo_base::consts::Consts;
use pgo_base::text::Text;
use pgo_base::value::Value;
use pgo_sheet::escapes::escaped;
use pgo_sheet::sheet::Subject;
use pgo_sheet::template::{NO_PLACE, Template};
use pgo_value_text::read::read_value;
use std::alloc::{AllocError, Global};
use std::mem;

/// What the lines of a sheet of bound systems have made so far.
#[derive(Drop)]
pub struct BoundSystems {
    alloc: Global,
    text: Template,
    constants: Vec<(Text, Value)>,
    /// the lines of the bound system; none where nothing is said of it
    lines: String,
}

impl BoundSystems {
    /// No text, and no row.
    pub fn new(alloc: Global) -> BoundSystems {
        BoundSystems {
            alloc,
            text: Template::new(alloc),
            constants: Vec::new(alloc),
            lines: String::new(alloc),
        }
    }

    /// `NAME=VALUE`; false: it is none.
    fn add_constant(&mut self, text: &str) -> Result<bool, AllocError> {
        let (name, value) = text.split_once('=').unwrap_or((text, ""));
        let name = Text::from_slice(self.alloc, name.as_bytes())?;
        match read_value(self.alloc, value.as_bytes()) {
            Ok(value) => {
                self.constants.push((name, value))?;
                Ok(true)
            }
            Err(_) => Ok(false),
        }
    }

    /// The row's answer on this text, where it is not what is wanted.
    fn wrong_row(
        &self,
        text: &str,
        consts: &Consts,
        wanted: &str,
    ) -> Result<Option<String>, AllocError> {
        if text.starts_with(NO_PLACE) {
            return Ok(Some(String::from_str(self.alloc, text)?));
        }
        let answer = answer(self.alloc, text.as_bytes(), consts)?;
        if self.is_wanted(answer.as_str(), wanted) {
            return Ok(None);
        }
        Ok(Some(escaped(self.alloc, answer.as_str())?))
    }

    /// `bound` wants the lines of the row, or any where it has none; else the line of a refusal is wanted.
    fn is_wanted(&self, answer: &str, wanted: &str) -> bool {
        match answer.strip_prefix("bound ") {
            Some(lines) => {
                wanted == "bound" && (self.lines.is_empty() || self.lines.as_str() == lines)
            }
            None => answer.strip_suffix("\n").is_some_and(|line| line == wanted),
        }
    }
}

impl Subject for BoundSystems {
    fn take(&mut self, key: &str, text: &str) -> Result<bool, AllocError> {
        match key {
            "with" => self.add_constant(text),
            "gives" => {
                write!(self.lines, "{text}\n")?;
                Ok(true)
            }
            _ => self.text.take(key, text),
        }
    }

    fn end(&mut self, wanted: &str) -> Result<Option<String>, AllocError> {
        let text = self.text.with_places(self.text.changed()?)?;
        let constants = mem::replace(&mut self.constants, Vec::new(self.alloc));
        let consts = Consts::from_vec(constants);
        let wrong = self.wrong_row(text.as_str(), &consts, wanted)?;
        self.text.end_row();
        self.lines = String::new(self.alloc);
        Ok(wrong)
    }
}

/// `bound ` and the lines of the bound system, or the line that refuses the text.
fn answer(alloc: Global, text: &[u8], consts: &Consts) -> Result<String, AllocError> {
    match accept(alloc, text, consts) {
        Ok(bound) => {
            let lines = described(alloc, &bound)?;
            format!(in alloc; "bound {lines}")
        }
        Err(rejection) => {
            let line = rejection_line(alloc, &rejection)?;
            String::from_utf8_lossy(alloc, line.as_bytes())
        }
    }
}
