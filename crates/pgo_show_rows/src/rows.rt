// Rows: words, a bundle, and how it is explained.
use crate::answer::Answer;
use pgo_base::word::Word;
use pgo_sheet::escapes::escaped;
use pgo_sheet::sheet::Subject;
use pgo_sheet::template::{NO_PLACE, Template};
use std::alloc::{AllocError, Global};

/// What the lines of a sheet have made so far.
#[derive(Drop)]
pub struct Rows {
    alloc: Global,
    text: Template,
    words: Vec<Word>,
    /// the output that is wanted
    lines: String,
}

impl Rows {
    /// No text, and no row.
    pub fn new(alloc: Global) -> Rows {
        Rows {
            alloc,
            text: Template::new(alloc),
            words: Vec::new(alloc),
            lines: String::new(alloc),
        }
    }

    fn add_word(&mut self, text: &str) -> Result<bool, AllocError> {
        let word = Word::new(String::from_str(self.alloc, text)?);
        self.words.push(word)?;
        Ok(true)
    }

    fn add_line(&mut self, text: &str) -> Result<bool, AllocError> {
        write!(self.lines, "{text}\n")?;
        Ok(true)
    }

    /// The row's answer, where it is not what is wanted.
    fn wrong_answer(&self, wanted: &str) -> Result<Option<String>, AllocError> {
        let input = self.text.with_places(self.text.changed()?)?;
        if input.as_str().starts_with(NO_PLACE) {
            return Ok(Some(input));
        }
        let answer = Answer::of(self.alloc, self.words.as_slice(), input.into_bytes())?;
        if answer.said.as_str() != wanted {
            return Ok(Some(answer.said));
        }
        if self.lines.as_str() == answer.out.as_str() {
            return Ok(None);
        }
        Ok(Some(escaped(self.alloc, answer.out.as_str())?))
    }
}

impl Subject for Rows {
    fn take(&mut self, key: &str, text: &str) -> Result<bool, AllocError> {
        match key {
            "word" => self.add_word(text),
            "out" => self.add_line(text),
            _ => self.text.take(key, text),
        }
    }

    fn end(&mut self, wanted: &str) -> Result<Option<String>, AllocError> {
        let wrong = self.wrong_answer(wanted)?;
        self.text.end_row();
        self.words.clear();
        self.lines.clear();
        Ok(wrong)
    }
}
