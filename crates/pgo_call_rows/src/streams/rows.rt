// Rows: a command, how far its streams work, and what it answers.
use crate::streams::answer::Answer;
use crate::streams::limits::Limits;
use pgo_base::word::Word;
use pgo_sheet::escapes::escaped;
use pgo_sheet::sheet::Subject;
use pgo_sheet::template::{NO_PLACE, Template};
use std::alloc::{AllocError, Global};

/// What the lines of a sheet have made so far.
#[derive(Drop)]
pub struct Rows {
    alloc: Global,
    /// what runs a command on a text
    run: Box<dyn Fn(&[Word], &Limits, Vec<u8>) -> Result<Answer, AllocError>>,
    text: Template,
    words: Vec<Word>,
    limits: Limits,
    /// that many blanks stand in place of the text
    blanks: usize,
    /// the output that is wanted; where it is empty nothing is said of it
    lines: String,
    ghost always: { IsAlwaysCallable run },
}

impl Rows {
    /// No text, and no row, whose commands are run by this.
    pub fn new(
        alloc: Global,
        run: Box<dyn Fn(&[Word], &Limits, Vec<u8>) -> Result<Answer, AllocError>>,
    ) -> Rows
        requires { IsAlwaysCallable run }
    {
        Rows {
            alloc,
            run,
            text: Template::new(alloc),
            words: Vec::new(alloc),
            limits: Limits::none(),
            blanks: 0,
            lines: String::new(alloc),
        }
    }

    fn add_word(&mut self, text: &str) -> Result<bool, AllocError> {
        let word = Word::new(String::from_str(self.alloc, text)?);
        self.words.push(word)?;
        Ok(true)
    }

    fn add_line(&mut self, text: &str) -> Result<bool, AllocError> {
        write!(self.lines, "{text}\n")?;
        Ok(true)
    }

    /// The text on the input.
    fn input(&self) -> Result<String, AllocError> {
        if self.blanks > 0 {
            " ".repeat(self.alloc, self.blanks)
        } else {
            let text = self.text.changed()?;
            self.text.with_places(text)
        }
    }

    /// The row's answer, where it is not what is wanted.
    fn wrong_answer(&self, wanted: &str) -> Result<Option<String>, AllocError> {
        let input = self.input()?;
        if input.as_str().starts_with(NO_PLACE) {
            return Ok(Some(input));
        }
        let text = input.into_bytes();
        let answer = (self.run)(self.words.as_slice(), &self.limits, text)?;
        if answer.said.as_str() != wanted {
            return Ok(Some(answer.said));
        }
        if self.lines.is_empty() || self.lines.as_str() == answer.out.as_str() {
            return Ok(None);
        }
        Ok(Some(escaped(self.alloc, answer.out.as_str())?))
    }
}

impl Subject for Rows {
    fn take(&mut self, key: &str, text: &str) -> Result<bool, AllocError> {
        match key {
            "word" => self.add_word(text),
            "out" => self.add_line(text),
            "blanks" => {
                self.blanks = text.parse::<usize>().unwrap_or(0);
                Ok(self.blanks > 0)
            }
            _ => Ok(self.limits.take(key, text) || self.text.take(key, text)?),
        }
    }

    fn end(&mut self, wanted: &str) -> Result<Option<String>, AllocError> {
        let wrong = self.wrong_answer(wanted)?;
        self.text.end_row();
        self.words.clear();
        self.limits = Limits::none();
        self.blanks = 0;
        self.lines.clear();
        Ok(wrong)
    }
}
