// A sheet, line by line.
use crate::escapes::unescaped;
use std::alloc::{AllocError, Global};

/// What the rows of a sheet ask. Its lines come one by one; a row's end says what is wanted.
pub trait Subject {
    /// Takes a line of this key; false: there is no such key.
    fn take(&mut self, key: &str, text: &str) -> Result<bool, AllocError>;

    /// Ends a row. None: its answer is what is wanted; Some: this is its answer.
    fn end(&mut self, wanted: &str) -> Result<Option<String>, AllocError>;
}

/// The sheet of a file, and what its lines so far have made.
#[derive(Drop)]
pub struct Sheet<'file, S: Subject + Drop> {
    pub alloc: Global,
    pub file: &'file str,
    pub subject: S,
    /// the number of the line
    pub line: u64,
    /// how many rows there were
    pub rows: u64,
    /// how many rows had another answer, and how many lines no key
    pub wrong: u64,
    /// what is said of these, a line each
    pub said: String,
}

impl<'file, S: Subject + Drop> Sheet<'file, S> {
    /// Takes the text of a line.
    pub fn take_line(&mut self, line: &str) -> Result<(), AllocError> {
        let (key, text) = halves(line);
        match key.strip_suffix("%") {
            Some(key) => {
                let text = unescaped(self.alloc, text)?;
                self.take(key, text.as_str())
            }
            None => self.take(key, text),
        }
    }

    fn take(&mut self, key: &str, text: &str) -> Result<(), AllocError> {
        match key {
            "" | "#" | "##" => Ok(()),
            "=>" => self.end_row(text),
            _ => {
                if self.subject.take(key, text)? {
                    return Ok(());
                }
                self.say("no key ", key)
            }
        }
    }

    fn end_row(&mut self, wanted: &str) -> Result<(), AllocError> {
        self.rows = self.rows.wrapping_add(1);
        match self.subject.end(wanted)? {
            None => Ok(()),
            Some(answer) => self.say("", answer.as_str()),
        }
    }

    /// Says what is wrong in the line.
    fn say(&mut self, what: &str, which: &str) -> Result<(), AllocError> {
        self.wrong = self.wrong.wrapping_add(1);
        write!(
            self.said,
            "{}: line {}: {what}{which}\n",
            self.file, self.line
        )
    }
}

/// The text before the first blank, and the text behind it.
pub fn halves(line: &str) -> (&str, &str) {
    line.split_once(' ').unwrap_or((line, ""))
}
