// Texts, and what a row asks of them.
use crate::answer::Answer;
use crate::{expressions, labels, modules, parts, specifications, tokens};
use pgo_sheet::sheet::Subject;
use pgo_sheet::text_builder::TextBuilder;
use std::alloc::{AllocError, Global};

/// What the texts of a sheet are read by.
#[derive(Clone, Copy, PartialEq, Eq)]
pub enum Reader {
    Tokens,
    Parts,
    Expressions,
    Specifications,
    Labels,
    Modules,
}

/// What a row asks of what is read.
#[derive(Clone, Copy)]
pub enum Question {
    /// all of it
    Whole,
    /// how many tokens there are
    Count,
    /// one token, by its number
    Token,
    LastToken,
    HeaderToken,
    AlgorithmToken,
    /// the canonical text of a body
    Body,
    /// that of a text that stands in a block of a mapping macro
    Mapped,
    Operators,
    Counts,
    Branches,
    Assigned,
}

/// The keys that ask, with the texts behind them, or any number.
const QUESTIONS: [(Reader, &str, Option<&str>, Question); 10] = [
    (Reader::Tokens, "token", None, Question::Token),
    (Reader::Tokens, "last", Some(""), Question::LastToken),
    (Reader::Tokens, "count", Some(""), Question::Count),
    (Reader::Parts, "header", None, Question::HeaderToken),
    (Reader::Parts, "algorithm", None, Question::AlgorithmToken),
    (Reader::Parts, "count", Some(""), Question::Count),
    (
        Reader::Expressions,
        "operators",
        Some(""),
        Question::Operators,
    ),
    (
        Reader::Specifications,
        "ask",
        Some("counts"),
        Question::Counts,
    ),
    (
        Reader::Specifications,
        "ask",
        Some("branches"),
        Question::Branches,
    ),
    (
        Reader::Specifications,
        "ask",
        Some("assigned"),
        Question::Assigned,
    ),
];

/// The text of a row, and what it asks.
#[derive(Clone, Copy)]
pub struct Asked<'text> {
    pub alloc: Global,
    /// the text with what stands around it, and where it begins in it
    pub text: &'text [u8],
    pub start: usize,
    /// the most tokens, or the greatest height of an expression
    pub limit: u32,
    pub question: Question,
    pub number: usize,
}

#[derive(Drop)]
pub struct Texts {
    alloc: Global,
    reader: Reader,
    builder: TextBuilder,
    limit: u32,
    question: Question,
    number: usize,
}

impl Texts {
    pub fn new(alloc: Global, reader: Reader) -> Texts {
        Texts {
            alloc,
            reader,
            builder: TextBuilder::new(alloc),
            limit: match reader {
                Reader::Tokens => 99,
                _ => 128,
            },
            question: Question::Whole,
            number: 0,
        }
    }

    fn begin(&mut self, question: Question, text: &str) -> Result<bool, AllocError> {
        self.question = question;
        self.builder.begin(text)
    }

    fn set_limit(&mut self, text: &str) -> bool {
        match text.parse::<u32>() {
            Ok(limit) => {
                self.limit = limit;
                true
            }
            Err(_) => false,
        }
    }

    /// Takes what is asked; false: there is no such question.
    fn ask(&mut self, key: &str, text: &str) -> bool {
        let number = text.parse::<usize>().ok();
        for row in &QUESTIONS {
            let is_text = match row.2 {
                Some(word) => word == text,
                None => number.is_some(),
            };
            if row.0 == self.reader && row.1 == key && is_text {
                self.question = row.3;
                self.number = number.unwrap_or(0);
                return true;
            }
        }
        false
    }
}

impl Subject for Texts {
    fn take(&mut self, key: &str, text: &str) -> Result<bool, AllocError> {
        match (self.reader, key) {
            (_, "text") => self.begin(Question::Whole, text),
            (Reader::Expressions, "body") => self.begin(Question::Body, text),
            (Reader::Expressions, "mapped") => self.begin(Question::Mapped, text),
            (Reader::Expressions, "height") => Ok(self.set_limit(text)),
            (Reader::Tokens, "limit") => Ok(self.set_limit(text)),
            _ => Ok(self.ask(key, text) || self.builder.take(key, text)?),
        }
    }

    fn end(&mut self, wanted: &str) -> Result<Option<String>, AllocError> {
        let text = self.builder.whole()?;
        let answer = answer(
            self.reader,
            &Asked {
                alloc: self.alloc,
                text: text.as_slice(),
                start: self.builder.before.len(),
                limit: self.limit,
                question: self.question,
                number: self.number,
            },
        )?;
        self.question = Question::Whole;
        Ok(answer.unless_wanted(wanted))
    }
}

/// What the row's text is answered.
fn answer(reader: Reader, asked: &Asked<'_>) -> Result<Answer, AllocError> {
    match reader {
        Reader::Tokens => tokens::answer(asked),
        Reader::Parts => parts::answer(asked),
        Reader::Expressions => expressions::answer(asked),
        Reader::Specifications => specifications::answer(asked),
        Reader::Labels => labels::answer(asked),
        Reader::Modules => modules::answer(asked),
    }
}
