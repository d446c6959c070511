// What a row's text is answered.
use pgo_lexer::errors::TextStop;
use pgo_sheet::answers::unless_same;
use std::alloc::{AllocError, Global};

/// What the text is read as, or what refuses it.
#[derive(Drop)]
pub enum Answer {
    Read(String),
    Refused(String),
}

impl Answer {
    /// It is refused, at an offset that is counted from `start`.
    pub fn refused(alloc: Global, stop: TextStop, start: usize) -> Result<Answer, AllocError> {
        match stop {
            TextStop::Syntax { offset } => {
                let offset = offset.saturating_sub(start as u64);
                Ok(Answer::Refused(format!(in alloc; "syntax at {offset}")?))
            }
            TextStop::NoMemory => Err(AllocError),
        }
    }

    /// None where this is what is wanted. `read` wants whatever is read, and `refused` whatever is refused.
    pub fn unless_wanted(self, wanted: &str) -> Option<String> {
        match (self, wanted) {
            (Answer::Read(_), "read") => None,
            (Answer::Refused(_), "refused") => None,
            (Answer::Read(text), _) => unless_same(text, wanted),
            (Answer::Refused(text), _) => unless_same(text, wanted),
        }
    }
}
