// What a call of a client says.
use pgo_base::value::Value;
use pgo_resource::resource::OpStop;
use pgo_syntax::records::Refusal;
use std::alloc::{AllocError, Global};

/// What a call of a client says.
#[derive(Clone, Copy)]
pub enum Said {
    Done,
    /// an entry's number, or a note's position
    Number(u32),
    /// a whole number that a content is
    Value(i64),
    Refused(Refusal),
    /// what is asked is not to be asked there, and was not done
    NotAllowed,
}

fn refused(alloc: Global, refusal: Refusal) -> Result<String, AllocError> {
    match refusal {
        Refusal::Held { resource, holder } => format!(in alloc; "held {resource} {holder}"),
        Refusal::Down { resource, op } => format!(in alloc; "down {resource} {op}"),
        Refusal::Full { entries } => format!(in alloc; "full {entries}"),
        Refusal::Many { leaves, position } => format!(in alloc; "many {leaves} {position}"),
    }
}

impl Said {
    pub fn is_number(self) -> bool {
        match self {
            Said::Number(_) => true,
            _ => false,
        }
    }

    /// As a text.
    pub fn text(self, alloc: Global) -> Result<String, AllocError> {
        match self {
            Said::Done => String::from_str(alloc, "ok"),
            Said::Number(n) => format!(in alloc; "{n}"),
            Said::Value(v) => format!(in alloc; "{v}"),
            Said::Refused(refusal) => refused(alloc, refusal),
            Said::NotAllowed => String::from_str(alloc, "not allowed"),
        }
    }
}

/// What is said of a write.
pub fn written_said(written: Result<(), OpStop>) -> Result<Said, AllocError> {
    match written {
        Ok(()) => Ok(Said::Done),
        Err(OpStop::NoMemory) => Err(AllocError),
        Err(_) => Ok(Said::NotAllowed),
    }
}

/// What is said of a content.
pub fn number_said(read: Result<Value, AllocError>) -> Result<Said, AllocError> {
    match read? {
        Value::Int(n) => Ok(Said::Value(n)),
        _ => Ok(Said::NotAllowed),
    }
}
