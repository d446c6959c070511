// Why a bundle was not read.
ghost use Rattle.std.specs.Prelude.{◌≡◌, ℕ, List};
ghost use Rattle.pgo_log_text.specs.LineNumbers.{NamesLineOf};
ghost use Rattle.pgo_log_text.specs.ReadBundle.{IsRefused, stop_at};

use crate::line::within;
use std::alloc::{AllocError, AllocFailed};
use thiserror::Error;

/// Why a bundle was not read. This project's choice.
#[derive(Clone, Copy, Debug, PartialEq, Eq, Error)]
pub enum LogStop {
    /// The text is no bundle. Lines count from 1: it is the first line that no bundle has there, or the line behind the last.
    #[error("no bundle from line {line} on")]
    BadLog { line: usize },
    /// There was no memory.
    #[error("out of memory")]
    NoMemory,
}

impl LogStop {
    /// The same, at a line of this text: at its own, where the text has it.
    pub fn within(self, text: &[u8]) -> LogStop
        ensures same { (other : List ℕ) → IsRefused other self → IsRefused other result }
        ensures line { NamesLineOf text.now result }
        ensures kept { NamesLineOf text.now self → result ≡ self }
    {
        match self {
            LogStop::BadLog { line } => LogStop::BadLog {
                line: within(text, line),
            },
            LogStop::NoMemory => LogStop::NoMemory,
        }
    }
}

/// Why a part of a bundle was not read.
#[derive(Clone, Copy)]
pub enum LineStop {
    /// No bundle has this there.
    BadLine,
    /// There was no memory.
    NoMemory,
}

impl From<AllocError> for LineStop {
    ghost use Rattle.pgo_log_text.specs.declared.errors.LineStop.TheVariants.{NoMemory};

    ghost from_gives = { λ _ e. e ≡ NoMemory };

    fn from(_error: AllocError) -> LineStop {
        LineStop::NoMemory
    }
}

impl<T: Drop> From<AllocFailed<T>> for LineStop {
    ghost use Rattle.pgo_log_text.specs.declared.errors.LineStop.TheVariants.{NoMemory};

    ghost from_gives = { λ _ e. e ≡ NoMemory };

    fn from(_error: AllocFailed<T>) -> LineStop {
        LineStop::NoMemory
    }
}

impl LineStop {
    /// The text is no bundle from this line on, or there was no memory.
    pub fn at_line(self, line: usize) -> LogStop
        ensures { result ≡ stop_at line self }
    {
        match self {
            LineStop::BadLine => LogStop::BadLog { line },
            LineStop::NoMemory => LogStop::NoMemory,
        }
    }
}
