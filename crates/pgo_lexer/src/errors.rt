// Why a text was not read.
ghost use Rattle.std.specs.Prelude.{◌≡◌};
ghost use Rattle.pgo_lexer.specs.Answers.{IsSyntax};
ghost use Rattle.pgo_lexer.specs.Offsets.{IsAt};

use std::alloc::AllocError;
use thiserror::Error;

/// Why a text was not read. This project's choice.
#[derive(Clone, Copy, Debug, PartialEq, Eq, Error)]
pub enum TextStop {
    /// The text has no tokens, has more than the limit, or its junction lists and brackets don't close. The offset
    /// counts bytes from 0: it is that of the first token that can't stand at its place, or the text's length.
    #[error("syntax at {offset}")]
    Syntax { offset: u64 },
    /// There was no memory.
    #[error("out of memory")]
    NoMemory,
}

impl TextStop {
    /// The text is refused at this offset.
    pub fn at(offset: usize) -> TextStop
        ensures syntax { IsSyntax result }
        ensures at { IsAt offset result }
    {
        TextStop::Syntax {
            offset: offset as u64,
        }
    }
}

impl From<AllocError> for TextStop {
    ghost use Rattle.pgo_lexer.specs.declared.errors.TextStop.TheVariants.{NoMemory};

    ghost from_gives = { λ _ e. e ≡ NoMemory };

    fn from(_error: AllocError) -> TextStop {
        TextStop::NoMemory
    }
}
