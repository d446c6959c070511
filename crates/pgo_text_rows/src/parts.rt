// Texts of specifications and the tokens of their two parts: the header and the algorithm.
//
// `header N` and `algorithm N` ask for one token of a part with its place, `count` for how many tokens each part has; a row
// without them asks for all, with `--mpcal` between the parts.
use crate::answer::Answer;
use crate::texts::{Asked, Question};
use crate::tokens::{all, placed};
use pgo_lexer::token::Lexeme;
use pgo_spec_text::parts::spec_tokens;
use std::alloc::AllocError;

pub fn answer(asked: &Asked<'_>) -> Result<Answer, AllocError> {
    match spec_tokens(asked.alloc, asked.text) {
        Ok(parts) => {
            let (header, algorithm) = (parts.header.as_slice(), parts.algorithm.as_slice());
            Ok(Answer::Read(asked_of(asked, header, algorithm)?))
        }
        Err(stop) => Answer::refused(asked.alloc, stop, 0),
    }
}

fn asked_of(
    asked: &Asked<'_>,
    header: &[Lexeme],
    algorithm: &[Lexeme],
) -> Result<String, AllocError> {
    let alloc = asked.alloc;
    match asked.question {
        Question::HeaderToken => placed(alloc, header.get(asked.number)),
        Question::AlgorithmToken => placed(alloc, algorithm.get(asked.number)),
        Question::Count => format!(in alloc; "{} and {}", header.len(), algorithm.len()),
        _ => {
            let header = all(alloc, header)?;
            let algorithm = all(alloc, algorithm)?;
            format!(in alloc; "{header} --mpcal {algorithm}")
        }
    }
}
