// Texts and their tokens.
//
// `token N` asks for one token with its place, `last` for the last one, `count` for how many there are; a row without them
// asks for all. `limit N` is the most tokens from there on.
use crate::answer::Answer;
use crate::spellings::spelling;
use crate::texts::{Asked, Question};
use pgo_base::text::Text;
use pgo_lexer::symbol::Junction;
use pgo_lexer::token::{Lexeme, Token};
use pgo_lexer::tokenizer::tokens;
use pgo_sheet::answers::push_word;
use std::alloc::{AllocError, Global};

pub fn answer(asked: &Asked<'_>) -> Result<Answer, AllocError> {
    match tokens(asked.alloc, asked.text, asked.limit) {
        Ok(list) => Ok(Answer::Read(asked_of(asked, list.as_slice())?)),
        Err(stop) => Answer::refused(asked.alloc, stop, 0),
    }
}

fn asked_of(asked: &Asked<'_>, list: &[Lexeme]) -> Result<String, AllocError> {
    match asked.question {
        Question::Count => list.len().to_string(asked.alloc),
        Question::LastToken => placed(asked.alloc, list.last()),
        Question::Token => placed(asked.alloc, list.get(asked.number)),
        _ => all(asked.alloc, list),
    }
}

/// The tokens with blanks between.
pub fn all(alloc: Global, list: &[Lexeme]) -> Result<String, AllocError> {
    let mut words = String::new(alloc);
    for lexeme in list {
        let word = token_word(alloc, &lexeme.token)?;
        push_word(&mut words, " ", word.as_str())?;
    }
    Ok(words)
}

/// A token with its column and its bytes: the first, and the one behind the last.
pub fn placed(alloc: Global, lexeme: Option<&Lexeme>) -> Result<String, AllocError> {
    match lexeme {
        Some(lexeme) => {
            let word = token_word(alloc, &lexeme.token)?;
            let (column, start, stop) = (lexeme.column, lexeme.start, lexeme.stop);
            format!(in alloc; "{word} column {column} bytes {start}..{stop}")
        }
        None => String::from_str(alloc, "no token"),
    }
}

/// A name stands in ` `, a string in " ", a number and a symbol alone; `list` with an operator begins a junction list, `item`
/// begins another item of it, and `end` ends it.
fn token_word(alloc: Global, token: &Token) -> Result<String, AllocError> {
    match token {
        Token::Name(name) => quoted(alloc, '`', name),
        Token::Number(number) => format!(in alloc; "{number}"),
        Token::Text(text) => quoted(alloc, '"', text),
        Token::Symbol(symbol) => String::from_str(alloc, spelling(*symbol)),
        Token::ListOpen(Junction::And) => String::from_str(alloc, "list/\\"),
        Token::ListOpen(Junction::Or) => String::from_str(alloc, "list\\/"),
        Token::ListNext => String::from_str(alloc, "item"),
        Token::ListClose => String::from_str(alloc, "end"),
    }
}

fn quoted(alloc: Global, mark: char, text: &Text) -> Result<String, AllocError> {
    let text = String::from_utf8_lossy(alloc, text.as_bytes())?;
    format!(in alloc; "{mark}{text}{mark}")
}
