// The tokens of a text that may spell no module, up to the first place at which no module has a token.
use crate::cut::front;
use crate::lines::mapped;
use pgo_lexer::errors::TextStop;
use pgo_lexer::symbol::{Bracket, Symbol};
use pgo_lexer::token::{Lexeme, Token, Tokens};
use pgo_lexer::tokenizer::marked;
use std::alloc::{AllocError, Global};

/// The tokens before an offset.
fn before(alloc: Global, tokens: Tokens, end: usize) -> Result<Tokens, AllocError> {
    let mut kept = Tokens::new(alloc);
    for lexeme in tokens.into_vec() {
        if lexeme.start < end {
            kept.push(lexeme)?;
        }
    }
    Ok(kept)
}

/// Opens or closes the bracket that a token is.
fn go_past(open: &mut Vec<Bracket>, token: &Token) -> Result<(), AllocError> {
    match token {
        Token::Symbol(Symbol::Open(bracket)) => open.push(*bracket)?,
        Token::Symbol(Symbol::Close(_)) => {
            open.pop();
        }
        _ => {}
    }
    Ok(())
}

/// The brackets that are open behind these tokens.
fn open_behind(alloc: Global, tokens: &[Lexeme]) -> Result<Vec<Bracket>, AllocError> {
    let mut open = Vec::new(alloc);
    for lexeme in tokens {
        go_past(&mut open, &lexeme.token)?;
    }
    Ok(open)
}

/// The tokens, and what closes the brackets that are open behind them, which has no place in the text.
fn closed(alloc: Global, tokens: Tokens, end: usize) -> Result<Tokens, AllocError> {
    let mut open = open_behind(alloc, tokens.as_slice())?;
    open.reverse();
    let mut all = tokens;
    for bracket in open {
        all.push(Lexeme {
            token: Token::Symbol(Symbol::Close(bracket)),
            column: usize::MAX,
            start: end,
            stop: end,
        })?;
    }
    Ok(all)
}

/// The first of these offsets and that of the first `$variable` or `$value`.
fn plain_end(tokens: &Tokens, end: usize) -> usize {
    match mapped(tokens.as_slice()) {
        None => end,
        Some(start) => end.min(start),
    }
}

/// The tokens with their marks before the first place at which no module has a token, and that place. Brackets that are open
/// there are closed.
pub fn marked_front(alloc: Global, text: &[u8]) -> Result<(Tokens, usize), TextStop> {
    let mut end = text.len();
    // A second time where a bracket or a column refuses a token.
    for _turn in 0..2 {
        let (unmarked, stop) = front(alloc, text)?;
        end = plain_end(&unmarked, end.min(stop));
        let tokens = closed(alloc, before(alloc, unmarked, end)?, end)?;
        match marked(alloc, tokens, end) {
            Ok(tokens) => return Ok((tokens, end)),
            Err(TextStop::Syntax { offset }) => end = end.min(offset as usize),
            Err(TextStop::NoMemory) => return Err(TextStop::NoMemory),
        }
    }
    Ok((Tokens::new(alloc), end))
}
