// The tokens of the header and of the algorithm.
ghost use Rattle.std.specs.Prelude.{◌≡◌, ◌≤◌, ◌<◌, ◌+◌, ◌*◌, [], length, drop, IfErr, IfOk};
ghost use Rattle.pgo_lexer.specs.Answers.{Gives, ok_as};
ghost use Rattle.pgo_lexer.specs.Offsets.{IsAt, IsWithin};
ghost use Rattle.pgo_spec_text.specs.SpecText as text;
ghost use Rattle.pgo_spec_text.specs.Cutting as spec;

use crate::search::is_algorithm_comment;
use pgo_base::slices::first;
use pgo_lexer::bytes::{columns_behind, skip};
use pgo_lexer::errors::TextStop;
use pgo_lexer::piece::{Piece, next_piece};
use pgo_lexer::symbol::{Bracket, Symbol};
use pgo_lexer::token::{Lexeme, Token, Tokens};
use std::alloc::Global;

/// The most bytes of an identifier.
const LONGEST_NAME: usize = 128;

/// The tokens of the header, and the offset of the comment with the algorithm.
#[derive(Drop)]
pub struct Head {
    pub tokens: Tokens,
    pub at: usize,
}

/// Whether a specification may have the token.
fn is_allowed(token: &Token) -> bool
    ensures { result ≡ text.is_allowed token.now }
{
    match token {
        Token::Name(name) => name.as_bytes().len() <= LONGEST_NAME,
        Token::Symbol(Symbol::Prime) | Token::Symbol(Symbol::Unchanged) => false,
        _ => true,
    }
}

fn is_open_brace(token: &Token) -> bool
    ensures { result ≡ text.is_open_brace token.now }
{
    match token {
        Token::Symbol(Symbol::Open(Bracket::Curly)) => true,
        _ => false,
    }
}

fn is_close_brace(token: &Token) -> bool
    ensures { result ≡ text.is_close_brace token.now }
{
    match token {
        Token::Symbol(Symbol::Close(Bracket::Curly)) => true,
        _ => false,
    }
}

/// How many `{` are open behind a piece.
fn depth_behind(depth: usize, token: &Option<Token>) -> usize
    requires { depth < 18446744073709551615 }
    ensures value { result ≡ spec.depth_behind depth token.now }
    ensures within { result ≤ depth + 1 }
{
    match token {
        None => depth,
        Some(token) => {
            if is_open_brace(token) {
                depth + 1
            } else if is_close_brace(token) {
                depth.saturating_sub(1)
            } else {
                depth
            }
        }
    }
}

/// Whether a piece is the `}` that closes the first `{`.
fn is_last(depth: usize, token: &Option<Token>) -> bool
    ensures { result ≡ spec.is_last depth token.now }
{
    match token {
        None => false,
        Some(token) => depth == 1 && is_close_brace(token),
    }
}

/// Adds the token that a piece is, if it is one, the limit allows it, and a specification may have it.
fn add(
    tokens: &mut Tokens,
    limit: usize,
    column: usize,
    start: usize,
    piece: Piece,
) -> Result<(), TextStop>
    requires { start + piece.length < 18446744073709551616 }
    ensures value { Gives (spec.added limit column start tokens.old piece.length piece.token) (ok_as tokens.new result) }
    ensures refused { IfErr result (IsAt start) }
{
    let stop = start + piece.length;
    match piece.token {
        None => Ok(()),
        Some(token) => {
            if is_allowed(&token) && tokens.len() < limit {
                let lexeme = Lexeme {
                    token,
                    column,
                    start,
                    stop,
                };
                tokens.push(lexeme)?;
                Ok(())
            } else {
                Err(TextStop::at(start))
            }
        }
    }
}

/// The tokens of a text from an offset on, which stands in a column, up to the comment with the algorithm.
pub fn header(
    alloc: Global,
    text: &[u8],
    column: usize,
    start: usize,
    limit: usize,
) -> Result<Head, TextStop>
    requires small { length text.now ≤ 1152921504606846976 }
    requires within { start ≤ length text.now }
    requires near { column ≤ 8 * start }
    ensures value { Gives (spec.header limit (length text.now) column start [] (drop start text.now)) result }
    ensures inside { IfOk result (λ h. h.at ≤ length text.now) }
    ensures within { IfErr result (IsWithin (length text.now)) }
{
    let mut tokens = Tokens::new(alloc);
    let mut rest = skip(text, start);
    let mut column = column;
    let mut at = start;
    for _turn in 0..text.len() {
        if is_algorithm_comment(rest) {
            return Ok(Head { tokens, at });
        }
        let p = next_piece(alloc, rest, at)?;
        let length = p.length;
        add(&mut tokens, limit, column, at, p)?;
        column = columns_behind(column, first(rest, length));
        at += length;
        rest = skip(rest, length);
    }
    Err(TextStop::at(at))
}

/// The tokens of the body of a comment up to the `}` that matches their first `{`. The body begins in a column and at an
/// offset.
pub fn algorithm(
    alloc: Global,
    body: &[u8],
    column: usize,
    start: usize,
    limit: usize,
) -> Result<Tokens, TextStop>
    requires small { start + length body.now ≤ 1152921504606846976 }
    requires near { column ≤ 8 * start }
    ensures value { Gives (spec.algorithm limit (length body.now) 0 column start [] body.now) result }
    ensures within { IfErr result (IsWithin (start + length body.now)) }
{
    let mut tokens = Tokens::new(alloc);
    let mut rest = body;
    let mut column = column;
    let mut at = start;
    let mut depth: usize = 0;
    for _turn in 0..body.len() {
        let p = next_piece(alloc, rest, at)?;
        let length = p.length;
        let last = is_last(depth, &p.token);
        let next = depth_behind(depth, &p.token);
        add(&mut tokens, limit, column, at, p)?;
        if last {
            return Ok(tokens);
        }
        depth = next;
        column = columns_behind(column, first(rest, length));
        at += length;
        rest = skip(rest, length);
    }
    Err(TextStop::at(at))
}
