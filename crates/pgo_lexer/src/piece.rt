// The piece that a text begins with: a blank, a comment or a token.
ghost use Rattle.std.specs.Prelude.{◌≡◌, ◌≤◌, ◌<◌, length, take, IfErr, IfOk, IfSome};
ghost use Rattle.pgo_lexer.specs.Answers.{Gives};
ghost use Rattle.pgo_lexer.specs.Offsets.{IsAt};
ghost use Rattle.pgo_lexer.specs.Pieces as spec;

use crate::bytes::{
    all_digits, begins_blank, begins_dollar, begins_string, begins_word, has_letter, is_same,
    letters_length, line_length, opens, opens_line, opens_word, skip, word_length,
};
use crate::comment::behind_comment;
use crate::errors::TextStop;
use crate::number::number_of;
use crate::string::content;
use crate::symbol::Symbol;
use crate::table::{find_dollar_word, find_reserved, find_sign, find_slash_word};
use crate::token::Token;
use pgo_base::slices::first;
use pgo_base::text::Text;
use std::alloc::{AllocError, Global};

/// The most bytes of an identifier.
const LONGEST_NAME: usize = 512;

/// How many bytes a piece has, and the token that it is, or none for a blank or a comment.
#[derive(Drop)]
pub struct Piece {
    pub length: usize,
    pub token: Option<Token>,
}

/// The piece of a token, where there is one.
fn token_piece(length: usize, token: Option<Token>) -> Option<Piece>
    ensures value { result ≡ spec.token_piece length token }
    ensures within { IfSome result (λ p. p.length ≤ length) }
{
    match token {
        Some(token) => Some(Piece {
            length,
            token: Some(token),
        }),
        None => None,
    }
}

fn symbol_piece(length: usize, symbol: Option<Symbol>) -> Option<Piece>
    ensures value { result ≡ spec.symbol_piece length symbol }
    ensures within { IfSome result (λ p. p.length ≤ length) }
{
    match symbol {
        Some(symbol) => token_piece(length, Some(Token::Symbol(symbol))),
        None => None,
    }
}

fn number(digits: &[u8]) -> Option<Token>
    ensures { result ≡ spec.number digits.now }
{
    match number_of(digits) {
        Some(n) => Some(Token::Number(n as i64)),
        None => None,
    }
}

/// The reserved word or the identifier that a word with a letter is.
#[tactic(auto, unfolding(crate::specs::Pieces::named))]
fn named(alloc: Global, word: &[u8]) -> Result<Option<Token>, AllocError>
    ensures { IfOk result (λ o. o ≡ spec.named word.now) }
{
    match find_reserved(word) {
        Some(symbol) => Ok(Some(Token::Symbol(symbol))),
        None => {
            if word.len() <= LONGEST_NAME {
                Ok(Some(Token::Name(Text::from_slice(alloc, word)?)))
            } else {
                Ok(None)
            }
        }
    }
}

/// The token that a word is.
#[tactic(auto, unfolding(crate::specs::Pieces::word_token))]
fn word_token(alloc: Global, word: &[u8]) -> Result<Option<Token>, AllocError>
    ensures { IfOk result (λ o. o ≡ spec.word_token word.now) }
{
    if all_digits(word) {
        Ok(number(word))
    } else if has_letter(word) {
        named(alloc, word)
    } else if is_same(word, b"_") {
        Ok(Some(Token::Symbol(Symbol::Underscore)))
    } else {
        Ok(None)
    }
}

#[tactic(auto, unfolding(crate::specs::Pieces::word))]
fn word(alloc: Global, bytes: &[u8]) -> Result<Option<Piece>, AllocError>
    ensures value { IfOk result (λ o. o ≡ spec.word bytes.now) }
    ensures within { IfOk result (λ o. IfSome o (λ p. p.length ≤ length bytes.now)) }
{
    let length = word_length(bytes);
    let token = word_token(alloc, first(bytes, length))?;
    Ok(token_piece(length, token))
}

#[tactic(auto, unfolding(crate::specs::Pieces::string))]
fn string(alloc: Global, bytes: &[u8]) -> Result<Option<Piece>, AllocError>
    requires { 0 < length bytes.now }
    ensures value { IfOk result (λ o. o ≡ spec.string bytes.now) }
    ensures within { IfOk result (λ o. IfSome o (λ p. p.length ≤ length bytes.now)) }
{
    match content(alloc, skip(bytes, 1))? {
        Some((text, length)) => Ok(Some(Piece {
            length,
            token: Some(Token::Text(text)),
        })),
        None => Ok(None),
    }
}

#[tactic(auto, unfolding(crate::specs::Pieces::comment))]
fn comment(bytes: &[u8]) -> Option<Piece>
    ensures value { result ≡ spec.comment bytes.now }
    ensures within { IfSome result (λ p. p.length ≤ length bytes.now) }
{
    match behind_comment(skip(bytes, 2)) {
        Some(rest) => Some(Piece {
            length: bytes.len().saturating_sub(rest.len()),
            token: None,
        }),
        None => None,
    }
}

/// An operator that a backslash and a word spell.
#[tactic(auto, unfolding(crate::specs::Pieces::slashed))]
fn slashed(bytes: &[u8]) -> Option<Piece>
    requires { 0 < length bytes.now }
    ensures value { result ≡ spec.slashed bytes.now }
    ensures within { IfSome result (λ p. p.length ≤ length bytes.now) }
{
    let text = skip(bytes, 1);
    let n = letters_length(text);
    symbol_piece(n + 1, find_slash_word(first(text, n)))
}

/// `$variable` or `$value`.
#[tactic(auto, unfolding(crate::specs::Pieces::dollar))]
fn dollar(bytes: &[u8]) -> Option<Piece>
    requires { 0 < length bytes.now }
    ensures value { result ≡ spec.dollar bytes.now }
    ensures within { IfSome result (λ p. p.length ≤ length bytes.now) }
{
    let text = skip(bytes, 1);
    let n = word_length(text);
    symbol_piece(n + 1, find_dollar_word(first(text, n)))
}

/// The sign that the first so many bytes are.
fn sign_of(bytes: &[u8], count: usize) -> Option<Piece>
    ensures value { result ≡ spec.sign_of (take count bytes.now) }
    ensures within { IfSome result (λ p. p.length ≤ length bytes.now) }
{
    let front = first(bytes, count);
    symbol_piece(front.len(), find_sign(front))
}

/// The longest sign of one to three bytes.
#[tactic(auto, unfolding(crate::specs::Pieces::sign))]
fn sign(bytes: &[u8]) -> Option<Piece>
    ensures value { result ≡ spec.sign bytes.now }
    ensures within { IfSome result (λ p. p.length ≤ length bytes.now) }
{
    let three = sign_of(bytes, 3);
    if three.is_some() {
        return three;
    }
    let two = sign_of(bytes, 2);
    if two.is_some() {
        return two;
    }
    sign_of(bytes, 1)
}

/// The piece that a text begins with, or none where it begins with no piece.
#[tactic(auto, unfolding(crate::specs::Pieces::first_piece))]
pub fn first_piece(alloc: Global, bytes: &[u8]) -> Result<Option<Piece>, AllocError>
    ensures value { IfOk result (λ o. o ≡ spec.first_piece bytes.now) }
    ensures within { IfOk result (λ o. IfSome o (λ p. p.length ≤ length bytes.now)) }
{
    if begins_blank(bytes) {
        Ok(Some(Piece {
            length: 1,
            token: None,
        }))
    } else if begins_word(bytes) {
        word(alloc, bytes)
    } else if begins_string(bytes) {
        string(alloc, bytes)
    } else if begins_dollar(bytes) {
        Ok(dollar(bytes))
    } else if opens(bytes) {
        Ok(comment(bytes))
    } else if opens_line(bytes) {
        Ok(Some(Piece {
            length: line_length(bytes),
            token: None,
        }))
    } else if opens_word(bytes) {
        Ok(slashed(bytes))
    } else {
        Ok(sign(bytes))
    }
}

/// The piece that the rest of a text begins with, which stands at an offset.
///
/// Err at this offset where it begins with no piece, and where there is no memory.
pub fn next_piece(alloc: Global, rest: &[u8], at: usize) -> Result<Piece, TextStop>
    ensures value { Gives (spec.first_piece rest.now) result }
    ensures within { IfOk result (λ p. p.length ≤ length rest.now) }
    ensures refused { IfErr result (IsAt at) }
{
    match first_piece(alloc, rest)? {
        Some(piece) => Ok(piece),
        None => Err(TextStop::at(at)),
    }
}
