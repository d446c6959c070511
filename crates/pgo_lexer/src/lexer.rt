// A text cut into its tokens.
ghost use Rattle.std.specs.Prelude.{◌≡◌, ◌<◌, ◌+◌, [], length, IfErr};
ghost use Rattle.pgo_lexer.specs.Answers.{Gives, ok_as};
ghost use Rattle.pgo_lexer.specs.Offsets.{IsAt, IsWithin};
ghost use Rattle.pgo_lexer.specs.Lexing as spec;

use crate::bytes::{columns_behind, skip};
use crate::errors::TextStop;
use crate::piece::{Piece, next_piece};
use crate::token::{Lexeme, Tokens};
use pgo_base::slices::first;
use std::alloc::Global;

/// The most bytes of a text whose columns can be counted; no memory holds as many.
pub const MOST_BYTES: usize = 1152921504606846976;

/// Adds the token that a piece is, if it is one and the limit allows it. The piece begins in a column and at an offset.
pub fn add(
    tokens: &mut Tokens,
    limit: u32,
    column: usize,
    start: usize,
    piece: Piece,
) -> Result<(), TextStop>
    requires { start + piece.length < 18446744073709551616 }
    ensures value { Gives (spec.added limit column start tokens.old piece.length piece.token) (ok_as tokens.new result) }
    ensures refused { IfErr result (IsAt start) }
{
    let stop = start + piece.length;
    match piece.token {
        None => Ok(()),
        Some(token) => {
            if tokens.len() >= limit as usize {
                return Err(TextStop::at(start));
            }
            let lexeme = Lexeme {
                token,
                column,
                start,
                stop,
            };
            tokens.push(lexeme)?;
            Ok(())
        }
    }
}

/// The tokens of a text without marks, at most so many.
pub fn lexed(alloc: Global, text: &[u8], limit: u32) -> Result<Tokens, TextStop>
    ensures value { Gives (spec.lexed limit (length text.now) 0 0 [] text.now) result }
    ensures within { IfErr result (IsWithin (length text.now)) }
{
    if text.len() > MOST_BYTES {
        return Err(TextStop::NoMemory);
    }
    let mut tokens = Tokens::new(alloc);
    let mut rest = text;
    let mut column: usize = 0;
    let mut at: usize = 0;
    for _turn in 0..text.len() {
        if rest.len() == 0 {
            return Ok(tokens);
        }
        let p = next_piece(alloc, rest, at)?;
        let length = p.length;
        add(&mut tokens, limit, column, at, p)?;
        column = columns_behind(column, first(rest, length));
        at += length;
        rest = skip(rest, length);
    }
    if rest.len() == 0 {
        Ok(tokens)
    } else {
        Err(TextStop::at(at))
    }
}
