// The tokens of a text before a fault of it, as far as they go. No text is read by them: they serve to find an earlier fault.
ghost use Rattle.std.specs.Prelude.{◌≡◌, ◌≤◌, ◌<◌, ◌+◌, ◌*◌, ◌++◌, IfErr, IfOk, drop, length};
ghost use Rattle.std.specs.List.{All};
ghost use Rattle.pgo_lexer.specs.Ends as spec;
ghost use Rattle.pgo_lexer.specs.Prefixes.{AreCounted, AreTokensBefore, IsMarkedTo, LexesTo, token_of};
ghost use Rattle.pgo_lexer.specs.declared.errors.TextStop.TheVariants.{NoMemory};

use crate::bytes::{columns_behind, skip};
use crate::errors::TextStop;
use crate::lexer::MOST_BYTES;
use crate::marker::{Marker, list_close};
use crate::piece::{Piece, first_piece};
use crate::stack::Frame;
use crate::symbol::Symbol;
use crate::token::{Lexeme, Token, Tokens};
use pgo_base::slices::first;
use std::alloc::{AllocError, Global};

/// Tokens before a fault, with the marks of their junction lists.
#[derive(Drop)]
pub struct Before {
    /// What is open at the fault is closed behind them by brackets and marks that stand there.
    pub tokens: Tokens,
    /// The fault's offset.
    pub fault: usize,
}

/// Adds the token that a piece is, if it is one.
fn add(tokens: &mut Tokens, column: usize, start: usize, piece: Piece) -> Result<(), AllocError>
    requires { start + piece.length < 18446744073709551616 }
    ensures { IfOk result (λ _. tokens.new ≡ tokens.old ++ token_of column start piece.length piece.token) }
{
    let stop = start + piece.length;
    match piece.token {
        None => Ok(()),
        Some(token) => {
            let lexeme = Lexeme {
                token,
                column,
                start,
                stop,
            };
            tokens.push(lexeme)?;
            Ok(())
        }
    }
}

/// The tokens of a text from an offset on, which stands in a column, up to another offset, or to the first byte that begins
/// no token.
pub fn lexed_before(
    alloc: Global,
    text: &[u8],
    column: usize,
    start: usize,
    end: usize,
) -> Result<Tokens, TextStop>
    requires small { length text.now ≤ 1152921504606846976 }
    requires within { start ≤ length text.now }
    requires near { column ≤ 8 * start }
    ensures tokens { IfOk result (λ ts. LexesTo end column start (drop start text.now) ts) }
    ensures early { IfOk result (All (λ t. t.start < end)) }
    ensures counted { IfOk result AreCounted }
    ensures memory { IfErr result (λ e. e ≡ NoMemory) }
{
    let mut tokens = Tokens::new(alloc);
    let mut rest = skip(text, start);
    let mut column = column;
    let mut at = start;
    for _turn in 0..text.len() {
        if end <= at {
            return Ok(tokens);
        }
        match first_piece(alloc, rest)? {
            None => return Ok(tokens),
            Some(piece) => {
                let length = piece.length;
                add(&mut tokens, column, at, piece)?;
                column = columns_behind(column, first(rest, length));
                at += length;
                rest = skip(rest, length);
            }
        }
    }
    Ok(tokens)
}

/// The end of what is open, at an offset, to the right of all.
fn end_of(frame: Frame, at: usize) -> Lexeme
    ensures { result ≡ spec.frame_end at frame }
{
    match frame {
        Frame::Bracket(bracket, _) => Lexeme {
            token: Token::Symbol(Symbol::Close(bracket)),
            column: usize::MAX,
            start: at,
            stop: at,
        },
        Frame::List(_, _) => list_close(),
    }
}

/// The tokens with their marks, and what is open closed at an offset.
fn closed(marker: Marker, at: usize) -> Result<Tokens, AllocError>
    ensures { IfOk result (λ ts. ts ≡ spec.ended at marker) }
{
    let mut all = marker;
    while let Some(frame) = all.frames.pop() {
        all.out.push(end_of(frame, at))?;
    }
    Ok(all.out)
}

/// What comes before a fault, where these are the tokens and marks before it.
fn ended(marker: Marker, fault: usize) -> Result<Before, TextStop>
    ensures value { IfOk result (λ b. (b.tokens ≡ spec.ended fault marker) × (b.fault ≡ fault)) }
    ensures memory { IfErr result (λ e. e ≡ NoMemory) }
{
    Ok(Before {
        tokens: closed(marker, fault)?,
        fault,
    })
}

/// These tokens up to a fault at an offset, or to an earlier one of the brackets and junction lists, with their marks.
pub fn marked_before(alloc: Global, tokens: Tokens, fault: usize) -> Result<Before, TextStop>
    ensures earlier { IfOk result (λ b. b.fault ≤ fault) }
    ensures marked { AreCounted tokens → IfOk result (λ b. IsMarkedTo fault tokens b) }
    ensures memory { IfErr result (λ e. e ≡ NoMemory) }
{
    let mut marker = Marker::new(alloc);
    for lexeme in tokens.into_vec() {
        let start = lexeme.start;
        if fault <= start {
            return ended(marker, fault);
        }
        match marker.push(lexeme) {
            Ok(()) => {}
            Err(TextStop::Syntax { .. }) => return ended(marker, start),
            Err(TextStop::NoMemory) => return Err(TextStop::NoMemory),
        }
    }
    ended(marker, fault)
}

/// The tokens of a text before a fault at an offset, where `tokens` refuses the text there, with the marks of their junction
/// lists; what is open at the fault is closed there. So a reader of them comes to an earlier fault, if there is one.
pub fn tokens_before(alloc: Global, text: &[u8], fault: usize) -> Result<Before, TextStop>
    ensures earlier { IfOk result (λ b. b.fault ≤ fault) }
    ensures tokens { IfOk result (λ b. AreTokensBefore text.now fault b) }
    ensures memory { IfErr result (λ e. e ≡ NoMemory) }
{
    if text.len() > MOST_BYTES {
        return Err(TextStop::NoMemory);
    }
    let tokens = lexed_before(alloc, text, 0, 0, fault)?;
    marked_before(alloc, tokens, fault)
}
