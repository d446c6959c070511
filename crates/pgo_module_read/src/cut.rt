// The tokens of a module's text.
ghost use Rattle.std.specs.Prelude.{◌≡◌, ◌≤◌, ◌*◌, [], None, length, drop};
ghost use Rattle.pgo_lexer.specs.Answers.{Gives, ok_as};
ghost use Rattle.pgo_module_spells.specs.Spells as spells;
ghost use Rattle.pgo_module_read.specs.Cutting as spec;

use pgo_base::slices::first;
use pgo_lexer::bytes::{columns_behind, opens, skip};
use pgo_lexer::errors::TextStop;
use pgo_lexer::piece::next_piece;
use pgo_lexer::symbol::Symbol;
use pgo_lexer::token::{Token, Tokens};
use pgo_lexer::tokenizer::{add, marked};
use pgo_spec_text::parts::{MOST_BYTES, column_at};
use pgo_spec_text::search::module_from;
use std::alloc::Global;

/// The most tokens of a module.
const MOST_TOKENS: u32 = 4294967295;

fn is_defines(token: &Token) -> bool
    ensures { result ≡ spells.is_defines token.now }
{
    match token {
        Token::Symbol(Symbol::Defines) => true,
        _ => false,
    }
}

/// Where the last token stops, if it is a `==`. This piece, which stops at an offset, is behind it.
fn row_behind(row: Option<usize>, stop: usize, token: &Option<Token>) -> Option<usize>
    ensures { result ≡ spec.row_behind row stop token.now }
{
    match token {
        None => row,
        Some(token) => { if is_defines(token) { Some(stop) } else { None } }
    }
}

/// Whether the token that begins at an offset is a `==`, and the last one is another that stops there.
fn touches(row: Option<usize>, start: usize, token: &Token) -> bool
    ensures { result ≡ spec.touches row start token.now }
{
    match row {
        None => false,
        Some(stop) => is_defines(token) && start == stop,
    }
}

/// Whether a piece is the second of two `==` that touch.
fn is_last(row: Option<usize>, start: usize, token: &Option<Token>) -> bool
    ensures { result ≡ spec.is_last row start token.now }
{
    match token {
        None => false,
        Some(token) => touches(row, start, token),
    }
}

/// Adds the tokens of a text from an offset on, which stands in a column, up to the first two `==` that touch. Those before a
/// place that has no token are added too.
fn module_tokens(
    alloc: Global,
    text: &[u8],
    column: usize,
    start: usize,
    limit: u32,
    tokens: &mut Tokens,
) -> Result<(), TextStop>
    requires small { length text.now ≤ 1152921504606846976 }
    requires within { start ≤ length text.now }
    requires near { column ≤ 8 * start }
    ensures { Gives (spec.module_tokens limit (length text.now) None column start tokens.old (drop start text.now)) (ok_as tokens.new result) }
{
    let mut rest = skip(text, start);
    let mut column = column;
    let mut at = start;
    let mut row = None;
    for _turn in 0..text.len() {
        let p = next_piece(alloc, rest, at)?;
        let length = p.length;
        let last = is_last(row, at, &p.token);
        let next = row_behind(row, at + length, &p.token);
        add(tokens, limit, column, at, p)?;
        if last {
            return Ok(());
        }
        row = next;
        column = columns_behind(column, first(rest, length));
        at += length;
        rest = skip(rest, length);
    }
    Err(TextStop::at(at))
}

/// The tokens with their marks, where the line of MODULE begins at an offset.
#[tactic(auto, unfolding(crate::specs::Cutting::from_module))]
fn from_module(alloc: Global, text: &[u8], start: usize) -> Result<Tokens, TextStop>
    requires small { length text.now ≤ 1152921504606846976 }
    requires within { start ≤ length text.now }
    ensures { Gives (spec.from_module text.now start) result }
{
    let column = column_at(text, start);
    let mut unmarked = Tokens::new(alloc);
    module_tokens(alloc, text, column, start, MOST_TOKENS, &mut unmarked)?;
    marked(alloc, unmarked, text.len())
}

/// The tokens of a module from the first line of MODULE up to its closing row, which is two `==` that touch, with the marks of
/// their junction lists.
pub fn cut(alloc: Global, text: &[u8]) -> Result<Tokens, TextStop>
    ensures { Gives (spec.cut text.now) result }
{
    if text.len() > MOST_BYTES {
        return Err(TextStop::NoMemory);
    }
    match module_from(text) {
        None => Err(TextStop::at(text.len())),
        Some(rest) => from_module(alloc, text, text.len().saturating_sub(rest.len())),
    }
}

/// Where the tokens of a text end that has none at this offset: there, or, where a comment begins that doesn't end, behind the text.
fn end_at(text: &[u8], offset: usize) -> usize {
    if opens(skip(text, offset)) {
        text.len()
    } else {
        offset
    }
}

/// The tokens without marks of a module from the first line of MODULE on, as far as there are any, and where they end.
pub fn front(alloc: Global, text: &[u8]) -> Result<(Tokens, usize), TextStop> {
    if text.len() > MOST_BYTES {
        return Err(TextStop::NoMemory);
    }
    let mut tokens = Tokens::new(alloc);
    match module_from(text) {
        None => Ok((tokens, text.len())),
        Some(rest) => {
            let start = text.len().saturating_sub(rest.len());
            let column = column_at(text, start);
            match module_tokens(alloc, text, column, start, MOST_TOKENS, &mut tokens) {
                Ok(()) => Ok((tokens, text.len())),
                Err(TextStop::Syntax { offset }) => Ok((tokens, end_at(text, offset as usize))),
                Err(TextStop::NoMemory) => Err(TextStop::NoMemory),
            }
        }
    }
}
