// A cursor over the tokens of a specification.
ghost use Rattle.std.specs.Prelude.{◌≡◌, Some, length};
ghost use Rattle.pgo_mpcal_read.specs.Lookahead as lookahead;
ghost use Rattle.pgo_mpcal_read.specs.Elements as elements;
ghost use Rattle.pgo_mpcal_read.specs.Places.{IsFarIfNoMemory};
ghost use Rattle.pgo_mpcal_read.specs.Signs as signs;
ghost use Rattle.pgo_model.specs.ValueText.{same_bytes};
ghost use Rattle.pgo_expr_read.specs.Steps as steps;
ghost use Rattle.pgo_mpcal_read.specs.Reading as spec;
ghost use Rattle.pgo_mpcal_read.specs.ReadingSpec as specification;
ghost use Rattle.pgo_expr_read.specs.Steps.{Reads, Makes};
ghost use Rattle.pgo_mpcal_read.specs.Reading.{Passes};

use crate::lookahead::{StatementForm, form_of_symbol};
use pgo_base::expr::{Infix, Sub};
use pgo_expr_read::cursor::Cursor as ExprCursor;
use pgo_expr_read::reader;
use pgo_expr_read::sign::is_sign;
use pgo_lexer::errors::TextStop;
use pgo_lexer::symbol::{Bracket, Symbol};
use pgo_lexer::token::{Lexeme, Token, first_offset};
use pgo_syntax::name::PlacedName;
use std::alloc::Global;
use std::marker::Model;

/// The greatest height of an expression.
const MOST_HEIGHT: u32 = 128;

/// The tokens that are left to read.
#[derive(Drop)]
pub struct Cursor<'a> {
    rest: &'a [Lexeme],
    /// The offset of what comes behind the last token.
    end: u64,
}

impl<'a> Model for Cursor<'a> {
    ghost use Rattle.std.specs.Prelude.{List};
    ghost use Rattle.pgo_lexer.specs.declared.token.Lexeme.{Lexeme};

    ghost Value = { List Lexeme };

    ghost view = { λ c. c.rest.now };
}

/// A place in a text. No token at 4 GiB or behind it is read.
fn place_of(start: usize) -> Result<u32, TextStop>
    ensures value { Makes (Some start) result }
    ensures far { IsFarIfNoMemory start result }
{
    match u32::try_from(start) {
        Ok(place) => Ok(place),
        Err(_) => Err(TextStop::NoMemory),
    }
}

/// The last of these tokens, so many.
fn last<'a>(rest: &'a [Lexeme], count: usize) -> &'a [Lexeme]
    ensures { result.now ≡ spec.left_of rest.now count }
{
    &rest[rest.len().saturating_sub(count)..]
}

/// The first of these tokens, all but so many.
fn first<'a>(rest: &'a [Lexeme], left: usize) -> &'a [Lexeme]
    ensures { result.now ≡ spec.without_last rest.now left }
{
    &rest[..rest.len().saturating_sub(left)]
}

/// The tokens behind the first.
fn tail<'a>(rest: &'a [Lexeme]) -> &'a [Lexeme]
    ensures { result.now ≡ steps.skip rest.now }
{
    match rest {
        [] => rest,
        [_, rest @ ..] => rest,
    }
}

fn is_same(a: &[u8], b: &[u8]) -> bool
    ensures { result ≡ same_bytes a.now b.now }
{
    a == b
}

fn closes_behind(before: bool, token: &Token) -> bool
    ensures { result ≡ elements.closes_behind before token.now }
{
    match token {
        Token::Symbol(Symbol::Close(Bracket::Curly)) => true,
        Token::ListClose => before,
        _ => false,
    }
}

/// Whether the last of these tokens is a `}`; marks behind it count for nothing.
fn closes(tokens: &[Lexeme]) -> bool
    ensures { result ≡ elements.closes tokens.now }
{
    let mut closed = false;
    for lexeme in tokens {
        closed = closes_behind(closed, &lexeme.token);
    }
    closed
}

impl<'a> Cursor<'a> {
    /// A cursor at the first of these tokens; `end` is the offset of what comes behind them.
    pub fn new(rest: &'a [Lexeme], end: u64) -> Cursor<'a>
        ensures { result ≡ rest.now }
    {
        Cursor { rest, end }
    }

    /// The tokens that are left.
    pub fn rest(&self) -> &'a [Lexeme]
        ensures { result.now ≡ self.now }
    {
        self.rest
    }

    /// How many tokens are left.
    pub fn left(&self) -> usize
        ensures { result ≡ length self.now }
    {
        self.rest.len()
    }

    /// The error that the next token has no place here.
    pub fn refuse(&self) -> TextStop
        ensures { steps.IsSyntax result }
    {
        TextStop::Syntax {
            offset: first_offset(self.rest, self.end),
        }
    }

    /// Whether this sign is next.
    pub fn sees(&self, sign: Symbol) -> bool
        ensures { result ≡ signs.sees sign self.now }
    {
        match self.rest {
            [] => false,
            [lexeme, ..] => is_sign(sign, &lexeme.token),
        }
    }

    /// Whether this sign is the second of the tokens that are left.
    pub fn sees_second(&self, sign: Symbol) -> bool
        ensures { result ≡ spec.sees_second sign self.now }
    {
        match self.rest {
            [] => false,
            [_, rest @ ..] => match rest {
                [] => false,
                [lexeme, ..] => is_sign(sign, &lexeme.token),
            },
        }
    }

    /// Whether a name is next.
    pub fn sees_name(&self) -> bool
        ensures { result ≡ spec.sees_name self.now }
    {
        match self.rest {
            [] => false,
            [lexeme, ..] => match &lexeme.token {
                Token::Name(_) => true,
                _ => false,
            },
        }
    }

    /// Whether some token is left.
    pub fn some_left(&self) -> bool
        ensures { result ≡ specification.some_left self.now }
    {
        match self.rest {
            [] => false,
            [_, ..] => true,
        }
    }

    /// Whether this word is next.
    pub fn sees_word(&self, word: &[u8]) -> bool
        ensures { result ≡ specification.sees_word word.now self.now }
    {
        match self.rest {
            [] => false,
            [lexeme, ..] => match &lexeme.token {
                Token::Name(text) => is_same(text.as_bytes(), word),
                _ => false,
            },
        }
    }

    /// Whether this word is next, and a name behind it.
    pub fn begins_list(&self, word: &[u8]) -> bool
        ensures { result ≡ specification.begins_list word.now self.now }
    {
        self.sees_word(word) && Cursor::new(tail(self.rest), self.end).sees_name()
    }

    /// Whether a `-` that begins at this offset is next.
    pub fn sees_minus(&self, at: usize) -> bool
        ensures { result ≡ specification.sees_minus at self.now }
    {
        match self.rest {
            [] => false,
            [lexeme, ..] => is_sign(Symbol::Infix(Infix::Subtract), &lexeme.token)
                && lexeme.start == at,
        }
    }

    /// Where the next token ends.
    pub fn stop(&self) -> usize
        ensures { result ≡ specification.stop_of self.now }
    {
        match self.rest {
            [] => 0,
            [lexeme, ..] => lexeme.stop,
        }
    }

    /// The tokens from `before` on that were read.
    pub fn read_of<'b>(&self, before: &'b [Lexeme]) -> &'b [Lexeme]
        ensures { result.now ≡ spec.front_of before.now self.now }
    {
        first(before, self.left())
    }

    /// The form of the statement that is next.
    pub fn statement_form(&self) -> StatementForm
        ensures { result ≡ lookahead.form_of self.now }
    {
        match self.rest {
            [] => StatementForm::None,
            [lexeme, ..] => match &lexeme.token {
                Token::Name(_) => {
                    if self.sees_second(Symbol::Open(Bracket::Round)) {
                        StatementForm::Call
                    } else {
                        StatementForm::Assign
                    }
                }
                Token::Symbol(symbol) => form_of_symbol(*symbol),
                _ => StatementForm::None,
            },
        }
    }

    /// Goes past the next token.
    pub fn skip(&mut self)
        ensures { self.new ≡ steps.skip self.old }
    {
        match self.rest {
            [] => {}
            [_, rest @ ..] => self.rest = rest,
        }
    }

    /// Goes past this sign if it is next, and tells whether it was.
    #[tactic(auto, unfolding(crate::specs::Reading::past))]
    pub fn eat(&mut self, sign: Symbol) -> bool
        ensures found { result ≡ signs.sees sign self.old }
        ensures after { self.new ≡ spec.past sign self.old }
    {
        let found = self.sees(sign);
        if found {
            self.skip();
        }
        found
    }

    /// Goes past this sign, which must be next.
    #[tactic(auto, unfolding(crate::specs::Reading::expect, crate::specs::Reading::past))]
    pub fn expect(&mut self, sign: Symbol) -> Result<(), TextStop>
        ensures { Reads (spec.expect sign self.old) result self.new }
    {
        if self.eat(sign) {
            Ok(())
        } else {
            Err(self.refuse())
        }
    }

    /// Goes past this sign, which must be next, and gives its place.
    #[tactic(auto, unfolding(crate::specs::Reading::mark))]
    pub fn mark(&mut self, sign: Symbol) -> Result<u32, TextStop>
        ensures { Reads (spec.mark sign self.old) result self.new }
    {
        match self.rest {
            [] => Err(self.refuse()),
            [lexeme, rest @ ..] => {
                if !is_sign(sign, &lexeme.token) {
                    return Err(self.refuse());
                }
                let place = place_of(lexeme.start)?;
                self.rest = rest;
                Ok(place)
            }
        }
    }

    /// Goes past this word, which must be next.
    #[tactic(auto, unfolding(crate::specs::ReadingSpec::expect_word))]
    pub fn expect_word(&mut self, word: &[u8]) -> Result<(), TextStop>
        ensures { Reads (specification.expect_word word.now self.old) result self.new }
    {
        if self.sees_word(word) {
            self.skip();
            Ok(())
        } else {
            Err(self.refuse())
        }
    }

    /// The place of the next token.
    pub fn place(&self) -> Result<u32, TextStop>
        ensures value { Makes (Some (spec.place self.now)) result }
        ensures far { IsFarIfNoMemory (spec.place self.now) result }
    {
        match self.rest {
            [] => Ok(0),
            [lexeme, ..] => place_of(lexeme.start),
        }
    }

    /// A name, which must be next, with its place.
    pub fn name(&mut self, alloc: Global) -> Result<PlacedName, TextStop>
        ensures { Reads (spec.name self.old) result self.new }
    {
        match self.rest {
            [] => Err(self.refuse()),
            [lexeme, rest @ ..] => match &lexeme.token {
                Token::Name(text) => {
                    let place = place_of(lexeme.start)?;
                    let name = text.copy(alloc)?;
                    self.rest = rest;
                    Ok(PlacedName { name, place })
                }
                _ => Err(self.refuse()),
            },
        }
    }

    /// A number, which must be next.
    pub fn number(&mut self) -> Result<u64, TextStop>
        ensures { Reads (spec.number self.old) result self.new }
    {
        match self.rest {
            [] => Err(self.refuse()),
            [lexeme, rest @ ..] => match &lexeme.token {
                Token::Number(number) => {
                    if *number < 0 {
                        return Err(self.refuse());
                    }
                    self.rest = rest;
                    Ok(*number as u64)
                }
                _ => Err(self.refuse()),
            },
        }
    }

    /// An expression no higher than the limit, as far as it goes.
    #[tactic(auto, unfolding(crate::specs::Reading::expression_within))]
    pub fn expression_within(&mut self, alloc: Global, limit: u32) -> Result<Sub, TextStop>
        ensures { Reads (spec.expression_within limit self.old) result self.new }
    {
        let mut inner = ExprCursor::new(self.rest, self.end);
        let read = reader::expr(alloc, &mut inner, limit, 0)?;
        self.rest = last(self.rest, inner.left());
        Ok(read.tree)
    }

    /// An expression, as far as it goes.
    pub fn expression(&mut self, alloc: Global) -> Result<Sub, TextStop>
        ensures { Reads (spec.expression self.old) result self.new }
    {
        self.expression_within(alloc, MOST_HEIGHT)
    }

    /// What stands at the right of a `\in`: an expression, or `Nat`, `Int` or `STRING` alone.
    #[tactic(auto, unfolding(crate::specs::Reading::range))]
    pub fn range(&mut self, alloc: Global) -> Result<Sub, TextStop>
        ensures { Reads (spec.range self.old) result self.new }
    {
        let mut inner = ExprCursor::new(self.rest, self.end);
        let read = reader::range(alloc, &mut inner, MOST_HEIGHT)?;
        self.rest = last(self.rest, inner.left());
        Ok(read.tree)
    }

    /// Goes past a `;`, which may be left out where the tokens from `before` on that were read end in a `}`.
    #[tactic(auto, unfolding(crate::specs::Reading::ended))]
    pub fn end(&mut self, before: &[Lexeme]) -> Result<(), TextStop>
        ensures { Passes (spec.ended before.now self.old) result self.new }
    {
        if self.sees(Symbol::Semicolon) {
            self.skip();
            return Ok(());
        }
        if closes(first(before, self.left())) {
            Ok(())
        } else {
            Err(self.refuse())
        }
    }
}
