// A cursor over tokens.
ghost use Rattle.std.specs.Prelude.{◌≡◌, length};
ghost use Rattle.pgo_expr_read.specs.Lookahead as look;
ghost use Rattle.pgo_expr_read.specs.Lookahead.{tokens_of};
ghost use Rattle.pgo_expr_read.specs.Reading as spec;
ghost use Rattle.pgo_expr_read.specs.Reading.{Reads};

use crate::lookahead::{
    Next, Opener, PrimaryForm, Square, form_of_second, is_name, next_of_symbol, primary_of_symbol,
    sees,
};
use pgo_base::expr::{Infix, Word};
use pgo_base::text::Text;
use pgo_lexer::errors::TextStop;
use pgo_lexer::symbol::{Bracket, Symbol};
use pgo_lexer::token::{Lexeme, Token, first_offset};
use std::alloc::Global;
use std::marker::Model;

/// The tokens that are left to read.
#[derive(Drop)]
pub struct Cursor<'a> {
    rest: &'a [Lexeme],
    /// The length of the text, which is the offset of what comes behind the last token.
    end: u64,
}

impl<'a> Model for Cursor<'a> {
    ghost use Rattle.std.specs.Prelude.{List};
    ghost use Rattle.pgo_lexer.specs.declared.token.Token.{Token};
    ghost use Rattle.pgo_expr_read.specs.Lookahead.{tokens_of};

    ghost Value = { List Token };

    ghost view = { λ c. tokens_of c.rest.now };
}

impl<'a> Cursor<'a> {
    /// A cursor at the first of these tokens of a text of this length.
    pub fn new(rest: &'a [Lexeme], end: u64) -> Cursor<'a>
        ensures { result ≡ tokens_of rest.now }
    {
        Cursor { rest, end }
    }

    /// How many tokens are left.
    #[tactic(auto, using(crate::proofs::Lengths::tokens_length))]
    pub fn left(&self) -> usize
        ensures { result ≡ length self.now }
    {
        self.rest.len()
    }

    /// The error that the next token has no place here.
    pub fn refuse(&self) -> TextStop
        ensures { spec.IsSyntax result }
    {
        TextStop::Syntax {
            offset: first_offset(self.rest, self.end),
        }
    }

    /// How the tokens go on behind an operand.
    pub fn after(&self) -> Next
        ensures { result ≡ look.after self.now }
    {
        match self.rest {
            [] => Next::End,
            [lexeme, ..] => match &lexeme.token {
                Token::Symbol(symbol) => next_of_symbol(*symbol),
                _ => Next::End,
            },
        }
    }

    /// How the tokens begin an expression.
    pub fn begin(&self) -> PrimaryForm
        ensures { result ≡ look.begin self.now }
    {
        match self.rest {
            [] => PrimaryForm::None,
            [lexeme, ..] => match &lexeme.token {
                Token::Name(_) => PrimaryForm::Name,
                Token::Number(number) => PrimaryForm::Number(*number),
                Token::Text(_) => PrimaryForm::Text,
                Token::Symbol(symbol) => primary_of_symbol(*symbol),
                _ => PrimaryForm::None,
            },
        }
    }

    /// Whether a parenthesis or a junction list begins.
    pub fn opens(&self) -> Option<Opener>
        ensures { result ≡ look.opens self.now }
    {
        match self.rest {
            [] => None,
            [lexeme, ..] => match &lexeme.token {
                Token::Symbol(Symbol::Open(Bracket::Round)) => Some(Opener::Round),
                Token::ListOpen(op) => Some(Opener::List(*op)),
                _ => None,
            },
        }
    }

    /// What stands in a `[`.
    pub fn form_of_square(&self) -> Square
        ensures { result ≡ look.form_of_square self.now }
    {
        match self.rest {
            [] => Square::Other,
            [first, behind @ ..] => {
                if is_name(&first.token) {
                    form_of_second(behind)
                } else {
                    Square::Other
                }
            }
        }
    }

    /// Whether the first two tokens are a name and `\in`.
    pub fn begins_binder(&self) -> bool
        ensures { result ≡ look.begins_binder self.now }
    {
        match self.rest {
            [] => false,
            [first, behind @ ..] => is_name(&first.token) && sees(behind, Symbol::Infix(Infix::In)),
        }
    }

    /// `Nat`, `Int` or `STRING`, where one of them is next.
    pub fn endless(&self) -> Option<Word>
        ensures { result ≡ look.endless self.now }
    {
        match self.rest {
            [] => None,
            [lexeme, ..] => match &lexeme.token {
                Token::Symbol(Symbol::Word(Word::Nat)) => Some(Word::Nat),
                Token::Symbol(Symbol::Word(Word::Int)) => Some(Word::Int),
                Token::Symbol(Symbol::Word(Word::StringSet)) => Some(Word::StringSet),
                _ => None,
            },
        }
    }

    /// Whether this sign is next.
    pub fn sees(&self, sign: Symbol) -> bool
        ensures { result ≡ look.sees sign self.now }
    {
        sees(self.rest, sign)
    }

    /// Whether the mark between the items of a junction list is next.
    pub fn sees_list_next(&self) -> bool
        ensures { result ≡ look.sees_list_next self.now }
    {
        match self.rest {
            [] => false,
            [lexeme, ..] => match &lexeme.token {
                Token::ListNext => true,
                _ => false,
            },
        }
    }

    /// Whether a name is next.
    pub fn sees_name(&self) -> bool
        ensures { result ≡ look.sees_name self.now }
    {
        match self.rest {
            [] => false,
            [lexeme, ..] => is_name(&lexeme.token),
        }
    }

    /// Whether a guarded arm of a CASE is next.
    pub fn sees_arm(&self) -> bool
        ensures { result ≡ look.sees_arm self.now }
    {
        match self.rest {
            [] => false,
            [_, behind @ ..] => self.sees(Symbol::Box) && !sees(behind, Symbol::Other),
        }
    }

    /// Goes past the next token.
    pub fn skip(&mut self)
        ensures { self.new ≡ spec.skip self.old }
    {
        match self.rest {
            [] => {}
            [_, rest @ ..] => self.rest = rest,
        }
    }

    /// Goes past this sign if it is next, and tells whether it was.
    #[tactic(auto, unfolding(crate::specs::Reading::past))]
    pub fn eat(&mut self, sign: Symbol) -> bool
        ensures found { result ≡ look.sees sign self.old }
        ensures after { self.new ≡ spec.past sign self.old }
    {
        let found = self.sees(sign);
        if found {
            self.skip();
        }
        found
    }

    /// Goes past this sign, which must be next.
    #[tactic(auto, unfolding(crate::specs::Reading::expect, crate::specs::Reading::past))]
    pub fn expect(&mut self, sign: Symbol) -> Result<(), TextStop>
        ensures { Reads (spec.expect sign self.old) result self.new }
    {
        if self.eat(sign) {
            Ok(())
        } else {
            Err(self.refuse())
        }
    }

    /// Goes past the mark between two items of a junction list, which must be next.
    pub fn list_next(&mut self) -> Result<(), TextStop>
        ensures { Reads (spec.list_next self.old) result self.new }
    {
        match self.rest {
            [] => Err(self.refuse()),
            [lexeme, rest @ ..] => match &lexeme.token {
                Token::ListNext => {
                    self.rest = rest;
                    Ok(())
                }
                _ => Err(self.refuse()),
            },
        }
    }

    /// Goes past the mark behind the last item of a junction list, which must be next.
    pub fn list_close(&mut self) -> Result<(), TextStop>
        ensures { Reads (spec.list_close self.old) result self.new }
    {
        match self.rest {
            [] => Err(self.refuse()),
            [lexeme, rest @ ..] => match &lexeme.token {
                Token::ListClose => {
                    self.rest = rest;
                    Ok(())
                }
                _ => Err(self.refuse()),
            },
        }
    }

    /// A name, which must be next.
    pub fn name(&mut self, alloc: Global) -> Result<Text, TextStop>
        ensures { Reads (spec.name self.old) result self.new }
    {
        match self.rest {
            [] => Err(self.refuse()),
            [lexeme, rest @ ..] => match &lexeme.token {
                Token::Name(text) => {
                    self.rest = rest;
                    Ok(text.copy(alloc)?)
                }
                _ => Err(self.refuse()),
            },
        }
    }

    /// A string, which must be next.
    pub fn text(&mut self, alloc: Global) -> Result<Text, TextStop>
        ensures { Reads (spec.text self.old) result self.new }
    {
        match self.rest {
            [] => Err(self.refuse()),
            [lexeme, rest @ ..] => match &lexeme.token {
                Token::Text(text) => {
                    self.rest = rest;
                    Ok(text.copy(alloc)?)
                }
                _ => Err(self.refuse()),
            },
        }
    }
}
