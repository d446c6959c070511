// What the next tokens say of what may come.
ghost use Rattle.std.specs.Prelude.{◌≡◌};
ghost use Rattle.pgo_expr_read.specs.Lookahead as spec;

use crate::sign::is_sign;
use crate::table::Operator;
use pgo_base::expr::{Infix, Prefix, Quantifier, Word};
use pgo_lexer::symbol::{Bracket, Junction, Symbol};
use pgo_lexer::token::{Lexeme, Token};

/// How an expression may begin.
#[derive(Clone, Copy)]
pub enum PrimaryForm {
    Name,
    Number(i64),
    Text,
    Truth(bool),
    At,
    Boolean,
    Prefix(Prefix),
    Tuple,
    Set,
    Square,
    Quantifier(Quantifier),
    Choose,
    If,
    Case,
    Let,
    Unchanged,
    /// `$variable`.
    Variable,
    /// `$value`.
    Value,
    None,
}

/// What opens an expression that makes no node of its own.
#[derive(Clone, Copy)]
pub enum Opener {
    Round,
    List(Junction),
}

/// How an expression may go on behind an operand.
#[derive(Clone, Copy)]
pub enum Next {
    Operator(Operator),
    Index,
    Field,
    /// Another arm of a CASE.
    Arm,
    /// `(` or `'`, which stand behind a name only.
    Tight,
    End,
}

/// What the first two tokens behind a `[` say of its form.
#[derive(Clone, Copy)]
pub enum Square {
    Record,
    RecordSet,
    Function,
    Other,
}

/// How an expression goes on at this symbol, behind an operand.
pub fn next_of_symbol(symbol: Symbol) -> Next
    ensures { result ≡ spec.next_of_symbol symbol }
{
    match symbol {
        Symbol::Infix(op) => Next::Operator(Operator::Infix(op)),
        Symbol::Product => Next::Operator(Operator::Product),
        Symbol::Open(Bracket::Square) => Next::Index,
        Symbol::Open(Bracket::Round) => Next::Tight,
        Symbol::Dot => Next::Field,
        Symbol::Box => Next::Arm,
        Symbol::Prime => Next::Tight,
        _ => Next::End,
    }
}

/// How this symbol begins an expression.
pub fn primary_of_symbol(symbol: Symbol) -> PrimaryForm
    ensures { result ≡ spec.primary_of_symbol symbol }
{
    match symbol {
        Symbol::Truth(truth) => PrimaryForm::Truth(truth),
        Symbol::At => PrimaryForm::At,
        Symbol::Word(Word::BooleanSet) => PrimaryForm::Boolean,
        Symbol::Infix(Infix::Subtract) => PrimaryForm::Prefix(Prefix::Minus),
        // `-` is an infix symbol.
        Symbol::Prefix(Prefix::Minus) => PrimaryForm::None,
        Symbol::Prefix(op) => PrimaryForm::Prefix(op),
        Symbol::Open(Bracket::Angle) => PrimaryForm::Tuple,
        Symbol::Open(Bracket::Curly) => PrimaryForm::Set,
        Symbol::Open(Bracket::Square) => PrimaryForm::Square,
        Symbol::Quantifier(quantifier) => PrimaryForm::Quantifier(quantifier),
        Symbol::Choose => PrimaryForm::Choose,
        Symbol::If => PrimaryForm::If,
        Symbol::Case => PrimaryForm::Case,
        Symbol::Let => PrimaryForm::Let,
        Symbol::Unchanged => PrimaryForm::Unchanged,
        Symbol::Variable => PrimaryForm::Variable,
        Symbol::Value => PrimaryForm::Value,
        _ => PrimaryForm::None,
    }
}

/// Whether it is a name.
pub fn is_name(token: &Token) -> bool
    ensures { result ≡ spec.is_name token.now }
{
    match token {
        Token::Name(_) => true,
        _ => false,
    }
}

/// What the token behind a first name says of the form.
pub fn form_of_second(rest: &[Lexeme]) -> Square
    ensures { result ≡ spec.form_of_second (spec.tokens_of rest.now) }
{
    match rest {
        [] => Square::Other,
        [second, ..] => match &second.token {
            Token::Symbol(Symbol::MapsTo) => Square::Record,
            Token::Symbol(Symbol::Colon) => Square::RecordSet,
            Token::Symbol(Symbol::Comma) => Square::Function,
            Token::Symbol(Symbol::Infix(Infix::In)) => Square::Function,
            _ => Square::Other,
        },
    }
}

/// Whether this sign is next.
pub fn sees(rest: &[Lexeme], sign: Symbol) -> bool
    ensures { result ≡ spec.sees sign (spec.tokens_of rest.now) }
{
    match rest {
        [] => false,
        [lexeme, ..] => is_sign(sign, &lexeme.token),
    }
}
