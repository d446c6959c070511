// What tokens are to junction lists.
ghost use Rattle.std.specs.Prelude.{◌≡◌};
ghost use Rattle.pgo_lexer.specs.Kinds as spec;

use crate::symbol::{Bracket, Junction, Symbol};
use crate::token::Token;
use pgo_base::expr::Infix;

/// A bracket, `/\` or `\/`, `;`, or any other token.
#[derive(Clone, Copy)]
pub enum Kind {
    Open(Bracket),
    Close(Bracket),
    Junction(Junction),
    Separator,
    Plain,
}

/// What a token of some kind is at its place: an operator of a junction is a bullet or a plain token.
#[derive(Clone, Copy)]
pub enum Role {
    Open(Bracket),
    Close(Bracket),
    Bullet(Junction),
    Separator,
    Plain,
}

fn kind_of_symbol(symbol: Symbol) -> Kind
    ensures { result ≡ spec.kind_of_symbol symbol }
{
    match symbol {
        Symbol::Infix(Infix::And) => Kind::Junction(Junction::And),
        Symbol::Infix(Infix::Or) => Kind::Junction(Junction::Or),
        Symbol::Open(bracket) => Kind::Open(bracket),
        Symbol::Close(bracket) => Kind::Close(bracket),
        Symbol::Semicolon => Kind::Separator,
        _ => Kind::Plain,
    }
}

pub fn kind_of(token: &Token) -> Kind
    ensures { result ≡ spec.kind_of token.now }
{
    match token {
        Token::Symbol(symbol) => kind_of_symbol(*symbol),
        _ => Kind::Plain,
    }
}

/// What a token of this kind is behind one that ends an operand, or doesn't.
pub fn role_of(after_operand: bool, kind: Kind) -> Role
    ensures { result ≡ spec.role_of after_operand kind }
{
    match kind {
        Kind::Open(bracket) => Role::Open(bracket),
        Kind::Close(bracket) => Role::Close(bracket),
        Kind::Separator => Role::Separator,
        Kind::Plain => Role::Plain,
        Kind::Junction(op) => {
            if after_operand {
                Role::Plain
            } else {
                Role::Bullet(op)
            }
        }
    }
}

fn symbol_ends_operand(symbol: Symbol) -> bool
    ensures { result ≡ spec.symbol_ends_operand symbol }
{
    match symbol {
        Symbol::Truth(_)
        | Symbol::Word(_)
        | Symbol::Close(_)
        | Symbol::At
        | Symbol::Prime
        | Symbol::Variable
        | Symbol::Value => true,
        _ => false,
    }
}

/// Whether an operand may end with this token.
pub fn ends_operand(token: &Token) -> bool
    ensures { result ≡ spec.ends_operand token.now }
{
    match token {
        Token::Name(_) | Token::Number(_) | Token::Text(_) => true,
        Token::Symbol(symbol) => symbol_ends_operand(*symbol),
        _ => false,
    }
}

fn bracket_code(bracket: Bracket) -> u8
    ensures { result ≡ spec.bracket_code bracket }
{
    match bracket {
        Bracket::Round => 0,
        Bracket::Square => 1,
        Bracket::Curly => 2,
        Bracket::Angle => 3,
    }
}

pub fn is_same_bracket(a: Bracket, b: Bracket) -> bool
    ensures { result ≡ spec.is_same_bracket a b }
{
    bracket_code(a) == bracket_code(b)
}

/// Whether the kind is that of this operator.
pub fn is_junction(op: Junction, kind: Kind) -> bool
    ensures { result ≡ spec.is_junction op kind }
{
    match (op, kind) {
        (Junction::And, Kind::Junction(Junction::And)) => true,
        (Junction::Or, Kind::Junction(Junction::Or)) => true,
        _ => false,
    }
}
