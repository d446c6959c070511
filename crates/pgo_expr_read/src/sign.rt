// Whether a token is a sign or a reserved word.
ghost use Rattle.std.specs.Prelude.{◌≡◌};
ghost use Rattle.pgo_expr_read.specs.Lookahead as look;
ghost use Rattle.pgo_expr_read.specs.Signs as spec;

use pgo_lexer::symbol::Symbol;
use pgo_lexer::token::Token;

/// Whether a token is this sign.
pub fn is_sign(sign: Symbol, token: &Token) -> bool
    ensures { result ≡ spec.is_sign sign token.now }
{
    match token {
        Token::Symbol(symbol) => *symbol == sign,
        _ => false,
    }
}

/// Whether it is `$variable` or `$value`, which stand in a mapping macro alone.
pub fn is_mapped(token: &Token) -> bool
    ensures { result ≡ look.is_mapped token.now }
{
    match token {
        Token::Symbol(Symbol::Variable) | Token::Symbol(Symbol::Value) => true,
        _ => false,
    }
}
