// What the next tokens say of a statement's form.
ghost use Rattle.std.specs.Prelude.{◌≡◌};
ghost use Rattle.pgo_mpcal_read.specs.Lookahead as spec;

use pgo_lexer::symbol::{Bracket, Keyword, Symbol};

/// The form of a statement by its first tokens.
#[derive(Clone, Copy)]
pub enum StatementForm {
    Assign,
    Call,
    Block,
    /// The form of this word.
    Keyword(Keyword),
    None,
}

/// The form of a statement that begins with this symbol.
pub fn form_of_symbol(symbol: Symbol) -> StatementForm
    ensures { result ≡ spec.form_of_symbol symbol }
{
    match symbol {
        Symbol::Variable => StatementForm::Assign,
        Symbol::Open(Bracket::Curly) => StatementForm::Block,
        Symbol::Keyword(keyword) => StatementForm::Keyword(keyword),
        _ => StatementForm::None,
    }
}
