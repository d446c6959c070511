// Which tokens may stand in a unit.
ghost use Rattle.std.specs.Prelude.{◌≡◌};
ghost use Rattle.pgo_expr_read.specs.Stops.{IsAsSevere, IsKeptIf};
ghost use Rattle.pgo_expr_read.specs.Steps.{IsSyntax, Reads};
ghost use Rattle.pgo_mpcal_read.specs.Reading.{Outcome};
ghost use Rattle.pgo_mpcal_read.specs.ReadingSpec as spec;
ghost use Rattle.pgo_mpcal_read.specs.Units as units;

use crate::cursor::Cursor;
use pgo_expr_read::sign::is_sign;
use pgo_lexer::errors::TextStop;
use pgo_lexer::symbol::{Keyword, Symbol};
use pgo_lexer::token::{Lexeme, Token};

/// Where tokens stand: `yield`, `$variable` and `$value` stand in mapping macros alone, and a macro has no `while` and no
/// `goto`.
#[derive(Clone, Copy)]
pub enum Context {
    Plain,
    Macro,
}

fn is_allowed(context: Context, token: &Token) -> bool
    ensures { result ≡ spec.is_allowed context token.now }
{
    let is_plain = !is_sign(Symbol::Keyword(Keyword::Yield), token)
        && !is_sign(Symbol::Variable, token)
        && !is_sign(Symbol::Value, token);
    match context {
        Context::Plain => is_plain,
        Context::Macro => {
            is_plain
                && !is_sign(Symbol::Keyword(Keyword::While), token)
                && !is_sign(Symbol::Keyword(Keyword::Goto), token)
        }
    }
}

/// Whether all of these tokens may stand there.
fn all_allowed(context: Context, tokens: &[Lexeme]) -> bool
    ensures { result ≡ units.all_are (spec.is_allowed context) tokens.now }
{
    for lexeme in tokens {
        if !is_allowed(context, &lexeme.token) {
            return false;
        }
    }
    true
}

/// The offset of the first of these tokens that may not stand there, or `end`.
fn first_refused(context: Context, tokens: &[Lexeme], end: u64) -> u64 {
    for lexeme in tokens {
        if lexeme.start as u64 >= end {
            return end;
        }
        if !is_allowed(context, &lexeme.token) {
            return lexeme.start as u64;
        }
    }
    end
}

/// The same error, with the offset of the first token before it that may not stand there.
fn refused(context: Context, tokens: &[Lexeme], stop: TextStop) -> TextStop
    ensures { IsAsSevere stop result }
{
    match stop {
        TextStop::Syntax { offset } => TextStop::Syntax {
            offset: first_refused(context, tokens, offset),
        },
        TextStop::NoMemory => TextStop::NoMemory,
    }
}

/// What was read of these tokens, where all of the front that was read may stand there. `behind` is the error that what
/// follows the front has no place.
pub fn if_allowed<T: Drop>(
    context: Context,
    tokens: &[Lexeme],
    front: &[Lexeme],
    behind: TextStop,
    read: Result<T, TextStop>,
) -> Result<T, TextStop>
    requires { IsSyntax behind }
    ensures { IsKeptIf read (units.all_are (spec.is_allowed context) front.now) result }
{
    match read {
        Ok(part) => {
            if all_allowed(context, front) {
                Ok(part)
            } else {
                Err(refused(context, front, behind))
            }
        }
        Err(stop) => Err(refused(context, tokens, stop)),
    }
}

/// What was read of the tokens from `before` on, where all that were read may stand there.
#[tactic(auto, using(crate::proofs::IfAllowed::if_allowed_reads))]
pub fn if_allowed_from<T: Drop>(
    context: Context,
    before: &[Lexeme],
    cursor: &Cursor<'_>,
    read: Result<T, TextStop>,
) -> Result<T, TextStop>
    ensures { (o : Outcome T) → Reads o read cursor.now → Reads (spec.if_allowed context before.now o) result cursor.now }
{
    let front = cursor.read_of(before);
    if_allowed(context, before, front, cursor.refuse(), read)
}
