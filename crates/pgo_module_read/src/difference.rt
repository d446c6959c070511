// Where the tokens of an expression differ from those that it must have.
use crate::rows::expression;
use crate::same::{same_tree, text_of};
use pgo_base::expr::{Infix, Sub};
use pgo_expr_read::stops::within;
use pgo_lexer::errors::TextStop;
use pgo_lexer::symbol::{Bracket, Junction, Symbol};
use pgo_lexer::token::{Lexeme, Token, Tokens};
use pgo_lexer::tokenizer::tokens;
use pgo_mpcal_read::cursor::Cursor;
use std::alloc::{AllocError, Global};

/// How far tokens are those of another list.
#[derive(Clone, Copy)]
enum Agreement {
    /// The one at this offset isn't.
    Differs(usize),
    /// All are, and the other list goes on.
    Ends,
    Whole,
}

/// The brackets and the junction lists that are open.
#[derive(Drop)]
struct Level {
    brackets: usize,
    lists: Vec<Junction>,
}

fn is_round(token: &Token) -> bool {
    match token {
        Token::Symbol(Symbol::Open(Bracket::Round)) => true,
        Token::Symbol(Symbol::Close(Bracket::Round)) => true,
        _ => false,
    }
}

fn is_quantifier(token: &Token) -> bool {
    match token {
        Token::Symbol(Symbol::Quantifier(_)) => true,
        _ => false,
    }
}

fn is_name(x: &[u8], token: &Token) -> bool {
    match token {
        Token::Name(y) => y.as_bytes() == x,
        _ => false,
    }
}

fn is_number(n: i64, token: &Token) -> bool {
    match token {
        Token::Number(m) => *m == n,
        _ => false,
    }
}

fn is_text(x: &[u8], token: &Token) -> bool {
    match token {
        Token::Text(y) => y.as_bytes() == x,
        _ => false,
    }
}

fn is_symbol(symbol: Symbol, token: &Token) -> bool {
    match token {
        Token::Symbol(other) => *other == symbol,
        _ => false,
    }
}

/// The operator that parts the items of a junction list.
fn operator(junction: Junction) -> Infix {
    match junction {
        Junction::And => Infix::And,
        Junction::Or => Infix::Or,
    }
}

impl Level {
    /// Goes past a token, and says whether it is a parenthesis or begins or ends a junction list.
    fn groups(&mut self, token: &Token) -> Result<bool, AllocError> {
        match token {
            Token::ListOpen(junction) => {
                self.lists.push(*junction)?;
                return Ok(true);
            }
            Token::ListClose => {
                self.lists.pop();
                return Ok(true);
            }
            Token::Symbol(Symbol::Open(_)) => self.brackets = self.brackets.saturating_add(1),
            Token::Symbol(Symbol::Close(_)) => self.brackets = self.brackets.saturating_sub(1),
            _ => {}
        }
        Ok(is_round(token))
    }

    /// Whether a token is the operator of the innermost list.
    fn is_bullet(&self, wanted: &Token) -> bool {
        match self.lists.last() {
            None => false,
            Some(junction) => is_symbol(Symbol::Infix(operator(*junction)), wanted),
        }
    }

    /// Whether a token can stand where another must. Nothing ends the scope of a quantifier that nothing encloses.
    fn is_same(&self, wanted: &Token, given: &Token) -> bool {
        if is_quantifier(given) && self.brackets == 0 && self.lists.len() == 0 {
            return false;
        }
        match given {
            Token::Name(x) => is_name(x.as_bytes(), wanted),
            Token::Number(n) => is_number(*n, wanted),
            Token::Text(x) => is_text(x.as_bytes(), wanted),
            Token::Symbol(symbol) => is_symbol(*symbol, wanted),
            Token::ListNext => self.is_bullet(wanted),
            _ => false,
        }
    }
}

/// The tokens of an expression's canonical text, without parentheses.
fn plain_tokens(alloc: Global, e: &Sub) -> Result<Tokens, TextStop> {
    let text = text_of(alloc, e.get())?;
    let all = tokens(alloc, text.as_bytes(), u32::MAX)?;
    let mut list = Tokens::new(alloc);
    for lexeme in all.into_vec() {
        if !is_round(&lexeme.token) {
            list.push(lexeme)?;
        }
    }
    Ok(list)
}

/// What is wanted behind a token, if it can stand where the first must.
fn behind<'a>(level: &Level, wanted: &'a [Lexeme], given: &Token) -> Option<&'a [Lexeme]> {
    match wanted {
        [] => None,
        [next, rest @ ..] => {
            if level.is_same(&next.token, given) {
                Some(rest)
            } else {
                None
            }
        }
    }
}

/// How far these tokens are the wanted ones, whatever groups them.
fn follow(alloc: Global, wanted: &[Lexeme], given: &[Lexeme]) -> Result<Agreement, AllocError> {
    let mut level = Level {
        brackets: 0,
        lists: Vec::new(alloc),
    };
    let mut rest = wanted;
    for lexeme in given {
        if !level.groups(&lexeme.token)? {
            match behind(&level, rest, &lexeme.token) {
                Some(left) => rest = left,
                None => return Ok(Agreement::Differs(lexeme.start)),
            }
        }
    }
    if rest.len() == 0 {
        Ok(Agreement::Whole)
    } else {
        Ok(Agreement::Ends)
    }
}

/// The refusal of tokens that aren't those of the wanted expression. What is behind them is refused at `behind`; where they differ
/// by what groups them alone, they are refused at `whole`.
fn refusal(
    alloc: Global,
    wanted: &Sub,
    given: &[Lexeme],
    behind: TextStop,
    whole: TextStop,
) -> Result<TextStop, TextStop> {
    let wanted = plain_tokens(alloc, wanted)?;
    match follow(alloc, wanted.as_slice(), given)? {
        Agreement::Differs(at) => Ok(within(behind, at)),
        Agreement::Ends => Ok(behind),
        Agreement::Whole => Ok(whole),
    }
}

/// The expression that must stand next.
pub fn expect_tree(alloc: Global, cursor: &mut Cursor<'_>, wanted: &Sub) -> Result<(), TextStop> {
    let given = cursor.rest();
    let first = cursor.refuse();
    match expression(alloc, cursor) {
        Ok(body) => {
            if same_tree(alloc, &body, wanted)? {
                return Ok(());
            }
            let behind = cursor.refuse();
            Err(refusal(alloc, wanted, cursor.read_of(given), behind, first)?)
        }
        Err(TextStop::NoMemory) => Err(TextStop::NoMemory),
        Err(stop) => Err(refusal(alloc, wanted, given, stop, stop)?),
    }
}
