// Tokens, and the marks of junction lists among them.
ghost use Rattle.std.specs.Prelude.{◌≡◌, [], ◌∷◌, ◌++◌, length, IfOk};
ghost use Rattle.pgo_lexer.specs.Offsets as spec;

use crate::symbol::{Junction, Symbol};
use pgo_base::text::Text;
use std::alloc::{AllocError, Global};
use std::marker::Model;

/// One token of a text, or a mark that begins, parts or ends the items of a junction list.
#[derive(Drop)]
pub enum Token {
    /// An identifier of at most 512 bytes.
    Name(Text),
    /// A number, 0 or more.
    Number(i64),
    /// A string, without its quotes and with its escapes undone.
    Text(Text),
    Symbol(Symbol),
    /// Stands in the place of a list's first bullet.
    ListOpen(Junction),
    /// Stands in the place of each further bullet of a list.
    ListNext,
    /// Stands behind a list's last item.
    ListClose,
}

/// A token with its place in the text.
#[derive(Drop)]
pub struct Lexeme {
    pub token: Token,
    /// The column of its first byte, from 0.
    pub column: usize,
    /// The offset of its first byte, from 0.
    pub start: usize,
    /// The offset behind its last byte.
    pub stop: usize,
}

/// Tokens in order.
#[derive(Drop)]
pub struct Tokens {
    list: Vec<Lexeme>,
}

impl Model for Tokens {
    ghost use Rattle.std.specs.Prelude.{List};
    ghost use Rattle.pgo_lexer.specs.declared.token.Lexeme.{Lexeme};

    ghost Value = { List Lexeme };

    ghost view = { λ t. t.list.items };
}

impl Tokens {
    /// No token.
    pub fn new(alloc: Global) -> Tokens
        ensures { result ≡ [] }
    {
        Tokens {
            list: Vec::new(alloc),
        }
    }

    /// How many tokens and marks there are.
    pub fn len(&self) -> usize
        ensures { result ≡ length self.now }
    {
        self.list.len()
    }

    /// One more token behind the others.
    pub fn push(&mut self, lexeme: Lexeme) -> Result<(), AllocError>
        ensures { IfOk result (λ _. self.new ≡ self.old ++ lexeme ∷ []) }
    {
        self.list.push(lexeme)?;
        Ok(())
    }

    /// The tokens themselves.
    pub fn into_vec(self) -> Vec<Lexeme>
        ensures { result.items ≡ self }
    {
        self.list
    }

    /// Each token in order.
    pub fn as_slice(&self) -> &[Lexeme]
        ensures { result.now ≡ self.now }
    {
        self.list.as_slice()
    }
}

/// The offset of the first of these tokens that has a place, or the end. Marks of lists have none.
pub fn first_offset(lexemes: &[Lexeme], end: u64) -> u64
    ensures { result ≡ spec.first_offset lexemes.now end }
{
    for lexeme in lexemes {
        if lexeme.start < lexeme.stop {
            return lexeme.start as u64;
        }
    }
    end
}
