// The tokens of a text, with the marks of its junction lists.
ghost use Rattle.std.specs.Prelude.{◌≡◌, ℕ, List, IfErr, IfOk, length};
ghost use Rattle.pgo_lexer.specs.declared.token.Lexeme.{Lexeme};
ghost use Rattle.pgo_lexer.specs.Answers.{Gives};
ghost use Rattle.pgo_lexer.specs.Offsets.{IsWithin};
ghost use Rattle.pgo_lexer.specs.Marking as spec;
ghost use Rattle.pgo_lexer.specs.Lexemes.{Lexes};
ghost use Rattle.pgo_lexer.specs.Layout.{Marks};
ghost use Rattle.pgo_lexer.specs.Tokenized.{Tokenized, IsOrNoMemory, Spans};

use crate::errors::TextStop;
pub use crate::lexer::add;
use crate::lexer::lexed;
pub use crate::marker::marked;
use crate::token::Tokens;
use std::alloc::Global;

/// The tokens of a text, as the function on lists gives them.
fn read(alloc: Global, text: &[u8], limit: u32) -> Result<Tokens, TextStop>
    ensures value { Gives (spec.tokens limit text.now) result }
    ensures within { IfErr result (IsWithin (length text.now)) }
{
    let unmarked = lexed(alloc, text, limit)?;
    marked(alloc, unmarked, text.len())
}

/// The tokens of a text in order, each with its column and its span, and the marks of its junction lists among them
/// ("Specifying Systems" on the layout of conjunctions and disjunctions; the rules in full are this project's choice).
///
/// At most `limit` tokens are taken, marks not counted. `Syntax` comes exactly where the text has no tokens within that
/// limit: some bytes begin no token, a number is too large, an identifier too long, a string or a comment has no end, or a
/// bracket isn't closed where it must be. A text of more than 2^60 bytes, which no memory holds, is answered `NoMemory`.
pub fn tokens(alloc: Global, text: &[u8], limit: u32) -> Result<Tokens, TextStop>
    ensures found { IfOk result (λ ts. Tokenized limit text.now ts) }
    // What the text has is answered, unless memory runs out. So `Syntax` comes only where the text has no tokens.
    ensures only { (ts : List Lexeme) → Tokenized limit text.now ts → IsOrNoMemory result ts }
    ensures within { IfErr result (IsWithin (length text.now)) }
{
    read(alloc, text, limit)
}

/// A text has at most one list of tokens, and they have at most one list of marks. The spans of a text's tokens are in
/// order and within it.
pub fn one_list_of_tokens()
    ensures one { (limit : ℕ) (text : List ℕ) (a b : List Lexeme) → Tokenized limit text a → Tokenized limit text b → a ≡ b }
    ensures one_lexed { (column offset : ℕ) (text : List ℕ) (a b : List Lexeme) → Lexes column offset text a → Lexes column offset text b → a ≡ b }
    ensures one_marked { (unmarked a b : List Lexeme) → Marks unmarked a → Marks unmarked b → a ≡ b }
    ensures spans { (column offset : ℕ) (text : List ℕ) (tokens : List Lexeme) → Lexes column offset text tokens → Spans offset text tokens }
{}
