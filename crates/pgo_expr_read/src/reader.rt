// The reader of expressions.
ghost use Rattle.std.specs.Prelude.{◌≡◌, ◌≤◌, ◌++◌, ℕ, List, Some, IfOk, IfErr, length, not};
ghost use Rattle.pgo_base.specs.ExprView.{tree};
ghost use Rattle.pgo_base.specs.Tree.{Tree};
ghost use Rattle.pgo_lexer.specs.declared.token.Token.{Token};
ghost use Rattle.pgo_expr_read.specs.declared.table.Form.{Form};
ghost use Rattle.pgo_expr_read.specs.declared.lookahead.Next.TheVariants as next;
ghost use Rattle.pgo_expr_read.specs.declared.read.Ending.{Ending};
ghost use Rattle.pgo_expr_read.specs.declared.read.Read.{Read};
ghost use Rattle.pgo_expr_read.specs.Fronts.{IsFront, IsRange, Ended};
ghost use Rattle.pgo_expr_read.specs.Heights.{height};
ghost use Rattle.pgo_expr_read.specs.Lookahead as look;
ghost use Rattle.pgo_expr_read.specs.Lookahead.{tokens_of};
ghost use Rattle.pgo_expr_read.specs.Reading as spec;
ghost use Rattle.pgo_expr_read.specs.Reading.{Reads, MakesAs, made};
ghost use Rattle.pgo_expr_read.specs.Spells.{Spelled, Range};
ghost use Rattle.pgo_expr_read.specs.Stops.{IsAsSevere, IsKeptIf, IsWithin};
ghost use Rattle.pgo_expr_read.specs.Texts.{SpellsText, IsOrNoMemory, most_tokens};
ghost use Rattle.pgo_lexer.specs.declared.token.Lexeme.{Lexeme};
ghost use Rattle.pgo_lexer.specs.Tokenized as lexer;
ghost use Rattle.pgo_lexer.specs.Tokenized.{Tokenized};

use crate::cursor::Cursor;
use crate::grammar::Grammar;
use crate::read::Read;
use crate::sign::is_mapped;
use crate::stops::within;
use pgo_base::expr::{Expr, Sub};
use pgo_lexer::before::{Before, tokens_before};
use pgo_lexer::errors::TextStop;
use pgo_lexer::token::{Lexeme, Tokens};
use pgo_lexer::tokenizer::{one_list_of_tokens, tokens};
use std::alloc::Global;

/// The most tokens of a text.
const MOST_TOKENS: u32 = 4294967295;

/// An expression of a form at this level or above, and no higher than the limit; the levels are those of `table`, 0 for any.
/// `$variable` and `$value` are operands: they stand for the names of these bytes.
pub fn expr(
    alloc: Global,
    cursor: &mut Cursor<'_>,
    limit: u32,
    least: u8,
) -> Result<Read<Sub>, TextStop>
    ensures { Reads (spec.expr limit least cursor.old) result cursor.new }
{
    if limit == 0 {
        return Err(cursor.refuse());
    }
    Grammar {
        alloc,
        limit,
        below: limit - 1,
        expr,
    }
    .level(cursor, least)
}

/// A set that names are bound over: an expression no higher than the limit, or `Nat`, `Int` or `STRING` alone.
pub fn range(alloc: Global, cursor: &mut Cursor<'_>, limit: u32) -> Result<Read<Sub>, TextStop>
    ensures { Reads (spec.range limit (spec.expr limit) 0 cursor.old) result cursor.new }
{
    Grammar {
        alloc,
        limit,
        below: limit,
        expr,
    }
    .range(cursor, 0)
}

/// The expression that all of the tokens spell.
#[tactic(auto, unfolding(crate::specs::Reading::all))]
fn all(alloc: Global, tokens: &[Lexeme], end: u64, limit: u32) -> Result<Expr, TextStop>
    ensures { MakesAs tree (spec.all limit (tokens_of tokens.now)) result }
{
    let mut cursor = Cursor::new(tokens, end);
    let read = expr(alloc, &mut cursor, limit, 0)?;
    if cursor.left() == 0 {
        Ok(read.tree.into_expr())
    } else {
        Err(cursor.refuse())
    }
}

/// Whether `$variable` or `$value` is among these tokens.
fn has_mapped(tokens: &[Lexeme]) -> bool
    ensures { result ≡ look.has_mapped (tokens_of tokens.now) }
{
    for lexeme in tokens {
        if is_mapped(&lexeme.token) {
            return true;
        }
    }
    false
}

/// The offset of the first of them, or the end of the text.
fn mapped_offset(tokens: &[Lexeme], end: u64) -> u64 {
    for lexeme in tokens {
        if is_mapped(&lexeme.token) {
            return lexeme.start as u64;
        }
    }
    end
}

/// The same error, at this offset if that comes first.
fn at_first(stop: TextStop, offset: u64) -> TextStop
    ensures { IsAsSevere stop result }
{
    match stop {
        TextStop::Syntax { offset: other } => TextStop::Syntax {
            offset: offset.min(other),
        },
        TextStop::NoMemory => TextStop::NoMemory,
    }
}

/// What was read of a text of its own, in which no `$variable` and no `$value` stands.
fn only_plain(read: Result<Expr, TextStop>, tokens: &[Lexeme], end: u64) -> Result<Expr, TextStop>
    ensures { IsKeptIf read (not (look.has_mapped (tokens_of tokens.now))) result }
{
    if !has_mapped(tokens) {
        return read;
    }
    let offset = mapped_offset(tokens, end);
    match read {
        Ok(_) => Err(TextStop::Syntax { offset }),
        Err(stop) => Err(at_first(stop, offset)),
    }
}

/// The expression that all of the tokens of a text of its own spell.
#[tactic(auto, using(crate::proofs::Plain::plain_makes))]
fn all_plain(alloc: Global, tokens: &[Lexeme], end: u64, limit: u32) -> Result<Expr, TextStop>
    ensures { MakesAs tree (spec.all_plain limit (tokens_of tokens.now)) result }
{
    let read = all(alloc, tokens, end, limit);
    only_plain(read, tokens, end)
}

/// The first fault of a text that has one among its tokens at an offset: a token before it that can't stand at its place, or
/// this one.
fn first_fault(alloc: Global, text: &[u8], offset: u64, limit: u32) -> TextStop {
    match tokens_before(alloc, text, offset as usize) {
        Ok(Before { tokens, fault }) => {
            let end = fault as u64;
            match all_plain(alloc, tokens.as_slice(), end, limit) {
                Ok(_) => TextStop::at(fault),
                Err(stop) => at_first(stop, end),
            }
        }
        Err(_) => TextStop::NoMemory,
    }
}

/// The tokens of a text.
fn tokens_of_text(alloc: Global, text: &[u8], height: u32) -> Result<Tokens, TextStop>
    ensures found { IfOk result (λ ts. Tokenized most_tokens text.now ts) }
    ensures only { (ts : List Lexeme) → Tokenized most_tokens text.now ts → lexer.IsOrNoMemory result ts }
{
    match tokens(alloc, text, MOST_TOKENS) {
        Ok(marked) => Ok(marked),
        Err(TextStop::Syntax { offset }) => Err(first_fault(alloc, text, offset, height)),
        Err(TextStop::NoMemory) => Err(TextStop::NoMemory),
    }
}

/// The expression that a text spells.
fn read_text(alloc: Global, text: &[u8], height: u32) -> Result<Expr, TextStop>
    ensures found { IfOk result (λ e. SpellsText height text.now (tree e)) }
    ensures only { (a : Tree) → SpellsText height text.now a → IsOrNoMemory result a }
{
    let marked = tokens_of_text(alloc, text, height)?;
    all_plain(alloc, marked.as_slice(), text.len() as u64, height)
}

/// The one expression that a text spells ("Specifying Systems" has the forms; the table of operators, what stands in which
/// place, and the limits are this project's choice).
///
/// `height` is the greatest height of an expression: a leaf has height 1, and every subexpression counts. Parentheses and
/// junction lists of one item make no height. `Syntax` comes exactly where the text spells no expression of at most this
/// height within 4294967295 tokens; its offset is that of the first token that can't stand at its place, or the text's
/// length. `$variable` and `$value` can't stand in it. The memory of the stack that is used is bounded by `height`.
pub fn read_expr(alloc: Global, text: &[u8], height: u32) -> Result<Expr, TextStop>
    ensures found { IfOk result (λ e. SpellsText height text.now (tree e)) }
    // What the text spells is answered, unless memory runs out. So `Syntax` comes only where it spells nothing.
    ensures only { (a : Tree) → SpellsText height text.now a → IsOrNoMemory result a }
    ensures within { IfErr result (IsWithin (length text.now)) }
{
    match read_text(alloc, text, height) {
        Ok(e) => Ok(e),
        Err(stop) => Err(within(stop, text.len())),
    }
}

/// A text spells at most one expression.
pub fn one_expr()
    ensures { (limit : ℕ) (text : List ℕ) (a b : Tree) → SpellsText limit text a → SpellsText limit text b → a ≡ b }
{
    one_list_of_tokens();
}

/// What `expr` reads is spelled by a front of the tokens, in which `$variable` and `$value` are operands; and it reads each expression that is followed by what ends it.
pub fn expr_is_exact()
    ensures front { (limit least : ℕ) (i : List Token) (r : Read Tree) (rest : List Token) → spec.expr limit least i ≡ Some (r, rest) → IsFront limit least i r rest }
    ensures whole { (f : Form) (o : Ending) (front : List Token) (a : Tree) → Spelled f o front a → (limit : ℕ) (rest : List Token) → height a ≤ limit → Ended o (look.after rest) → spec.expr limit 0 (front ++ rest) ≡ Some (made f o (height a) a, rest) }
{}

/// What `range` reads is spelled by a front of the tokens, and it reads each set that is followed by what ends it.
pub fn range_is_exact()
    ensures front { (limit : ℕ) (i : List Token) (r : Read Tree) (rest : List Token) → spec.range limit (spec.expr limit) 0 i ≡ Some (r, rest) → IsRange limit i r rest }
    ensures whole { (front : List Token) (a : Tree) → Range front a → (limit : ℕ) (rest : List Token) → height a ≤ limit → look.after rest ≡ next.End → (f : Form) × (o : Ending) × (spec.range limit (spec.expr limit) 0 (front ++ rest) ≡ Some (made f o (height a) a, rest)) }
{}
