// The tokens of a specification's text, with the marks of its junction lists.
ghost use Rattle.std.specs.Prelude.{◌≡◌, ◌≤◌, ◌+◌, ◌*◌, IfOk, IfErr, List, ℕ, length};
ghost use Rattle.pgo_lexer.specs.Answers.{Gives, IsSyntax};
ghost use Rattle.pgo_lexer.specs.Offsets.{IsWithin};
ghost use Rattle.pgo_lexer.specs.declared.token.Lexeme.{Lexeme};
ghost use Rattle.pgo_spec_text.specs.Cutting as spec;
ghost use Rattle.pgo_spec_text.specs.SpecText.{IsSpecText, IsOrNoMemory};

use crate::cut::{Head, algorithm, header};
use crate::search::{inside, module_from, row_from};
use pgo_base::slices::first;
use pgo_lexer::bytes::{columns_behind, skip};
use pgo_lexer::errors::TextStop;
use pgo_lexer::token::Tokens;
use pgo_lexer::tokenizer::marked;
use std::alloc::Global;

/// The most tokens of a specification: those of the header, those behind `--mpcal`, and the closing row as one.
pub const MOST_TOKENS: usize = 262_144;

/// The most bytes of a text whose columns can be counted; no memory holds as many.
pub const MOST_BYTES: usize = 1152921504606846976;

/// The tokens of a specification, each list with the marks of its junction lists.
#[derive(Drop)]
pub struct SpecTokens {
    /// The tokens from the dashes of the line of MODULE up to the comment with the algorithm.
    pub header: Tokens,
    /// The tokens behind `--mpcal`, from the algorithm's name to the `}` that matches its first `{`.
    pub algorithm: Tokens,
}

/// The column of the byte at an offset.
pub fn column_at(text: &[u8], at: usize) -> usize
    requires small { length text.now ≤ 1152921504606846976 }
    requires within { at ≤ length text.now }
    ensures value { result ≡ spec.column_at text.now at }
    ensures near { result ≤ 8 * at }
{
    columns_behind(0, first(text, at))
}

/// Where the body of the algorithm's comment begins, behind which these bytes stand.
pub fn body_start(text: &[u8], body: &[u8], behind: &[u8]) -> usize
    requires { length body.now + length behind.now + 2 ≤ length text.now }
    ensures value { result ≡ spec.body_start text.now (body.now, behind.now) }
    ensures within { result + length body.now ≤ length text.now }
{
    text.len().saturating_sub(body.len() + behind.len() + 2)
}

/// The tokens of the algorithm in the body of its comment, where so many tokens stand before and these bytes behind the
/// comment.
pub fn algorithm_in(
    alloc: Global,
    text: &[u8],
    used: usize,
    body: &[u8],
    behind: &[u8],
) -> Result<Tokens, TextStop>
    requires small { length text.now ≤ 1152921504606846976 }
    requires within { length body.now + length behind.now + 2 ≤ length text.now }
    ensures value { Gives (spec.algorithm_in text.now used (body.now, behind.now)) result }
    ensures within { IfErr result (IsWithin (length text.now)) }
{
    let start = body_start(text, body, behind);
    let column = column_at(text, start);
    algorithm(alloc, body, column, start, MOST_TOKENS.saturating_sub(used))
}

/// Both lists, where a closing row stands behind them, and there is room for it besides so many tokens of the algorithm.
#[tactic(auto, unfolding(crate::specs::Cutting::closed))]
fn closed(
    room: usize,
    count: usize,
    behind: &[u8],
    end: usize,
    header: Tokens,
    algorithm: Tokens,
) -> Result<SpecTokens, TextStop>
    ensures value { Gives (spec.closed room count behind.now header algorithm) result }
    ensures memory { IfErr result IsSyntax }
    ensures within { IfErr result (IsWithin end) }
{
    match row_from(behind) {
        None => Err(TextStop::at(end)),
        Some(row) => {
            if count < room {
                Ok(SpecTokens { header, algorithm })
            } else {
                Err(TextStop::at(end.saturating_sub(row.len())))
            }
        }
    }
}

/// Both lists, where so many tokens of the header stand before the comment with the algorithm, which is at an offset.
#[tactic(auto, unfolding(crate::specs::Cutting::with_comment))]
fn with_comment(
    alloc: Global,
    text: &[u8],
    used: usize,
    header: Tokens,
    at: usize,
) -> Result<SpecTokens, TextStop>
    requires small { length text.now ≤ 1152921504606846976 }
    requires within { at ≤ length text.now }
    ensures value { Gives (spec.with_comment text.now used header at) result }
    ensures within { IfErr result (IsWithin (length text.now)) }
{
    match inside(skip(text, at)) {
        None => Err(TextStop::at(at)),
        Some((body, behind)) => {
            let unmarked = algorithm_in(alloc, text, used, body, behind)?;
            let room = MOST_TOKENS.saturating_sub(used);
            let count = unmarked.len();
            let algorithm = marked(alloc, unmarked, text.len().saturating_sub(behind.len()))?;
            closed(room, count, behind, text.len(), header, algorithm)
        }
    }
}

/// Both lists, where the line of MODULE begins at an offset.
#[tactic(auto, unfolding(crate::specs::Cutting::from_module))]
fn from_module(alloc: Global, text: &[u8], start: usize) -> Result<SpecTokens, TextStop>
    requires small { length text.now ≤ 1152921504606846976 }
    requires within { start ≤ length text.now }
    ensures value { Gives (spec.from_module text.now start) result }
    ensures within { IfErr result (IsWithin (length text.now)) }
{
    let column = column_at(text, start);
    let Head { tokens, at } = header(alloc, text, column, start, MOST_TOKENS)?;
    let used = tokens.len();
    let header = marked(alloc, tokens, at)?;
    with_comment(alloc, text, used, header, at)
}

/// Both lists, as the function on lists gives them.
fn cut(alloc: Global, text: &[u8]) -> Result<SpecTokens, TextStop>
    ensures value { Gives (spec.cut text.now) result }
    ensures within { IfErr result (IsWithin (length text.now)) }
{
    if text.len() > MOST_BYTES {
        return Err(TextStop::NoMemory);
    }
    match module_from(text) {
        None => Err(TextStop::at(text.len())),
        Some(rest) => from_module(alloc, text, text.len().saturating_sub(rest.len())),
    }
}

/// The tokens of the header and those of the algorithm of a specification's text, each with its column and its span in the
/// whole text, and with the marks of its junction lists (the layout is that of "Specifying Systems" and "the PlusCal manual";
/// the rules in full are this project's choice).
///
/// `Syntax` comes exactly where the text has no such lists. Its offset counts bytes from 0. It is that of the first byte that
/// begins no token, of the first token that a specification may not have or that is one too many, of a bracket that isn't
/// closed where it must be, or of the end of the comment with the algorithm where the braces of the algorithm aren't closed
/// before it. It is the text's length where the line of MODULE, the comment or the closing row is missing. A text of more
/// than 2^60 bytes, which no memory holds, is answered `NoMemory`.
pub fn spec_tokens(alloc: Global, text: &[u8]) -> Result<SpecTokens, TextStop>
    ensures found { IfOk result (λ p. IsSpecText text.now p.header p.algorithm) }
    // What the text has is answered, unless memory runs out. So `Syntax` comes only where the text has no such lists.
    ensures only { (header algorithm : List Lexeme) → IsSpecText text.now header algorithm → IsOrNoMemory result header algorithm }
    ensures within { IfErr result (IsWithin (length text.now)) }
{
    cut(alloc, text)
}

/// A text has at most one pair of lists.
pub fn one_pair()
    ensures { (text : List ℕ) (h a h2 a2 : List Lexeme) → IsSpecText text h a → IsSpecText text h2 a2 → (h ≡ h2) × (a ≡ a2) }
{}
