// The tokens of a specification before a fault among its tokens, as far as they go.
ghost use Rattle.std.specs.Prelude.{◌≡◌, ◌≤◌, ◌+◌, ◌-◌, ◌++◌, ◌∷◌, [], Some, IfErr, IfOk, IfSome, ℕ, List, drop, length, take};
ghost use Rattle.pgo_lexer.specs.declared.errors.TextStop.TheVariants.{NoMemory};
ghost use Rattle.pgo_lexer.specs.declared.token.Lexeme.{Lexeme};
ghost use Rattle.pgo_spec_text.specs.Cutting as cutting;
ghost use Rattle.pgo_spec_text.specs.Prefixes.{ArePartsBefore, IsAlgorithmBefore, IsPartBefore, IsSpecBefore, IsWholeHeader};
ghost use Rattle.pgo_spec_text.specs.SpecText.{most_tokens};

use crate::cut::{Head, header};
use crate::parts::{MOST_BYTES, MOST_TOKENS, algorithm_in, body_start, column_at};
use crate::search::{inside, module_from};
use pgo_base::slices::first;
use pgo_lexer::before::{Before, lexed_before, marked_before};
use pgo_lexer::bytes::skip;
use pgo_lexer::errors::TextStop;
use pgo_lexer::token::Tokens;
use std::alloc::Global;

/// The tokens of a specification before a fault.
#[derive(Drop)]
pub struct SpecBefore {
    /// The tokens of the header before it.
    pub header: Before,
    /// The tokens of the algorithm before it; none where the fault is in the header, or there is no algorithm.
    pub algorithm: Option<Before>,
}

/// The tokens of the text from an offset on, before a fault.
fn part_before(alloc: Global, text: &[u8], start: usize, fault: usize) -> Result<Before, TextStop>
    requires small { length text.now ≤ 1152921504606846976 }
    requires within { start ≤ length text.now }
    ensures earlier { IfOk result (λ b. b.fault ≤ fault) }
    ensures tokens { IfOk result (IsPartBefore (take start text.now) (drop start text.now) fault) }
    ensures memory { IfErr result (λ e. e ≡ NoMemory) }
{
    let column = column_at(text, start);
    let tokens = lexed_before(alloc, text, column, start, fault)?;
    marked_before(alloc, tokens, fault)
}

/// The tokens of the algorithm in the body of its comment, where so many tokens stand before and these bytes behind the
/// comment.
fn algorithm_before(
    alloc: Global,
    text: &[u8],
    used: usize,
    body: &[u8],
    behind: &[u8],
    fault: usize,
) -> Result<Before, TextStop>
    requires small { length text.now ≤ 1152921504606846976 }
    requires within { length body.now + length behind.now + 2 ≤ length text.now }
    ensures earlier { IfOk result (λ a. a.fault ≤ fault) }
    ensures tokens { (before : List ℕ) → text.now ≡ before ++ (body.now ++ ((42 ∷ 41 ∷ []) ++ behind.now)) → IfOk result (IsAlgorithmBefore before body.now (most_tokens - used) fault) }
    ensures memory { IfErr result (λ e. e ≡ NoMemory) }
{
    match algorithm_in(alloc, text, used, body, behind) {
        Ok(tokens) => marked_before(alloc, tokens, fault),
        Err(TextStop::Syntax { .. }) => {
            let start = body_start(text, body, behind);
            part_before(alloc, first(text, start + body.len()), start, fault)
        }
        Err(TextStop::NoMemory) => Err(TextStop::NoMemory),
    }
}

/// The tokens from the line of MODULE on, which begins at an offset, where the header doesn't end before the fault.
fn header_alone(
    alloc: Global,
    text: &[u8],
    start: usize,
    fault: usize,
) -> Result<SpecBefore, TextStop>
    requires small { length text.now ≤ 1152921504606846976 }
    requires within { start ≤ length text.now }
    ensures header { IfOk result (λ b. b.header.fault ≤ fault) }
    ensures algorithm { IfOk result (λ b. IfSome b.algorithm (λ a. a.fault ≤ fault)) }
    ensures tokens { ((part rest : List ℕ) (unmarked : List Lexeme) → drop start text.now ≡ part ++ rest → IsWholeHeader (take start text.now) part rest unmarked → fault ≤ start + length part)
        → IfOk result (ArePartsBefore (take start text.now) (drop start text.now) fault) }
    ensures memory { IfErr result (λ e. e ≡ NoMemory) }
{
    Ok(SpecBefore {
        header: part_before(alloc, text, start, fault)?,
        algorithm: None,
    })
}

/// The tokens of the header, and those of the algorithm in the comment behind it.
fn both(
    alloc: Global,
    text: &[u8],
    start: usize,
    head: Head,
    fault: usize,
) -> Result<SpecBefore, TextStop>
    requires small { length text.now ≤ 1152921504606846976 }
    requires within { start ≤ length text.now }
    ensures header { IfOk result (λ b. b.header.fault ≤ fault) }
    ensures algorithm { IfOk result (λ b. IfSome b.algorithm (λ a. a.fault ≤ fault)) }
    ensures tokens { cutting.header most_tokens (length text.now) (cutting.column_at text.now start) start [] (drop start text.now) ≡ Some head
        → IfOk result (ArePartsBefore (take start text.now) (drop start text.now) fault) }
    ensures memory { IfErr result (λ e. e ≡ NoMemory) }
{
    let Head { tokens, at } = head;
    if fault <= at {
        return header_alone(alloc, text, start, fault);
    }
    let used = tokens.len();
    let header = marked_before(alloc, tokens, at)?;
    match inside(skip(text, at)) {
        None => Ok(SpecBefore {
            header,
            algorithm: None,
        }),
        Some((body, behind)) => Ok(SpecBefore {
            header,
            algorithm: Some(algorithm_before(alloc, text, used, body, behind, fault)?),
        }),
    }
}

/// The tokens of the text that has a fault at an offset, where the line of MODULE begins at another.
fn from_module(
    alloc: Global,
    text: &[u8],
    start: usize,
    fault: usize,
) -> Result<SpecBefore, TextStop>
    requires small { length text.now ≤ 1152921504606846976 }
    requires within { start ≤ length text.now }
    ensures header { IfOk result (λ b. b.header.fault ≤ fault) }
    ensures algorithm { IfOk result (λ b. IfSome b.algorithm (λ a. a.fault ≤ fault)) }
    ensures tokens { IfOk result (ArePartsBefore (take start text.now) (drop start text.now) fault) }
    ensures memory { IfErr result (λ e. e ≡ NoMemory) }
{
    let column = column_at(text, start);
    match header(alloc, text, column, start, MOST_TOKENS) {
        Ok(head) => both(alloc, text, start, head, fault),
        Err(TextStop::Syntax { .. }) => header_alone(alloc, text, start, fault),
        Err(TextStop::NoMemory) => Err(TextStop::NoMemory),
    }
}

/// The tokens before a fault at an offset, where `spec_tokens` refuses the text there; each list with the marks of its
/// junction lists, and what is open at the fault closed there. So a reader of them comes to an earlier fault, if there is one.
/// `NoMemory` comes as it does from `spec_tokens`.
pub fn tokens_before(alloc: Global, text: &[u8], fault: usize) -> Result<SpecBefore, TextStop>
    ensures header { IfOk result (λ b. b.header.fault ≤ fault) }
    ensures algorithm { IfOk result (λ b. IfSome b.algorithm (λ a. a.fault ≤ fault)) }
    ensures tokens { IfOk result (IsSpecBefore text.now fault) }
    ensures memory { IfErr result (λ e. e ≡ NoMemory) }
{
    if text.len() > MOST_BYTES {
        return Err(TextStop::NoMemory);
    }
    match module_from(text) {
        None => Ok(SpecBefore {
            header: marked_before(alloc, Tokens::new(alloc), fault)?,
            algorithm: None,
        }),
        Some(rest) => from_module(alloc, text, text.len().saturating_sub(rest.len()), fault),
    }
}
