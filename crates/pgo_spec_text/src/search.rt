// Places in a text: the line of MODULE, the comment with the algorithm, the closing row.
ghost use Rattle.std.specs.Prelude.{◌≡◌, ◌≤◌, ◌+◌, ◌-◌, true, IfSome, is_some, length, option_map};
ghost use Rattle.std.specs.List.{prefix_len};
ghost use Rattle.pgo_lexer.specs.Symbols as symbols;
ghost use Rattle.pgo_spec_text.specs.SpecText as text;
ghost use Rattle.pgo_spec_text.specs.Searching as spec;

use pgo_base::slices::first;
use pgo_lexer::bytes::{begins_word, opens, skip};
use pgo_lexer::comment::behind_comment;

/// Opens an algorithm in its comment ("the Modular PlusCal paper").
const MPCAL: &[u8] = b"--mpcal";

const ROW: &[u8] = b"====";

fn is_space(b: u8) -> bool
    ensures { result ≡ text.is_space b }
{
    b == b' ' || b == b'\t' || b == b'\r'
}

fn is_dash(b: u8) -> bool
    ensures { result ≡ text.is_dash b }
{
    b == b'-'
}

/// How many blanks of a line stand at the front.
fn spaces_length(bytes: &[u8]) -> usize
    ensures value { result ≡ prefix_len text.is_space bytes.now }
    ensures within { result ≤ length bytes.now }
{
    bytes.iter().take_while(|b| is_space(**b)).count()
}

fn dashes_length(bytes: &[u8]) -> usize
    ensures value { result ≡ prefix_len text.is_dash bytes.now }
    ensures within { result ≤ length bytes.now }
{
    bytes.iter().take_while(|b| is_dash(**b)).count()
}

/// Whether the bytes begin with the word, and it ends there.
#[tactic(auto, unfolding(crate::specs::Searching::word_at))]
fn word_at(word: &[u8], bytes: &[u8]) -> bool
    ensures { result ≡ spec.word_at word.now bytes.now }
{
    is_beginning(word, bytes) && !begins_word(skip(bytes, word.len()))
}

/// Whether these bytes stand at the front.
fn is_beginning(front: &[u8], bytes: &[u8]) -> bool
    ensures { result ≡ symbols.is_beginning front.now bytes.now }
{
    if bytes.len() < front.len() {
        return false;
    }
    for (i, b) in front.iter().enumerate() {
        if bytes[i] != *b {
            return false;
        }
    }
    true
}

/// Whether the bytes begin a line of MODULE: four dashes or more, blanks or none, and the word.
#[tactic(auto, unfolding(crate::specs::Searching::opens_module))]
fn opens_module(bytes: &[u8]) -> bool
    ensures { result ≡ spec.opens_module bytes.now }
{
    let dashes = dashes_length(bytes);
    if dashes < 4 {
        return false;
    }
    let rest = skip(bytes, dashes);
    word_at(b"MODULE", skip(rest, spaces_length(rest)))
}

/// The text from the line of MODULE on, or none where there is no such line.
pub fn module_from(text: &[u8]) -> Option<&[u8]>
    ensures value { option_map (λ r. r.now) result ≡ spec.module_from true text.now }
    ensures within { IfSome result (λ r. length r.now ≤ length text.now) }
{
    let mut fresh = true;
    for (i, b) in text.iter().enumerate() {
        let rest = skip(text, i);
        if fresh && opens_module(rest) {
            return Some(rest);
        }
        fresh = *b == b'\n' || (fresh && is_space(*b));
    }
    None
}

/// The bytes from the first `--mpcal` on.
fn mpcal_from(bytes: &[u8]) -> Option<&[u8]>
    ensures value { option_map (λ r. r.now) result ≡ spec.mpcal_from bytes.now }
    ensures within { IfSome result (λ r. length r.now ≤ length bytes.now) }
{
    for (i, _b) in bytes.iter().enumerate() {
        let rest = skip(bytes, i);
        if word_at(MPCAL, rest) {
            return Some(rest);
        }
    }
    None
}

/// The bytes from the first row of four or more `=` on.
pub fn row_from(bytes: &[u8]) -> Option<&[u8]>
    ensures value { option_map (λ r. r.now) result ≡ spec.row_from bytes.now }
    ensures within { IfSome result (λ r. length r.now ≤ length bytes.now) }
{
    for (i, _b) in bytes.iter().enumerate() {
        let rest = skip(bytes, i);
        if is_beginning(ROW, rest) {
            return Some(rest);
        }
    }
    None
}

/// What stands behind the comment that the bytes begin with, or none where they begin with no comment that ends.
#[tactic(auto, unfolding(crate::specs::Searching::behind))]
fn behind(bytes: &[u8]) -> Option<&[u8]>
    ensures value { option_map (λ r. r.now) result ≡ spec.behind bytes.now }
    ensures within { IfSome result (λ r. length r.now + 2 ≤ length bytes.now) }
{
    if opens(bytes) {
        behind_comment(skip(bytes, 2))
    } else {
        None
    }
}

/// The bytes of a comment behind its `--mpcal` and before its `*)`, by those from that word on.
fn body(word: &[u8]) -> &[u8]
    ensures value { result.now ≡ spec.body word.now }
    ensures within { length result.now ≡ length word.now - 7 - 2 }
{
    let tail = skip(word, 7);
    first(tail, tail.len().saturating_sub(2))
}

/// The body of the algorithm's comment that the bytes begin with, and what stands behind the comment; none where they
/// begin with no comment, or with one that holds no `--mpcal`.
#[tactic(auto, unfolding(crate::specs::Searching::inside))]
pub fn inside(bytes: &[u8]) -> Option<(&[u8], &[u8])>
    ensures value { option_map (λ p. (p.0.now, p.1.now)) result ≡ spec.inside bytes.now }
    ensures within { IfSome result (λ p. length p.0.now + length p.1.now + 2 ≤ length bytes.now) }
{
    match behind(bytes) {
        None => None,
        Some(rest) => {
            let comment = first(bytes, bytes.len().saturating_sub(rest.len()));
            match mpcal_from(comment) {
                None => None,
                Some(word) => Some((body(word), rest)),
            }
        }
    }
}

/// Whether the bytes begin with the algorithm's comment.
pub fn is_algorithm_comment(bytes: &[u8]) -> bool
    ensures { result ≡ is_some (spec.inside bytes.now) }
{
    match inside(bytes) {
        Some(_) => true,
        None => false,
    }
}
