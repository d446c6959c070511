// Strings.
ghost use Rattle.std.specs.Prelude.{◌≡◌, ◌≤◌, ◌+◌, [], length, IfOk, IfSome};
ghost use Rattle.pgo_lexer.specs.Lexemes as text;
ghost use Rattle.pgo_lexer.specs.Pieces as spec;

use crate::bytes::skip;
use pgo_base::text::Text;
use std::alloc::{AllocError, Global};

/// What the bytes of a string go on with: its end, a byte that so many bytes spell, or nothing that may stand there.
#[derive(Clone, Copy)]
pub enum Char {
    End,
    Byte { byte: u8, length: usize },
    Bad,
}

fn is_plain(b: u8) -> bool
    ensures { result ≡ text.is_plain b }
{
    b' ' <= b && b <= b'~' && b != b'"' && b != b'\\'
}

/// The byte that a byte stands for behind a backslash.
fn escaped(b: u8) -> Option<u8>
    ensures { result ≡ text.escaped b }
{
    match b {
        b'"' | b'\\' => Some(b),
        b'n' => Some(b'\n'),
        b't' => Some(b'\t'),
        _ => None,
    }
}

fn escape(b: u8) -> Char
    ensures value { result ≡ spec.escape (text.escaped b) }
    ensures fits { spec.AtMost 2 result }
{
    match escaped(b) {
        Some(byte) => Char::Byte { byte, length: 2 },
        None => Char::Bad,
    }
}

fn plain(b: u8) -> Char
    ensures value { result ≡ spec.plain b }
    ensures fits { spec.AtMost 1 result }
{
    if is_plain(b) {
        Char::Byte { byte: b, length: 1 }
    } else {
        Char::Bad
    }
}

#[tactic(auto, unfolding(crate::specs::Pieces::char_at))]
fn char_at(bytes: &[u8]) -> Char
    ensures value { result ≡ spec.char_at bytes.now }
    ensures fits { spec.Fits result bytes.now }
{
    match bytes {
        [] => Char::Bad,
        [b] => { if *b == b'"' { Char::End } else { plain(*b) } }
        [b, c, ..] => {
            if *b == b'"' {
                Char::End
            } else if *b == b'\\' {
                escape(*c)
            } else {
                plain(*b)
            }
        }
    }
}

/// The string whose first byte starts here, and how many bytes it has with both quotes.
pub fn content(alloc: Global, bytes: &[u8]) -> Result<Option<(Text, usize)>, AllocError>
    ensures value { IfOk result (λ o. o ≡ spec.chars (length bytes.now) [] 1 bytes.now) }
    ensures within { IfOk result (λ o. IfSome o (λ p. p.1 ≤ length bytes.now + 1)) }
{
    let mut string = Vec::new(alloc);
    let mut at: usize = 1;
    let mut rest = bytes;
    for _turn in 0..bytes.len() {
        match char_at(rest) {
            Char::End => {
                let string = Text::from_bytes(string)?;
                return Ok(Some((string, at + 1)));
            }
            Char::Byte { byte, length } => {
                string.push(byte)?;
                at += length;
                rest = skip(rest, length);
            }
            Char::Bad => return Ok(None),
        }
    }
    Ok(None)
}
