// Lines of words.
ghost use Rattle.std.specs.Prelude.{◌≡◌, ◌++◌, ℕ, List, map, IfOk};
ghost use Rattle.pgo_model.specs.ModuleText.{flatten};
ghost use Rattle.pgo_pluscal.specs.Text.{blanks, line};
ghost use Rattle.pgo_pluscal.specs.Words.{word_text};

use pgo_base::expr::{Expr, Names, Sub};
use pgo_base::text::Text;
use pgo_expr_write::errors::NoMemory;
use pgo_expr_write::write::{write_body, write_by_name, write_expr};
use std::alloc::Global;

/// A word of a line.
#[derive(Clone, Copy)]
pub enum Word<'a> {
    /// Bytes as they stand.
    Bytes(&'a [u8]),
    Name(&'a Text),
    /// An expression.
    Whole(&'a Sub),
    /// An expression without its outermost `( )`.
    Body(&'a Sub),
    /// An expression of a tree, with these variables of the process by their names.
    Own(&'a Names, &'a Expr),
}

/// Adds a line of these words, in so many blocks.
pub fn push_line(
    bytes: &mut Vec<u8>,
    alloc: Global,
    level: usize,
    words: &[Word<'_>],
) -> Result<(), NoMemory>
    ensures { IfOk result (λ _. bytes.new.items ≡ bytes.old.items ++ line level (map word_text words.now)) }
{
    push_blanks(bytes, level)?;
    push_words(bytes, alloc, words)?;
    push_bytes(bytes, b"\n")
}

/// Adds the blanks before a line.
pub fn push_blanks(bytes: &mut Vec<u8>, level: usize) -> Result<(), NoMemory>
    ensures { IfOk result (λ _. bytes.new.items ≡ bytes.old.items ++ blanks level) }
{
    let mut left = level;
    while left > 0 {
        bytes.extend_from_slice(b"  ")?;
        left -= 1;
    }
    Ok(())
}

/// Adds these words.
pub fn push_words(bytes: &mut Vec<u8>, alloc: Global, words: &[Word<'_>]) -> Result<(), NoMemory>
    ensures { IfOk result (λ _. bytes.new.items ≡ bytes.old.items ++ flatten (map word_text words.now)) }
{
    for word in words {
        push_word(bytes, alloc, *word)?;
    }
    Ok(())
}

/// Adds a word.
fn push_word(bytes: &mut Vec<u8>, alloc: Global, word: Word<'_>) -> Result<(), NoMemory>
    ensures { IfOk result (λ _. bytes.new.items ≡ bytes.old.items ++ word_text word.entry) }
{
    match word {
        Word::Bytes(b) => push_bytes(bytes, b),
        Word::Name(x) => push_bytes(bytes, x.as_bytes()),
        Word::Whole(e) => push_text(bytes, write_expr(alloc, e.get())),
        Word::Body(e) => push_text(bytes, write_body(alloc, e.get())),
        Word::Own(own, e) => push_text(bytes, write_by_name(alloc, own, e)),
    }
}

/// Adds bytes.
fn push_bytes(bytes: &mut Vec<u8>, added: &[u8]) -> Result<(), NoMemory>
    ensures { IfOk result (λ _. bytes.new.items ≡ bytes.old.items ++ added.now) }
{
    bytes.extend_from_slice(added)?;
    Ok(())
}

/// Adds what was written, where it was.
fn push_text(bytes: &mut Vec<u8>, text: Result<Text, NoMemory>) -> Result<(), NoMemory>
    ensures { (d : List ℕ) → IfOk text (λ t. t ≡ d) → IfOk result (λ _. bytes.new.items ≡ bytes.old.items ++ d) }
{
    let text = text?;
    push_bytes(bytes, text.as_bytes())
}
