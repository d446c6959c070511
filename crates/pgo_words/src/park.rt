// `--park` among the options of `run`: it has no value, so it is parted from the other words before `clap` reads them.
ghost use Rattle.std.specs.Prelude.{◌≡◌, ◌<◌, ◌+◌, ◌++◌, IfOk, drop, length, take};
ghost use Rattle.pgo_model.specs.ValueText as text;
ghost use Rattle.pgo_words.specs.Park as spec;
ghost use Rattle.pgo_words.specs.Parts.{texts};

use crate::options::begins_option;
use pgo_text::names::same_bytes;
use std::alloc::{AllocError, Global};

/// Whether the word is `--park`.
fn is_park(word: &str) -> bool
    ensures { result ≡ text.same_bytes word.now spec.park_word }
{
    same_bytes(word.as_bytes(), b"--park")
}

/// Whether the words begin with `--park`.
fn begins_park(words: &[&str]) -> bool
    ensures { result ≡ spec.begins_park (texts words.now) }
{
    match words {
        [first, ..] => is_park(*first),
        _ => false,
    }
}

/// Whether the words begin with an option that has a value.
fn begins_valued(words: &[&str]) -> bool
    ensures { result ≡ spec.begins_valued (texts words.now) }
{
    begins_option(words) && !begins_park(words)
}

/// The place of `--park` behind the options at the front; none where it doesn't stand there.
pub fn park_place(words: &[&str]) -> Option<usize>
    ensures { spec.PlacesPark words.now result }
{
    let mut at = 0;
    while begins_valued(&words[at..]) {
        at += 2;
    }
    if begins_park(&words[at..]) {
        Some(at)
    } else {
        None
    }
}

/// The words but for the one at this place.
pub fn without<'a>(alloc: Global, words: &[&'a str], at: usize) -> Result<Vec<&'a str>, AllocError>
    requires { at < length words.now }
    ensures { IfOk result (λ v. texts v.items ≡ texts (take at words.now) ++ texts (drop (at + 1) words.now)) }
{
    let mut others = Vec::new(alloc);
    others.extend_from_slice(&words[..at])?;
    others.extend_from_slice(&words[at + 1..])?;
    Ok(others)
}
