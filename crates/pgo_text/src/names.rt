// Reserved words and names.
ghost use Rattle.std.specs.Prelude.{◌≡◌, map};
ghost use Rattle.pgo_base.specs.Data.{string};
ghost use Rattle.pgo_model.specs.ValueText as text;

use crate::bytes::{is_letter, is_word_byte};

/// The reserved words of TLA+ expressions and of Modular PlusCal that no name may be.
const RESERVED: [&[u8]; 45] = [
    b"TRUE",
    b"FALSE",
    b"BOOLEAN",
    b"STRING",
    b"Nat",
    b"Int",
    b"SUBSET",
    b"UNION",
    b"DOMAIN",
    b"EXCEPT",
    b"UNCHANGED",
    b"CHOOSE",
    b"IF",
    b"THEN",
    b"ELSE",
    b"CASE",
    b"OTHER",
    b"LET",
    b"IN",
    b"define",
    b"macro",
    b"mapping",
    b"read",
    b"write",
    b"archetype",
    b"variable",
    b"variables",
    b"fair",
    b"process",
    b"instance",
    b"ref",
    b"via",
    b"skip",
    b"if",
    b"else",
    b"while",
    b"either",
    b"or",
    b"await",
    b"when",
    b"with",
    b"print",
    b"assert",
    b"goto",
    b"yield",
];

/// The most bytes of a name.
const MOST_BYTES: usize = 512;

/// Whether the bytes are the same.
pub fn same_bytes(a: &[u8], b: &[u8]) -> bool
    ensures { result ≡ text.same_bytes a.now b.now }
{
    a == b
}

/// Whether the word is one of these.
pub fn is_one_of(word: &[u8], words: &[&[u8]]) -> bool
    ensures { result ≡ text.is_one_of word.now (map (λ w. w.now) words.now) }
{
    for w in words {
        if same_bytes(word, w) {
            return true;
        }
    }
    false
}

/// Whether the word is reserved.
///
/// Source: "Specifying Systems", the PlusCal manual and the Modular PlusCal paper; which of their words, this
/// project's choice.
pub fn is_reserved(word: &[u8]) -> bool
    ensures { result ≡ text.is_one_of word.now text.reserved_words }
{
    is_one_of(word, &RESERVED)
}

fn all_word_bytes(word: &[u8]) -> bool
    ensures { result ≡ text.all_word_bytes word.now }
{
    for b in word {
        if !is_word_byte(*b) {
            return false;
        }
    }
    true
}

fn has_letter(word: &[u8]) -> bool
    ensures { result ≡ text.has_letter word.now }
{
    for b in word {
        if is_letter(*b) {
            return true;
        }
    }
    false
}

fn is_identifier(word: &[u8]) -> bool
    ensures { result ≡ text.is_identifier word.now }
{
    all_word_bytes(word) && has_letter(word) && !is_reserved(word)
}

/// Whether the word is an identifier of at most 512 bytes: letters, digits and `_`, with a letter, and not reserved.
/// A field of a record, a model value, and a label or a variable of a bundle is such a word.
///
/// Source: "Specifying Systems"; the number of bytes, this project's choice.
pub fn is_name(word: &[u8]) -> bool
    ensures { result ≡ text.is_field (string word.now) }
{
    is_identifier(word) && word.len() <= MOST_BYTES
}
