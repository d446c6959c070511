// The bytes of a text, and how many of some sort stand at its front.
ghost use Rattle.std.specs.Prelude.{◌≡◌, ◌≤◌, ◌<◌, ◌+◌, ◌-◌, ◌*◌, IsTrue, length, drop};
ghost use Rattle.std.specs.List.{prefix_len};
ghost use Rattle.pgo_model.specs.ValueText as text;
ghost use Rattle.pgo_lexer.specs.Lexemes as spec;
ghost use Rattle.pgo_lexer.specs.Pieces as piece;

/// The width of a tab stop.
const TAB: usize = 8;

pub fn is_blank(b: u8) -> bool
    ensures { result ≡ spec.is_blank b }
{
    b == b' ' || b == b'\t' || b == b'\n' || b == b'\r'
}

pub fn is_letter(b: u8) -> bool
    ensures { result ≡ text.is_letter b }
{
    b.is_ascii_alphabetic()
}

pub fn is_digit(b: u8) -> bool
    ensures { result ≡ text.is_digit b }
{
    b.is_ascii_digit()
}

/// A letter, a digit or `_`.
pub fn is_word_byte(b: u8) -> bool
    ensures { result ≡ text.is_word_byte b }
{
    b.is_ascii_alphabetic() || b.is_ascii_digit() || b == b'_'
}

fn is_in_line(b: u8) -> bool
    ensures { result ≡ spec.is_in_line b }
{
    b != b'\n'
}

/// How many letters, digits and `_` stand at the front.
pub fn word_length(bytes: &[u8]) -> usize
    ensures value { result ≡ prefix_len text.is_word_byte bytes.now }
    ensures within { result ≤ length bytes.now }
{
    bytes.iter().take_while(|b| is_word_byte(**b)).count()
}

/// How many letters stand at the front.
pub fn letters_length(bytes: &[u8]) -> usize
    ensures value { result ≡ prefix_len text.is_letter bytes.now }
    ensures within { result ≤ length bytes.now }
{
    bytes.iter().take_while(|b| is_letter(**b)).count()
}

/// How many bytes stand before the first newline.
pub fn line_length(bytes: &[u8]) -> usize
    ensures value { result ≡ prefix_len spec.is_in_line bytes.now }
    ensures within { result ≤ length bytes.now }
{
    bytes.iter().take_while(|b| is_in_line(**b)).count()
}

pub fn all_digits(word: &[u8]) -> bool
    ensures { result ≡ spec.all_are text.is_digit word.now }
{
    for b in word {
        if !is_digit(*b) {
            return false;
        }
    }
    true
}

pub fn has_letter(word: &[u8]) -> bool
    ensures { result ≡ text.has_letter word.now }
{
    for b in word {
        if is_letter(*b) {
            return true;
        }
    }
    false
}

pub fn is_same(a: &[u8], b: &[u8]) -> bool
    ensures { result ≡ text.same_bytes a.now b.now }
{
    a == b
}

/// What stands behind the first so many bytes.
pub fn skip(bytes: &[u8], count: usize) -> &[u8]
    ensures value { result.now ≡ drop count bytes.now }
    ensures left { length result.now ≡ length bytes.now - count }
{
    if count < bytes.len() {
        &bytes[count..]
    } else {
        &[]
    }
}

fn begins_with(a: u8, b: u8, bytes: &[u8]) -> bool
    ensures value { result ≡ spec.begins_with a b bytes.now }
    ensures two { IsTrue result → 2 ≤ length bytes.now }
{
    match bytes {
        [x, y, ..] => *x == a && *y == b,
        _ => false,
    }
}

/// Whether `(*` is next.
pub fn opens(bytes: &[u8]) -> bool
    ensures value { result ≡ spec.opens bytes.now }
    ensures two { IsTrue result → 2 ≤ length bytes.now }
{
    begins_with(b'(', b'*', bytes)
}

/// Whether `*)` is next.
pub fn closes(bytes: &[u8]) -> bool
    ensures value { result ≡ spec.closes bytes.now }
    ensures two { IsTrue result → 2 ≤ length bytes.now }
{
    begins_with(b'*', b')', bytes)
}

/// Whether `\*` is next.
pub fn opens_line(bytes: &[u8]) -> bool
    ensures { result ≡ spec.opens_line bytes.now }
{
    begins_with(b'\\', b'*', bytes)
}

/// Whether `\` and a letter are next.
pub fn opens_word(bytes: &[u8]) -> bool
    ensures value { result ≡ spec.opens_word bytes.now }
    ensures some { IsTrue result → 0 < length bytes.now }
{
    match bytes {
        [b, c, ..] => *b == b'\\' && is_letter(*c),
        _ => false,
    }
}

pub fn begins_blank(bytes: &[u8]) -> bool
    ensures value { result ≡ piece.begins spec.is_blank bytes.now }
    ensures some { IsTrue result → 0 < length bytes.now }
{
    match bytes {
        [] => false,
        [b, ..] => is_blank(*b),
    }
}

pub fn begins_word(bytes: &[u8]) -> bool
    ensures { result ≡ piece.begins text.is_word_byte bytes.now }
{
    match bytes {
        [] => false,
        [b, ..] => is_word_byte(*b),
    }
}

pub fn begins_string(bytes: &[u8]) -> bool
    ensures value { result ≡ piece.begins piece.is_quote bytes.now }
    ensures some { IsTrue result → 0 < length bytes.now }
{
    match bytes {
        [] => false,
        [b, ..] => *b == b'"',
    }
}

pub fn begins_dollar(bytes: &[u8]) -> bool
    ensures value { result ≡ piece.begins piece.is_dollar bytes.now }
    ensures some { IsTrue result → 0 < length bytes.now }
{
    match bytes {
        [] => false,
        [b, ..] => *b == b'$',
    }
}

#[tactic(auto, unfolding(crate::specs::Lexemes::column_behind))]
fn column_behind(column: usize, byte: u8) -> usize
    requires { column < 18446744073709551600 }
    ensures value { result ≡ spec.column_behind column byte }
    ensures within { result ≤ column + 8 }
{
    match byte {
        b'\n' => 0,
        b'\t' => column + (TAB - column % TAB),
        _ => column + 1,
    }
}

/// The column behind these bytes, the first of which stands in a column.
pub fn columns_behind(column: usize, bytes: &[u8]) -> usize
    requires { column + 8 * length bytes.now < 18446744073709551600 }
    ensures value { result ≡ spec.columns_behind column bytes.now }
    ensures within { result ≤ column + 8 * length bytes.now }
{
    let mut at = column;
    for b in bytes {
        at = column_behind(at, *b);
    }
    at
}
