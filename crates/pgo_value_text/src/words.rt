// The blanks and the digits of a value text.
ghost use Rattle.std.specs.Prelude.{◌≡◌};
ghost use Rattle.pgo_value_text.specs.IsValueText as spec;

use pgo_text::bytes::is_digit;

pub fn is_blank(b: u8) -> bool
    ensures { result ≡ spec.is_blank b }
{
    b == b' ' || b == b'\t'
}

fn all_digits(word: &[u8]) -> bool
    ensures { result ≡ spec.all_digits word.now }
{
    for b in word {
        if !is_digit(*b) {
            return false;
        }
    }
    true
}

/// One digit or more.
pub fn are_digits(word: &[u8]) -> bool
    ensures { result ≡ spec.are_digits word.now }
{
    match word {
        [] => false,
        [_, ..] => all_digits(word),
    }
}
