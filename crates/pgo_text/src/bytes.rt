// The bytes of words.
ghost use Rattle.std.specs.Prelude.{◌≡◌};
ghost use Rattle.pgo_model.specs.ValueText as text;

/// Whether the byte is one of `A` to `Z` and `a` to `z`.
pub fn is_letter(b: u8) -> bool
    ensures { result ≡ text.is_letter b }
{
    b.is_ascii_alphabetic()
}

/// Whether the byte is one of `0` to `9`.
pub fn is_digit(b: u8) -> bool
    ensures { result ≡ text.is_digit b }
{
    b.is_ascii_digit()
}

/// Whether the byte is a letter, a digit or `_`.
pub fn is_word_byte(b: u8) -> bool
    ensures { result ≡ text.is_word_byte b }
{
    is_letter(b) || is_digit(b) || b == b'_'
}
