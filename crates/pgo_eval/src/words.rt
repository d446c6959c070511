// Names that are words of the language.
ghost use Rattle.std.specs.Prelude.{◌≡◌};
ghost use Rattle.pgo_base.specs.Lookup.{same_name};

use pgo_base::text::Text;

/// Whether a name is this word.
pub fn is_word(x: &Text, word: &[u8]) -> bool
    ensures { result ≡ same_name x.now word.now }
{
    x.as_bytes() == word
}
