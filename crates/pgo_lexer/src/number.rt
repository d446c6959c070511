// The numbers of a text.
ghost use Rattle.std.specs.Prelude.{◌≡◌, ◌≤◌, IfSome};
ghost use Rattle.pgo_lexer.specs.Lexemes.{largest};
ghost use Rattle.pgo_lexer.specs.Pieces as spec;

/// The largest number.
const LARGEST: u128 = 9223372036854775807;

/// The number that digits spell, leading zeros among them, where it is no larger than the largest.
pub fn number_of(digits: &[u8]) -> Option<u64>
    ensures value { result ≡ spec.number_from 0 digits.now }
    ensures small { IfSome result (λ n. n ≤ largest) }
{
    let mut value: u64 = 0;
    for b in digits {
        let next = u128::from(value) * 10 + u128::from(b.saturating_sub(b'0'));
        if next > LARGEST {
            return None;
        }
        value = next as u64;
    }
    Some(value)
}
