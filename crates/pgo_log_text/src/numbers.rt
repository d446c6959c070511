// The numbers of a bundle.
ghost use Rattle.std.specs.Prelude.{◌≡◌};
ghost use Rattle.pgo_log_text.specs.Bytes as spec;

use pgo_value_text::integer::natural;

/// Whether there is one byte, or some of which the first is no zero.
fn is_shortest(digits: &[u8]) -> bool
    ensures { result ≡ spec.is_shortest digits.now }
{
    match digits {
        [] => false,
        [_] => true,
        [first, _, ..] => *first != b'0',
    }
}

/// The number that digits without leading zeros spell, where it has 64 bits.
#[tactic(auto, unfolding(crate::specs::Bytes::natural_of))]
pub fn natural_of(digits: &[u8]) -> Option<u64>
    ensures { result ≡ spec.natural_of digits.now }
{
    if is_shortest(digits) {
        natural(digits)
    } else {
        None
    }
}
