// The integers of a value text.
ghost use Rattle.std.specs.Prelude.{◌≡◌};
ghost use Rattle.pgo_value_text.specs.IsValueText as text;
ghost use Rattle.pgo_value_text.specs.Reading as spec;

use crate::words::are_digits;
use pgo_text::bytes::is_digit;

/// The number that digits spell, leading zeros among them, where it has 64 bits.
#[tactic(auto, unfolding(crate::specs::Reading::natural_from))]
pub fn natural(digits: &[u8]) -> Option<u64>
    ensures { result ≡ spec.natural_from 0 digits.now }
{
    let mut value: u128 = 0;
    for b in digits {
        if !is_digit(*b) {
            return None;
        }
        value = value * 10 + u128::from(*b - b'0');
        if value > u128::from(u64::MAX) {
            return None;
        }
    }
    Some(value as u64)
}

/// The integer that this number behind a minus is, where it has 64 bits.
fn minus(n: u64) -> Option<i64>
    ensures { result ≡ spec.fitting (text.minus n) }
{
    if n == 0 {
        return Some(0);
    }
    match i64::try_from(n - 1) {
        Ok(z) => Some(-1 - z),
        Err(_) => None,
    }
}

/// The integer that digits spell, where it has 64 bits.
#[tactic(auto, unfolding(crate::specs::Reading::positive))]
pub fn positive(digits: &[u8]) -> Option<i64>
    ensures { result ≡ spec.positive digits.now }
{
    match natural(digits) {
        Some(n) => i64::try_from(n).ok(),
        None => None,
    }
}

/// The integer that digits behind a minus spell, where it has 64 bits.
#[tactic(auto, unfolding(crate::specs::Reading::negative))]
pub fn negative(digits: &[u8]) -> Option<i64>
    ensures { result ≡ spec.negative digits.now }
{
    if !are_digits(digits) {
        return None;
    }
    match natural(digits) {
        Some(n) => minus(n),
        None => None,
    }
}
