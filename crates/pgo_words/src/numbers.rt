// Numbers in decimal digits, without sign or leading zeros.
ghost use Rattle.std.specs.Prelude.{◌≡◌, ◌<◌, ◌^◌, ℕ, Some, IfSome, decimal};

use itoa::Buffer;

/// The number below 2^64 that the text writes in decimal digits, without sign or leading zeros.
pub fn long_number(text: &str) -> Option<u64>
    ensures some { IfSome result (λ n. (text.now ≡ decimal n) × (n < 2 ^ 64)) }
    ensures found { (n : ℕ) → n < 2 ^ 64 → text.now ≡ decimal n → result ≡ Some n }
{
    let parsed = text.parse::<u64>();
    match parsed {
        Ok(n) => {
            let mut buffer = Buffer::new();
            if buffer.format(n) == text {
                Some(n)
            } else {
                None
            }
        }
        Err(_) => None,
    }
}

/// The number below 2^32 that the text writes so.
pub fn number(text: &str) -> Option<u32>
    ensures some { IfSome result (λ n. (text.now ≡ decimal n) × (n < 2 ^ 32)) }
    ensures found { (n : ℕ) → n < 2 ^ 32 → text.now ≡ decimal n → result ≡ Some n }
{
    let n = long_number(text)?;
    if n <= u32::MAX as u64 {
        Some(n as u32)
    } else {
        None
    }
}
