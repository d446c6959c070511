// Results taken together. A function that would leave at each of several results leaves once, so that its proof is short.
ghost use Rattle.std.specs.Prelude.{◌≡◌, IfOk, Ok};

use std::alloc::AllocError;

/// Both, where there was memory for both.
pub fn both<A: Drop, B: Drop>(
    a: Result<A, AllocError>,
    b: Result<B, AllocError>,
) -> Result<(A, B), AllocError>
    ensures first { IfOk result (λ p. a ≡ Ok p.0) }
    ensures second { IfOk result (λ p. b ≡ Ok p.1) }
{
    Ok((a?, b?))
}
