// What the two quantifiers make of truth values.
ghost use Rattle.std.specs.Prelude.{◌≡◌};
ghost use Rattle.pgo_eval.specs.Choices.{join, over_none, is_decided};

use crate::truths::{conjunction, either};
use pgo_base::expr::Quantifier;

/// What a quantifier gives over nothing.
pub fn over_none(q: Quantifier) -> Option<bool>
    ensures { result ≡ over_none q }
{
    match q {
        Quantifier::Exists => Some(false),
        Quantifier::Forall => Some(true),
    }
}

/// What a quantifier makes of two truth values.
pub fn joined(q: Quantifier, a: Option<bool>, b: Option<bool>) -> Option<bool>
    ensures { result ≡ join q a b }
{
    match q {
        Quantifier::Exists => either(a, b),
        Quantifier::Forall => conjunction(a, b),
    }
}

/// Whether a quantifier that has found this has it whatever else it finds.
pub fn is_decided(q: Quantifier, found: Option<bool>) -> bool
    ensures { result ≡ is_decided q found }
{
    match (q, found) {
        (Quantifier::Exists, Some(true)) => true,
        (Quantifier::Forall, Some(false)) => true,
        _ => false,
    }
}
