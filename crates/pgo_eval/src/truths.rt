// Truth values of which one may be missing: the strong Kleene operators.
ghost use Rattle.std.specs.Prelude.{◌≡◌};
ghost use Rattle.pgo_model.specs.Operators.{or3, not3, and3, iff3};

/// `~p`.
pub fn negation(p: Option<bool>) -> Option<bool>
    ensures { result ≡ not3 p }
{
    p.map(|b| !b)
}

/// `p \/ q`: TRUE where one of the two is.
pub fn either(p: Option<bool>, q: Option<bool>) -> Option<bool>
    ensures { result ≡ or3 p q }
{
    match (p, q) {
        (Some(true), _) | (_, Some(true)) => Some(true),
        (Some(false), Some(false)) => Some(false),
        _ => None,
    }
}

/// `p /\ q`: FALSE where one of the two is.
pub fn conjunction(p: Option<bool>, q: Option<bool>) -> Option<bool>
    ensures { result ≡ and3 p q }
{
    match (p, q) {
        (Some(false), _) | (_, Some(false)) => Some(false),
        (Some(true), Some(true)) => Some(true),
        _ => None,
    }
}

/// `p => q`: TRUE where p is FALSE or q is TRUE.
pub fn implication(p: Option<bool>, q: Option<bool>) -> Option<bool>
    ensures { result ≡ or3 (not3 p) q }
{
    either(negation(p), q)
}

/// `p <=> q`: whether both are one truth.
pub fn equivalence(p: Option<bool>, q: Option<bool>) -> Option<bool>
    ensures { result ≡ iff3 p q }
{
    match (p, q) {
        (Some(p), Some(q)) => Some(p == q),
        _ => None,
    }
}
