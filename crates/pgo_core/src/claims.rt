// What instances hold, in one list.
ghost use Rattle.std.specs.Prelude.{◌≡◌, vec_capacity};
ghost use Rattle.pgo_core.specs.Claims.{holder_of, without_claim};

/// A held resource, with its content's count of pre-commits at the take, and who holds it.
#[derive(Clone, Copy, Drop)]
pub struct Claim {
    pub resource: u32,
    pub count: u64,
    pub holder: u32,
}

/// Who holds the resource.
pub fn holder(claims: &[Claim], r: u32) -> Option<u32>
    ensures { result ≡ holder_of claims.now r }
{
    for claim in claims {
        if claim.resource == r {
            return Some(claim.holder);
        }
    }
    None
}

/// Forgets that the resource is held.
pub fn forget(claims: &mut Vec<Claim>, r: u32)
    ensures rest { claims.new.items ≡ without_claim claims.old.items r }
    ensures capacity { vec_capacity claims.new ≡ vec_capacity claims.old }
{
    for index in 0..claims.len() {
        if claims[index].resource == r {
            claims.remove(index);
            return;
        }
    }
}
