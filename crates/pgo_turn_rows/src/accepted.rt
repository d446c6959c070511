// What a text is bound to, where it can be run.
ghost use Rattle.std.specs.Prelude.{IfOk, IfSome};
ghost use Rattle.pgo_turn_rows.specs.Runs.{Runs};

use pgo_accept::accept::accept;
use pgo_accept::errors::Rejection;
use pgo_agrees::texts_are_accepted;
use pgo_base::consts::Consts;
use pgo_runnable::accepted_runs;
use pgo_syntax::bound::Bound;
use std::alloc::{AllocError, Global};

/// What a text is bound to with these constants; none where a rule refuses it.
pub fn accepted(alloc: Global, text: &[u8], consts: &Consts) -> Result<Option<Bound>, AllocError>
    ensures { IfOk result (λ o. IfSome o Runs) }
{
    texts_are_accepted();
    accepted_runs();
    let found = accept(alloc, text, consts);
    match found {
        Ok(bound) => Ok(Some(bound)),
        Err(Rejection::NoMemory) => Err(AllocError),
        Err(_) => Ok(None),
    }
}
