// What a text is bound to, where a table may be opened on it.
ghost use Rattle.std.specs.Prelude.{IfOk, IfSome};
ghost use Rattle.pgo_table_rows.specs.Opened.{MayOpen};

use pgo_accept::accept::accept;
use pgo_accept::errors::Rejection;
use pgo_base::consts::Consts;
use pgo_syntax::bound::Bound;
use std::alloc::{AllocError, Global};

/// What a text is bound to without constants; none where a rule refuses it.
pub fn accepted(alloc: Global, text: &[u8]) -> Result<Option<Bound>, AllocError>
    ensures { IfOk result (λ o. IfSome o MayOpen) }
{
    let consts = Consts::from_vec(Vec::new(alloc));
    let found = accept(alloc, text, &consts);
    match found {
        Ok(bound) => Ok(Some(bound)),
        Err(Rejection::NoMemory) => Err(AllocError),
        Err(_) => Ok(None),
    }
}
