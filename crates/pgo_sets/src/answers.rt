// An answer as a value or none.
ghost use Rattle.std.specs.Prelude.{◌≡◌, Option, option_map, IfOk};
ghost use Rattle.pgo_base.specs.Data.{Data};
ghost use Rattle.pgo_base.specs.View.{data_of};
ghost use Rattle.pgo_sets.specs.Answers.{Answers};

use crate::errors::EvalStop;
use pgo_base::value::Value;
use std::alloc::AllocError;

/// The value of an answer; none where it is NoValue.
///
/// Err where there is no memory.
pub fn value_or_none(answer: Result<Value, EvalStop>) -> Result<Option<Value>, AllocError>
    ensures { (o : Option Data) → Answers answer o → IfOk result (λ v. option_map data_of v ≡ o) }
{
    match answer {
        Ok(v) => Ok(Some(v)),
        Err(EvalStop::NoValue) => Ok(None),
        Err(EvalStop::NoMemory) => Err(AllocError),
    }
}
