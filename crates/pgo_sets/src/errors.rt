// Why an operator gives no value.
ghost use Rattle.std.specs.Prelude.{◌≡◌};
ghost use Rattle.pgo_sets.specs.declared.errors.EvalStop.TheVariants.{NoMemory};

use std::alloc::{AllocError, AllocFailed};
use thiserror::Error;

/// Why an operator, or an expression, gave no value.
///
/// - `NoValue`: there is none.
/// - `NoMemory`: there was no memory for what it had to store. Whether there is a value is then not said.
///
/// Source: this project's choice.
#[derive(Clone, Copy, Debug, PartialEq, Eq, Error)]
pub enum EvalStop {
    #[error("no value")]
    NoValue,
    #[error("out of memory")]
    NoMemory,
}

impl From<AllocError> for EvalStop {
    ghost from_gives = { λ _ e. e ≡ NoMemory };

    fn from(_error: AllocError) -> EvalStop {
        EvalStop::NoMemory
    }
}

impl<T: Drop> From<AllocFailed<T>> for EvalStop {
    ghost from_gives = { λ _ e. e ≡ NoMemory };

    fn from(_error: AllocFailed<T>) -> EvalStop {
        EvalStop::NoMemory
    }
}
