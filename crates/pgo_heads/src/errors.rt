// Why a specification can't be bound.
ghost use Rattle.std.specs.Prelude.{◌≡◌};
ghost use Rattle.pgo_heads.specs.declared.errors.BindError.TheVariants.{NoMemory};

use pgo_base::text::Text;
use pgo_base::value::Value;
use std::alloc::{AllocError, AllocFailed};
use std::fmt::{self, Debug, Formatter, Write};
use thiserror::Error;

/// Why a specification can't be bound to these constants, in the order in which the rules are checked.
///
/// - `ConstMissing`: a declared constant isn't given.
/// - `ConstUnknown`: a given constant isn't declared.
/// - `BadMapping`: a mapping clause, an argument and its parameter don't go together, or a global that is bound element by
///   element doesn't start as a function. The place is the argument's number from 1, or 0 where a clause names no argument.
/// - `SameId`: two processes have this identifier, and no lesser one.
/// - `IdsNoValue`: the process's identifiers aren't a set with a value, or one of them is deeper than 255.
/// - `TooManyInstances`, `TooManyResources`: there are more than 64, or more than 1,024, namely this many.
/// - `InitNoValue`: an initial value, a set or a value argument has no value, or what starts with it is too deep for a state.
/// - `InitEmpty`: the set behind `\in` is empty.
/// - `NoMemory`: there was no memory, or an expression that is evaluated opens more than 640 levels.
///
/// Source: Modular PlusCal for what is bound to what; this project's choice for the rest.
#[derive(Drop, Error)]
pub enum BindError {
    #[error("a constant that isn't given")]
    ConstMissing { name: Text },
    #[error("a constant that isn't declared")]
    ConstUnknown { name: Text },
    #[error("a mapping that doesn't fit, at place {place}")]
    BadMapping { process: Text, place: u64 },
    #[error("an identifier of two processes")]
    SameId { id: Value },
    #[error("identifiers without a value")]
    IdsNoValue { process: Text },
    #[error("{count} instances")]
    TooManyInstances { count: u64 },
    #[error("{count} resources")]
    TooManyResources { count: u64 },
    #[error("an initial value that is none")]
    InitNoValue { name: Text },
    #[error("an initial set that is empty")]
    InitEmpty { name: Text },
    #[error("out of memory")]
    NoMemory,
}

impl Debug for BindError {
    fn fmt<W: Write>(&self, f: &mut Formatter<W>) -> fmt::Result {
        f.write_str(match self {
            BindError::ConstMissing { .. } => "ConstMissing",
            BindError::ConstUnknown { .. } => "ConstUnknown",
            BindError::BadMapping { .. } => "BadMapping",
            BindError::SameId { .. } => "SameId",
            BindError::IdsNoValue { .. } => "IdsNoValue",
            BindError::TooManyInstances { .. } => "TooManyInstances",
            BindError::TooManyResources { .. } => "TooManyResources",
            BindError::InitNoValue { .. } => "InitNoValue",
            BindError::InitEmpty { .. } => "InitEmpty",
            BindError::NoMemory => "NoMemory",
        })
    }
}

impl From<AllocError> for BindError {
    ghost from_gives = { λ _ e. e ≡ NoMemory };

    fn from(_error: AllocError) -> BindError {
        BindError::NoMemory
    }
}

impl<T: Drop> From<AllocFailed<T>> for BindError {
    ghost from_gives = { λ _ e. e ≡ NoMemory };

    fn from(_error: AllocFailed<T>) -> BindError {
        BindError::NoMemory
    }
}
