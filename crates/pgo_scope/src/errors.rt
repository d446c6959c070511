// Why the names of a specification are refused.
ghost use Rattle.std.specs.Prelude.{◌≡◌};
ghost use Rattle.pgo_scope.specs.declared.errors.ScopeError.TheVariants as errors;

use pgo_base::text::Text;
use std::alloc::AllocError;
use std::fmt::{self, Debug, Formatter, Write};
use thiserror::Error;

/// Why the names of a specification are refused, in the order in which the rules are checked.
///
/// - `Unknown`: the name has no meaning at its place.
/// - `Twice`: the name is declared twice in one scope, hides another, is an operator's or `defaultInitValue`, or is bound
///   in a macro that is called with an argument in which the name stands.
/// - `Arity`: the name, an operator's, a macro's or an archetype's, has another number of arguments than `got`.
/// - `GlobalInArchetype`: a global's name stands where a global has no meaning.
/// - `AssignedNotRef`: the name may not be assigned.
/// - `MappedReadHere`: the mapped parameter is read or assigned in a form in which it may not be.
/// - `NameClash`: two things have one written name. A label or local l of process P is shown as `P.l`.
/// - `DoubleUnderscore`: the identifier holds `__`.
/// - `UnknownModule`: EXTENDS names a module that there is not.
/// - `NoMemory`: there was no memory for what had to be stored.
///
/// Source: TLA+ and the PlusCal manual for what a name may mean; this project's choice for the rest.
#[derive(Drop, Error)]
pub enum ScopeError {
    #[error("a name without a meaning")]
    Unknown { name: Text },
    #[error("a name that has another meaning already")]
    Twice { name: Text },
    #[error("a wrong number of arguments")]
    Arity { name: Text, got: usize },
    #[error("a global where none may stand")]
    GlobalInArchetype { name: Text },
    #[error("an assignment to a name that may not be assigned")]
    AssignedNotRef { name: Text },
    #[error("a mapped parameter where none may stand")]
    MappedReadHere { name: Text },
    #[error("two things with one written name")]
    NameClash { first: Text, second: Text },
    #[error("an identifier with two underscores in a row")]
    DoubleUnderscore { name: Text },
    #[error("an unknown module")]
    UnknownModule { name: Text },
    #[error("out of memory")]
    NoMemory,
}

impl Debug for ScopeError {
    fn fmt<W: Write>(&self, f: &mut Formatter<W>) -> fmt::Result {
        f.write_str(match self {
            ScopeError::Unknown { .. } => "Unknown",
            ScopeError::Twice { .. } => "Twice",
            ScopeError::Arity { .. } => "Arity",
            ScopeError::GlobalInArchetype { .. } => "GlobalInArchetype",
            ScopeError::AssignedNotRef { .. } => "AssignedNotRef",
            ScopeError::MappedReadHere { .. } => "MappedReadHere",
            ScopeError::NameClash { .. } => "NameClash",
            ScopeError::DoubleUnderscore { .. } => "DoubleUnderscore",
            ScopeError::UnknownModule { .. } => "UnknownModule",
            ScopeError::NoMemory => "NoMemory",
        })
    }
}

impl From<AllocError> for ScopeError {
    ghost from_gives = { λ _ e. e ≡ errors.NoMemory };

    fn from(_error: AllocError) -> ScopeError {
        ScopeError::NoMemory
    }
}
