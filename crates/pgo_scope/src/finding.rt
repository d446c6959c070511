// What breaks a rule, with its place.
ghost use Rattle.std.specs.Prelude.{◌≡◌, ◌++◌, Some, IfOk};
ghost use Rattle.pgo_syntax.specs.Least.{sooner_of};
ghost use Rattle.pgo_scope.specs.Findings as spec;

use crate::errors::ScopeError;
use pgo_base::text::Text;
use std::alloc::{AllocError, Global};

/// What breaks a rule, and the offset in the text at which it is found.
#[derive(Drop)]
pub struct Finding {
    pub place: u32,
    pub error: ScopeError,
}

/// Why a name is refused, where nothing else is said of it.
#[derive(Clone, Copy)]
pub enum Cause {
    Unknown,
    Twice,
    GlobalInArchetype,
    AssignedNotRef,
    MappedReadHere,
    DoubleUnderscore,
    UnknownModule,
}

fn error_about(cause: Cause, name: Text) -> ScopeError
    ensures { result ≡ spec.error_about cause name }
{
    match cause {
        Cause::Unknown => ScopeError::Unknown { name },
        Cause::Twice => ScopeError::Twice { name },
        Cause::GlobalInArchetype => ScopeError::GlobalInArchetype { name },
        Cause::AssignedNotRef => ScopeError::AssignedNotRef { name },
        Cause::MappedReadHere => ScopeError::MappedReadHere { name },
        Cause::DoubleUnderscore => ScopeError::DoubleUnderscore { name },
        Cause::UnknownModule => ScopeError::UnknownModule { name },
    }
}

/// Adds a name, where it is wrong.
pub fn add_if(
    alloc: Global,
    wrong: bool,
    cause: Cause,
    place: u32,
    x: &Text,
    out: &mut Vec<Finding>,
) -> Result<(), AllocError>
    ensures { IfOk result (λ _. out.new.items ≡ out.old.items ++ spec.found_if wrong place (spec.error_about cause x.now)) }
{
    if !wrong {
        return Ok(());
    }
    let error = error_about(cause, x.copy(alloc)?);
    out.push(Finding { place, error })?;
    Ok(())
}

/// The first in the text of what was found so far and this; of one place, what was found so far.
fn earlier(first: Option<Finding>, next: Finding) -> Option<Finding>
    ensures { result ≡ sooner_of (λ f. f.place) first (Some next) }
{
    match first {
        Some(f) => {
            if next.place < f.place {
                Some(next)
            } else {
                Some(f)
            }
        }
        None => Some(next),
    }
}

/// The first one in the text; of one place, the one that is listed first.
pub fn earliest(list: Vec<Finding>) -> Option<ScopeError>
    ensures { result ≡ spec.earliest list.items }
{
    let mut first = None;
    for f in list {
        first = earlier(first, f);
    }
    match first {
        Some(f) => Some(f.error),
        None => None,
    }
}
