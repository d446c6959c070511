// Rule 8: an identifier holds `__`.
ghost use Rattle.std.specs.Prelude.{◌≡◌, ◌++◌, map, IfOk, flat_map};
ghost use Rattle.pgo_scope.specs.Underscores as spec;

use crate::finding::{Cause, Finding, add_if};
use crate::words::has_double_underscore;
use pgo_syntax::name::PlacedName;
use std::alloc::{AllocError, Global};

/// Adds what breaks the rule among names in heads.
pub fn add_double_names(
    alloc: Global,
    names: &[&PlacedName],
    out: &mut Vec<Finding>,
) -> Result<(), AllocError>
    ensures { IfOk result (λ _. out.new.items ≡ out.old.items ++ flat_map spec.double_name (map (λ x. x.now) names.now)) }
{
    for x in names {
        let wrong = has_double_underscore(&x.name);
        add_if(alloc, wrong, Cause::DoubleUnderscore, x.place, &x.name, out)?;
    }
    Ok(())
}
