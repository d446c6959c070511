// Rule 9: EXTENDS names a module that there is not.
ghost use Rattle.std.specs.Prelude.{◌≡◌, ◌++◌, IfOk};
ghost use Rattle.pgo_scope.specs.Modules as spec;

use crate::finding::{Cause, Finding, add_if};
use crate::words::is_module;
use pgo_syntax::spec::Spec;
use std::alloc::{AllocError, Global};

/// Adds what breaks the rule.
pub fn add_unknown_modules(
    alloc: Global,
    s: &Spec,
    out: &mut Vec<Finding>,
) -> Result<(), AllocError>
    ensures { IfOk result (λ _. out.new.items ≡ out.old.items ++ spec.unknown_modules s.now) }
{
    for x in s.extends.as_slice() {
        let wrong = !is_module(&x.name);
        add_if(alloc, wrong, Cause::UnknownModule, x.place, &x.name, out)?;
    }
    Ok(())
}
