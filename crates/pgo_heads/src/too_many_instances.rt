// Rule 6: there are more than 64 instances.
ghost use Rattle.std.specs.Prelude.{option_map};
ghost use Rattle.pgo_heads.specs.Answers.{Passes};
ghost use Rattle.pgo_heads.specs.Findings as findings;
ghost use Rattle.pgo_heads.specs.Limits.{more_than};
ghost use Rattle.pgo_heads.specs.declared.errors.BindError.TheVariants as errors;

use crate::errors::BindError;

/// Refuses more than 64 instances.
pub fn few_instances(count: u64) -> Result<(), BindError>
    ensures { Passes (option_map errors.TooManyInstances (findings.first (more_than 64 count))) result }
{
    if count > 64 {
        return Err(BindError::TooManyInstances { count });
    }
    Ok(())
}
