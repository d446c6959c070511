// Rule 7: there are more than 1,024 resources.
ghost use Rattle.std.specs.Prelude.{option_map};
ghost use Rattle.pgo_heads.specs.Answers.{Passes};
ghost use Rattle.pgo_heads.specs.Findings as findings;
ghost use Rattle.pgo_heads.specs.Limits.{more_than};
ghost use Rattle.pgo_heads.specs.declared.errors.BindError.TheVariants as errors;

use crate::errors::BindError;

/// Refuses more than 1,024 resources.
pub fn few_resources(count: u64) -> Result<(), BindError>
    ensures { Passes (option_map errors.TooManyResources (findings.first (more_than 1024 count))) result }
{
    if count > 1024 {
        return Err(BindError::TooManyResources { count });
    }
    Ok(())
}
