// Rule 1: a declared constant isn't given.
ghost use Rattle.std.specs.Prelude.{◌≡◌, map, option_map, IfOk};
ghost use Rattle.pgo_base.specs.View.{named_data};
ghost use Rattle.pgo_heads.specs.Answers.{Passes};
ghost use Rattle.pgo_heads.specs.Findings as findings;
ghost use Rattle.pgo_heads.specs.ConstMissing as spec;
ghost use Rattle.pgo_heads.specs.declared.errors.BindError.TheVariants as errors;

use crate::errors::BindError;
use crate::given_values::GivenValues;
use pgo_base::text::Text;
use pgo_base::value::Value;
use pgo_syntax::name::PlacedName;
use std::alloc::{AllocError, Global};

/// The first declared constant that isn't given.
fn first_missing<'a>(
    alloc: Global,
    declared: &'a [PlacedName],
    consts: &[(Text, Value)],
) -> Result<Option<&'a Text>, AllocError>
    ensures { IfOk result (λ o. option_map (λ r. r.now) o ≡ findings.first (spec.missing declared.now (map named_data consts.now))) }
{
    let given = GivenValues::new(alloc, consts)?;
    for c in declared {
        if given.get(&c.name).is_none() {
            return Ok(Some(&c.name));
        }
    }
    Ok(None)
}

/// Refuses a declared constant that isn't given.
pub fn constants_given(
    alloc: Global,
    declared: &[PlacedName],
    consts: &[(Text, Value)],
) -> Result<(), BindError>
    ensures { Passes (option_map errors.ConstMissing (findings.first (spec.missing declared.now (map named_data consts.now)))) result }
{
    match first_missing(alloc, declared, consts)? {
        None => Ok(()),
        Some(name) => Err(BindError::ConstMissing {
            name: name.copy(alloc)?,
        }),
    }
}
