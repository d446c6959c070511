// Rule 2: a given constant isn't declared.
ghost use Rattle.std.specs.Prelude.{◌≡◌, map, option_map, IfOk};
ghost use Rattle.pgo_base.specs.View.{named_data};
ghost use Rattle.pgo_heads.specs.Answers.{Passes};
ghost use Rattle.pgo_heads.specs.Findings as findings;
ghost use Rattle.pgo_heads.specs.ConstUnknown as spec;
ghost use Rattle.pgo_heads.specs.declared.errors.BindError.TheVariants as errors;

use crate::declared_names::DeclaredNames;
use crate::errors::BindError;
use pgo_base::text::Text;
use pgo_base::value::Value;
use pgo_syntax::name::PlacedName;
use std::alloc::{AllocError, Global};

/// The first given constant that isn't declared.
fn first_unknown<'a>(
    alloc: Global,
    declared: &[PlacedName],
    consts: &'a [(Text, Value)],
) -> Result<Option<&'a Text>, AllocError>
    ensures { IfOk result (λ o. option_map (λ r. r.now) o ≡ findings.first (spec.unknown declared.now (map named_data consts.now))) }
{
    let names = DeclaredNames::new(alloc, declared)?;
    for c in consts {
        if !names.has(&c.0) {
            return Ok(Some(&c.0));
        }
    }
    Ok(None)
}

/// Refuses a given constant that isn't declared.
pub fn constants_declared(
    alloc: Global,
    declared: &[PlacedName],
    consts: &[(Text, Value)],
) -> Result<(), BindError>
    ensures { Passes (option_map errors.ConstUnknown (findings.first (spec.unknown declared.now (map named_data consts.now)))) result }
{
    match first_unknown(alloc, declared, consts)? {
        None => Ok(()),
        Some(name) => Err(BindError::ConstUnknown {
            name: name.copy(alloc)?,
        }),
    }
}
