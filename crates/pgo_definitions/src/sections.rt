// The definitions that the sections of a specification use.
ghost use Rattle.std.specs.Prelude.{◌≡◌, IfOk};
ghost use Rattle.pgo_definitions.specs.Meant.{meant};

use crate::evaluate::by_values;
use crate::used::used_definitions;
use pgo_base::module::Defs;
use pgo_syntax::bound::Bound;
use pgo_uses::all_uses::all_uses;
use pgo_uses::uses::{Form, Home, Use};
use std::alloc::{AllocError, Global};
use std::collections::BTreeSet;

/// Whether it is evaluated where sections run: it stands in a macro, a mapping macro or the body of an archetype.
fn is_in_sections(home: Home) -> bool {
    match home {
        Home::Macro(_) => true,
        Home::Mapping => true,
        Home::Body(_) => true,
        _ => false,
    }
}

/// Whether a name may stand for a definition without parameters there.
fn may_be_definition(one: &Use) -> bool {
    match one.form {
        Form::Alone => !one.inner && is_in_sections(one.around.home),
        _ => false,
    }
}

/// The names that may stand for definitions without parameters in sections.
fn names_in_sections(alloc: Global, uses: &[Use]) -> Result<BTreeSet<&[u8]>, AllocError> {
    let mut names = BTreeSet::new(alloc);
    for one in uses {
        if may_be_definition(one) {
            names.insert(one.name.as_bytes())?;
        }
    }
    Ok(names)
}

/// Which definitions the sections of a specification use, from the last to the first.
fn used_in_sections(alloc: Global, bound: &Bound) -> Result<Vec<bool>, AllocError> {
    let uses = all_uses(alloc, &bound.spec)?;
    let names = names_in_sections(alloc, uses.as_slice())?;
    used_definitions(alloc, names, bound.defs.as_slice())
}

/// Definitions that mean the same as those of what is bound, in which each without parameters is given by its value whose name stands
/// in the body of an archetype, in a macro or in a mapping macro, or in the body of a definition that is used there. So it costs its
/// evaluation once, however often it is used.
///
/// Err where there is no memory, or where a definition's expressions nest too deep to be evaluated.
pub fn evaluated_for_sections(alloc: Global, bound: &Bound) -> Result<Defs, AllocError>
    ensures { IfOk result (λ ds. meant ds ≡ meant bound.now.defs) }
{
    let used = used_in_sections(alloc, bound)?;
    by_values(alloc, &bound.defs, used.as_slice())
}
