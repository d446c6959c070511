// Rule 5: a label of an archetype is called `Done`.
ghost use Rattle.std.specs.Prelude.{◌≡◌, filter, IfOk};
ghost use Rattle.pgo_base.specs.Lookup.{same_name};
ghost use Rattle.pgo_labels.specs.Labels.{done};
ghost use Rattle.pgo_syntax.specs.Least.{least};
ghost use Rattle.pgo_labels.specs.Lent.{lent};
ghost use Rattle.pgo_labels.specs.ReservedDone as spec;

use crate::finding::{Finding, Rule, least_finding};
use crate::names::{body_labels, is_done};
use pgo_syntax::archetype::Archetype;
use pgo_syntax::name::PlacedName;
use std::alloc::{AllocError, Global};

/// Those of the labels that are called `Done`.
fn reserved<'a>(alloc: Global, labels: &[&'a PlacedName]) -> Result<Vec<&'a PlacedName>, AllocError>
    ensures { IfOk result (λ v. lent v.items ≡ filter (λ l. same_name l.name done) (lent labels.now)) }
{
    let mut names = Vec::new(alloc);
    for label in labels {
        if is_done(&label.name) {
            names.push(*label)?;
        }
    }
    Ok(names)
}

/// A label that is called `Done`.
pub fn reserved_done(alloc: Global, a: &Archetype) -> Result<Option<Finding>, AllocError>
    ensures { IfOk result (λ f. f ≡ least (λ f. f.place) (spec.reserved_done a.now)) }
{
    let labels = body_labels(alloc, &a.body)?;
    let names = reserved(alloc, labels.as_slice())?;
    least_finding(alloc, Rule::ReservedDone, &a.name.name, names.as_slice())
}
