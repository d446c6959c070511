// Rule 4: an archetype has a label that stands before in it.
ghost use Rattle.std.specs.Prelude.{◌≡◌, [], IfOk};
ghost use Rattle.pgo_labels.specs.LabelTwice as spec;
ghost use Rattle.pgo_syntax.specs.Least.{least};
ghost use Rattle.pgo_labels.specs.Lent.{lent};

use crate::finding::{Finding, Rule, least_finding};
use crate::names::body_labels;
use pgo_base::name_map::NameMap;
use pgo_syntax::archetype::Archetype;
use pgo_syntax::name::PlacedName;
use std::alloc::{AllocError, Global};

/// Those of the labels that stand before too.
fn repeated<'a>(alloc: Global, labels: &[&'a PlacedName]) -> Result<Vec<&'a PlacedName>, AllocError>
    ensures { IfOk result (λ v. lent v.items ≡ spec.repeated [] (lent labels.now)) }
{
    let mut before = NameMap::new(alloc);
    let mut names = Vec::new(alloc);
    for label in labels {
        if before.contains(&label.name) {
            names.push(*label)?;
        }
        before.set(alloc, &label.name, ())?;
    }
    Ok(names)
}

/// A label that stands twice.
pub fn label_twice(alloc: Global, a: &Archetype) -> Result<Option<Finding>, AllocError>
    ensures { IfOk result (λ f. f ≡ least (λ f. f.place) (spec.label_twice a.now)) }
{
    let labels = body_labels(alloc, &a.body)?;
    let names = repeated(alloc, labels.as_slice())?;
    least_finding(alloc, Rule::LabelTwice, &a.name.name, names.as_slice())
}
