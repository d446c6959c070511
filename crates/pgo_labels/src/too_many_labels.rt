// Rule 7: an archetype has more than 256 labels.
ghost use Rattle.std.specs.Prelude.{◌≡◌, IfOk};
ghost use Rattle.pgo_syntax.specs.Least.{least};
ghost use Rattle.pgo_labels.specs.TooManyLabels as spec;

use crate::finding::{Finding, Rule, make_finding};
use crate::names::body_labels;
use pgo_base::text::Text;
use pgo_syntax::archetype::Archetype;
use std::alloc::{AllocError, Global};

/// The most labels that an archetype may have.
const MOST_LABELS: usize = 256;

/// More labels than there may be.
pub fn too_many_labels(alloc: Global, a: &Archetype) -> Result<Option<Finding>, AllocError>
    ensures { IfOk result (λ f. f ≡ least (λ f. f.place) (spec.too_many_labels a.now)) }
{
    let labels = body_labels(alloc, &a.body)?;
    if labels.len() <= MOST_LABELS {
        return Ok(None);
    }
    let none = Text::new(alloc);
    let found = make_finding(
        alloc,
        Rule::TooManyLabels,
        a.name.place,
        &a.name.name,
        &none,
    )?;
    Ok(Some(found))
}
