// The labels among statements, and the name `Done`.
ghost use Rattle.std.specs.Prelude.{◌≡◌, map, IfOk};
ghost use Rattle.pgo_base.specs.Lookup.{same_name};
ghost use Rattle.pgo_labels.specs.Inside.{with_inside};
ghost use Rattle.pgo_labels.specs.Labels as spec;
ghost use Rattle.pgo_labels.specs.Lent.{lent};
ghost use Rattle.pgo_labels.specs.Parts.{see};

use crate::items::{Item, items_of_body};
use pgo_base::text::Text;
use pgo_syntax::name::PlacedName;
use pgo_syntax::statement::Block;
use std::alloc::{AllocError, Global};

/// The labels of these statements.
pub fn labels_of<'a>(alloc: Global, items: &[Item<'a>]) -> Result<Vec<&'a PlacedName>, AllocError>
    ensures { IfOk result (λ v. lent v.items ≡ spec.labels_of (map see items.now)) }
{
    let mut names = Vec::new(alloc);
    for item in items {
        if let Some(label) = item.label() {
            names.push(label)?;
        }
    }
    Ok(names)
}

/// The labels of a body.
pub fn body_labels<'a>(alloc: Global, body: &'a Block) -> Result<Vec<&'a PlacedName>, AllocError>
    ensures { IfOk result (λ v. lent v.items ≡ spec.labels_of (with_inside body.entry.now)) }
{
    let items = items_of_body(alloc, body)?;
    labels_of(alloc, items.as_slice())
}

/// Whether a name is `Done`.
pub fn is_done(name: &Text) -> bool
    ensures { result ≡ same_name name.now spec.done }
{
    let done: &[u8] = b"Done";
    name.as_bytes().cmp(done).is_eq()
}
