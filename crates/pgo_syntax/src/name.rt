// Names with their places in the text.
ghost use Rattle.std.specs.Prelude.{◌≡◌, [], ◌∷◌, ◌++◌, IfOk};
ghost use Rattle.pgo_model.specs.Written.{written};

use pgo_base::items::{Copied, Items};
use pgo_base::text::Text;
use std::alloc::{AllocError, Global};

/// A name that stands in the text of a specification, with its place: the offset of its first byte.
///
/// Source: this project's choice; a refusal is shown at the first place in the text.
#[derive(Drop)]
pub struct PlacedName {
    pub name: Text,
    pub place: u32,
}

impl Copied for PlacedName {
    /// The same name once more, with its place.
    fn copy(&self, alloc: Global) -> Result<PlacedName, AllocError>
        ensures { IfOk result (λ n. n ≡ self.now) }
    {
        Ok(PlacedName {
            name: self.name.copy(alloc)?,
            place: self.place,
        })
    }
}

/// The same name once more, if there is one.
pub fn copy_optional(
    alloc: Global,
    name: &Option<PlacedName>,
) -> Result<Option<PlacedName>, AllocError>
    ensures { IfOk result (λ n. n ≡ name.now) }
{
    match name {
        Some(name) => Ok(Some(name.copy(alloc)?)),
        None => Ok(None),
    }
}

/// The written name of a label or a variable of a process: the process's name, `_` and its own.
///
/// Err where there is no memory.
pub fn written_name(alloc: Global, process: &[u8], name: &Text) -> Result<Text, AllocError>
    ensures { IfOk result (λ t. t ≡ written process.now name.now) }
{
    let mut bytes = Vec::from_slice(alloc, process)?;
    bytes.push(b'_')?;
    bytes.extend_from_slice(name.as_bytes())?;
    Ok(Text::from_bytes(bytes)?)
}

/// Names in order.
pub type PlacedNames = Items<PlacedName>;
