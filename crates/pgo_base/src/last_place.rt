// The first and the last of a name in a list.
ghost use Rattle.std.specs.Prelude.{◌≡◌, List, IfOk, option_map};
ghost use Rattle.pgo_base.specs.FirstPlace.{first_named};
ghost use Rattle.pgo_base.specs.LastPlace.{last_place};
ghost use Rattle.pgo_base.specs.Lookup.{Name};
ghost use Rattle.pgo_base.specs.NameMaps.{found};
ghost use Rattle.pgo_base.specs.View.{name_in_pair};

use crate::name_map::NameMap;
use crate::text::Text;
use crate::value::Value;
use std::alloc::{AllocError, Global};

/// What has a name.
pub trait Named {
    ghost name_of: { Self → Name };

    /// The name.
    fn name(&self) -> &Text
        ensures { result.now ≡ name_of self.now };
}

impl Named for (Text, Value) {
    ghost name_of = { name_in_pair };

    /// Its name.
    fn name(&self) -> &Text {
        &self.0
    }
}

/// The place of the last of the name.
pub fn last_among<T: Named>(list: &[T], name: &Text) -> Option<usize>
    ensures { result ≡ last_place T.name_of name.now list.now }
{
    let mut i = list.len();
    while i > 0 {
        i -= 1;
        if name.is(list[i].name()) {
            return Some(i);
        }
    }
    None
}

/// The place of the last of each name.
///
/// Err only where there is no memory.
pub fn last_places<T: Named>(alloc: Global, list: &[T]) -> Result<NameMap<usize>, AllocError>
    ensures { IfOk result (λ m. (x : Name) → found m x ≡ last_place T.name_of x list.now) }
{
    let mut places = NameMap::new(alloc);
    for i in 0..list.len() {
        places.set(alloc, list[i].name(), i)?;
    }
    Ok(places)
}

/// The first of each name.
///
/// Err only where there is no memory.
pub fn first_of_each<'a, T: Named>(
    alloc: Global,
    list: &'a [T],
) -> Result<NameMap<&'a T>, AllocError>
    ensures { IfOk result (λ m. (x : Name) → option_map (λ r. r.now) (found m x) ≡ first_named T.name_of x list.now) }
{
    let mut first = NameMap::new(alloc);
    let mut i = list.len();
    while i > 0 {
        i -= 1;
        let item = &list[i];
        first.set(alloc, item.name(), item)?;
    }
    Ok(first)
}
