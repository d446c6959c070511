// Macros that are found by name.
ghost use Rattle.std.specs.Prelude.{◌≡◌, take, IfOk};
ghost use Rattle.pgo_base.specs.LastPlace.{last_place};
ghost use Rattle.pgo_base.specs.Lookup.{Name};
ghost use Rattle.pgo_base.specs.NameMaps.{found};
ghost use Rattle.pgo_syntax.specs.UnitNames.{macro_name};

use pgo_base::last_place::{last_among, last_places};
use pgo_base::name_map::NameMap;
use pgo_base::slices::first;
use pgo_base::text::Text;
use pgo_syntax::macros::Macro;
use std::alloc::{AllocError, Global};
use std::marker::Model;
use std::rc::Rc;

/// Macros, the first of a list or all of it. The last one of a name is found without going over them, where no macro that stands
/// behind them has the name too.
#[derive(Drop)]
pub struct IndexedMacros<'a> {
    list: &'a [Macro],
    places: Rc<NameMap<usize>>,
}

impl<'a> Model for IndexedMacros<'a> {
    ghost use Rattle.std.specs.Prelude.{◌≡◌, ◌<◌, ℕ, List, Some, length};
    ghost use Rattle.std.specs.Coded.{codes};
    ghost use Rattle.pgo_base.specs.LastPlace.{last_place};
    ghost use Rattle.pgo_base.specs.Lookup.{Name};
    ghost use Rattle.pgo_base.specs.TreeCode.{coded_tree};
    ghost use Rattle.pgo_base.specs.NameMaps.{found};
    ghost use Rattle.pgo_syntax.specs.StatementCode.{coded_statement};
    ghost use Rattle.pgo_syntax.specs.declared.macros.Macro.{Macro};
    ghost use Rattle.pgo_syntax.specs.UnitNames.{macro_name};

    ghost Value = { List Macro };

    ghost coded = { Prim.hlevel (codes, coded_tree, coded_statement) };

    ghost view = { λ m. m.list.now };

    ghost invariant = { λ m. (x : Name) (i : ℕ) → found m.places.value x ≡ Some i → i < length m.list.now → last_place macro_name x m.list.now ≡ Some i };
}

impl<'a> IndexedMacros<'a> {
    /// These macros.
    ///
    /// Err only where there is no memory.
    pub fn new(alloc: Global, list: &'a [Macro]) -> Result<IndexedMacros<'a>, AllocError>
        ensures { IfOk result (λ m. m ≡ list.now) }
    {
        let places = Rc::new(alloc, last_places(alloc, list)?)?;
        Ok(IndexedMacros { list, places })
    }

    /// The same once more.
    ///
    /// Err only where there is no memory.
    pub fn copy(&self) -> Result<IndexedMacros<'a>, AllocError>
        ensures { IfOk result (λ m. m ≡ self.now) }
    {
        let places = self.places.clone()?;
        Ok(IndexedMacros {
            list: self.list,
            places,
        })
    }

    /// The same once more, for as long as these are lent.
    ///
    /// Err only where there is no memory.
    pub fn within<'b>(&'b self) -> Result<IndexedMacros<'b>, AllocError>
        ensures { IfOk result (λ m. m ≡ self.now) }
    {
        let places = self.places.clone()?;
        Ok(IndexedMacros {
            list: self.list,
            places,
        })
    }

    /// Those before this place.
    pub(crate) fn before(&self, place: usize) -> Result<IndexedMacros<'a>, AllocError>
        ensures { IfOk result (λ m. m ≡ take place self.now) }
    {
        let places = self.places.clone()?;
        Ok(IndexedMacros {
            list: first(self.list, place),
            places,
        })
    }

    /// The macros.
    pub(crate) fn list(&self) -> &'a [Macro]
        ensures { result.now ≡ self.now }
    {
        self.list
    }

    /// The place of the last macro of the name.
    pub(crate) fn place(&self, x: &Text) -> Option<usize>
        ensures { result ≡ last_place macro_name x.now self.now }
    {
        if let Some(place) = self.places.get(x) {
            if *place < self.list.len() {
                return Some(*place);
            }
        }
        last_among(self.list, x)
    }
}
