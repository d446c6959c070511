// Names in order, found without going over the list.
ghost use Rattle.std.specs.Prelude.{◌≡◌, [], ◌∷◌, ◌++◌, take, IfOk};
ghost use Rattle.pgo_model.specs.Names.{is_among};

use pgo_base::name_map::NameMap;
use pgo_base::text::Text;
use std::alloc::{AllocError, Global};
use std::marker::Model;

/// Names in order. Whether a name is one of the first so many is found without going over them.
#[derive(Drop)]
pub struct IndexedNames {
    list: Vec<Text>,
    places: NameMap<usize>,
}

impl Model for IndexedNames {
    ghost use Rattle.std.specs.Prelude.{◌≡◌, List, ℕ};
    ghost use Rattle.std.specs.Coded.{coded_list, coded_ℕ};
    ghost use Rattle.pgo_base.specs.Lookup.{Name};
    ghost use Rattle.pgo_base.specs.NameMaps.{found};
    ghost use Rattle.pgo_base.specs.FirstPlace.{first_place};

    ghost Value = { List (List ℕ) };

    ghost coded = { coded_list (coded_list coded_ℕ) };

    ghost view = { λ n. n.list.items };

    ghost invariant = { λ n. (x : Name) → found n.places x ≡ first_place (λ y. y) x n.list.items };
}

impl IndexedNames {
    /// No name.
    pub fn new(alloc: Global) -> IndexedNames
        ensures { result ≡ [] }
    {
        IndexedNames {
            list: Vec::new(alloc),
            places: NameMap::new(alloc),
        }
    }

    /// The names as a slice.
    pub fn as_slice(&self) -> &[Text]
        ensures { result.now ≡ self.now }
    {
        self.list.as_slice()
    }

    /// One name more, at the end.
    ///
    /// Err only where there is no memory.
    pub fn push(&mut self, alloc: Global, name: Text) -> Result<(), AllocError>
        ensures { IfOk result (λ _. self.new ≡ self.old ++ name ∷ []) }
    {
        let place = self.list.len();
        self.list.reserve(1)?;
        self.places.set_first(alloc, &name, place)?;
        self.list.push_reserved(name);
        Ok(())
    }

    /// Whether a name is one of the first so many.
    pub fn has_before(&self, count: usize, name: &Text) -> bool
        ensures { result ≡ is_among name.now (take count self.now) }
    {
        match self.places.get(name) {
            Some(place) => *place < count,
            None => false,
        }
    }
}
