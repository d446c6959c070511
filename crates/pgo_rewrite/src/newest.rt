// Names with values, of which the newest counts.
ghost use Rattle.std.specs.Prelude.{◌≡◌, [], ◌∷◌, reverse, option_map, IfOk};
ghost use Rattle.pgo_base.specs.Lookup.{find};

use pgo_base::items::Copied;
use pgo_base::name_map::NameMap;
use pgo_base::text::Text;
use std::alloc::{AllocError, Global};
use std::marker::Model;

/// Names with values, the newest first; the newest of a name counts. A name is found without going over the list.
#[derive(Drop)]
pub struct Newest<T> {
    list: Vec<(Text, T)>,
    places: NameMap<usize>,
}

impl<T> Model for Newest<T> {
    ghost use Rattle.std.specs.Prelude.{◌≡◌, List, ℕ, reverse};
    ghost use Rattle.std.specs.Coded.{coded_list, coded_ℕ, coded×};
    ghost use Rattle.pgo_base.specs.LastPlace.{last_place};
    ghost use Rattle.pgo_base.specs.Lookup.{Name};
    ghost use Rattle.pgo_base.specs.NameMaps.{found};

    ghost Value = { List (List ℕ × T) };

    ghost coded = { coded_list (coded× (coded_list coded_ℕ) T.code) };

    ghost view = { λ n. reverse n.list.items };

    ghost invariant = { λ n. (x : Name) → found n.places x ≡ last_place (λ r. r.0) x n.list.items };
}

impl<T> Newest<T> {
    /// No name.
    pub fn new(alloc: Global) -> Newest<T>
        ensures { result ≡ [] }
    {
        Newest {
            list: Vec::new(alloc),
            places: NameMap::new(alloc),
        }
    }

    /// The names with their values, the oldest first.
    pub fn as_slice(&self) -> &[(Text, T)]
        ensures { reverse result.now ≡ self.now }
    {
        self.list.as_slice()
    }

    /// The value of a name.
    pub fn find(&self, name: &Text) -> Option<&T>
        ensures { option_map (λ r. r.now) result ≡ find name.now self.now }
    {
        match self.places.get(name) {
            Some(place) => match self.list.get(*place) {
                Some(row) => Some(&row.1),
                None => None,
            },
            None => None,
        }
    }
}

impl<T: Drop> Newest<T> {
    /// One name more, before the others.
    ///
    /// Err only where there is no memory.
    pub fn push(&mut self, name: Text, value: T) -> Result<(), AllocError>
        ensures { IfOk result (λ _. self.new ≡ (name, value) ∷ self.old) }
    {
        let place = self.list.len();
        self.list.reserve(1)?;
        self.places.set(*self.list.allocator(), &name, place)?;
        self.list.push_reserved((name, value));
        Ok(())
    }
}

impl<T: Copied> Newest<T> {
    /// The same once more.
    ///
    /// Err only where there is no memory.
    pub fn copy(&self, alloc: Global) -> Result<Newest<T>, AllocError>
        ensures { IfOk result (λ n. n ≡ self.now) }
    {
        let mut all = Newest::new(alloc);
        for item in &self.list {
            all.push(item.0.copy(alloc)?, item.1.copy(alloc)?)?;
        }
        Ok(all)
    }
}
