// Names that are declared, each with a number.
ghost use Rattle.std.specs.Prelude.{◌≡◌, ◌||◌, [], ◌∷◌, ◌++◌, length, IfOk};
ghost use Rattle.pgo_base.specs.Lookup.{Name, same_name, find};
ghost use Rattle.pgo_uses.specs.Names.{first_at, number_at, has_row, among_all, is_earlier, is_at};

use pgo_base::name_map::NameMap;
use pgo_base::text::Text;
use std::alloc::{AllocError, Global};
use std::marker::Model;

/// Names in order, each with a number, as that of its parameters. A name is found without going over the list.
#[derive(Drop)]
pub struct Names {
    list: Vec<(Text, usize)>,
    index: NameMap<usize>,
}

impl Model for Names {
    ghost use Rattle.std.specs.Prelude.{List, ℕ};

    ghost Value = { List (List ℕ × ℕ) };

    ghost use Rattle.std.specs.Prelude.{◌≡◌};
    ghost use Rattle.pgo_base.specs.Lookup.{Name};
    ghost use Rattle.pgo_base.specs.NameMaps.{found};
    ghost use Rattle.pgo_uses.specs.Names.{first_at};

    ghost view = { λ n. n.list.items };

    ghost invariant = { λ n. (x : Name) → found n.index x ≡ first_at x n.list.items };
}

impl Names {
    /// No name.
    pub fn new(alloc: Global) -> Names
        ensures { result ≡ [] }
    {
        Names {
            list: Vec::new(alloc),
            index: NameMap::new(alloc),
        }
    }

    /// One name more, at the end, with its number.
    pub fn push(&mut self, alloc: Global, name: &Text, number: usize) -> Result<(), AllocError>
        ensures { IfOk result (λ _. self.new ≡ self.old ++ (name.now, number) ∷ []) }
    {
        let copy = name.copy(alloc)?;
        let place = self.list.len();
        self.list.reserve(1)?;
        self.index.set_first(alloc, name, place)?;
        self.list.push_reserved((copy, number));
        Ok(())
    }

    /// How many these are.
    pub fn len(&self) -> usize
        ensures { result ≡ length self.now }
    {
        self.list.len()
    }

    /// The place of the first of this name, from 0.
    pub fn position(&self, name: &Text) -> Option<usize>
        ensures { result ≡ first_at name.now self.now }
    {
        self.index.get(name).copied()
    }

    /// The number of the one in this place.
    fn number_at(&self, place: Option<usize>) -> Option<usize>
        ensures { result ≡ number_at self.now place }
    {
        match place {
            Some(i) => match self.list.get(i) {
                Some(row) => Some(row.1),
                None => None,
            },
            None => None,
        }
    }

    /// The number of the first of this name.
    pub fn find(&self, name: &Text) -> Option<usize>
        ensures { result ≡ find name.now self.now }
    {
        self.number_at(self.position(name))
    }

    /// Whether this is the name of one of the first so many.
    pub fn is_earlier(&self, count: usize, name: &Text) -> bool
        ensures { result ≡ is_earlier count name.now self.now }
    {
        match self.position(name) {
            Some(i) => i < count,
            None => false,
        }
    }

    /// Whether this is the name in this place, from 0.
    pub fn is_at(&self, place: usize, name: &Text) -> bool
        ensures { result ≡ is_at place name.now self.now }
    {
        match self.list.get(place) {
            Some(row) => name.is(&row.0),
            None => false,
        }
    }

    /// Whether there is one of this name.
    pub fn has(&self, name: &Text) -> bool
        ensures { result ≡ has_row name.now self.now }
    {
        self.find(name).is_some()
    }

    /// The name, where there is none of it yet, with the number 0.
    #[tactic(auto, using(crate::proofs::Among::among_push, crate::proofs::Among::among_there))]
    pub fn add(&mut self, alloc: Global, name: &Text) -> Result<(), AllocError>
        ensures { IfOk result (λ _. (x : Name) → has_row x self.new ≡ same_name x name.now || has_row x self.old) }
    {
        if self.has(name) {
            return Ok(());
        }
        self.push(alloc, name, 0)?;
        Ok(())
    }

    /// The names of the other, where there are none of them yet.
    pub fn add_all(&mut self, alloc: Global, other: &Names) -> Result<(), AllocError>
        ensures { IfOk result (λ _. (x : Name) → has_row x self.new ≡ among_all (has_row x self.old) other.now x) }
    {
        for row in &other.list {
            self.add(alloc, &row.0)?;
        }
        Ok(())
    }
}
