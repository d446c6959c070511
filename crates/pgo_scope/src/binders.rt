// Which macros bind which names.
ghost use Rattle.std.specs.Prelude.{◌≡◌, false, ◌||◌, ◌&&◌, nat_eq, ℕ, IfOk};
ghost use Rattle.pgo_base.specs.Lookup.{Name, same_name};
ghost use Rattle.pgo_scope.specs.Binders as spec;
ghost use Rattle.pgo_scope.specs.Binders.{binds, some_binds};
ghost use Rattle.pgo_scope.specs.Twice.{binds_of, is_bound_in};

use crate::places::add_place;
use pgo_base::name_map::NameMap;
use pgo_base::text::Text;
use pgo_syntax::macros::Macro;
use pgo_uses::unit_uses::add_macro;
use pgo_uses::uses::{Form, Use};
use std::alloc::{AllocError, Global};
use std::collections::BTreeSet;

/// For each name, the places of the macros that bind it.
#[derive(Drop)]
pub struct Binders {
    pub map: NameMap<BTreeSet<usize>>,
}

impl Binders {
    /// No name is bound.
    fn new(alloc: Global) -> Binders
        ensures { (i : ℕ) (x : Name) → binds result i x ≡ false }
    {
        Binders {
            map: NameMap::new(alloc),
        }
    }

    /// The macro in this place binds the name too.
    fn add(&mut self, alloc: Global, name: &Text, place: usize) -> Result<(), AllocError>
        ensures { IfOk result (λ _. (i : ℕ) (x : Name) → binds self.new i x ≡ binds self.old i x || (same_name x name.now && nat_eq place i)) }
    {
        let mut places = self.map.take(name).unwrap_or(BTreeSet::new(alloc));
        add_place(place, &mut places)?;
        self.map.set(alloc, name, places)?;
        Ok(())
    }

    /// The macro in this place binds the name of this use too, if that is bound there.
    fn add_use(&mut self, alloc: Global, u: &Use, place: usize) -> Result<(), AllocError>
        ensures { IfOk result (λ _. (i : ℕ) (x : Name) → binds self.new i x ≡ binds self.old i x || (binds_of x u.now u.now.form && nat_eq place i)) }
    {
        match &u.form {
            Form::Bound => self.add(alloc, &u.name, place),
            _ => Ok(()),
        }
    }

    /// The macro in this place binds those of these names too that are bound there.
    fn add_uses(&mut self, alloc: Global, uses: &[Use], place: usize) -> Result<(), AllocError>
        ensures { IfOk result (λ _. (i : ℕ) (x : Name) → binds self.new i x ≡ binds self.old i x || (is_bound_in false uses.now x && nat_eq place i)) }
    {
        for u in uses {
            self.add_use(alloc, u, place)?;
        }
        Ok(())
    }

    /// Whether one of these macros binds the name.
    pub fn some_binds(&self, places: &BTreeSet<usize>, x: &Text) -> bool
        ensures { result ≡ some_binds self.now places.now x.now }
    {
        match self.map.get(x) {
            Some(binders) => !binders.is_disjoint(places),
            None => false,
        }
    }
}

/// For each name, which of these macros bind it.
pub fn all_binders(alloc: Global, list: &[Macro]) -> Result<Binders, AllocError>
    ensures { IfOk result (λ b. (i : ℕ) (x : Name) → binds b i x ≡ spec.bound_at list.now i x) }
{
    let mut binders = Binders::new(alloc);
    for (i, m) in list.iter().enumerate() {
        let mut uses = Vec::new(alloc);
        add_macro(alloc, i, m, &mut uses)?;
        binders.add_uses(alloc, uses.as_slice(), i)?;
    }
    Ok(binders)
}
