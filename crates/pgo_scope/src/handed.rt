// The names that stand in arguments of macros' calls.
ghost use Rattle.std.specs.Prelude.{◌≡◌, false, ◌||◌, not, ◌&&◌, IfOk};
ghost use Rattle.pgo_base.specs.Lookup.{Name, same_name};
ghost use Rattle.pgo_uses.specs.Names.{has_row};
ghost use Rattle.pgo_scope.specs.Binders.{some_binds, is_handed, is_captured, or_if};
ghost use Rattle.pgo_scope.specs.declared.binders.Binders.{Binders};
ghost use Rattle.pgo_scope.specs.Twice as spec;

use crate::places::all_places;
use pgo_base::name_map::NameMap;
use pgo_base::text::Text;
use pgo_uses::names::Names;
use pgo_uses::uses::{Form, Use};
use std::alloc::{AllocError, Global};
use std::collections::BTreeSet;

/// For each name that stands in arguments of calls, the places of the macros whose bound names may not stand in these.
#[derive(Drop)]
pub struct HandedOn<'a> {
    pub map: NameMap<Vec<&'a BTreeSet<usize>>>,
}

impl<'a> HandedOn<'a> {
    /// No name stands in arguments.
    pub fn new(alloc: Global) -> HandedOn<'a>
        ensures { (b : Binders) (p : Name) (x : Name) → is_handed b result p x ≡ false }
    {
        HandedOn {
            map: NameMap::new(alloc),
        }
    }

    /// The macros whose bound names may not stand in the arguments in which this name stands, and these.
    pub fn places_of(
        &self,
        alloc: Global,
        own: &BTreeSet<usize>,
        name: &Text,
    ) -> Result<BTreeSet<usize>, AllocError>
        ensures { IfOk result (λ s. (b : Binders) (x : Name) → some_binds b s x ≡ is_captured b self.now own.now name.now x) }
    {
        match self.map.get(name) {
            Some(list) => all_places(alloc, list.as_slice(), own),
            None => all_places(alloc, &[], own),
        }
    }

    /// The name stands in an argument in which what these macros bind may not stand.
    fn add(
        &mut self,
        alloc: Global,
        name: &Text,
        places: &'a BTreeSet<usize>,
    ) -> Result<(), AllocError>
        ensures { IfOk result (λ _. (b : Binders) (p : Name) (x : Name) → is_handed b self.new p x ≡ or_if (same_name p name.now) (some_binds b places.now x) (is_handed b self.old p x)) }
    {
        let mut list = self.map.take(name).unwrap_or(Vec::new(alloc));
        list.push(places)?;
        self.map.set(alloc, name, list)?;
        Ok(())
    }

    /// The name, where it is not among those seen before, stands in an argument in which what these macros bind may not
    /// stand.
    #[tactic(auto, using(crate::proofs::CaptureLaws::not_new, crate::proofs::CaptureLaws::still_new, pgo_uses::proofs::Among::among_there))]
    fn add_new(
        &mut self,
        alloc: Global,
        name: &Text,
        places: &'a BTreeSet<usize>,
        seen: &mut Names,
    ) -> Result<(), AllocError>
        ensures seen { IfOk result (λ _. (p : Name) → has_row p seen.new ≡ same_name p name.now || has_row p seen.old) }
        ensures noted { IfOk result (λ _. (b : Binders) (p : Name) (x : Name) → is_handed b self.new p x ≡ or_if (same_name p name.now && not (has_row p seen.old)) (some_binds b places.now x) (is_handed b self.old p x)) }
    {
        if seen.has(name) {
            return Ok(());
        }
        seen.add(alloc, name)?;
        self.add(alloc, name, places)
    }

    /// The name of this use, where it is not among those seen before, stands in an argument in which what these macros bind
    /// may not stand.
    fn add_use(
        &mut self,
        alloc: Global,
        u: &Use,
        places: &'a BTreeSet<usize>,
        seen: &mut Names,
    ) -> Result<(), AllocError>
        ensures seen { IfOk result (λ _. (p : Name) → has_row p seen.new ≡ spec.stands_of p u.now u.now.form || has_row p seen.old) }
        ensures noted { IfOk result (λ _. (b : Binders) (p : Name) (x : Name) → is_handed b self.new p x ≡ or_if (spec.stands_of p u.now u.now.form && not (has_row p seen.old)) (some_binds b places.now x) (is_handed b self.old p x)) }
    {
        match &u.form {
            Form::Field => Ok(()),
            _ => self.add_new(alloc, &u.name, places, seen),
        }
    }

    /// Each name of these uses stands in an argument in which what these macros bind may not stand.
    pub fn add_uses(
        &mut self,
        alloc: Global,
        uses: &[Use],
        places: &'a BTreeSet<usize>,
    ) -> Result<(), AllocError>
        ensures { IfOk result (λ _. (b : Binders) (p : Name) (x : Name) → is_handed b self.new p x ≡ or_if (spec.stands_in p uses.now) (some_binds b places.now x) (is_handed b self.old p x)) }
    {
        let mut seen = Names::new(alloc);
        for u in uses {
            self.add_use(alloc, u, places, &mut seen)?;
        }
        Ok(())
    }
}
