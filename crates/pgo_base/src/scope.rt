// The value of each variable, and what an expression sees.
ghost use Rattle.std.specs.Prelude.{◌≡◌, ◌<◌, ◌↔◌, Bool, true, false, IsTrue, List, ℕ, Option, Some, None, length, option_map, map, set, slice_get, IfOk, IfSome};
ghost use Rattle.pgo_base.specs.Data.{Data};
ghost use Rattle.pgo_base.specs.View.{data_of, named_data};
ghost use Rattle.pgo_base.specs.Lists.{StandOnce};
ghost use Rattle.pgo_base.specs.Lookup.{find};
ghost use Rattle.pgo_base.specs.NameMaps.{has_name};
ghost use Rattle.pgo_base.specs.States.{name_in, IsKnown, first_place, AreAlike, are_alike_prop};

use crate::bindings::{Bindings, row_at};
use crate::name_map::NameMap;
use crate::text::Text;
use crate::value::Value;
use std::alloc::{AllocError, Global};
use std::marker::Model;
use std::mem::replace;

/// The value of each variable, in order; and whether it is known that no two variables have one name.
pub struct State {
    list: Vec<(Text, Value)>,
    once: bool,
}

impl Drop for State {
    fn drop(self) {
        let State { list, once } = self;
    }
}

impl Model for State {
    ghost use Rattle.std.specs.Prelude.{List, ℕ, map};
    ghost use Rattle.pgo_base.specs.Data.{Data};
    ghost use Rattle.pgo_base.specs.Code.{coded_state};

    ghost Value = { List (List ℕ × Data) };

    ghost coded = { coded_state };

    ghost use Rattle.pgo_base.specs.View.{named_data};

    ghost view = { λ s. map named_data s.list.items };

    ghost use Rattle.pgo_base.specs.States.{IsKnown};

    ghost invariant = { λ s. IsKnown s.once (map named_data s.list.items) };
}

impl State {
    /// The value of a variable.
    pub fn find(&self, name: &Text) -> Option<&Value>
        ensures { option_map (λ r. data_of r.now) result ≡ find name.now self.now }
    {
        for p in &self.list {
            if name.is(&p.0) {
                return Some(&p.1);
            }
        }
        None
    }

    /// The value of the variable whose name has these bytes.
    pub fn find_bytes(&self, name: &[u8]) -> Option<&Value>
        ensures { option_map (λ r. data_of r.now) result ≡ find name.now self.now }
    {
        for p in &self.list {
            if p.0.is_bytes(name) {
                return Some(&p.1);
            }
        }
        None
    }

    /// The value of a variable, and its place, with another guess for the next variable: it is looked for at this place first.
    /// Where it is there, and the names are known to be different (`names_once`), that takes a step.
    pub fn find_near(&self, name: &Text, place: usize) -> Option<(usize, &Value)>
        ensures value { option_map (λ r. data_of r.1.now) result ≡ find name.now self.now }
        ensures place { IfSome result (λ r. slice_get self.now r.0 ≡ Some (name.now, data_of r.1.now)) }
        ensures first { IfSome result (λ r. first_place name.now self.now ≡ Some r.0) }
    {
        match self.find_at(name, place) {
            Some(v) => Some((place, v)),
            None => self.find_with_place(name),
        }
    }

    /// The value of a variable where it stands at this place and the names are known to be different.
    fn find_at(&self, name: &Text, place: usize) -> Option<&Value>
        ensures value { (v : Data) → option_map (λ r. data_of r.now) result ≡ Some v → find name.now self.now ≡ Some v }
        ensures place { IfSome result (λ r. slice_get self.now place ≡ Some (name.now, data_of r.now)) }
        ensures first { IfSome result (λ r. first_place name.now self.now ≡ Some place) }
    {
        if !self.once {
            return None;
        }
        match row_at(self.list.as_slice(), place) {
            Some(p) => { if name.is(&p.0) { Some(&p.1) } else { None } }
            None => None,
        }
    }

    /// The value of a variable, and its place.
    fn find_with_place(&self, name: &Text) -> Option<(usize, &Value)>
        ensures value { option_map (λ r. data_of r.1.now) result ≡ find name.now self.now }
        ensures place { IfSome result (λ r. slice_get self.now r.0 ≡ Some (name.now, data_of r.1.now)) }
        ensures first { IfSome result (λ r. first_place name.now self.now ≡ Some r.0) }
    {
        for (i, p) in self.list.iter().enumerate() {
            if name.is(&p.0) {
                return Some((i, &p.1));
            }
        }
        None
    }
}

/// The states around an expression: the state, the next state where there is one, and at which places of the state it is known
/// that a variable has the same value in both.
#[derive(Clone, Copy)]
pub struct Around<'a> {
    pub state: &'a State,
    pub next: Option<&'a State>,
    pub kept: &'a [bool],
    ghost alike: { AreAlike state.now (option_map (λ r. r.now) next) kept.now } by { are_alike_prop state.now (option_map (λ r. r.now) next) kept.now },
}

impl<'a> Around<'a> {
    /// A state alone.
    pub fn one(state: &'a State) -> Around<'a>
        ensures state { result.state.now ≡ state.now }
        ensures next { result.next ≡ None }
    {
        Around {
            state,
            next: None,
            kept: &[],
        }
    }

    /// A state and the next, where there is one, which has what stands at the kept places too.
    pub fn new(state: &'a State, next: Option<&'a State>, kept: &'a [bool]) -> Around<'a>
        requires { AreAlike state.now (option_map (λ r. r.now) next) kept.now }
        ensures state { result.state.now ≡ state.now }
        ensures next { result.next ≡ next.entry }
    {
        Around { state, next, kept }
    }

    /// Whether it is known of this place that the variable there has the same value in both states.
    pub fn is_kept(&self, place: usize) -> bool
        ensures { IsTrue result ↔ slice_get self.now.kept.now place ≡ Some true }
    {
        match self.kept.get(place) {
            Some(kept) => *kept,
            None => false,
        }
    }
}

/// What an expression sees beside the definitions: the names in scope, and the states around it.
#[derive(Clone, Copy)]
pub struct Env<'names, 'around> {
    pub names: &'names Bindings<'names>,
    pub around: Around<'around>,
}

impl State {
    pub fn from_vec(list: Vec<(Text, Value)>) -> State
        ensures { result ≡ map named_data list.items }
    {
        State { list, once: false }
    }

    /// The same state. Whether no two variables have one name is known afterwards, also of its copies.
    pub fn names_once(self, alloc: Global) -> Result<State, AllocError>
        ensures { IfOk result (λ s. s ≡ self) }
    {
        let State { list, once: _ } = self;
        let once = stand_once(alloc, list.as_slice())?;
        Ok(State { list, once })
    }

    /// Another value at a place, in place; the result is the one before. The names stay.
    pub fn replace(&mut self, place: usize, value: Value) -> Value
        requires { place < length self.old }
        ensures { (p : List ℕ × Data) → slice_get self.old place ≡ Some p → (data_of result ≡ p.1) × (self.new ≡ set self.old place (p.0, data_of value)) }
    {
        replace(&mut self.list[place].1, value)
    }
}

/// Whether no two of these have one name. False says nothing.
fn stand_once(alloc: Global, list: &[(Text, Value)]) -> Result<bool, AllocError>
    ensures { IfOk result (λ b. IsKnown b (map named_data list.now)) }
{
    let mut names = NameMap::new(alloc);
    let mut i = list.len();
    while i > 0 {
        i -= 1;
        let name = &list[i].0;
        if names.contains(name) {
            return Ok(false);
        }
        names.set(alloc, name, ())?;
    }
    Ok(true)
}

impl State {
    /// Each variable with its value, in order.
    pub fn as_slice(&self) -> &[(Text, Value)]
        ensures { map named_data result.now ≡ self.now }
    {
        self.list.as_slice()
    }

    /// The same state once more.
    pub fn copy(&self, alloc: Global) -> Result<State, AllocError>
        ensures { IfOk result (λ s. s ≡ self.now) }
    {
        let mut list = Vec::with_capacity(alloc, self.list.len())?;
        for p in &self.list {
            list.push((p.0.copy(alloc)?, p.1.copy(alloc)?))?;
        }
        Ok(State {
            list,
            once: self.once,
        })
    }
}

impl State {
    /// Each variable with its value, in order.
    pub fn into_vec(self) -> Vec<(Text, Value)>
        ensures { map named_data result.items ≡ self }
    {
        let State { list, once: _ } = self;
        list
    }
}
