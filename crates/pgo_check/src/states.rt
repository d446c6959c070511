// The state that an entry of a log leads to.
ghost use Rattle.std.specs.Prelude.{◌≡◌, ◌↔◌, IsTrue, map, Some, None, option_map, IfOk};
ghost use Rattle.pgo_base.specs.View.{data_of};
ghost use Rattle.pgo_base.specs.Data.{function, pairs, string};
ghost use Rattle.pgo_base.specs.States.{AreAlike};
ghost use Rattle.pgo_model.specs.Acts.{Acts};
ghost use Rattle.pgo_model.specs.Variables.{place_of};
ghost use Rattle.pgo_base.specs.Lookup.{Vars};
ghost use Rattle.pgo_model.specs.Log.{After, after_changes, are_in, changed, is_in, with_part};
ghost use Rattle.pgo_model.specs.LogView.{change_view, component_view, entry_view};
ghost use Rattle.pgo_model.specs.ModuleView.{module_view};
ghost use Rattle.pgo_model.specs.Options.{on};
ghost use Rattle.pgo_check.specs.Looked.{Fits};
ghost use Rattle.pgo_check.specs.Placed.{ArePlaces, ArePlacesIfAny};
ghost use Rattle.pgo_model.specs.Steps.{LeadsTo};

use crate::actions::acts;
use crate::definitions::Assigned;
use crate::lookup::{place, value_of};
use crate::noted::note_all;
use pgo_base::log::{Change, Component, Entry};
use pgo_base::module::Defs;
use pgo_base::name_map::NameMap;
use pgo_base::scope::State;
use pgo_base::text::Text;
use pgo_base::value::{Fun, Value};
use pgo_sets::lookup::{at, key_place, value_at};
use std::alloc::{AllocError, Global};

/// A function with another value at an index in its domain. Where nothing else owns its pairs they are changed in place.
fn with_value(f: Fun, index: &Value, value: Value) -> Result<Option<Value>, AllocError>
    ensures { IfOk result (λ o. option_map data_of o ≡ with_part (function (pairs f)) (data_of index.now) (data_of value)) }
{
    let Some(place) = key_place(&f, index) else {
        return Ok(None);
    };
    let (changed, _) = f.replace_at(place, value)?;
    Ok(Some(Value::Fun(changed)))
}

/// What a value becomes where its part at an index becomes this value.
fn with_part(old: Value, index: &Value, value: Value) -> Result<Option<Value>, AllocError>
    ensures { IfOk result (λ o. option_map data_of o ≡ with_part (data_of old) (data_of index.now) (data_of value)) }
{
    match old {
        Value::Fun(f) => with_value(f, index, value),
        _ => Ok(None),
    }
}

/// What a variable becomes where it, or its value at an index, becomes this value.
fn new_value(old: Value, index: &Option<Value>, value: Value) -> Result<Option<Value>, AllocError>
    ensures { IfOk result (λ o. option_map data_of o ≡ on (Some (data_of value)) (option_map data_of index.now) (λ i. with_part (data_of old) i (data_of value))) }
{
    match index {
        None => Ok(Some(value)),
        Some(index) => with_part(old, index, value),
    }
}

/// The state with one component changed, where the component is in it.
pub fn changed(alloc: Global, state: State, change: &Change) -> Result<Option<State>, AllocError>
    ensures { IfOk result (λ o. o ≡ changed (change_view change.now) state) }
{
    changed_at(alloc, None, state, change)
}

/// The same by the places of the variables, where they are given.
fn changed_at(
    alloc: Global,
    places: Option<&NameMap<usize>>,
    state: State,
    change: &Change,
) -> Result<Option<State>, AllocError>
    requires { ArePlacesIfAny state places }
    ensures { IfOk result (λ o. o ≡ changed (change_view change.now) state) }
{
    let mut state = state;
    let Some(i) = place(places, &change.component.variable, &state) else {
        return Ok(None);
    };
    let value = change.value.copy(alloc)?;
    let before = state.replace(i, Value::Bool(false));
    match new_value(before, &change.component.index, value)? {
        Some(v) => {
            state.replace(i, v);
            Ok(Some(state))
        }
        None => Ok(None),
    }
}

/// Whether a component is in a state.
fn is_in(places: Option<&NameMap<usize>>, component: &Component, s: &State) -> bool
    requires { ArePlacesIfAny s.now places }
    ensures { result ≡ is_in (component_view component.now) s.now }
{
    let Some(v) = value_of(places, &component.variable, s) else {
        return false;
    };
    let Some(index) = &component.index else {
        return true;
    };
    match v {
        Value::Fun(f) => value_at(f, index).is_some(),
        _ => false,
    }
}

/// Whether each changed component is in a state.
pub fn are_in(changes: &[Change], s: &State) -> bool
    ensures { result ≡ are_in (map change_view changes.now) s.now }
{
    are_in_at(None, changes, s)
}

/// The same by the places of the variables, where they are given.
fn are_in_at(places: Option<&NameMap<usize>>, changes: &[Change], s: &State) -> bool
    requires { ArePlacesIfAny s.now places }
    ensures { result ≡ are_in (map change_view changes.now) s.now }
{
    for c in changes {
        if !is_in(places, &c.component, s) {
            return false;
        }
    }
    true
}

/// The state with these changes put in one after another, where each finds its component.
fn after_changes(
    alloc: Global,
    places: &NameMap<usize>,
    before: State,
    changes: &[Change],
) -> Result<Option<State>, AllocError>
    requires { ArePlaces before places.now }
    ensures { IfOk result (λ o. o ≡ after_changes (map change_view changes.now) before) }
{
    let mut state = before;
    for c in changes {
        match changed_at(alloc, Some(places), state, c)? {
            None => return Ok(None),
            Some(next) => state = next,
        }
    }
    Ok(Some(state))
}

/// The state after an entry, made in place of the state before it; none where a changed component isn't in that one.
pub fn after(
    alloc: Global,
    places: &NameMap<usize>,
    before: State,
    e: &Entry,
) -> Result<Option<State>, AllocError>
    requires { ArePlaces before places.now }
    ensures { IfOk result (λ o. o ≡ After before (entry_view e.now).change) }
{
    let changes = e.changes.as_slice();
    if !are_in_at(Some(places), changes, &before) {
        return Ok(None);
    }
    after_changes(alloc, places, before, changes)
}

/// The state after an entry of which it is known that there is one, made in place of the state before it.
pub(crate) fn follow(
    alloc: Global,
    places: &NameMap<usize>,
    before: State,
    e: &Entry,
) -> Result<State, AllocError>
    requires placed { ArePlaces before places.now }
    requires there { (t : Vars) × (After before (entry_view e.now).change ≡ Some t) }
    ensures { IfOk result (λ s. After before (entry_view e.now).change ≡ Some s) }
{
    let found = after_changes(alloc, places, before, e.changes.as_slice())?;
    match found {
        Some(next) => Ok(next),
        None => unreachable!(),
    }
}

/// Where the instance with this identifier stands.
fn place_of<'a>(id: &Value, s: &'a State) -> Option<&'a Value>
    ensures { option_map (λ r. data_of r.now) result ≡ place_of (data_of id.now) s.now }
{
    match s.find_bytes(b"pc") {
        Some(f) => at(f, id),
        None => None,
    }
}

/// Whether a value is this string.
fn is_string(v: Option<&Value>, text: &Text) -> bool
    ensures { IsTrue result ↔ option_map (λ r. data_of r.now) v.entry ≡ Some (string text.now) }
{
    let Some(v) = v else {
        return false;
    };
    match v {
        Value::Str(t) => t.is(text),
        _ => false,
    }
}

/// What each entry of a log is checked against, found once for all of them: a module, the definitions that its expressions see, the
/// identifiers by the instances' numbers, and the places of the variables.
#[derive(Clone, Copy)]
pub(crate) struct Look<'a, 'm> {
    pub m: &'a Assigned<'m>,
    pub defs: &'a Defs,
    pub ids: &'a [Value],
    pub places: &'a NameMap<usize>,
}

/// Whether an entry's action is TRUE of a pair of states, and its instance stands at the entry's next label then.
fn is_step<'a>(
    alloc: Global,
    look: &Look<'_, '_>,
    id: &Value,
    s: &'a State,
    e: &Entry,
    t: &'a State,
    kept: &'a [bool],
) -> Result<bool, AllocError>
    requires fits { Fits look.now s.now }
    requires alike { AreAlike s.now (Some t.now) kept.now }
    ensures { IfOk result (λ b. IsTrue b ↔ (Acts (module_view look.now.m.now.module.now) look.now.m.now.consts.now e.now.label (data_of id.now) s.now t.now × place_of (data_of id.now) t.now ≡ Some (string e.now.next))) }
{
    if !acts(alloc, look.m, look.defs, &e.label, id, s, t, kept)? {
        return Ok(false);
    }
    let place = place_of(id, t);
    Ok(is_string(place, &e.next))
}

/// The state that an entry leads to, where the entry is a step from this state. It is made in place of `again`, which is this
/// state too. In `kept` is noted which variables the entry leaves, while its action is evaluated; what `kept` has before that changes
/// no answer.
pub(crate) fn step(
    alloc: Global,
    look: &Look<'_, '_>,
    s: &State,
    again: State,
    e: &Entry,
    kept: &mut [bool],
) -> Result<Option<State>, AllocError>
    requires fits { Fits look.now s.now }
    requires same { again ≡ s.now }
    ensures { IfOk result (λ o. LeadsTo (module_view look.now.m.now.module.now) look.now.m.now.consts.now (map data_of look.now.ids.now) s.now (entry_view e.now) o) }
{
    let Some(id) = look.ids.get(e.instance as usize) else {
        return Ok(None);
    };
    let Some(t) = after(alloc, look.places, again, e)? else {
        return Ok(None);
    };
    let changes = e.changes.as_slice();
    note_all(look.places, changes, false, kept);
    let is_one = is_step(alloc, look, id, &*s, e, &t, &*kept)?;
    note_all(look.places, changes, true, kept);
    if is_one { Ok(Some(t)) } else { Ok(None) }
}
