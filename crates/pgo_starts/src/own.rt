// The own components of an instance as a run starts.
ghost use Rattle.std.specs.Prelude.{◌≡◌, ◌<◌, ℕ, ◌∷◌, [], Some, ◌++◌, length, map, option_map, IfOk};
ghost use Rattle.pgo_base.specs.Lookup.{Vars};
ghost use Rattle.pgo_base.specs.View.{data_of, named_data};
ghost use Rattle.pgo_meaning.specs.System.{system_of};
ghost use Rattle.pgo_model.specs.Log.{content, own_names};
ghost use Rattle.pgo_model.specs.Machine.{nth};
ghost use Rattle.pgo_model.specs.Operators.{contains};
ghost use Rattle.pgo_model.specs.Written as names;
ghost use Rattle.pgo_resource.specs.Kept.{member_view};
ghost use Rattle.pgo_resource.specs.Layouts.{ids_at, layout_view};
ghost use Rattle.pgo_workers.specs.Worlds.{layout_of, own_at, own_component, own_in};

use crate::indexed_state::IndexedState;
use pgo_base::compare::compare;
use pgo_base::scope::State;
use pgo_base::text::Text;
use pgo_base::value::Value;
use pgo_resource::layout::{BoardLayout, Member, OwnNames};
use pgo_sets::lookup::at;
use pgo_syntax::bound::Bound;
use pgo_syntax::name::written_name;
use std::alloc::{AllocError, Global};

/// What a state has of a variable at an identifier.
fn part<'x>(start: &IndexedState<'x>, id: &Value, variable: &Text) -> Option<&'x Value>
    ensures { option_map (λ r. data_of r.now) result ≡ content (own_component 0 (data_of id.now) variable.now) start.now }
{
    match start.find(variable) {
        None => None,
        Some(f) => at(f, id),
    }
}

/// The components of one variable.
fn component(
    alloc: Global,
    start: &IndexedState<'_>,
    id: &Value,
    variable: Text,
) -> Result<(Text, Value), AllocError>
    ensures { IfOk result (λ p. named_data p ∷ [] ≡ own_at 0 (data_of id.now) (variable ∷ []) start.now) }
{
    let value = match part(start, id, &variable) {
        None => Value::Bool(false),
        Some(v) => v.copy(alloc)?,
    };
    Ok((variable, value))
}

/// Whether one of the members is of this process and has this identifier.
fn has_member(members: &[Member], process: &Text, id: &Value) -> bool
    ensures { result ≡ contains (data_of id.now) (ids_at (map member_view members.now) process.now) }
{
    for m in members {
        if process.is(&m.process) && compare(id, &m.id).is_eq() {
            return true;
        }
    }
    false
}

/// Adds the components of a process's variables.
fn add_names(
    alloc: Global,
    list: &mut Vec<(Text, Value)>,
    start: &IndexedState<'_>,
    id: &Value,
    own: &OwnNames,
) -> Result<(), AllocError>
    ensures { IfOk result (λ _. map named_data list.new.items ≡ map named_data list.old.items ++ own_at 0 (data_of id.now) (map (names.written own.now.process) own.now.names) start.now) }
{
    for x in own.names.as_slice() {
        let variable = written_name(alloc, own.process.as_bytes(), x)?;
        list.push(component(alloc, start, id, variable)?)?;
    }
    Ok(())
}

/// Adds the components of the variables of all processes that have an instance with this identifier.
fn add_all(
    alloc: Global,
    list: &mut Vec<(Text, Value)>,
    layout: &BoardLayout,
    start: &IndexedState<'_>,
    id: &Value,
) -> Result<(), AllocError>
    ensures { IfOk result (λ _. map named_data list.new.items ≡ map named_data list.old.items ++ own_at 0 (data_of id.now) (own_names (data_of id.now) (layout_view layout.now).own) start.now) }
{
    for own in layout.own.as_slice() {
        if has_member(layout.members.as_slice(), &own.process, id) {
            add_names(alloc, list, start, id, own)?;
        }
    }
    Ok(())
}

/// The own components of an instance in these values of the variables.
fn own_of(
    alloc: Global,
    layout: &BoardLayout,
    start: &IndexedState<'_>,
    k: usize,
) -> Result<State, AllocError>
    requires { k < length (layout_view layout.now).ids }
    ensures { IfOk result (λ o. o ≡ own_in (layout_view layout.now) start.now k) }
{
    let id = &layout.members.as_slice()[k].id;
    let pc = Text::from_slice(alloc, b"pc")?;
    let mut list = Vec::new(alloc);
    list.push(component(alloc, start, id, pc)?)?;
    add_all(alloc, &mut list, layout, start, id)?;
    let own = State::from_vec(list).names_once(alloc)?;
    Ok(own)
}

/// The own components of an instance as a run starts: `pc`, and the variables of its process.
pub fn own_at_start(alloc: Global, layout: &BoardLayout, k: usize) -> Result<State, AllocError>
    requires { k < length (layout_view layout.now).ids }
    ensures { IfOk result (λ o. o ≡ own_in (layout_view layout.now) (layout_view layout.now).start k) }
{
    let start = IndexedState::new(alloc, &layout.start)?;
    own_of(alloc, layout, &start, k)
}

/// Those of all instances of a layout in a state, in order.
fn all_own(alloc: Global, layout: &BoardLayout, s: &State) -> Result<Vec<State>, AllocError>
    ensures many { IfOk result (λ v. length v.items ≡ length (layout_view layout.now).ids) }
    ensures owns { IfOk result (λ v. (k : ℕ) (o : Vars) → nth v.items k ≡ Some o → o ≡ own_in (layout_view layout.now) s.now k) }
{
    let start = IndexedState::new(alloc, s)?;
    let count = layout.members.as_slice().len();
    let mut list = Vec::new(alloc);
    for k in 0..count {
        list.push(own_of(alloc, layout, &start, k)?)?;
    }
    Ok(list)
}

/// The own components of all instances in a state, in order.
pub fn all_own_in(alloc: Global, bound: &Bound, s: &State) -> Result<Vec<State>, AllocError>
    ensures as_many { IfOk result (λ v. length v.items ≡ length bound.now.instances) }
    ensures owns { IfOk result (λ v. (k : ℕ) (o : Vars) → nth v.items k ≡ Some o → o ≡ own_in (layout_of (system_of bound.now)) s.now k) }
{
    let layout = BoardLayout::of(alloc, bound)?;
    all_own(alloc, &layout, s)
}

/// The own components of all instances as a run starts, in order.
pub fn all_own_at_start(alloc: Global, bound: &Bound) -> Result<Vec<State>, AllocError>
    ensures as_many { IfOk result (λ v. length v.items ≡ length bound.now.instances) }
    ensures owns { IfOk result (λ v. (k : ℕ) (o : Vars) → nth v.items k ≡ Some o → o ≡ own_in (layout_of (system_of bound.now)) (system_of bound.now).start k) }
{
    all_own_in(alloc, bound, &bound.start)
}
