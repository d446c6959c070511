// The own components of an instance: where it stands, and what of them an entry records.
ghost use Rattle.std.specs.Prelude.{◌≡◌, ◌++◌, ◌<◌, length, map, Some, option_map, IfOk};
ghost use Rattle.pgo_base.specs.Lookup.{find};
ghost use Rattle.pgo_base.specs.View.{data_of, named_data};
ghost use Rattle.pgo_model.specs.Core.{is_place};
ghost use Rattle.pgo_model.specs.Log.{differs, label_in};
ghost use Rattle.pgo_model.specs.LogView.{change_view};
ghost use Rattle.pgo_model.specs.Written.{pc, done};
ghost use Rattle.pgo_workers.specs.Worlds.{changed_own, label_at, own_component};

use pgo_base::compare::compare;
use pgo_base::log::{Change, Component, Owner};
use pgo_base::results::both;
use pgo_base::scope::State;
use pgo_base::text::Text;
use pgo_base::value::Value;
use std::alloc::{AllocError, Global};

/// The label at which the instance stands.
fn place_in(own: &State) -> Option<&Value>
    ensures { option_map (λ r. data_of r.now) result ≡ find pc own.now }
{
    own.find_bytes(b"pc")
}

/// Whether a value is this text.
fn is_at(bytes: &[u8], v: &Value) -> bool
    ensures { result ≡ is_place bytes.now (Some (data_of v.now)) }
{
    match v {
        Value::Str(t) => t.is_bytes(bytes),
        _ => false,
    }
}

/// Whether the instance stands at "Done".
pub fn is_done(own: &State) -> bool
    ensures { result ≡ is_place done (find pc own.now) }
{
    match place_in(own) {
        Some(v) => is_at(b"Done", v),
        None => false,
    }
}

/// The text that a label is.
fn label_of(alloc: Global, v: &Value) -> Result<Text, AllocError>
    ensures { IfOk result (λ t. t ≡ label_in (Some (data_of v.now))) }
{
    match v {
        Value::Str(t) => t.copy(alloc),
        _ => Ok(Text::new(alloc)),
    }
}

/// The label at which the instance stands, as an entry has it.
pub fn label(alloc: Global, own: &State) -> Result<Text, AllocError>
    ensures { IfOk result (λ t. t ≡ label_at own.now) }
{
    match place_in(own) {
        Some(v) => label_of(alloc, v),
        None => Ok(Text::new(alloc)),
    }
}

/// The change of an own component to this value.
fn own_change(
    alloc: Global,
    instance: u32,
    id: &Value,
    name: &Text,
    value: &Value,
) -> Result<Change, AllocError>
    ensures { IfOk result (λ c. change_view c ≡ record { component = own_component instance (data_of id.now) name.now; value = data_of value.now }) }
{
    let (variable, (index, value)) = both(
        name.copy(alloc),
        both(id.copy(alloc), value.copy(alloc)),
    )?;
    let component = Component {
        variable,
        index: Some(index),
        owner: Owner::OfInstance(instance),
    };
    Ok(Change { component, value })
}

/// The own components that differ behind a section, in order, added at the end. Both states have the same names in the same
/// order, so each component is looked for at its own place first.
pub fn push_own_changes(
    changes: &mut Vec<Change>,
    alloc: Global,
    instance: u32,
    id: &Value,
    own: &State,
    next: &State,
) -> Result<(), AllocError>
    ensures { IfOk result (λ _. map change_view changes.new.items ≡ map change_view changes.old.items ++ changed_own instance (data_of id.now) own.now next.now) }
{
    let components = own.as_slice();
    for (place, p) in components.iter().enumerate() {
        if let Some(found) = next.find_near(&p.0, place) {
            if compare(&p.1, found.1).is_ne() {
                changes.push(own_change(alloc, instance, id, &p.0, found.1)?)?;
            }
        }
    }
    Ok(())
}
