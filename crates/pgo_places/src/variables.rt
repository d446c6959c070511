// The values of variables and of own components.
ghost use Rattle.std.specs.Prelude.{◌≡◌, ◌<◌, length, map, option_map, if◌then◌else◌, IfOk};
ghost use Rattle.pgo_base.specs.BindingsView.{named_view};
ghost use Rattle.pgo_base.specs.View.{data_of};
ghost use Rattle.pgo_places.specs.Meant.{test_of};
ghost use Rattle.pgo_places.specs.Stands.{updated, own_put, own_put_at, is_global_named, is_own_named};

use pgo_base::bindings::NamedValue;
use pgo_base::scope::State;
use pgo_base::text::Text;
use pgo_base::value::Value;
use std::alloc::{AllocError, Global};

/// Which variables are meant: all globals, the globals of a name, or those that are the own component of a name.
#[derive(Clone, Copy)]
pub enum Meant<'a> {
    Globals,
    GlobalNamed(&'a Text),
    OwnNamed(&'a Text),
}

/// Whether it is a global of this name.
fn is_global_named(x: &Text, owner: &Option<Text>, name: &Text) -> bool
    ensures { result ≡ is_global_named x.now owner.now name.now }
{
    match owner {
        None => name.is(x),
        Some(_) => false,
    }
}

/// Whether it is the own component of this name.
fn is_own_named(x: &Text, owner: &Option<Text>, name: &Text) -> bool
    ensures { result ≡ is_own_named x.now owner.now name.now }
{
    match owner {
        None => false,
        Some(own) => own.is(x),
    }
}

/// Whether a variable with this owner and this name is meant.
fn is_meant(meant: Meant<'_>, owner: &Option<Text>, name: &Text) -> bool
    ensures { result ≡ test_of meant.entry owner.now name.now }
{
    match meant {
        Meant::Globals => owner.is_none(),
        Meant::GlobalNamed(x) => is_global_named(x, owner, name),
        Meant::OwnNamed(x) => is_own_named(x, owner, name),
    }
}

/// The value once more, if there is one.
fn copied(alloc: Global, value: Option<&Value>) -> Result<Option<Value>, AllocError>
    ensures { IfOk result (λ o. option_map data_of o ≡ option_map (λ r. data_of r.now) value.entry) }
{
    match value {
        Some(v) => Ok(Some(v.copy(alloc)?)),
        None => Ok(None),
    }
}

/// The variable has this value, where it is meant.
fn renew(
    alloc: Global,
    variable: &mut NamedValue,
    owner: &Option<Text>,
    meant: Meant<'_>,
    value: Option<&Value>,
) -> Result<(), AllocError>
    ensures { IfOk result (λ _. named_view variable.new ≡ (variable.old.name, (if test_of meant.entry owner.now variable.old.name then option_map (λ r. data_of r.now) value.entry else option_map data_of variable.old.value))) }
{
    if is_meant(meant, owner, &variable.name) {
        variable.value = copied(alloc, value)?;
    }
    Ok(())
}

/// Each variable that is meant has this value.
pub fn update(
    alloc: Global,
    variables: &mut Vec<NamedValue>,
    owners: &[Option<Text>],
    meant: Meant<'_>,
    value: Option<&Value>,
) -> Result<(), AllocError>
    ensures { IfOk result (λ _. map named_view variables.new.items ≡ updated (test_of meant.entry) (option_map (λ r. data_of r.now) value.entry) owners.now (map named_view variables.old.items)) }
{
    let mut left = owners;
    for variable in variables.iter_mut() {
        let Some((owner, rest)) = left.split_first() else {
            return Ok(());
        };
        left = rest;
        renew(alloc, variable, owner, meant, value)?;
    }
    Ok(())
}

/// The component at this place has this value, where it has the name.
fn renew_own(
    alloc: Global,
    own: &mut State,
    place: usize,
    name: &[u8],
    value: &Value,
) -> Result<(), AllocError>
    requires { place < length own.old }
    ensures { IfOk result (λ _. own.new ≡ own_put_at name.now (data_of value.now) place own.old) }
{
    if own.as_slice()[place].0.is_bytes(name) {
        let value = value.copy(alloc)?;
        own.replace(place, value);
    }
    Ok(())
}

/// The own component of the name has this value.
pub fn put_own(alloc: Global, own: &mut State, name: &[u8], value: &Value) -> Result<(), AllocError>
    ensures { IfOk result (λ _. own.new ≡ own_put name.now (data_of value.now) own.old) }
{
    for place in 0..own.as_slice().len() {
        renew_own(alloc, own, place, name, value)?;
    }
    Ok(())
}
