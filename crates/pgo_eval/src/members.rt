// The members of sets that names are bound to.
ghost use Rattle.std.specs.Prelude.{◌≡◌, if◌then◌else◌, [], ◌++◌, Some, None, option_map, option_and_then, IfOk};
ghost use Rattle.pgo_model.specs.Operators.{both, members_of, truth_of};
ghost use Rattle.pgo_model.specs.Val.{over_each, index_of};
ghost use Rattle.pgo_base.specs.View.{data_of, pair_of};
ghost use Rattle.pgo_eval.specs.Choices.{over_bound, AreAt, chosen};
ghost use Rattle.pgo_eval.specs.HeldView.{held_data};

use crate::held::Held;
use pgo_base::bindings::BoundName;
use pgo_base::text::Text;
use pgo_base::value::{Set, Value};
use pgo_sets::answers::value_or_none;
use pgo_sets::sequences::sequence_of;
use std::alloc::{AllocError, Global};

/// The truth that a value is, where it is a Boolean.
pub fn truth_in(v: Option<Value>) -> Option<bool>
    ensures { result ≡ truth_of (option_map data_of v) }
{
    match v {
        Some(Value::Bool(b)) => Some(b),
        _ => None,
    }
}

/// The set that a value is, where it is one.
pub fn set_held<'b>(held: &'b Option<Held<'_>>) -> Option<&'b Set>
    ensures { option_map (λ r. r.now) result ≡ option_and_then members_of (option_map held_data held.now) }
{
    let Some(h) = held else {
        return None;
    };
    match h.get() {
        Value::Set(s) => Some(s),
        _ => None,
    }
}

/// These names, each with the set that a value is, behind the others; false where the value is no set.
pub fn add_binder(
    alloc: Global,
    all: &mut Vec<BoundName>,
    names: &[Text],
    set: Option<Held<'_>>,
) -> Result<bool, AllocError>
    ensures { IfOk result (λ is_set. option_map (λ ms. over_bound all.old.items ++ over_each names.now ms []) (option_and_then members_of (option_map held_data set.entry)) ≡ (if is_set then Some (over_bound all.new.items) else None)) }
{
    match set_held(&set) {
        Some(members) => {
            add_names(alloc, all, names, members)?;
            Ok(true)
        }
        None => Ok(false),
    }
}

/// These names, each with this set and at its first place, behind the others.
fn add_names(
    alloc: Global,
    all: &mut Vec<BoundName>,
    names: &[Text],
    set: &Set,
) -> Result<(), AllocError>
    ensures { IfOk result (λ _. over_bound all.new.items ≡ over_bound all.old.items ++ over_each names.now set.now []) }
{
    for x in names {
        all.push(BoundName {
            name: x.copy(alloc)?,
            set: set.copy(alloc)?,
            at: 0,
        })?;
    }
    Ok(())
}

/// The index of a function at a choice with a value there, where there are both.
pub fn keyed(
    alloc: Global,
    bound: &[BoundName],
    v: Option<Value>,
) -> Result<Option<(Value, Value)>, AllocError>
    requires { AreAt bound.now }
    ensures { IfOk result (λ o. option_map pair_of o ≡ both (λ k w. Some (k, w)) (index_of (chosen bound.now)) (option_map data_of v)) }
{
    match (key(alloc, bound)?, v) {
        (Some(k), Some(v)) => Ok(Some((k, v))),
        _ => Ok(None),
    }
}

/// The index of a function at a choice: the member of one name, or the tuple of those of several.
fn key(alloc: Global, bound: &[BoundName]) -> Result<Option<Value>, AllocError>
    requires { AreAt bound.now }
    ensures { IfOk result (λ o. option_map data_of o ≡ index_of (chosen bound.now)) }
{
    if bound.is_empty() {
        return Ok(None);
    }
    if bound.len() == 1 {
        return copied(alloc, bound[0].member());
    }
    let mut all = Vec::with_capacity(alloc, bound.len())?;
    for b in bound {
        match copied(alloc, b.member())? {
            Some(v) => all.push(v)?,
            None => return Ok(None),
        }
    }
    value_or_none(sequence_of(alloc, all))
}

/// The same value once more, where there is one.
fn copied(alloc: Global, v: Option<&Value>) -> Result<Option<Value>, AllocError>
    ensures { IfOk result (λ o. option_map data_of o ≡ option_map (λ r. data_of r.now) v.entry) }
{
    match v {
        Some(v) => Ok(Some(v.copy(alloc)?)),
        None => Ok(None),
    }
}
