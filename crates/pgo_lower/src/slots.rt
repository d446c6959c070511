// What the parameters and locals of an instance stand for.
ghost use Rattle.std.specs.Prelude.{◌≡◌, ◌++◌, [], ◌∷◌, map, IfOk};
ghost use Rattle.pgo_model.specs.Written.{written};
ghost use Rattle.pgo_code.specs.See.{target_view};
ghost use Rattle.pgo_meaning.specs.Parameters.{local_places, parameter_places, place_of};
ghost use Rattle.pgo_code.specs.Steps as steps;
ghost use Rattle.pgo_lower.specs.Globals.{own_target, targeted, targets_in, whole_in};
ghost use Rattle.pgo_lower.specs.Lowered as lowered;
ghost use Rattle.pgo_lower.specs.Slots.{slot_views, variable_view};
ghost use Rattle.pgo_effects.specs.PlaceView.{place_view};

use crate::globals::Globals;
use pgo_base::text::Text;
use pgo_code::instruction::Target;
use pgo_code::program::Variable;
use pgo_effects::place::Place;
use pgo_syntax::bound::{Binding, Instance, Target as Handed};
use pgo_syntax::declaration::Declaration;
use pgo_syntax::name::written_name;
use std::alloc::{AllocError, Global};

/// A parameter or a local, and what it stands for.
#[derive(Drop)]
pub struct Slot {
    pub name: Text,
    pub target: Target,
}

/// Adds what a name stands for.
fn add(slots: &mut Vec<Slot>, alloc: Global, name: &Text, target: Target) -> Result<(), AllocError>
    ensures { IfOk result (λ _. slot_views slots.new.items ≡ slot_views slots.old.items ++ (name.now, target_view target) ∷ []) }
{
    let name = name.copy(alloc)?;
    slots.push(Slot { name, target })?;
    Ok(())
}

/// Adds a value parameter or a local.
fn add_own(slots: &mut Vec<Slot>, alloc: Global, process: &Text, x: &Text) -> Result<(), AllocError>
    ensures { IfOk result (λ _. slot_views slots.new.items ≡ slot_views slots.old.items ++ (x.now, steps.Own (written process.now x.now)) ∷ []) }
{
    let own = written_name(alloc, process.as_bytes(), x)?;
    add(slots, alloc, x, Target::Own(own))
}

/// Adds a parameter, unless it is mapped.
fn add_parameter(
    slots: &mut Vec<Slot>,
    alloc: Global,
    globals: &Globals<'_>,
    process: &Text,
    x: &Text,
    handed: &Handed,
) -> Result<(), AllocError>
    ensures { IfOk result (λ _. slot_views slots.new.items ≡ slot_views slots.old.items ++ map (targeted globals.now.bound.now) (place_of process.now x.now handed.now [])) }
{
    match handed {
        Handed::Value(_) => add_own(slots, alloc, process, x),
        Handed::Global {
            name,
            mapping: None,
            ..
        } => add(slots, alloc, x, Target::Resource(globals.get(name).whole)),
        _ => Ok(()),
    }
}

/// Adds the parameters that aren't mapped.
fn add_parameters(
    slots: &mut Vec<Slot>,
    alloc: Global,
    globals: &Globals<'_>,
    process: &Text,
    bindings: &[Binding],
) -> Result<(), AllocError>
    ensures { IfOk result (λ _. slot_views slots.new.items ≡ slot_views slots.old.items ++ map (targeted globals.now.bound.now) (parameter_places process.now bindings.now)) }
{
    for b in bindings {
        add_parameter(slots, alloc, globals, process, &b.parameter, &b.target)?;
    }
    Ok(())
}

/// Adds the locals.
fn add_locals(
    slots: &mut Vec<Slot>,
    alloc: Global,
    process: &Text,
    locals: &[Declaration],
) -> Result<(), AllocError>
    ensures { IfOk result (λ _. slot_views slots.new.items ≡ slot_views slots.old.items ++ map (λ d. (d.name.name, steps.Own (written process.now d.name.name))) locals.now) }
{
    for d in locals {
        add_own(slots, alloc, process, &d.name.name)?;
    }
    Ok(())
}

/// What the parameters that aren't mapped and the locals of an instance stand for, in their order.
pub fn slots_of(alloc: Global, globals: &Globals<'_>, i: &Instance) -> Result<Vec<Slot>, AllocError>
    ensures { IfOk result (λ v. slot_views v.items ≡ targets_in globals.now.bound.now i.now) }
{
    let mut slots = Vec::new(alloc);
    add_parameters(
        &mut slots,
        alloc,
        globals,
        &i.process,
        i.bindings.as_slice(),
    )?;
    add_locals(&mut slots, alloc, &i.process, i.archetype.locals.as_slice())?;
    Ok(slots)
}

/// What stands for a place.
pub fn target_at(globals: &Globals<'_>, place: Place) -> Target
    ensures { target_view result ≡ lowered.target_of (whole_in globals.now.bound.now) (place_view place) }
{
    match place {
        Place::Whole(g) => Target::Resource(globals.get(&g).whole),
        Place::Own(x) => Target::Own(x),
    }
}

/// The variable of the instance that a name stands for.
fn own_variable(alloc: Global, target: &Target) -> Result<Option<Text>, AllocError>
    ensures { IfOk result (λ o. o ≡ own_target (target_view target.now)) }
{
    match target {
        Target::Resource(_) => Ok(None),
        Target::Own(x) => Ok(Some(x.copy(alloc)?)),
    }
}

/// The variables that names stand for.
pub fn variables(alloc: Global, slots: &[Slot]) -> Result<Vec<Variable>, AllocError>
    ensures { IfOk result (λ v. map variable_view v.items ≡ map (λ q. (q.0, own_target q.1)) (slot_views slots.now)) }
{
    let mut list = Vec::new(alloc);
    for slot in slots {
        let name = slot.name.copy(alloc)?;
        let own = own_variable(alloc, &slot.target)?;
        list.push(Variable { name, own })?;
    }
    Ok(list)
}
