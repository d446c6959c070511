// Heights of what a module has beside its labels and processes, up to the most that is told apart.
ghost use Rattle.std.specs.Prelude.{◌≡◌, ℕ, ◌++◌, length, map, max, IfOk};
ghost use Rattle.pgo_measure.specs.Heights.{capped};
ghost use Rattle.pgo_expand.specs.Items.{capped_items};
ghost use Rattle.pgo_expand.specs.Module as expected;

use pgo_measure::heights::{MOST_HEIGHT, joined, one_higher};
use pgo_sizes::heights::height_up_to;
use pgo_syntax::binding::Origin;
use pgo_syntax::declaration::{Declaration, Declarations, Definition, Definitions};
use pgo_syntax::process::Process;
use pgo_syntax::spec::Spec;
use std::alloc::{AllocError, Global};

/// The greatest of these heights; 0 where there is none.
pub fn highest(heights: &[u64]) -> u64
    ensures { result ≡ expected.highest heights.now }
{
    let mut greatest = 0;
    for height in heights {
        greatest = greatest.max(*height);
    }
    greatest
}

/// Of expressions of these heights, joined from the left; 0 where there is none.
pub fn joined_all(heights: &[u64]) -> u64
    ensures { result ≡ capped (expected.joined heights.now) }
{
    let mut so_far = None;
    for height in heights {
        so_far = Some(joined(so_far, *height));
    }
    joined(None, so_far.unwrap_or(0))
}

/// Of the set of a process's identifiers.
fn height_of_ids(alloc: Global, ids: &Origin) -> Result<u64, AllocError>
    ensures { IfOk result (λ h. h ≡ capped (expected.ids_height ids.now)) }
{
    match ids {
        Origin::Equals(e) => Ok(one_higher(height_up_to(alloc, e.get(), MOST_HEIGHT)?)),
        Origin::In(e) => height_up_to(alloc, e.get(), MOST_HEIGHT),
    }
}

/// Of what a variable starts with, or of the set that it starts in.
fn height_of_start(alloc: Global, initial: &Option<Origin>) -> Result<u64, AllocError>
    ensures { IfOk result (λ h. h ≡ capped (expected.start_height initial.now)) }
{
    match initial {
        None => Ok(1),
        Some(Origin::Equals(e) | Origin::In(e)) => height_up_to(alloc, e.get(), MOST_HEIGHT),
    }
}

/// Of the sets of identifiers of all processes.
fn heights_of_ids(alloc: Global, processes: &[Process]) -> Result<Vec<u64>, AllocError>
    ensures { IfOk result (λ v. v.items ≡ map (λ p. capped (expected.ids_height p.ids)) processes.now) }
{
    let mut heights = Vec::with_capacity(alloc, processes.len())?;
    for p in processes {
        heights.push(height_of_ids(alloc, &p.ids)?)?;
    }
    Ok(heights)
}

/// The greatest height of the bodies of these definitions and of what stood before.
fn with_definitions(
    alloc: Global,
    before: u64,
    definitions: &[Definition],
) -> Result<u64, AllocError>
    ensures { IfOk result (λ g. g ≡ max before (capped (expected.highest (expected.definitions_heights definitions.now)))) }
{
    let mut greatest = before;
    for d in definitions {
        greatest = greatest.max(height_up_to(alloc, d.body.get(), MOST_HEIGHT)?);
    }
    Ok(greatest)
}

/// Of the item of a value parameter or a local.
fn own_item(ids: u64, start: u64) -> u64
    ensures { result ≡ capped (expected.own_item ids start) }
{
    one_higher(one_higher(ids.max(start)))
}

/// Adds the items of Init of the globals.
fn add_globals(
    alloc: Global,
    items: &mut Vec<u64>,
    globals: &[Declaration],
) -> Result<(), AllocError>
    ensures { IfOk result (λ _. items.new.items ≡ items.old.items ++ map (λ d. capped (expected.global_item d)) globals.now) }
{
    for d in globals {
        items.push(one_higher(height_of_start(alloc, &d.initial)?))?;
    }
    Ok(())
}

/// Adds the items of Init of a process's value parameters and locals; `ids` is the height of the set of its identifiers.
fn add_own(
    alloc: Global,
    items: &mut Vec<u64>,
    ids: u64,
    own: &[Declaration],
) -> Result<(), AllocError>
    ensures { IfOk result (λ _. items.new.items ≡ items.old.items ++ map (λ d. capped (expected.own_item ids (expected.start_height d.initial))) own.now) }
{
    for d in own {
        items.push(own_item(ids, height_of_start(alloc, &d.initial)?))?;
    }
    Ok(())
}

/// Of the item of Init of `pc`.
fn place_item(ids: &[u64]) -> u64
    ensures { result ≡ capped (expected.place_item ids.now) }
{
    one_higher(one_higher(one_higher(one_higher(highest(ids)))))
}

/// Adds the items of Init of all processes' value parameters and locals.
fn add_all_own(
    alloc: Global,
    items: &mut Vec<u64>,
    ids: &[u64],
    own: &[Declarations],
) -> Result<(), AllocError>
    requires { length ids.now ≡ length own.now }
    ensures { IfOk result (λ _. items.new.items ≡ items.old.items ++ capped_items ids.now own.now) }
{
    for i in 0..own.len() {
        add_own(alloc, items, ids[i], own[i].as_slice())?;
    }
    Ok(())
}

/// Of Init.
fn init_height(
    alloc: Global,
    spec: &Spec,
    ids: &[u64],
    own: &[Declarations],
) -> Result<u64, AllocError>
    requires ids { ids.now ≡ map capped (expected.ids_heights spec.now) }
    requires own { own.now ≡ map (expected.own_in spec.now.archetypes) spec.now.processes }
    ensures { IfOk result (λ h. h ≡ capped (expected.joined (expected.init_items spec.now))) }
{
    let mut items = Vec::new(alloc);
    add_globals(alloc, &mut items, spec.globals.as_slice())?;
    items.push(place_item(ids))?;
    add_all_own(alloc, &mut items, ids, own)?;
    Ok(joined_all(items.as_slice()))
}

/// Of Next.
fn next_height(alloc: Global, ids: &[u64]) -> Result<u64, AllocError>
    ensures { IfOk result (λ h. h ≡ capped (expected.joined (expected.next_items ids.now))) }
{
    let mut items = Vec::with_capacity(alloc, ids.len())?;
    for height in ids {
        items.push(one_higher((*height).max(2)))?;
    }
    items.push(1)?;
    Ok(joined_all(items.as_slice()))
}

/// The same of the definitions of `define`, where it stands there.
fn with_define(alloc: Global, before: u64, define: &Option<Definitions>) -> Result<u64, AllocError>
    ensures { IfOk result (λ g. g ≡ max before (capped (expected.highest (expected.define_heights define.now)))) }
{
    match define {
        None => Ok(before),
        Some(definitions) => with_definitions(alloc, before, definitions.as_slice()),
    }
}

/// The greatest height of the bodies of all definitions and of what stood before.
fn with_all_definitions(alloc: Global, before: u64, spec: &Spec) -> Result<u64, AllocError>
    ensures { IfOk result (λ g. g ≡ max before (capped (expected.highest (expected.all_definitions spec.now)))) }
{
    let head = with_definitions(alloc, before, spec.definitions.as_slice())?;
    with_define(alloc, head, &spec.define)
}

/// The greatest height of the module's expressions but those of its labels and processes.
pub fn heads_height(alloc: Global, spec: &Spec, own: &[Declarations]) -> Result<u64, AllocError>
    requires { own.now ≡ map (expected.own_in spec.now.archetypes) spec.now.processes }
    ensures { IfOk result (λ h. h ≡ capped (expected.heads_height spec.now)) }
{
    let ids = heights_of_ids(alloc, spec.processes.as_slice())?;
    let init = init_height(alloc, spec, ids.as_slice(), own)?;
    let next = next_height(alloc, ids.as_slice())?;
    let sets = joined_all(ids.as_slice());
    with_all_definitions(alloc, init.max(next).max(sets).max(5), spec)
}
