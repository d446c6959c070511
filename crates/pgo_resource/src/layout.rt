// What a board keeps of a bound specification.
ghost use Rattle.std.specs.Prelude.{◌≡◌, ◌++◌, map, option_map, IfOk};
ghost use Rattle.std.specs.List.{filter_map};
ghost use Rattle.pgo_base.specs.View.{data_of};
ghost use Rattle.pgo_bound.specs.State.{own_names, names_with, value_name};
ghost use Rattle.pgo_heads.specs.Views.{handed_view};
ghost use Rattle.pgo_meaning.specs.System.{resource_of};
ghost use Rattle.pgo_resource.specs.Kept.{member_view, member_in, own_view, own_in};

use pgo_base::items::Items;
use pgo_base::results::both;
use pgo_base::scope::State;
use pgo_base::text::Text;
use pgo_base::value::Value;
use pgo_heads::indexed_spec::IndexedSpec;
use pgo_heads::runs::{Handed, matched};
use pgo_syntax::archetype::Archetype;
use pgo_syntax::bound::{Bound, Instance, Resource, Resources};
use pgo_syntax::process::{Argument, Process};
use pgo_syntax::spec::Spec;
use std::alloc::{AllocError, Global};

/// An instance: its identifier and its process.
#[derive(Drop)]
pub struct Member {
    pub id: Value,
    pub process: Text,
}

/// The value parameters of a process, and then its locals, by their own names.
#[derive(Drop)]
pub struct OwnNames {
    pub process: Text,
    pub names: Items<Text>,
}

/// What a board keeps of a bound specification: its start, its resources, who runs, and what belongs to whom.
#[derive(Drop)]
pub struct BoardLayout {
    pub start: State,
    pub resources: Resources,
    pub members: Items<Member>,
    pub own: Items<OwnNames>,
}

/// An instance's identifier and process.
fn copied_member(alloc: Global, instance: &Instance) -> Result<Member, AllocError>
    ensures { IfOk result (λ m. member_view m ≡ member_in instance.now) }
{
    let (process, id) = both(instance.process.copy(alloc), instance.id.copy(alloc))?;
    Ok(Member { id, process })
}

/// Those of all instances.
fn copied_members(alloc: Global, instances: &[Instance]) -> Result<Vec<Member>, AllocError>
    ensures { IfOk result (λ v. map member_view v.items ≡ map member_in instances.now) }
{
    let mut list = Vec::with_capacity(alloc, instances.len())?;
    for i in instances {
        list.push(copied_member(alloc, i)?)?;
    }
    Ok(list)
}

/// An index once more.
fn copied_index(alloc: Global, index: &Option<Value>) -> Result<Option<Value>, AllocError>
    ensures { IfOk result (λ o. option_map data_of o ≡ option_map data_of index.now) }
{
    match index {
        None => Ok(None),
        Some(v) => Ok(Some(v.copy(alloc)?)),
    }
}

/// A resource once more.
fn copied_resource(alloc: Global, r: &Resource) -> Result<Resource, AllocError>
    ensures { IfOk result (λ q. resource_of q ≡ resource_of r.now) }
{
    let number = r.number;
    let (global, index) = both(r.global.copy(alloc), copied_index(alloc, &r.index))?;
    Ok(Resource {
        number,
        global,
        index,
    })
}

/// These resources once more.
fn copied_resources(alloc: Global, items: &[Resource]) -> Result<Vec<Resource>, AllocError>
    ensures { IfOk result (λ v. map resource_of v.items ≡ map resource_of items.now) }
{
    let mut list = Vec::with_capacity(alloc, items.len())?;
    for r in items {
        list.push(copied_resource(alloc, r)?)?;
    }
    Ok(list)
}

/// Adds the names of the value parameters.
fn add_values(alloc: Global, list: &mut Vec<Text>, handed: &[Handed<'_>]) -> Result<(), AllocError>
    ensures { IfOk result (λ _. list.new.items ≡ list.old.items ++ filter_map (λ h. value_name h.parameter.name.name h.argument) (map handed_view handed.now)) }
{
    for h in handed {
        match h.argument {
            Argument::Ref(_, _) => continue,
            Argument::Value(_, _) => {
                list.push(h.parameter.name.name.copy(alloc)?)?;
            }
        }
    }
    Ok(())
}

/// The names of a process that runs an archetype.
fn names_by(
    alloc: Global,
    process: &Process,
    archetype: &Archetype,
) -> Result<Items<Text>, AllocError>
    ensures { IfOk result (λ v. v ≡ names_with process.now archetype.now) }
{
    let handed = matched(
        alloc,
        archetype.params.as_slice(),
        process.arguments.as_slice(),
    )?;
    let mut list = Vec::new(alloc);
    add_values(alloc, &mut list, handed.as_slice())?;
    for d in archetype.locals.as_slice() {
        list.push(d.name.name.copy(alloc)?)?;
    }
    Ok(Items::from_vec(list))
}

/// The names of a process; none where it hasn't its archetype.
fn names_of(
    alloc: Global,
    spec: &IndexedSpec<'_>,
    process: &Process,
) -> Result<Items<Text>, AllocError>
    ensures { IfOk result (λ v. v ≡ own_names spec.now process.now) }
{
    match spec.archetype_named(&process.archetype.name) {
        None => Ok(Items::new(alloc)),
        Some(archetype) => names_by(alloc, process, archetype),
    }
}

/// A process with its names.
fn own_of(alloc: Global, spec: &IndexedSpec<'_>, process: &Process) -> Result<OwnNames, AllocError>
    ensures { IfOk result (λ o. own_view o ≡ own_in spec.now process.now) }
{
    let (names, process) = both(
        names_of(alloc, spec, process),
        process.name.name.copy(alloc),
    )?;
    Ok(OwnNames { process, names })
}

/// Those of all processes.
fn all_own(alloc: Global, spec: &Spec) -> Result<Vec<OwnNames>, AllocError>
    ensures { IfOk result (λ v. map own_view v.items ≡ map (own_in spec.now) spec.now.processes) }
{
    let indexed = IndexedSpec::new(alloc, spec)?;
    let mut list = Vec::new(alloc);
    for p in spec.processes.as_slice() {
        list.push(own_of(alloc, &indexed, p)?)?;
    }
    Ok(list)
}

impl BoardLayout {
    ghost use Rattle.pgo_resource.specs.Layouts.{layout_view};
    ghost use Rattle.pgo_meaning.specs.System.{system_of};
    ghost use Rattle.pgo_workers.specs.Worlds.{layout_of};

    /// The layout of a bound specification, copied.
    pub fn of(alloc: Global, bound: &Bound) -> Result<BoardLayout, AllocError>
        ensures { IfOk result (λ l. layout_view l ≡ layout_of (system_of bound.now)) }
    {
        let (resources, members) = both(
            copied_resources(alloc, bound.resources.as_slice()),
            copied_members(alloc, bound.instances.as_slice()),
        )?;
        let (own, start) = both(all_own(alloc, &bound.spec), bound.start.copy(alloc))?;
        Ok(BoardLayout {
            start,
            resources: Items::from_vec(resources),
            members: Items::from_vec(members),
            own: Items::from_vec(own),
        })
    }
}
