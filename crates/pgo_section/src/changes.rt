// What an entry records of the held resources.
ghost use Rattle.std.specs.Prelude.{◌≡◌, ◌<◌, ◌≤◌, map, length, IfOk};
ghost use Rattle.pgo_base.specs.View.{data_of};
ghost use Rattle.pgo_model.specs.LogView.{change_view};
ghost use Rattle.pgo_workers.specs.View.{Once, resources_of};
ghost use Rattle.pgo_workers.specs.Worker.{changes_of};
ghost use Rattle.pgo_workers.specs.Worlds.{layout_of, put_in_order, changed_resources, resource_change};
ghost use Rattle.pgo_section.specs.Folds.{at_of, place_in_order, with_changed, AllBelow};

use pgo_base::log::Change;
use pgo_base::value::Value;
use pgo_resource::board::Board;
use pgo_resource::resource::Resource;
use pgo_resource::sections::Sections;
use std::alloc::{AllocError, Global};

/// The first place from which all have this number or a greater one.
fn place_of(values: &[(u32, Value)], resource: u32) -> usize
    ensures within { result ≤ length values.now }
    ensures place { result ≡ place_in_order resource (map at_of values.now) }
{
    for (i, v) in values.iter().enumerate() {
        if resource <= v.0 {
            return i;
        }
    }
    values.len()
}

/// A resource's value, put before the first one with its number or a greater one.
fn insert_value(
    values: &mut Vec<(u32, Value)>,
    resource: u32,
    value: Value,
) -> Result<(), AllocError>
    ensures { IfOk result (λ _. map at_of values.new.items ≡ put_in_order (resource, data_of value) (map at_of values.old.items)) }
{
    let place = place_of(values.as_slice(), resource);
    values.insert(place, (resource, value))?;
    Ok(())
}

/// A content's value, put in order where the content was changed.
fn insert_changed<R: Resource>(
    values: &mut Vec<(u32, Value)>,
    alloc: Global,
    resource: u32,
    content: &R,
) -> Result<(), AllocError>
    ensures { IfOk result (λ _. map at_of values.new.items ≡ with_changed resource (R.shows content.now) (map at_of values.old.items)) }
{
    if !content.is_changed() {
        return Ok(());
    }
    let value = content.value(alloc)?;
    insert_value(values, resource, value)
}

/// The held resources that were changed, in the order of their numbers, with their values.
pub fn changed_values<B: Board>(
    alloc: Global,
    taken: &Vec<u32>,
    board: &mut B,
) -> Result<Vec<(u32, Value)>, AllocError>
    requires held { taken.now.items ≡ resources_of (B.shows board.old).held }
    requires once { Once taken.now.items }
    ensures system { B.layout board.new ≡ B.layout board.old }
    ensures stays { B.stays board.old board.new }
    ensures moved { B.moved board.new ≡ B.moved board.old }
    ensures shows { B.shows board.new ≡ B.shows board.old }
    ensures values { IfOk result (λ vs. map at_of vs.items ≡ changed_resources (changes_of (B.shows board.old).held)) }
{
    let mut values = Vec::new(alloc);
    let mut left = taken.len();
    while left > 0 {
        left -= 1;
        let resource = taken[left];
        insert_changed(&mut values, alloc, resource, board.content(resource))?;
    }
    Ok(values)
}

/// The change of a resource to this value.
fn resource_change<S: Sections>(
    alloc: Global,
    sections: &S,
    resource: u32,
    value: Value,
) -> Result<Change, AllocError>
    requires { resource < length (layout_of (S.system sections.now)).resources }
    ensures { IfOk result (λ c. change_view c ≡ resource_change (layout_of (S.system sections.now)) (resource, data_of value)) }
{
    let component = sections.component(alloc, resource)?;
    Ok(Change { component, value })
}

/// The changes of resources to these values.
pub fn resource_changes<S: Sections>(
    alloc: Global,
    sections: &S,
    values: Vec<(u32, Value)>,
) -> Result<Vec<Change>, AllocError>
    requires { AllBelow (length (layout_of (S.system sections.now)).resources) (map at_of values.items) }
    ensures { IfOk result (λ cs. map change_view cs.items ≡ map (resource_change (layout_of (S.system sections.now))) (map at_of values.items)) }
{
    let mut changes = Vec::with_capacity(alloc, values.len())?;
    for (resource, value) in values {
        changes.push(resource_change(alloc, sections, resource, value)?)?;
    }
    Ok(changes)
}
