// Reads and writes of whole numbers, and the entry of a write.
ghost use Rattle.std.specs.Prelude.{◌≡◌, ◌<◌, ◌∷◌, [], map, option_map, length, IfOk};
ghost use Rattle.pgo_base.specs.View.{data_of};
ghost use Rattle.pgo_starts.specs.ContentView.{content_shown};
ghost use Rattle.pgo_model.specs.LogView.{change_view};
ghost use Rattle.pgo_resource.specs.Layouts.{layout_view};
ghost use Rattle.pgo_workers.specs.Worlds.{resource_change};

use pgo_base::items::Items;
use pgo_base::log::{Change, Component, Entry, Owner, Values};
use pgo_base::module::Defs;
use pgo_base::results::both;
use pgo_base::text::Text;
use pgo_base::value::Value;
use pgo_resource::layout::BoardLayout;
use pgo_resource::picks::Picks;
use pgo_resource::resource::{MacroEnv, OpStop, Resource};
use pgo_starts::content::Content;
use pgo_syntax::bound::Mapping;
use std::alloc::{AllocError, Global};

/// Writes a number to a cell, without a mapping macro.
pub fn write_number(alloc: Global, cell: &mut Content, v: i64) -> Result<(), OpStop>
    ensures { content_shown cell.new ≡ record (content_shown cell.old) { current = (content_shown cell.new).current } }
{
    let (defs, id): (Defs, Value) = (Defs::new(alloc), Value::Int(0));
    let env = MacroEnv {
        defs: &defs,
        id: &id,
    };
    let mut picks = Picks::of_words(alloc, Vec::new(alloc));
    cell.write(
        alloc,
        &Mapping::Identity,
        env,
        None,
        Value::Int(v),
        &mut picks,
    )
}

/// An index once more.
fn copied_index(alloc: Global, index: &Option<Value>) -> Result<Option<Value>, AllocError>
    ensures { IfOk result (λ o. option_map data_of o ≡ option_map data_of index.now) }
{
    match index {
        None => Ok(None),
        Some(v) => Ok(Some(v.copy(alloc)?)),
    }
}

/// The change of a resource to this value.
fn change(alloc: Global, layout: &BoardLayout, r: u32, value: Value) -> Result<Change, AllocError>
    requires { r < length (layout_view layout.now).resources }
    ensures { IfOk result (λ c. change_view c ≡ resource_change (layout_view layout.now) (r, data_of value)) }
{
    let resource = &layout.resources.as_slice()[r as usize];
    let (variable, index) = both(
        resource.global.copy(alloc),
        copied_index(alloc, &resource.index),
    )?;
    Ok(Change {
        component: Component {
            variable,
            index,
            owner: Owner::OfResource(r),
        },
        value,
    })
}

/// The entry of an instance that changes a resource to this value.
pub fn entry(
    alloc: Global,
    layout: &BoardLayout,
    instance: u32,
    r: u32,
    value: Value,
) -> Result<Entry, AllocError>
    requires { r < length (layout_view layout.now).resources }
    ensures instance { IfOk result (λ e. e.instance ≡ instance) }
    ensures changes { IfOk result (λ e. map change_view e.changes ≡ resource_change (layout_view layout.now) (r, data_of value) ∷ []) }
{
    let mut changes = Vec::new(alloc);
    changes.push(change(alloc, layout, r, value)?)?;
    let (label, next) = both(Text::from_slice(alloc, b"l"), Text::from_slice(alloc, b"l"))?;
    Ok(Entry {
        instance,
        attempt: 1,
        label,
        next,
        changes: Items::from_vec(changes),
        prints: Values::new(alloc),
    })
}
