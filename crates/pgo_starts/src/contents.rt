// The contents of resources at the start of a run, and in a state.
ghost use Rattle.std.specs.Prelude.{◌≡◌, ◌&&◌, ℕ, length, map, option_map, is_some, vec_len, Some, IfOk};
ghost use Rattle.pgo_base.specs.Data.{Data};
ghost use Rattle.pgo_base.specs.NameMaps.{has_name};
ghost use Rattle.pgo_base.specs.View.{data_of};
ghost use Rattle.pgo_cells.specs.CellView.{start_of};
ghost use Rattle.pgo_mailbox.specs.BoxView.{BoxOf};
ghost use Rattle.pgo_meaning.specs.System.{resource_of, system_of};
ghost use Rattle.pgo_model.specs.Log.{content};
ghost use Rattle.pgo_model.specs.Sequences.{elements};
ghost use Rattle.pgo_resource.specs.PlainRows.{FitsStart};
ghost use Rattle.pgo_workers.specs.Worlds.{component_of, layout_of};
ghost use Rattle.pgo_starts.specs.Contents.{cell_of, starting_in};
ghost use Rattle.pgo_starts.specs.ContentView.{content_shown};
ghost use Rattle.pgo_starts.specs.Mailboxes.{is_mailbox, is_boxed, is_boxed_in, some_by_channel};

use crate::content::Content;
use crate::kinds::{kind_of, kinds};
use pgo_base::name_map::NameMap;
use pgo_base::scope::State;
use pgo_base::value::Value;
use pgo_cells::cell::Cell;
use pgo_mailbox::channel::BoxKind;
use pgo_mailbox::mailbox::{Mailbox, NotABox};
use pgo_sets::lookup::at;
use pgo_syntax::bound::{Bound, Resource};
use std::alloc::{AllocError, Global};

/// What a state has at a resource; none where it isn't there.
fn value_in<'a>(start: &'a State, resource: &Resource) -> Option<&'a Value>
    ensures { (n : ℕ) → option_map (λ r. data_of r.now) result ≡ content (component_of n (Some (resource_of resource.now))) start.now }
{
    match start.find(&resource.global) {
        None => None,
        Some(whole) => match &resource.index {
            None => Some(whole),
            Some(i) => at(whole, i),
        },
    }
}

/// What `Mailbox::new` makes of a value, or a cell of one that makes no mailbox.
fn boxed(mailbox: Result<Mailbox, NotABox>) -> Result<Content, AllocError>
    ensures shown { (v : Data) → BoxOf v mailbox → IfOk result (λ c. content_shown c ≡ start_of v) }
    ensures which { (v : Data) → BoxOf v mailbox → IfOk result (λ c. is_mailbox c ≡ is_some (elements v)) }
{
    match mailbox {
        Ok(mailbox) => Ok(Content::Mailbox(mailbox)),
        Err(NotABox::Value(v)) => Ok(Content::Cell(Cell::new(v))),
        Err(NotABox::NoMemory) => Err(AllocError),
    }
}

/// A content that is v: a mailbox where there is a channel's kind, and v is a sequence.
fn content_of(alloc: Global, v: Value, kind: Option<&BoxKind>) -> Result<Content, AllocError>
    ensures shown { IfOk result (λ c. content_shown c ≡ start_of (data_of v)) }
    ensures which { IfOk result (λ c. is_mailbox c ≡ (is_some (elements (data_of v)) && is_some kind.entry)) }
{
    match kind {
        None => Ok(Content::Cell(Cell::new(v))),
        Some(kind) => boxed(Mailbox::new(alloc, v, kind.copy(alloc)?)),
    }
}

/// A content with what a state has at a resource.
fn content_at(
    alloc: Global,
    start: &State,
    resource: &Resource,
    kinds: &NameMap<BoxKind>,
) -> Result<Content, AllocError>
    ensures shown { IfOk result (λ c. content_shown c ≡ cell_of start.now (resource_of resource.now)) }
    ensures which { IfOk result (λ c. is_mailbox c ≡ is_boxed_in start.now (has_name kinds.now) resource.now) }
{
    match value_in(start, resource) {
        None => Ok(Content::Cell(Cell::new(Value::Bool(false)))),
        Some(v) => content_of(alloc, v.copy(alloc)?, kind_of(kinds, resource)),
    }
}

/// A content for each resource, in order.
fn all_contents(
    alloc: Global,
    start: &State,
    resources: &[Resource],
    kinds: &NameMap<BoxKind>,
) -> Result<Vec<Content>, AllocError>
    ensures shown { IfOk result (λ v. map content_shown v.items ≡ map (cell_of start.now) (map resource_of resources.now)) }
    ensures which { IfOk result (λ v. map is_mailbox v.items ≡ map (is_boxed_in start.now (has_name kinds.now)) resources.now) }
{
    let mut list = Vec::with_capacity(alloc, resources.len())?;
    for resource in resources {
        list.push(content_at(alloc, start, resource, kinds)?)?;
    }
    Ok(list)
}

/// The contents of all resources in a state, in order: a mailbox where every binding of the resource's global maps it by
/// element, some binding by a reliable channel, and the value in the state is a sequence; else a cell.
pub fn contents_in(alloc: Global, bound: &Bound, s: &State) -> Result<Vec<Content>, AllocError>
    ensures as_many { IfOk result (λ v. vec_len v ≡ length bound.now.resources) }
    ensures fit { IfOk result (λ v. FitsStart content_shown (starting_in s.now (layout_of (system_of bound.now))) v.items) }
    ensures mailboxes { IfOk result (λ v. map is_mailbox v.items ≡ map (is_boxed_in s.now (λ g. some_by_channel g bound.now.instances)) bound.now.resources) }
{
    let resources = bound.resources.as_slice();
    let kinds = kinds(alloc, bound.instances.as_slice())?;
    all_contents(alloc, s, resources, &kinds)
}

/// The contents of all resources as a run starts (`contents_in`).
pub fn contents(alloc: Global, bound: &Bound) -> Result<Vec<Content>, AllocError>
    ensures as_many { IfOk result (λ v. vec_len v ≡ length bound.now.resources) }
    ensures fit { IfOk result (λ v. FitsStart content_shown (layout_of (system_of bound.now)) v.items) }
    ensures mailboxes { IfOk result (λ v. map is_mailbox v.items ≡ map (is_boxed bound.now) bound.now.resources) }
{
    contents_in(alloc, bound, &bound.start)
}
