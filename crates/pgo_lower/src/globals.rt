// What the globals of a bound specification are.
ghost use Rattle.std.specs.Prelude.{◌≡◌, ◌&&◌, None, IfOk};
ghost use Rattle.pgo_base.specs.Lookup.{same_name};
ghost use Rattle.pgo_model.specs.Core.{same_index};
ghost use Rattle.pgo_bound.specs.Sound.{index_in};
ghost use Rattle.pgo_meaning.specs.Sect.{is_by_element as by_element};
ghost use Rattle.pgo_lower.specs.Globals.{AreRight, are_right_prop, global_in, whole_in};

use crate::kinds::kind_of;
use pgo_base::text::Text;
use pgo_bound::kinds::Kind;
use pgo_syntax::bound::{Bound, Resource};
use std::alloc::{AllocError, Global as Memory};

/// A global: whether it is bound by element, and its number as a whole, if it is a resource.
#[derive(Clone, Copy)]
pub struct Global {
    pub is_element: bool,
    pub whole: Option<u32>,
}

/// A global under its name.
#[derive(Drop)]
pub struct Row<'a> {
    name: &'a Text,
    global: Global,
}

/// The declared globals of a bound specification, so that each is looked for once.
#[derive(Drop)]
pub struct Globals<'a> {
    pub bound: &'a Bound,
    rows: Vec<Row<'a>>,
    ghost are_right: { AreRight bound.now rows.items } by { are_right_prop bound.now rows.items },
}

/// Whether a resource is this global as a whole.
fn is_whole(r: &Resource, g: &Text) -> bool
    ensures { result ≡ same_name r.now.global g.now && same_index (index_in r.now) None }
{
    r.global.is(g) && r.index.is_none()
}

/// The number of a global as a whole.
fn whole_of(bound: &Bound, g: &Text) -> Option<u32>
    ensures { result ≡ whole_in bound.now g.now }
{
    for r in bound.resources.as_slice() {
        if is_whole(r, g) {
            return Some(r.number);
        }
    }
    None
}

/// Whether it is one resource for each element.
fn is_by_element(kind: Kind) -> bool
    ensures { result ≡ by_element kind }
{
    match kind {
        Kind::ByElement => true,
        _ => false,
    }
}

/// What a global is.
fn global_of(bound: &Bound, g: &Text) -> Global
    ensures { result ≡ global_in bound.now g.now }
{
    Global {
        is_element: is_by_element(kind_of(bound, g)),
        whole: whole_of(bound, g),
    }
}

impl<'a> Globals<'a> {
    /// Those that the specification declares.
    pub fn new(alloc: Memory, bound: &'a Bound) -> Result<Globals<'a>, AllocError>
        ensures { IfOk result (λ t. t.bound.now ≡ bound.entry.now) }
    {
        let mut rows = Vec::new(alloc);
        for d in bound.spec.globals.as_slice() {
            let name = &d.name.name;
            let global = global_of(bound, name);
            rows.push(Row { name, global })?;
        }
        Ok(Globals { bound, rows })
    }

    /// What a global is.
    pub fn get(&self, g: &Text) -> Global
        ensures { result ≡ global_in self.now.bound.now g.now }
    {
        for row in &self.rows {
            if g.is(row.name) {
                return row.global;
            }
        }
        global_of(self.bound, g)
    }
}
