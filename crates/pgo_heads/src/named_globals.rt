// The globals, found by name.
ghost use Rattle.std.specs.Prelude.{◌≡◌, Some, cond, map, IfOk};
ghost use Rattle.pgo_base.specs.Lookup.{Name, same_name};
ghost use Rattle.pgo_base.specs.View.{data_of};
ghost use Rattle.pgo_heads.specs.NameMaps.{found, is_true_in};
ghost use Rattle.pgo_heads.specs.Refusals as specs;
ghost use Rattle.pgo_heads.specs.Views.{start_view, global_view};

use crate::globals::GlobalStart;
use crate::start_values::Start;
use pgo_base::name_map::NameMap;
use pgo_base::text::Text;
use pgo_base::value::Value;
use pgo_bound::kinds::Kind;
use std::alloc::{AllocError, Global};
use std::marker::Model;

/// The globals with what they start with. One is found without going over the list; of several of one name the first counts.
#[derive(Drop)]
pub struct NamedGlobals<'l, 'a> {
    list: &'l [GlobalStart<'a>],
    without_elements: NameMap<bool>,
}

impl<'l, 'a> Model for NamedGlobals<'l, 'a> {
    ghost use Rattle.std.specs.Prelude.{◌≡◌, List, map};
    ghost use Rattle.std.specs.Coded.{codes};
    ghost use Rattle.pgo_base.specs.Code.{coded_data};
    ghost use Rattle.pgo_base.specs.TreeCode.{coded_tree};
    ghost use Rattle.pgo_base.specs.Lookup.{Name};
    ghost use Rattle.pgo_bound.specs.BoundOf.{GlobalStart};
    ghost use Rattle.pgo_heads.specs.NameMaps.{is_true_in};
    ghost use Rattle.pgo_heads.specs.Refusals.{names_no_elements};
    ghost use Rattle.pgo_heads.specs.Views.{global_view};

    ghost Value = { List GlobalStart };

    ghost coded = { Prim.hlevel (codes, coded_data, coded_tree) };

    ghost view = { λ s. map global_view s.list.now };

    ghost invariant = { λ s. (n : Name) → is_true_in s.without_elements n ≡ names_no_elements (map global_view s.list.now) n };
}

impl<'l, 'a> NamedGlobals<'l, 'a> {
    /// These globals.
    pub fn new(
        alloc: Global,
        list: &'l [GlobalStart<'a>],
    ) -> Result<NamedGlobals<'l, 'a>, AllocError>
        ensures { IfOk result (λ g. g ≡ map global_view list.now) }
    {
        let map = without_elements(alloc, list)?;
        Ok(NamedGlobals {
            list,
            without_elements: map,
        })
    }

    /// Whether this global is by element and doesn't start as a function.
    pub fn names_no_elements(&self, name: &Text) -> bool
        ensures { result ≡ specs.names_no_elements self.now name.now }
    {
        self.without_elements.get(name).copied().unwrap_or(false)
    }
}

/// Whether a global starts as a function.
fn begins_as_function(start: &Start) -> bool
    ensures { result ≡ specs.begins_as_function (start_view start.now) }
{
    match start {
        Start::Missing => false,
        Start::Empty => false,
        Start::Begins(v) => is_function(v),
    }
}

fn is_function(value: &Value) -> bool
    ensures { result ≡ specs.is_function (data_of value.now) }
{
    match value {
        Value::Fun(_) => true,
        Value::Bool(_) => false,
        Value::Int(_) => false,
        Value::Str(_) => false,
        Value::Model(_) => false,
        Value::Set(_) => false,
    }
}

/// Whether the global is one resource for each of its elements.
fn is_by_element(kind: Kind) -> bool
    ensures { result ≡ specs.is_by_element kind }
{
    match kind {
        Kind::Unbound => false,
        Kind::AsWhole => false,
        Kind::ByElement => true,
    }
}

/// Whether the global is by element and doesn't start as a function.
fn has_no_elements(g: &GlobalStart<'_>) -> bool
    ensures { result ≡ specs.has_no_elements (global_view g.now) }
{
    is_by_element(g.kind) && !begins_as_function(&g.start)
}

/// This global is the one of its name from now on.
fn put_first(
    alloc: Global,
    known: &mut NameMap<bool>,
    g: &GlobalStart<'_>,
) -> Result<(), AllocError>
    ensures { IfOk result (λ _. (n : Name) → found known.new n ≡ cond (same_name n g.now.declaration.now.name.name) (Some (specs.has_no_elements (global_view g.now))) (found known.old n)) }
{
    known.set(alloc, &g.declaration.name.name, has_no_elements(g))?;
    Ok(())
}

/// For each name whether the first global of that name is by element and doesn't start as a function.
fn without_elements(alloc: Global, list: &[GlobalStart<'_>]) -> Result<NameMap<bool>, AllocError>
    ensures { IfOk result (λ m. (n : Name) → is_true_in m n ≡ specs.names_no_elements (map global_view list.now) n) }
{
    let mut known = NameMap::new(alloc);
    let mut i = list.len();
    while i > 0 {
        i -= 1;
        put_first(alloc, &mut known, &list[i])?;
    }
    Ok(known)
}
