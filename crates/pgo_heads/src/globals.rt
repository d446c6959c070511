// The globals with what they start with, and the resources that they are.
ghost use Rattle.std.specs.Prelude.{◌≡◌, ◌≤◌, ◌++◌, length, map, IfOk};
ghost use Rattle.std.specs.List.{flat_map};
ghost use Rattle.pgo_base.specs.Data.{keys};
ghost use Rattle.pgo_base.specs.PairsView.{all_pairs};
ghost use Rattle.pgo_base.specs.View.{data_of, pair_of, named_data};
ghost use Rattle.pgo_bound.specs.BoundOf as specs;
ghost use Rattle.pgo_bound.specs.Values.{beginning};
ghost use Rattle.pgo_heads.specs.Views.{start_view, global_view, part_view};

use crate::start_values::{Start, beginning};
use pgo_base::pairs::Pairs;
use pgo_base::text::Text;
use pgo_base::value::Value;
use pgo_bound::kinds::Kind;
use pgo_syntax::bound::Resource;
use pgo_syntax::declaration::Declaration;
use std::alloc::{AllocError, Global};

/// A global with what it is among the resources and what it starts with.
#[derive(Drop)]
pub struct GlobalStart<'a> {
    pub declaration: &'a Declaration,
    pub kind: Kind,
    pub start: Start,
}

/// A global as a whole, or one element of it.
#[derive(Clone, Copy)]
pub struct Part<'a> {
    pub global: &'a Text,
    pub index: Option<&'a Value>,
}

/// The pairs of a function.
fn pairs_of(value: &Value) -> Pairs<'_>
    ensures { keys (map pair_of (all_pairs result)) ≡ specs.indices (data_of value.now) }
{
    match value {
        Value::Fun(f) => f.pairs(),
        _ => Pairs::none(),
    }
}

/// The pairs of the function that a global starts with.
fn pairs(start: &Start) -> Pairs<'_>
    ensures { keys (map pair_of (all_pairs result)) ≡ specs.indices (beginning (start_view start.now)) }
{
    match start {
        Start::Begins(v) => pairs_of(v),
        _ => Pairs::none(),
    }
}

/// The elements of a global, at the end.
fn add_elements<'a>(
    global: &'a Text,
    pairs: Pairs<'a>,
    list: &mut Vec<Part<'a>>,
) -> Result<(), AllocError>
    ensures { IfOk result (λ _. map part_view list.new.items ≡ map part_view list.old.items ++ specs.elements_of global.now (keys (map pair_of (all_pairs pairs.entry)))) }
{
    for i in 0..pairs.len() {
        list.push(Part {
            global,
            index: Some(&pairs.at(i).0),
        })?;
    }
    Ok(())
}

/// The parts of a global that are resources, at the end.
fn add_parts<'a>(g: &'a GlobalStart<'a>, list: &mut Vec<Part<'a>>) -> Result<(), AllocError>
    ensures { IfOk result (λ _. map part_view list.new.items ≡ map part_view list.old.items ++ specs.parts_of (global_view g.now)) }
{
    let global = &g.declaration.name.name;
    match g.kind {
        Kind::Unbound => Ok(()),
        Kind::AsWhole => {
            list.push(Part {
                global,
                index: None,
            })?;
            Ok(())
        }
        Kind::ByElement => add_elements(global, pairs(&g.start), list),
    }
}

/// The parts of all globals that are resources.
pub fn all_parts<'a>(
    alloc: Global,
    globals: &'a [GlobalStart<'a>],
) -> Result<Vec<Part<'a>>, AllocError>
    ensures { IfOk result (λ v. map part_view v.items ≡ specs.all_parts (map global_view globals.now)) }
{
    let mut list = Vec::new(alloc);
    for g in globals {
        add_parts(g, &mut list)?;
    }
    Ok(list)
}

/// The index of a part, once more.
fn index_of(alloc: Global, part: &Part<'_>) -> Result<Option<Value>, AllocError>
    ensures { IfOk result (λ o. o ≡ specs.index_of (part_view part.now)) }
{
    match part.index {
        None => Ok(None),
        Some(v) => Ok(Some(v.copy(alloc)?)),
    }
}

/// The resources, numbered.
pub fn resources_of(alloc: Global, parts: &[Part<'_>]) -> Result<Vec<Resource>, AllocError>
    requires { length parts.now ≤ 1024 }
    ensures { IfOk result (λ v. v.items ≡ specs.numbered specs.resource_at 0 (map part_view parts.now)) }
{
    let mut list = Vec::with_capacity(alloc, parts.len())?;
    for p in parts {
        let number = list.len() as u32;
        list.push(Resource {
            number,
            global: p.global.copy(alloc)?,
            index: index_of(alloc, p)?,
        })?;
    }
    Ok(list)
}

/// Each global with the value that it begins with, at the end.
pub fn add_globals(
    alloc: Global,
    globals: &[GlobalStart<'_>],
    list: &mut Vec<(Text, Value)>,
) -> Result<(), AllocError>
    ensures { IfOk result (λ _. map named_data list.new.items ≡ map named_data list.old.items ++ map specs.global_value (map global_view globals.now)) }
{
    for g in globals {
        let value = beginning(alloc, &g.start)?;
        list.push((g.declaration.name.name.copy(alloc)?, value))?;
    }
    Ok(())
}
