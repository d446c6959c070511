// How the instances bind the globals.
ghost use Rattle.std.specs.Prelude.{◌≡◌, map, IfOk};
ghost use Rattle.pgo_base.specs.Lookup.{Name};
ghost use Rattle.pgo_bound.specs.Runs as specs;
ghost use Rattle.pgo_bound.specs.Kinds.{with_extent, all_extents};
ghost use Rattle.pgo_heads.specs.NameMaps.{kind_in, with_binding, extent_if};
ghost use Rattle.pgo_heads.specs.Views.{handed_view, run_view};

use crate::runs::{Handed, Run};
use pgo_base::name_map::NameMap;
use pgo_base::text::Text;
use pgo_bound::kinds::Kind;
use pgo_syntax::archetype::Extent;
use pgo_syntax::process::Argument;
use std::alloc::{AllocError, Global};
use std::marker::Model;

/// How the instances bind the globals. What is known of one is found without going over the arguments of all processes.
#[derive(Drop)]
pub struct Kinds<'l, 'a> {
    runs: &'l [Run<'a>],
    kinds: NameMap<Kind>,
}

impl<'l, 'a> Model for Kinds<'l, 'a> {
    ghost use Rattle.std.specs.Prelude.{◌≡◌, List, map};
    ghost use Rattle.std.specs.Coded.{codes};
    ghost use Rattle.pgo_base.specs.Code.{coded_data};
    ghost use Rattle.pgo_base.specs.TreeCode.{coded_tree};
    ghost use Rattle.pgo_base.specs.Lookup.{Name};
    ghost use Rattle.pgo_syntax.specs.StatementCode.{coded_statement};
    ghost use Rattle.pgo_bound.specs.Runs.{Run, kind_of};
    ghost use Rattle.pgo_heads.specs.NameMaps.{kind_in};
    ghost use Rattle.pgo_heads.specs.Views.{run_view};

    ghost Value = { List Run };

    ghost coded = { Prim.hlevel (codes, coded_data, coded_tree, coded_statement) };

    ghost view = { λ s. map run_view s.runs.now };

    ghost invariant = { λ s. (n : Name) → kind_in s.kinds n ≡ kind_of n (map run_view s.runs.now) };
}

impl<'l, 'a> Kinds<'l, 'a> {
    /// What the instances of these processes bind.
    pub fn new(alloc: Global, runs: &'l [Run<'a>]) -> Result<Kinds<'l, 'a>, AllocError>
        ensures { IfOk result (λ k. k ≡ map run_view runs.now) }
    {
        let kinds = kinds_of(alloc, runs)?;
        Ok(Kinds { runs, kinds })
    }

    /// What a global is among the resources, by the bindings of all instances.
    pub fn kind_of(&self, name: &Text) -> Kind
        ensures { result ≡ specs.kind_of name.now self.now }
    {
        self.kinds.get(name).copied().unwrap_or(Kind::Unbound)
    }
}

/// The kind with one binding more.
fn with_extent(kind: Kind, extent: Extent) -> Kind
    ensures { result ≡ with_extent kind extent }
{
    match (kind, extent) {
        (Kind::AsWhole, _) => Kind::AsWhole,
        (_, Extent::Whole) => Kind::AsWhole,
        (_, Extent::Element) => Kind::ByElement,
    }
}

/// The kind of a global with one binding more.
fn add_extent(
    alloc: Global,
    kinds: &mut NameMap<Kind>,
    name: &Text,
    extent: Extent,
) -> Result<(), AllocError>
    ensures { IfOk result (λ _. (n : Name) → kind_in kinds.new n ≡ with_binding (kind_in kinds.old n) (extent_if n name.now extent)) }
{
    let before = kinds.get(name).copied().unwrap_or(Kind::Unbound);
    kinds.set(alloc, name, with_extent(before, extent))?;
    Ok(())
}

/// The kind of each global with the binding of an argument more.
fn add_argument(
    alloc: Global,
    kinds: &mut NameMap<Kind>,
    argument: &Argument,
) -> Result<(), AllocError>
    ensures { IfOk result (λ _. (n : Name) → kind_in kinds.new n ≡ with_binding (kind_in kinds.old n) (specs.extent_of n argument.now)) }
{
    match argument {
        Argument::Value(..) => Ok(()),
        Argument::Ref(global, extent) => add_extent(alloc, kinds, &global.name, *extent),
    }
}

/// The kind of each global with the bindings of a process more.
fn add_arguments(
    alloc: Global,
    kinds: &mut NameMap<Kind>,
    handed: &[Handed<'_>],
) -> Result<(), AllocError>
    ensures { IfOk result (λ _. (n : Name) → kind_in kinds.new n ≡ all_extents (kind_in kinds.old n) (specs.extents_in n (map handed_view handed.now))) }
{
    for h in handed {
        add_argument(alloc, kinds, h.argument)?;
    }
    Ok(())
}

/// The kind of each global by the bindings of all instances.
fn kinds_of(alloc: Global, runs: &[Run<'_>]) -> Result<NameMap<Kind>, AllocError>
    ensures { IfOk result (λ m. (n : Name) → kind_in m n ≡ specs.kind_of n (map run_view runs.now)) }
{
    let mut kinds = NameMap::new(alloc);
    for r in runs {
        if r.has_ids() {
            add_arguments(alloc, &mut kinds, r.handed.as_slice())?;
            continue;
        }
    }
    Ok(kinds)
}
