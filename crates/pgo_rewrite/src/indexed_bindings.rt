// The bindings of a process, found by the names of its parameters.
ghost use Rattle.std.specs.Prelude.{◌≡◌, List, [], option_map, IfOk};
ghost use Rattle.pgo_base.specs.Lookup.{Name, find};
ghost use Rattle.pgo_meaning.specs.Parameters.{all_mapped, mapped_of};
ghost use Rattle.pgo_rewrite.specs.Unmapped.{all_unmapped, before_others, if_unmapped, mapped_in, target_in};
ghost use Rattle.pgo_rewrite.specs.Views.{mapped_view};
ghost use Rattle.pgo_sections.specs.Access.{MappedNames};
ghost use Rattle.pgo_syntax.specs.declared.bound.Target.{Target as Meant};

use crate::mapped::{Mapped, mapped_target};
use pgo_base::name_map::NameMap;
use pgo_base::text::Text;
use pgo_syntax::bound::{Binding, Target};
use std::alloc::{AllocError, Global};
use std::marker::Model;

/// Bindings. What a parameter stands for is found without going over all of them.
///
/// Where two bindings have a name, the first mapped one and the first other one of it count.
#[derive(Drop)]
pub struct IndexedBindings<'a> {
    list: &'a [Binding],
    mapped: NameMap<Mapped<'a>>,
    unmapped: NameMap<&'a Target>,
}

impl<'a> Model for IndexedBindings<'a> {
    ghost use Rattle.std.specs.Prelude.{◌≡◌, List};
    ghost use Rattle.std.specs.Coded.{codes};
    ghost use Rattle.pgo_base.specs.Lookup.{Name, find};
    ghost use Rattle.pgo_base.specs.TreeCode.{coded_tree};
    ghost use Rattle.pgo_meaning.specs.Parameters.{all_mapped};
    ghost use Rattle.pgo_syntax.specs.StatementCode.{coded_statement};
    ghost use Rattle.pgo_syntax.specs.declared.bound.Binding.{Binding};
    ghost use Rattle.pgo_rewrite.specs.Unmapped.{all_unmapped, mapped_in, target_in};

    ghost Value = { List Binding };

    ghost coded = { Prim.hlevel (codes, coded_tree, coded_statement) };

    ghost view = { λ b. b.list.now };

    ghost invariant = { λ b. ((x : Name) → mapped_in b.mapped x ≡ find x (all_mapped b.list.now)) × ((x : Name) → target_in b.unmapped x ≡ find x (all_unmapped b.list.now)) };
}

impl<'a> IndexedBindings<'a> {
    /// No binding.
    pub fn none(alloc: Global) -> IndexedBindings<'a>
        ensures { result ≡ [] }
    {
        IndexedBindings {
            list: &[],
            mapped: NameMap::new(alloc),
            unmapped: NameMap::new(alloc),
        }
    }

    /// These bindings.
    ///
    /// Err only where there is no memory.
    pub fn new(alloc: Global, list: &'a [Binding]) -> Result<IndexedBindings<'a>, AllocError>
        ensures { IfOk result (λ b. b ≡ list.now) }
    {
        let mut mapped = NameMap::new(alloc);
        let mut unmapped = NameMap::new(alloc);
        let mut i = list.len();
        while i > 0 {
            i -= 1;
            put_mapped(alloc, &mut mapped, &list[i])?;
            put_unmapped(alloc, &mut unmapped, &list[i])?;
        }
        Ok(IndexedBindings {
            list,
            mapped,
            unmapped,
        })
    }

    /// The bindings in order.
    pub fn as_slice(&self) -> &'a [Binding]
        ensures { result.now ≡ self.now }
    {
        self.list
    }

    /// The mapped parameter of a name, if it is one.
    pub fn mapped_named(&self, x: &Text) -> Option<Mapped<'a>>
        ensures { option_map mapped_view result ≡ find x.now (all_mapped self.now) }
    {
        self.mapped.get(x).copied()
    }

    /// What the parameter of a name that has no mapping stands for, if it is one.
    pub fn unmapped_named(&self, x: &Text) -> Option<&'a Target>
        ensures { option_map (λ t. t.now) result ≡ find x.now (all_unmapped self.now) }
    {
        self.unmapped.get(x).copied()
    }
}

/// A target, where it has no mapping.
fn unmapped_target<'a>(target: &'a Target) -> Option<&'a Target>
    ensures { option_map (λ t. t.now) result ≡ if_unmapped target.entry.now }
{
    match target {
        Target::Global {
            mapping: Some(_),
            ..
        } => None,
        _ => Some(target),
    }
}

/// Puts the binding before those of which the map has the first mapped one of each name.
fn put_mapped<'a>(
    alloc: Global,
    first: &mut NameMap<Mapped<'a>>,
    b: &'a Binding,
) -> Result<(), AllocError>
    ensures { IfOk result (λ _. (rest : MappedNames) → ((n : Name) → mapped_in first.old n ≡ find n rest) → (n : Name) → mapped_in first.new n ≡ find n (mapped_of b.entry.now.parameter b.entry.now.target rest)) }
{
    match mapped_target(&b.target) {
        Some(m) => first.set(alloc, &b.parameter, m),
        None => Ok(()),
    }
}

/// Puts the binding before those of which the map has the first one without a mapping of each name.
fn put_unmapped<'a>(
    alloc: Global,
    first: &mut NameMap<&'a Target>,
    b: &'a Binding,
) -> Result<(), AllocError>
    ensures { IfOk result (λ _. (rest : List (Name × Meant)) → ((n : Name) → target_in first.old n ≡ find n rest) → (n : Name) → target_in first.new n ≡ find n (before_others b.entry.now.parameter (if_unmapped b.entry.now.target) rest)) }
{
    match unmapped_target(&b.target) {
        Some(target) => first.set(alloc, &b.parameter, target),
        None => Ok(()),
    }
}
