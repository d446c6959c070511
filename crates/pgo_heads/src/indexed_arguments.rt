// The arguments of a process, found by name and by number.
ghost use Rattle.std.specs.Prelude.{◌≡◌, map, IfOk};
ghost use Rattle.pgo_heads.specs.Refusals as specs;
ghost use Rattle.pgo_heads.specs.Views.{handed_view};

use crate::runs::Handed;
use pgo_base::name_map::NameMap;
use pgo_base::text::Text;
use pgo_syntax::process::Argument;
use std::alloc::{AllocError, Global};
use std::collections::BTreeSet;
use std::marker::Model;

/// The arguments of a process. One is found by its number, or as a global, without going over the list.
#[derive(Drop)]
pub struct IndexedArguments<'l, 'a> {
    list: &'l [Handed<'a>],
    globals: NameMap<()>,
    globals_at: BTreeSet<u64>,
    numbers: BTreeSet<u64>,
}

impl<'l, 'a> Model for IndexedArguments<'l, 'a> {
    ghost use Rattle.std.specs.Prelude.{◌≡◌, ℕ, List, map};
    ghost use Rattle.std.specs.Coded.{codes};
    ghost use Rattle.pgo_base.specs.Code.{coded_data};
    ghost use Rattle.pgo_base.specs.TreeCode.{coded_tree};
    ghost use Rattle.pgo_base.specs.Lookup.{Name};
    ghost use Rattle.pgo_bound.specs.Runs.{Handed};
    ghost use Rattle.pgo_heads.specs.NameMaps.{has_name, has_number_in};
    ghost use Rattle.pgo_heads.specs.Refusals.{has_ref_to, has_ref_at, has_number};
    ghost use Rattle.pgo_heads.specs.Views.{handed_view};

    ghost Value = { List Handed };

    ghost coded = { Prim.hlevel (codes, coded_data, coded_tree) };

    ghost view = { λ s. map handed_view s.list.now };

    ghost invariant = { λ s. ((n : Name) → has_name s.globals n ≡ has_ref_to n (map handed_view s.list.now)) × ((k : ℕ) → has_number_in s.globals_at k ≡ has_ref_at k (map handed_view s.list.now)) × ((k : ℕ) → has_number_in s.numbers k ≡ has_number k (map handed_view s.list.now)) };
}

impl<'l, 'a> IndexedArguments<'l, 'a> {
    /// These arguments.
    pub fn new(
        alloc: Global,
        list: &'l [Handed<'a>],
    ) -> Result<IndexedArguments<'l, 'a>, AllocError>
        ensures { IfOk result (λ a. a ≡ map handed_view list.now) }
    {
        let mut globals = NameMap::new(alloc);
        let mut globals_at = BTreeSet::new(alloc);
        let mut numbers = BTreeSet::new(alloc);
        for h in list {
            numbers.insert(h.number)?;
            if let Argument::Ref(g, _) = h.argument {
                globals.set(alloc, &g.name, ())?;
                globals_at.insert(h.number)?;
            }
        }
        Ok(IndexedArguments {
            list,
            globals,
            globals_at,
            numbers,
        })
    }

    /// Whether some argument is this global.
    pub fn has_ref_to(&self, name: &Text) -> bool
        ensures { result ≡ specs.has_ref_to name.now self.now }
    {
        self.globals.contains(name)
    }

    /// Whether the argument of this number is a global.
    pub fn has_ref_at(&self, number: u64) -> bool
        ensures { result ≡ specs.has_ref_at number self.now }
    {
        self.globals_at.contains(&number)
    }

    /// Whether there is an argument of this number.
    pub fn has_number(&self, number: u64) -> bool
        ensures { result ≡ specs.has_number number self.now }
    {
        self.numbers.contains(&number)
    }
}
