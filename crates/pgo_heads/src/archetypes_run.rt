// The archetypes that a process runs.
ghost use Rattle.std.specs.Prelude.{◌≡◌, map, IfOk};
ghost use Rattle.std.specs.List.{list_any};
ghost use Rattle.pgo_base.specs.Lookup.{Name, same_name};
ghost use Rattle.pgo_heads.specs.NameMaps.{has_name};
ghost use Rattle.pgo_heads.specs.Refusals as specs;
ghost use Rattle.pgo_heads.specs.Views.{run_view};

use crate::runs::Run;
use pgo_base::name_map::NameMap;
use pgo_syntax::archetype::Archetype;
use std::alloc::{AllocError, Global};
use std::marker::Model;

/// The archetypes that a process runs. Whether one is among them is found without going over the processes.
#[derive(Drop)]
pub struct ArchetypesRun<'l, 'a> {
    runs: &'l [Run<'a>],
    names: NameMap<()>,
}

impl<'l, 'a> Model for ArchetypesRun<'l, 'a> {
    ghost use Rattle.std.specs.Prelude.{◌≡◌, List, map};
    ghost use Rattle.std.specs.Coded.{codes};
    ghost use Rattle.std.specs.List.{list_any};
    ghost use Rattle.pgo_base.specs.Code.{coded_data};
    ghost use Rattle.pgo_base.specs.TreeCode.{coded_tree};
    ghost use Rattle.pgo_base.specs.Lookup.{Name, same_name};
    ghost use Rattle.pgo_syntax.specs.StatementCode.{coded_statement};
    ghost use Rattle.pgo_bound.specs.Runs.{Run};
    ghost use Rattle.pgo_heads.specs.NameMaps.{has_name};
    ghost use Rattle.pgo_heads.specs.Views.{run_view};

    ghost Value = { List Run };

    ghost coded = { Prim.hlevel (codes, coded_data, coded_tree, coded_statement) };

    ghost view = { λ s. map run_view s.runs.now };

    ghost invariant = { λ s. (n : Name) → has_name s.names n ≡ list_any (λ (r : Run). same_name n r.archetype.name.name) (map run_view s.runs.now) };
}

impl<'l, 'a> ArchetypesRun<'l, 'a> {
    /// Those that these processes run.
    pub fn new(alloc: Global, runs: &'l [Run<'a>]) -> Result<ArchetypesRun<'l, 'a>, AllocError>
        ensures { IfOk result (λ a. a ≡ map run_view runs.now) }
    {
        let names = names_run(alloc, runs)?;
        Ok(ArchetypesRun { runs, names })
    }

    /// Whether a process runs the archetype.
    pub fn has(&self, archetype: &Archetype) -> bool
        ensures { result ≡ specs.is_run self.now archetype.now }
    {
        self.names.contains(&archetype.name.name)
    }
}

/// The names of the archetypes that a process runs.
fn names_run(alloc: Global, runs: &[Run<'_>]) -> Result<NameMap<()>, AllocError>
    ensures { IfOk result (λ m. (n : Name) → has_name m n ≡ list_any (λ r. same_name n r.archetype.name.name) (map run_view runs.now)) }
{
    let mut names = NameMap::new(alloc);
    for r in runs {
        names.set(alloc, &r.archetype.name.name, ())?;
    }
    Ok(names)
}
