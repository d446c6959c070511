// Rule 9: the set of a variable is empty.
ghost use Rattle.std.specs.Prelude.{◌≡◌, map, option_map};
ghost use Rattle.std.specs.List.{filter_map};
ghost use Rattle.pgo_bound.specs.Values.{is_empty};
ghost use Rattle.pgo_heads.specs.Answers.{Passes};
ghost use Rattle.pgo_heads.specs.Findings as findings;
ghost use Rattle.pgo_heads.specs.InitEmpty as spec;
ghost use Rattle.pgo_heads.specs.Views.{start_view, run_view, global_view, finding_view};
ghost use Rattle.pgo_heads.specs.declared.errors.BindError.TheVariants as errors;

use crate::findings::{earlier, where_true};
use crate::local_sets::lacking;
use pgo_definitions::definitions::EvaluatedDefinitions;
use pgo_heads::errors::BindError;
use pgo_heads::findings::{Finding, Lack};
use pgo_heads::globals::GlobalStart;
use pgo_heads::runs::Run;
use pgo_heads::start_values::Start;
use pgo_syntax::archetype::Archetype;
use std::alloc::Global;

fn is_empty(start: &Start) -> bool
    ensures { result ≡ is_empty (start_view start.now) }
{
    match start {
        Start::Missing => false,
        Start::Empty => true,
        Start::Begins(_) => false,
    }
}

/// The first global with an empty set.
#[tactic(auto, using(crate::proofs::Placed::placed_step, pgo_syntax::proofs::Leasts::sooner_none))]
fn empty_globals<'a>(globals: &'a [GlobalStart<'a>]) -> Option<Finding<'a>>
    ensures { option_map finding_view result ≡ findings.first_placed (filter_map spec.empty_global (map global_view globals.now)) }
{
    let mut best = None;
    for g in globals {
        let found = where_true(is_empty(&g.start), &g.declaration.name);
        best = earlier(best, found);
    }
    best
}

/// Refuses an empty set.
#[tactic(auto, using(crate::proofs::Placed::placed_append))]
pub fn sets_filled<'a>(
    alloc: Global,
    archetypes: &'a [Archetype],
    defs: &EvaluatedDefinitions,
    runs: &[Run<'a>],
    globals: &'a [GlobalStart<'a>],
) -> Result<(), BindError>
    ensures { Passes (option_map (λ p. errors.InitEmpty p.1) (findings.first_placed (spec.sets_empty archetypes.now defs.now (map run_view runs.now) (map global_view globals.now)))) result }
{
    let first = empty_globals(globals);
    let second = lacking(alloc, defs, runs, Lack::NoMember, archetypes)?;
    match earlier(first, second) {
        None => Ok(()),
        Some(found) => Err(BindError::InitEmpty {
            name: found.name.copy(alloc)?,
        }),
    }
}
