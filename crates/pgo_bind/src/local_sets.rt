// The sets behind `\in` of locals: the first that is none, or that is empty.
ghost use Rattle.std.specs.Prelude.{◌≡◌, map, option_map, IfOk};
ghost use Rattle.std.specs.List.{filter_map};
ghost use Rattle.pgo_heads.specs.Findings as findings;
ghost use Rattle.pgo_heads.specs.LocalSets as spec;
ghost use Rattle.pgo_heads.specs.Views.{start_view, run_view, finding_view};

use crate::findings::{earlier, where_true};
use crate::values::start_in;
use pgo_definitions::definitions::EvaluatedDefinitions;
use pgo_heads::archetypes_run::ArchetypesRun;
use pgo_heads::findings::{Finding, Lack};
use pgo_heads::runs::Run;
use pgo_heads::start_values::Start;
use pgo_syntax::archetype::Archetype;
use pgo_syntax::binding::Origin;
use pgo_syntax::declaration::Declaration;
use std::alloc::{AllocError, Global};

/// Whether a set has this lack.
fn lacks(lack: Lack, start: &Start) -> bool
    ensures { result ≡ spec.lacks lack (start_view start.now) }
{
    match (lack, start) {
        (Lack::NoSet, Start::Missing) => true,
        (Lack::NoSet, Start::Empty) => false,
        (Lack::NoSet, Start::Begins(_)) => false,
        (Lack::NoMember, Start::Missing) => false,
        (Lack::NoMember, Start::Empty) => true,
        (Lack::NoMember, Start::Begins(_)) => false,
    }
}

/// Whether the set behind a local's `\in` has this lack.
fn lacks_in(
    alloc: Global,
    defs: &EvaluatedDefinitions,
    lack: Lack,
    initial: &Option<Origin>,
) -> Result<bool, AllocError>
    ensures { IfOk result (λ b. b ≡ spec.lacks_in lack (spec.local_set defs.now initial.now)) }
{
    match initial {
        None => Ok(false),
        Some(Origin::Equals(_)) => Ok(false),
        Some(Origin::In(e)) => Ok(lacks(lack, &start_in(alloc, defs, e.get())?)),
    }
}

/// The first local of an archetype whose set has this lack.
#[tactic(auto, using(crate::proofs::Placed::placed_step, pgo_syntax::proofs::Leasts::sooner_none))]
fn lacking_in<'a>(
    alloc: Global,
    defs: &EvaluatedDefinitions,
    lack: Lack,
    locals: &'a [Declaration],
) -> Result<Option<Finding<'a>>, AllocError>
    ensures { IfOk result (λ o. option_map finding_view o ≡ findings.first_placed (filter_map (spec.lacking_local defs.now lack) locals.now)) }
{
    let mut best = None;
    for d in locals {
        let found = where_true(lacks_in(alloc, defs, lack, &d.initial)?, &d.name);
        best = earlier(best, found);
    }
    Ok(best)
}

/// The first local whose set has this lack, of the archetypes that a process runs.
#[tactic(auto, using(crate::proofs::Placed::placed_more, pgo_syntax::proofs::Leasts::sooner_none))]
pub fn lacking<'a>(
    alloc: Global,
    defs: &EvaluatedDefinitions,
    runs: &[Run<'_>],
    lack: Lack,
    archetypes: &'a [Archetype],
) -> Result<Option<Finding<'a>>, AllocError>
    ensures { IfOk result (λ o. option_map finding_view o ≡ findings.first_placed (spec.lacking archetypes.now defs.now (map run_view runs.now) lack)) }
{
    let run = ArchetypesRun::new(alloc, runs)?;
    let mut best = None;
    for a in archetypes {
        if run.has(a) {
            let found = lacking_in(alloc, defs, lack, a.locals.as_slice())?;
            best = earlier(best, found);
            continue;
        }
    }
    Ok(best)
}
