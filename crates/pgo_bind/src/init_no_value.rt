// Rule 8: an initial value, a set or a value argument has no value, or what a variable starts with is too deep.
ghost use Rattle.std.specs.Prelude.{◌≡◌, map, option_map, IfOk};
ghost use Rattle.std.specs.List.{filter_map, flat_map};
ghost use Rattle.pgo_base.specs.View.{data_of};
ghost use Rattle.pgo_base.specs.ExprView.{tree};
ghost use Rattle.pgo_bound.specs.Runs.{is_some_item};
ghost use Rattle.pgo_heads.specs.Answers.{Passes};
ghost use Rattle.pgo_heads.specs.Findings as findings;
ghost use Rattle.pgo_heads.specs.InitNoValue as spec;
ghost use Rattle.pgo_heads.specs.Views.{start_view, handed_view, run_view, global_view, finding_view};
ghost use Rattle.pgo_heads.specs.declared.errors.BindError.TheVariants as errors;

use crate::findings::{earlier, where_true};
use crate::local_sets::lacking;
use crate::values::{argument_start, closed_value, start_in};
use pgo_base::expr::Expr;
use pgo_base::value::Value;
use pgo_definitions::definitions::EvaluatedDefinitions;
use pgo_heads::errors::BindError;
use pgo_heads::findings::{Finding, Lack};
use pgo_heads::globals::GlobalStart;
use pgo_heads::runs::{Handed, Run};
use pgo_heads::start_values::{Start, default_value, is_unset, start_of_value};
use pgo_operands::mentions::mentions;
use pgo_syntax::archetype::Archetype;
use pgo_syntax::binding::Origin;
use pgo_syntax::declaration::Declaration;
use pgo_syntax::process::Argument;
use std::alloc::{AllocError, Global};

/// The first global without a value, or with too deep a one.
#[tactic(auto, using(crate::proofs::Placed::placed_step, pgo_syntax::proofs::Leasts::sooner_none))]
fn unset_globals<'a>(globals: &'a [GlobalStart<'a>]) -> Option<Finding<'a>>
    ensures { option_map finding_view result ≡ findings.first_placed (filter_map spec.unset_global (map global_view globals.now)) }
{
    let mut best = None;
    for g in globals {
        let found = where_true(is_unset(256, &g.start), &g.declaration.name);
        best = earlier(best, found);
    }
    best
}

/// Whether the value of an expression is missing or too deep at some of these identifiers.
fn is_some_unset(
    alloc: Global,
    defs: &EvaluatedDefinitions,
    e: &Expr,
    ids: &[Value],
) -> Result<bool, AllocError>
    ensures { IfOk result (λ b. b ≡ spec.is_some_unset defs.now (tree e.now) (map data_of ids.now)) }
{
    for id in ids {
        if is_unset(255, &argument_start(alloc, defs, e, id)?) {
            return Ok(true);
        }
    }
    Ok(false)
}

/// Whether the value of an expression in which `self` doesn't stand is missing or too deep.
fn is_closed_unset(alloc: Global, defs: &EvaluatedDefinitions, e: &Expr) -> Result<bool, AllocError>
    ensures { IfOk result (λ b. b ≡ spec.is_closed_unset defs.now (tree e.now)) }
{
    if mentions(alloc, b"self", e)? {
        return Ok(false);
    }
    let start = start_of_value(closed_value(alloc, defs, e)?);
    Ok(is_unset(255, &start))
}

/// Whether there is an identifier.
fn is_some_item(ids: &[Value]) -> bool
    ensures { result ≡ is_some_item (map data_of ids.now) }
{
    !ids.is_empty()
}

/// Whether the value of an expression is missing or too deep, at some of these identifiers or by itself.
fn is_value_unset(
    alloc: Global,
    defs: &EvaluatedDefinitions,
    e: &Expr,
    ids: &[Value],
) -> Result<bool, AllocError>
    ensures { IfOk result (λ b. b ≡ spec.is_value_unset defs.now (tree e.now) (map data_of ids.now)) }
{
    if is_some_item(ids) {
        is_some_unset(alloc, defs, e, ids)
    } else {
        is_closed_unset(alloc, defs, e)
    }
}

/// Whether what is the same at each identifier is missing or too deep at some.
fn is_unset_somewhere(start: &Start, ids: &[Value]) -> bool
    ensures { result ≡ spec.is_unset_somewhere (start_view start.now) (map data_of ids.now) }
{
    match ids.split_first() {
        None => false,
        Some((_first, _rest)) => is_unset(255, start),
    }
}

/// Whether what a local starts with is missing or too deep at some of these identifiers.
fn is_unset_at(
    alloc: Global,
    defs: &EvaluatedDefinitions,
    initial: &Option<Origin>,
    ids: &[Value],
) -> Result<bool, AllocError>
    ensures { IfOk result (λ b. b ≡ spec.is_unset_at defs.now initial.now (map data_of ids.now)) }
{
    match initial {
        None => {
            let start = Start::Begins(default_value(alloc)?);
            Ok(is_unset_somewhere(&start, ids))
        }
        Some(Origin::Equals(e)) => is_value_unset(alloc, defs, e.get(), ids),
        Some(Origin::In(e)) => {
            let start = start_in(alloc, defs, e.get())?;
            Ok(is_unset_somewhere(&start, ids))
        }
    }
}

/// The first local of a process that is missing or too deep at some identifier.
#[tactic(auto, using(crate::proofs::Placed::placed_step, pgo_syntax::proofs::Leasts::sooner_none))]
fn unset_locals<'a>(
    alloc: Global,
    defs: &EvaluatedDefinitions,
    run: &Run<'a>,
    locals: &'a [Declaration],
) -> Result<Option<Finding<'a>>, AllocError>
    ensures { IfOk result (λ o. option_map finding_view o ≡ findings.first_placed (filter_map (spec.unset_local defs.now (run_view run.now)) locals.now)) }
{
    let mut best = None;
    for d in locals {
        let unset = is_unset_at(alloc, defs, &d.initial, run.run_ids())?;
        best = earlier(best, where_true(unset, &d.name));
    }
    Ok(best)
}

/// A value parameter that is missing or too deep at some identifier.
fn unset_handed<'a>(
    alloc: Global,
    defs: &EvaluatedDefinitions,
    run: &Run<'_>,
    h: &Handed<'a>,
) -> Result<Option<Finding<'a>>, AllocError>
    ensures { IfOk result (λ o. option_map finding_view o ≡ spec.unset_handed defs.now (run_view run.now) (handed_view h.now)) }
{
    match h.argument {
        Argument::Ref(..) => Ok(None),
        Argument::Value(place, e) => {
            if is_value_unset(alloc, defs, e.get(), run.run_ids())? {
                Ok(Some(Finding {
                    place: *place,
                    name: &h.parameter.name.name,
                }))
            } else {
                Ok(None)
            }
        }
    }
}

/// The first value parameter of a process that is missing or too deep at some identifier.
#[tactic(auto, using(crate::proofs::Placed::placed_step, pgo_syntax::proofs::Leasts::sooner_none))]
fn unset_arguments<'a>(
    alloc: Global,
    defs: &EvaluatedDefinitions,
    run: &Run<'_>,
    handed: &[Handed<'a>],
) -> Result<Option<Finding<'a>>, AllocError>
    ensures { IfOk result (λ o. option_map finding_view o ≡ findings.first_placed (filter_map (spec.unset_handed defs.now (run_view run.now)) (map handed_view handed.now))) }
{
    let mut best = None;
    for h in handed {
        let found = unset_handed(alloc, defs, run, h)?;
        best = earlier(best, found);
    }
    Ok(best)
}

/// What is first missing or too deep in a process.
#[tactic(auto, using(crate::proofs::Placed::placed_append))]
fn unset_in_run<'a>(
    alloc: Global,
    defs: &EvaluatedDefinitions,
    run: &Run<'a>,
) -> Result<Option<Finding<'a>>, AllocError>
    ensures { IfOk result (λ o. option_map finding_view o ≡ findings.first_placed (spec.unset_in_run defs.now (run_view run.now))) }
{
    let first = unset_locals(alloc, defs, run, run.archetype.locals.as_slice())?;
    let second = unset_arguments(alloc, defs, run, run.handed.as_slice())?;
    Ok(earlier(first, second))
}

/// What is first missing or too deep in the processes.
#[tactic(auto, using(crate::proofs::Placed::placed_more, pgo_syntax::proofs::Leasts::sooner_none))]
fn unset_in_runs<'a>(
    alloc: Global,
    defs: &EvaluatedDefinitions,
    runs: &[Run<'a>],
) -> Result<Option<Finding<'a>>, AllocError>
    ensures { IfOk result (λ o. option_map finding_view o ≡ findings.first_placed (flat_map (spec.unset_in_run defs.now) (map run_view runs.now))) }
{
    let mut best = None;
    for r in runs {
        let found = unset_in_run(alloc, defs, r)?;
        best = earlier(best, found);
    }
    Ok(best)
}

/// Refuses what has no value, or too deep a one.
#[tactic(auto, using(crate::proofs::Placed::placed_append))]
pub fn values_set<'a>(
    alloc: Global,
    archetypes: &'a [Archetype],
    defs: &EvaluatedDefinitions,
    runs: &[Run<'a>],
    globals: &'a [GlobalStart<'a>],
) -> Result<(), BindError>
    ensures { Passes (option_map (λ p. errors.InitNoValue p.1) (findings.first_placed (spec.values_unset archetypes.now defs.now (map run_view runs.now) (map global_view globals.now)))) result }
{
    let first = unset_globals(globals);
    let second = lacking(alloc, defs, runs, Lack::NoSet, archetypes)?;
    let third = unset_in_runs(alloc, defs, runs)?;
    match earlier(first, earlier(second, third)) {
        None => Ok(()),
        Some(found) => Err(BindError::InitNoValue {
            name: found.name.copy(alloc)?,
        }),
    }
}
