// Rule 3: an argument or a clause doesn't fit.
ghost use Rattle.std.specs.Prelude.{◌≡◌, ◌||◌, nat_lt, length, map, option_map, IfOk};
ghost use Rattle.std.specs.List.{filter_map};
ghost use Rattle.pgo_bound.specs.Runs.{speaking};
ghost use Rattle.pgo_heads.specs.Answers.{Passes};
ghost use Rattle.pgo_heads.specs.Findings as findings;
ghost use Rattle.pgo_heads.specs.BadMapping as spec;
ghost use Rattle.pgo_heads.specs.Spoken.{is_badly_spoken, spoken_view};
ghost use Rattle.pgo_heads.specs.Views.{handed_view, run_view, global_view};
ghost use Rattle.pgo_heads.specs.declared.errors.BindError.TheVariants as errors;

use crate::errors::BindError;
use crate::globals::GlobalStart;
use crate::indexed_arguments::IndexedArguments;
use crate::mapping_clauses::{MappingClauses, Spoken};
use crate::named_globals::NamedGlobals;
use crate::runs::{Handed, Run};
use pgo_base::text::Text;
use pgo_syntax::archetype::{Extent, ParameterKind};
use pgo_syntax::process::{Argument, MappingClause, MappingTarget};
use std::alloc::{AllocError, Global};

/// Whether both have `[_]`, or none.
fn same_extent(a: Extent, b: Extent) -> bool
    ensures { result ≡ spec.same_extent a b }
{
    match (a, b) {
        (Extent::Whole, Extent::Whole) => true,
        (Extent::Element, Extent::Element) => true,
        _ => false,
    }
}

/// How much of a global a clause speaks of.
fn clause_extent(target: &MappingTarget) -> Extent
    ensures { result ≡ spec.clause_extent target.now }
{
    match target {
        MappingTarget::Global { extent, .. } => *extent,
        MappingTarget::Argument { extent, .. } => *extent,
    }
}

/// Whether several clauses speak of an argument, or one that speaks of another extent; or what is known already.
fn is_badly_spoken(spoken: Option<Spoken<'_>>, extent: Extent, known: bool) -> bool
    ensures { result ≡ is_badly_spoken extent known (option_map spoken_view spoken.entry) }
{
    match spoken {
        None => known,
        Some(s) => s.several || (!same_extent(clause_extent(&s.first.target), extent) || known),
    }
}

/// Whether an argument is mapped twice, or by a clause that speaks of another extent; or what is known already.
fn is_badly_mapped(
    clauses: &MappingClauses<'_>,
    number: u64,
    global: &Text,
    extent: Extent,
    known: bool,
) -> bool
    ensures { result ≡ (spec.differs extent (speaking number global.now clauses.now) || (nat_lt 1 (length (speaking number global.now clauses.now)) || known)) }
{
    is_badly_spoken(clauses.speaking(number, global), extent, known)
}

/// Whether an argument that is a global doesn't fit its parameter, its clauses or the global.
fn is_bad_ref(
    globals: &NamedGlobals<'_, '_>,
    clauses: &MappingClauses<'_>,
    run: &Run<'_>,
    number: u64,
    parameter: Extent,
    global: &Text,
    argument: Extent,
) -> bool
    requires { clauses.now ≡ run.now.process.now.clauses }
    ensures { result ≡ spec.is_bad_ref globals.now (run_view run.now) number parameter global.now argument }
{
    let none = run.has_ids() && globals.names_no_elements(global);
    let badly = is_badly_mapped(clauses, number, global, argument, none);
    !same_extent(parameter, argument) || badly
}

/// Whether an argument doesn't fit.
fn is_bad_handed(
    globals: &NamedGlobals<'_, '_>,
    clauses: &MappingClauses<'_>,
    run: &Run<'_>,
    h: &Handed<'_>,
) -> bool
    requires { clauses.now ≡ run.now.process.now.clauses }
    ensures { result ≡ spec.is_bad_handed globals.now (run_view run.now) (handed_view h.now) }
{
    match (h.parameter.kind, h.argument) {
        (ParameterKind::Value, Argument::Value(..)) => false,
        (ParameterKind::Value, Argument::Ref(..)) => true,
        (ParameterKind::Ref(_), Argument::Value(..)) => true,
        (ParameterKind::Ref(e), Argument::Ref(g, f)) => {
            is_bad_ref(globals, clauses, run, h.number, e, &g.name, *f)
        }
    }
}

/// The number of the first argument that doesn't fit.
fn bad_argument(
    alloc: Global,
    globals: &NamedGlobals<'_, '_>,
    run: &Run<'_>,
) -> Result<Option<u64>, AllocError>
    ensures { IfOk result (λ o. o ≡ findings.first (spec.bad_arguments globals.now (run_view run.now))) }
{
    let clauses = MappingClauses::new(alloc, run.process.clauses.as_slice())?;
    for h in &run.handed {
        if is_bad_handed(globals, &clauses, run, h) {
            return Ok(Some(h.number));
        }
    }
    Ok(None)
}

/// What is shown of a clause that names no `ref` argument.
fn bad_clause(arguments: &IndexedArguments<'_, '_>, target: &MappingTarget) -> Option<u64>
    ensures { result ≡ spec.bad_clause arguments.now target.now }
{
    match target {
        MappingTarget::Global { name, .. } => {
            if arguments.has_ref_to(&name.name) {
                None
            } else {
                Some(0)
            }
        }
        MappingTarget::Argument { number, .. } => {
            if arguments.has_ref_at(*number) {
                None
            } else if arguments.has_number(*number) {
                Some(*number)
            } else {
                Some(0)
            }
        }
    }
}

/// What is shown of the first of these clauses that names no `ref` argument.
fn first_bad(arguments: &IndexedArguments<'_, '_>, clauses: &[MappingClause]) -> Option<u64>
    ensures { result ≡ findings.first (filter_map (λ c. spec.bad_clause arguments.now c.target) clauses.now) }
{
    for c in clauses {
        let found = bad_clause(arguments, &c.target);
        if found.is_some() {
            return found;
        }
    }
    None
}

/// What is shown of the first clause that names no `ref` argument.
fn first_bad_clause(alloc: Global, run: &Run<'_>) -> Result<Option<u64>, AllocError>
    ensures { IfOk result (λ o. o ≡ findings.first (spec.bad_clauses (run_view run.now))) }
{
    let arguments = IndexedArguments::new(alloc, run.handed.as_slice())?;
    Ok(first_bad(&arguments, run.process.clauses.as_slice()))
}

/// What is shown of the first argument or clause of a process that doesn't fit.
fn bad_place(
    alloc: Global,
    globals: &NamedGlobals<'_, '_>,
    run: &Run<'_>,
) -> Result<Option<u64>, AllocError>
    ensures { IfOk result (λ o. o ≡ findings.first (spec.bad_places globals.now (run_view run.now))) }
{
    match bad_argument(alloc, globals, run)? {
        None => first_bad_clause(alloc, run),
        Some(n) => Ok(Some(n)),
    }
}

/// Refuses an argument or a clause that doesn't fit.
fn all_fit(alloc: Global, globals: &NamedGlobals<'_, '_>, runs: &[Run<'_>]) -> Result<(), BindError>
    ensures { Passes (option_map (λ p. errors.BadMapping p.0 p.1) (findings.first (spec.bad_mappings globals.now (map run_view runs.now)))) result }
{
    for r in runs {
        let found = bad_place(alloc, globals, r)?;
        match found {
            None => continue,
            Some(place) => {
                return Err(BindError::BadMapping {
                    process: r.process.name.name.copy(alloc)?,
                    place,
                });
            }
        }
    }
    Ok(())
}

/// Refuses an argument or a clause that doesn't fit.
pub fn mappings_fit(
    alloc: Global,
    globals: &[GlobalStart<'_>],
    runs: &[Run<'_>],
) -> Result<(), BindError>
    ensures { Passes (option_map (λ p. errors.BadMapping p.0 p.1) (findings.first (spec.bad_mappings (map global_view globals.now) (map run_view runs.now)))) result }
{
    let named = NamedGlobals::new(alloc, globals)?;
    all_fit(alloc, &named, runs)
}
