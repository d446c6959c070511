// A specification bound to constants.
ghost use Rattle.std.specs.Prelude.{◌≡◌, ◌≤◌, length, map, IfOk};
ghost use Rattle.pgo_model.specs.State.{AllValues};
ghost use Rattle.pgo_bound.specs.BoundOf as specs;
ghost use Rattle.pgo_bound.specs.BoundOf.{bound_of, bound_with};
ghost use Rattle.pgo_bound.specs.Declares.{Declares};
ghost use Rattle.pgo_bound.specs.Runs as processes;
ghost use Rattle.pgo_bound.specs.Sound.{AreAtLabels, IsNumbered, Sound, WellNamed};
ghost use Rattle.pgo_heads.specs.Answers.{Answers, Passes};
ghost use Rattle.pgo_heads.specs.Refusals.{bind_refusal, constants_refused, ids_refused, starts_refused, heads_refused};
ghost use Rattle.pgo_heads.specs.Views.{run_view, global_view};

use crate::globals::globals_of;
use crate::init_empty::sets_filled;
use crate::init_no_value::values_set;
use crate::runs::runs_of;
use crate::start::start_of;
use crate::used::names_in_heads;
use pgo_base::consts::Consts;
use pgo_definitions::definitions::EvaluatedDefinitions;
use pgo_definitions::evaluate::evaluated;
use pgo_definitions::used::used_definitions;
use pgo_heads::bad_mapping::mappings_fit;
use pgo_heads::const_missing::constants_given;
use pgo_heads::const_unknown::constants_declared;
use pgo_heads::definitions::definitions;
use pgo_heads::errors::BindError;
use pgo_heads::globals::{GlobalStart, all_parts, resources_of};
use pgo_heads::identifiers::all_ids;
use pgo_heads::ids_no_value::ids_known;
use pgo_heads::instances::instances_of;
use pgo_heads::runs::Run;
use pgo_heads::same_id::ids_differ;
use pgo_heads::too_many_instances::few_instances;
use pgo_heads::too_many_resources::few_resources;
use pgo_heads::well_formed::state_is_well_formed;
use pgo_syntax::archetype::Archetype;
use pgo_syntax::bound::{Bound, Instances, Resources};
use pgo_syntax::spec::Spec;
use std::alloc::{AllocError, Global};

/// Refuses constants that aren't those that are declared.
fn constants_fit(alloc: Global, spec: &Spec, consts: &Consts) -> Result<(), BindError>
    ensures { Passes (constants_refused spec.now consts.now) result }
{
    let declared = spec.constants.as_slice();
    constants_given(alloc, declared, consts.as_slice())?;
    constants_declared(alloc, declared, consts.as_slice())
}

/// Refuses identifiers of two processes, identifiers without a value, and more than 64 instances.
fn identifiers_fit(alloc: Global, runs: &[Run<'_>]) -> Result<(), BindError>
    ensures { Passes (ids_refused (map run_view runs.now)) result }
{
    let ids = all_ids(alloc, runs)?;
    let count = ids.len() as u64;
    ids_differ(alloc, ids)?;
    ids_known(alloc, runs)?;
    few_instances(count)
}

/// Refuses more than 1,024 resources, and variables that don't start with a value.
fn starts_fit<'a>(
    alloc: Global,
    archetypes: &'a [Archetype],
    defs: &EvaluatedDefinitions,
    runs: &[Run<'a>],
    globals: &'a [GlobalStart<'a>],
) -> Result<(), BindError>
    ensures { Passes (starts_refused archetypes.now defs.now (map run_view runs.now) (map global_view globals.now)) result }
{
    let parts = all_parts(alloc, globals)?;
    few_resources(parts.len() as u64)?;
    values_set(alloc, archetypes, defs, runs, globals)?;
    sets_filled(alloc, archetypes, defs, runs, globals)
}

/// Refuses heads that can't be bound.
fn heads_fit<'a>(
    alloc: Global,
    archetypes: &'a [Archetype],
    defs: &EvaluatedDefinitions,
    runs: &[Run<'a>],
    globals: &'a [GlobalStart<'a>],
) -> Result<(), BindError>
    ensures { Passes (heads_refused archetypes.now defs.now (map run_view runs.now) (map global_view globals.now)) result }
{
    mappings_fit(alloc, globals, runs)?;
    identifiers_fit(alloc, runs)?;
    starts_fit(alloc, archetypes, defs, runs, globals)
}

/// The bound system of a specification that is not refused.
fn bound_system(
    alloc: Global,
    spec: &Spec,
    defs: EvaluatedDefinitions,
    runs: &[Run<'_>],
    globals: &[GlobalStart<'_>],
) -> Result<Bound, AllocError>
    requires few_instances { length (processes.all_ids (map run_view runs.now)) ≤ 64 }
    requires few_resources { length (specs.all_parts (map global_view globals.now)) ≤ 1024 }
    ensures bound { IfOk result (λ b. b ≡ bound_with spec.now defs (map run_view runs.now) (map global_view globals.now)) }
    ensures values { IfOk result (λ b. AllValues b.start) }
{
    let instances = instances_of(alloc, spec, runs)?;
    let parts = all_parts(alloc, globals)?;
    let resources = resources_of(alloc, parts.as_slice())?;
    let start = start_of(alloc, &defs, runs, globals)?;
    state_is_well_formed(&start);
    Ok(Bound {
        spec: spec.copy(alloc)?,
        defs: defs.into_written(),
        instances: Instances::from_vec(instances),
        resources: Resources::from_vec(resources),
        start,
    })
}

/// The bound system of a specification, where its heads are not refused.
fn bound(
    alloc: Global,
    spec: &Spec,
    defs: EvaluatedDefinitions,
    runs: &[Run<'_>],
    globals: &[GlobalStart<'_>],
) -> Result<Bound, BindError>
    ensures answers { Answers (heads_refused spec.now.archetypes defs (map run_view runs.now) (map global_view globals.now)) (bound_with spec.now defs (map run_view runs.now) (map global_view globals.now)) result }
    ensures values { IfOk result (λ b. AllValues b.start) }
{
    heads_fit(alloc, spec.archetypes.as_slice(), &defs, runs, globals)?;
    let bound = bound_system(alloc, spec, defs, runs, globals)?;
    Ok(bound)
}

/// The bound system, or why it is refused.
fn answered(alloc: Global, spec: &Spec, consts: &Consts) -> Result<Bound, BindError>
    ensures answers { Answers (bind_refusal spec.now consts.now) (bound_of spec.now consts.now) result }
    ensures values { IfOk result (λ b. AllValues b.start) }
{
    constants_fit(alloc, spec, consts)?;
    let defs = definitions(alloc, spec, consts)?;
    let names = names_in_heads(alloc, spec)?;
    let used = used_definitions(alloc, names, defs.as_slice())?;
    let defs = evaluated(alloc, defs, used.as_slice())?;
    let runs = runs_of(alloc, spec, &defs)?;
    let globals = globals_of(alloc, spec, &defs, runs.as_slice())?;
    bound(alloc, spec, defs, runs.as_slice(), globals.as_slice())
}

/// A specification with its constants: its definitions, its instances, its resources and its starting state.
///
/// The first rule in the order of `BindError`'s variants that the specification breaks is answered, at its first place in
/// the text. Nothing is asked of the specification; where names in it mean nothing, what the answer says is of no use.
///
/// Of a constant that is given several times the last value counts. `NoMemory` comes where there is no memory, or where an
/// expression that is evaluated opens more than 640 levels.
///
/// - `answers`: the bound system comes exactly where nothing is refused, and each other answer is the refusal.
/// - `declared`: the start is a declared one, where the specification's names are as they must be.
/// - `at_labels`: then each instance starts at a label of its process.
/// - `numbered`: instances and resources are numbered from 0, are no more than the limits, and identifiers differ.
/// - `sound`: where the specification's names are as they must be, the bound system is sound: besides `at_labels` and
///   `numbered` its start is a state, its resources differ and are no component of an instance, and the domain of each
///   global that is bound by element is the indices of its resources.
///
/// Source: Modular PlusCal for instances and mapping; the numbering, the limits and the least member that a variable
/// starts with are this project's choice.
pub fn bind(alloc: Global, spec: &Spec, consts: &Consts) -> Result<Bound, BindError>
    ensures answers { Answers (bind_refusal spec.now consts.now) (bound_of spec.now consts.now) result }
    ensures declared { WellNamed spec.now → IfOk result (λ b. Declares b b.start) }
    ensures at_labels { WellNamed spec.now → IfOk result AreAtLabels }
    ensures numbered { IfOk result IsNumbered }
    ensures sound { WellNamed spec.now → IfOk result Sound }
{
    answered(alloc, spec, consts)
}
