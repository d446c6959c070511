// The value of each variable that a run starts with.
ghost use Rattle.std.specs.Prelude.{◌≡◌, ◌++◌, map, option_map, IfOk};
ghost use Rattle.std.specs.List.{flat_map, filter_map};
ghost use Rattle.pgo_base.specs.View.{data_of, named_data, pair_of};
ghost use Rattle.pgo_base.specs.ExprView.{tree};
ghost use Rattle.pgo_bound.specs.BoundOf as specs;
ghost use Rattle.pgo_bound.specs.Values as values;
ghost use Rattle.pgo_heads.specs.Views.{start_view, handed_view, run_view, global_view};

use crate::values::{argument_start, start_in};
use pgo_base::expr::Expr;
use pgo_base::scope::State;
use pgo_base::text::Text;
use pgo_base::value::{Fun, Value};
use pgo_definitions::definitions::EvaluatedDefinitions;
use pgo_heads::globals::{GlobalStart, add_globals};
use pgo_heads::runs::{Handed, Run};
use pgo_heads::start_values::{Start, beginning, default_value};
use pgo_syntax::binding::Origin;
use pgo_syntax::declaration::Declaration;
use pgo_syntax::name::written_name;
use pgo_syntax::process::Argument;
use pgo_syntax::statement::Labeled;
use std::alloc::{AllocError, Global};

/// The written name of a label; `Done` where there is none.
fn written_label(alloc: Global, process: &Text, label: &Labeled) -> Result<Text, AllocError>
    ensures { IfOk result (λ t. t ≡ specs.written_label process.now label.now.label) }
{
    match &label.label {
        None => Text::from_slice(alloc, b"Done"),
        Some(l) => written_name(alloc, process.as_bytes(), &l.name),
    }
}

/// The written name of the first label of a process.
fn first_label(alloc: Global, run: &Run<'_>) -> Result<Text, AllocError>
    ensures { IfOk result (λ t. t ≡ specs.first_label (run_view run.now)) }
{
    match run.archetype.body.as_slice().first() {
        None => Text::from_slice(alloc, b"Done"),
        Some(l) => written_label(alloc, &run.process.name.name, l),
    }
}

/// Where the instances of a process start, at the end.
fn add_places(
    alloc: Global,
    run: &Run<'_>,
    pairs: &mut Vec<(Value, Value)>,
) -> Result<(), AllocError>
    ensures { IfOk result (λ _. map pair_of pairs.new.items ≡ map pair_of pairs.old.items ++ map specs.first_place (specs.places_of_run (run_view run.now))) }
{
    let label = first_label(alloc, run)?;
    for id in run.run_ids() {
        pairs.push((id.copy(alloc)?, Value::Str(label.copy(alloc)?)))?;
    }
    Ok(())
}

/// Where each instance starts, as a function on their identifiers.
fn first_places(alloc: Global, runs: &[Run<'_>]) -> Result<Value, AllocError>
    ensures { IfOk result (λ v. data_of v ≡ specs.first_places (map run_view runs.now)) }
{
    let mut pairs = Vec::new(alloc);
    for r in runs {
        add_places(alloc, r, &mut pairs)?;
    }
    Ok(Value::Fun(Fun::from_pairs(pairs)?))
}

/// The function with one value at each of these identifiers.
fn constant_at(alloc: Global, start: &Start, ids: &[Value]) -> Result<Value, AllocError>
    ensures { IfOk result (λ v. data_of v ≡ specs.function_at (λ _. values.beginning (start_view start.now)) (map data_of ids.now)) }
{
    let mut pairs = Vec::with_capacity(alloc, ids.len())?;
    for id in ids {
        let value = beginning(alloc, start)?;
        pairs.push((id.copy(alloc)?, value))?;
    }
    Ok(Value::Fun(Fun::from_pairs(pairs)?))
}

/// The function with the value of an expression at each of these identifiers, which the expression sees as `self`.
fn values_at(
    alloc: Global,
    defs: &EvaluatedDefinitions,
    e: &Expr,
    ids: &[Value],
) -> Result<Value, AllocError>
    ensures { IfOk result (λ v. data_of v ≡ specs.function_at (λ id. values.beginning (values.argument_start defs.now (tree e.now) id)) (map data_of ids.now)) }
{
    let mut pairs = Vec::with_capacity(alloc, ids.len())?;
    for id in ids {
        let start = argument_start(alloc, defs, e, id)?;
        let value = beginning(alloc, &start)?;
        pairs.push((id.copy(alloc)?, value))?;
    }
    Ok(Value::Fun(Fun::from_pairs(pairs)?))
}

/// What a local begins with at each of these identifiers.
fn local_at(
    alloc: Global,
    defs: &EvaluatedDefinitions,
    initial: &Option<Origin>,
    ids: &[Value],
) -> Result<Value, AllocError>
    ensures { IfOk result (λ v. data_of v ≡ specs.function_at (λ id. values.beginning (values.local_start defs.now initial.now id)) (map data_of ids.now)) }
{
    match initial {
        None => constant_at(alloc, &Start::Begins(default_value(alloc)?), ids),
        Some(Origin::Equals(e)) => values_at(alloc, defs, e.get(), ids),
        Some(Origin::In(e)) => constant_at(alloc, &start_in(alloc, defs, e.get())?, ids),
    }
}

/// A value parameter of a process, at the end.
fn add_argument(
    alloc: Global,
    defs: &EvaluatedDefinitions,
    run: &Run<'_>,
    h: &Handed<'_>,
    list: &mut Vec<(Text, Value)>,
) -> Result<(), AllocError>
    ensures { IfOk result (λ _. map named_data list.new.items ≡ map named_data list.old.items ++ specs.optional (specs.own_argument defs.now (run_view run.now) (handed_view h.now))) }
{
    match h.argument {
        Argument::Ref(..) => Ok(()),
        Argument::Value(_, e) => {
            let name = written_name(
                alloc,
                run.process.name.name.as_bytes(),
                &h.parameter.name.name,
            )?;
            let value = values_at(alloc, defs, e.get(), run.run_ids())?;
            list.push((name, value))?;
            Ok(())
        }
    }
}

/// The value parameters of a process, at the end.
fn add_arguments(
    alloc: Global,
    defs: &EvaluatedDefinitions,
    run: &Run<'_>,
    list: &mut Vec<(Text, Value)>,
) -> Result<(), AllocError>
    ensures { IfOk result (λ _. map named_data list.new.items ≡ map named_data list.old.items ++ filter_map (specs.own_argument defs.now (run_view run.now)) (map handed_view run.now.handed.items)) }
{
    for h in &run.handed {
        add_argument(alloc, defs, run, h, list)?;
    }
    Ok(())
}

/// A local of a process.
fn own_start(
    alloc: Global,
    defs: &EvaluatedDefinitions,
    run: &Run<'_>,
    d: &Declaration,
) -> Result<(Text, Value), AllocError>
    ensures { IfOk result (λ p. named_data p ≡ specs.own_start defs.now (run_view run.now) d.now) }
{
    let name = written_name(alloc, run.process.name.name.as_bytes(), &d.name.name)?;
    let value = local_at(alloc, defs, &d.initial, run.run_ids())?;
    Ok((name, value))
}

/// The value parameters and the locals of a process, at the end.
fn add_locals(
    alloc: Global,
    defs: &EvaluatedDefinitions,
    run: &Run<'_>,
    list: &mut Vec<(Text, Value)>,
) -> Result<(), AllocError>
    ensures { IfOk result (λ _. map named_data list.new.items ≡ map named_data list.old.items ++ specs.locals_of defs.now (run_view run.now)) }
{
    add_arguments(alloc, defs, run, list)?;
    for d in run.archetype.locals.as_slice() {
        list.push(own_start(alloc, defs, run, d)?)?;
    }
    Ok(())
}

/// The locals of all processes, at the end.
fn add_all_locals(
    alloc: Global,
    defs: &EvaluatedDefinitions,
    runs: &[Run<'_>],
    list: &mut Vec<(Text, Value)>,
) -> Result<(), AllocError>
    ensures { IfOk result (λ _. map named_data list.new.items ≡ map named_data list.old.items ++ flat_map (specs.locals_of defs.now) (map run_view runs.now)) }
{
    for r in runs {
        add_locals(alloc, defs, r, list)?;
    }
    Ok(())
}

/// The value of each variable, in the order of the written module.
pub fn start_of(
    alloc: Global,
    defs: &EvaluatedDefinitions,
    runs: &[Run<'_>],
    globals: &[GlobalStart<'_>],
) -> Result<State, AllocError>
    ensures { IfOk result (λ s. s ≡ specs.start_of defs.now (map run_view runs.now) (map global_view globals.now)) }
{
    let mut list = Vec::new(alloc);
    add_globals(alloc, globals, &mut list)?;
    let places = first_places(alloc, runs)?;
    list.push((Text::from_slice(alloc, b"pc")?, places))?;
    add_all_locals(alloc, defs, runs, &mut list)?;
    Ok(State::from_vec(list))
}
