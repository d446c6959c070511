// The values of expressions.
ghost use Rattle.std.specs.Prelude.{◌≡◌, map, option_map, IfOk};
ghost use Rattle.std.proofs.Props.{props};
ghost use Rattle.pgo_base.specs.Code.{coded_data};
ghost use Rattle.pgo_base.specs.View.{data_of};
ghost use Rattle.pgo_model.specs.Val.{Meaning};
ghost use Rattle.pgo_sections.specs.BoundValues.{bindable};
ghost use Rattle.pgo_code.specs.Elements.{AreAmong, are_among_prop};
ghost use Rattle.pgo_definitions.specs.Meant.{meant};
ghost use Rattle.pgo_places.specs.Stands.{value_in, cleared};
ghost use Rattle.pgo_places.specs.PlaceView.{stand_view, fixed_view, attempt_view};

use crate::stand::{Fixed, Stand};
use pgo_base::bindings::Bindings;
use pgo_base::depth::is_deeper;
use pgo_base::expr::Sub;
use pgo_base::module::Defs;
use pgo_base::scope::{Around, Env, State};
use pgo_base::value::Value;
use pgo_code::elements::Elements;
use pgo_eval::eval::eval;
use pgo_sets::answers::value_or_none;
use pgo_syntax::bound::Bound;
use std::alloc::{AllocError, Global};

/// What doesn't change while an attempt runs.
#[derive(Clone, Copy)]
pub struct Frame<'a> {
    pub bound: &'a Bound,
    pub definitions: &'a Defs,
    pub elements: &'a Elements,
    pub fixed: &'a Fixed,
    ghost same: { meant definitions.now ≡ meant bound.now.defs } by { Prim.hlevel (props, coded_data) },
    ghost are_among: { AreAmong bound.now.resources elements.now } by { are_among_prop bound.now.resources elements.now },
}

/// What the expression is here.
fn value_here(
    alloc: Global,
    frame: Frame<'_>,
    expression: &Sub,
    stand: &Stand,
) -> Result<Option<Value>, AllocError>
    ensures { IfOk result (λ o. option_map data_of o ≡ value_in (attempt_view frame.entry.bound.now frame.entry.fixed.now) (fixed_view frame.entry.fixed.now) expression.now (stand_view stand.now).env (stand_view stand.now).variables) }
{
    let none = Bindings::new();
    let identity = Bindings::with(&frame.fixed.identity, Some(&frame.fixed.id), &none);
    let variables = Bindings::with_values(&stand.variables, &identity);
    let names = Bindings::with_values(&stand.env, &variables);
    let state = State::from_vec(Vec::new(alloc));
    let env = Env {
        names: &names,
        around: Around::one(&state),
    };
    value_or_none(eval(alloc, frame.definitions, expression.get(), &env))
}

/// What the expression is, after which no global is seen.
pub fn value_of(
    alloc: Global,
    frame: Frame<'_>,
    expression: &Sub,
    stand: &mut Stand,
) -> Result<Option<Value>, AllocError>
    ensures value { IfOk result (λ o. option_map data_of o ≡ value_in (attempt_view frame.entry.bound.now frame.entry.fixed.now) (fixed_view frame.entry.fixed.now) expression.now (stand_view stand.old).env (stand_view stand.old).variables) }
    ensures stand { IfOk result (λ _. stand_view stand.new ≡ cleared (fixed_view frame.entry.fixed.now) (stand_view stand.old)) }
{
    let value = value_here(alloc, frame, expression, stand);
    stand.clear(alloc, frame.fixed)?;
    value
}

/// The value, where it can be bound.
pub fn bindable_value(value: Option<Value>) -> Option<Value>
    ensures { option_map data_of result ≡ bindable (option_map data_of value) }
{
    match value {
        Some(v) => { if is_deeper(&v, 2047) { None } else { Some(v) } }
        None => None,
    }
}
