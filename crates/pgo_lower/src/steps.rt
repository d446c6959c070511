// Single instructions.
ghost use Rattle.std.specs.Prelude.{◌≡◌, ◌∷◌, ◌++◌, length, IfOk};
ghost use Rattle.pgo_base.specs.ExprView.{tree};
ghost use Rattle.pgo_code.specs.Steps as spec;
ghost use Rattle.pgo_effects.specs.PlaceView.{place_view};
ghost use Rattle.pgo_effects.specs.Todos.{change_code};
ghost use Rattle.pgo_lower.specs.Globals.{whole_in, by_element_in};
ghost use Rattle.pgo_lower.specs.Lowered as lowered;
ghost use Rattle.pgo_lower.specs.Slots.{tables_of};
ghost use Rattle.pgo_lower.specs.Made.{step_here, steps_here};
ghost use Rattle.pgo_lower.specs.Heads.{head, heads, unbound_by};

use crate::names::Names;
use crate::reads::evaluation;
use crate::slots::target_at;
use pgo_base::expr::Expr;
use pgo_base::results::both;
use pgo_base::text::Text;
use pgo_code::instruction::{Content, Instruction};
use pgo_effects::change::Change;
use pgo_effects::piece::Effect;
use pgo_effects::place::Place;
use pgo_rewrite::mapped::Mapped;
use pgo_walk::stack::Stack;
use std::alloc::{AllocError, Global};

/// How many instructions are made.
pub fn count(made: &Stack<Instruction<'_>>) -> usize
    ensures { result ≡ length (steps_here made.now) }
{
    made.as_slice().len()
}

/// A mapped parameter.
fn content<'a>(names: &Names<'_, '_, 'a>, mapped: Mapped<'a>) -> Content<'a>
    ensures mapped { result.mapped ≡ mapped.entry }
    ensures element { result.is_element ≡ by_element_in names.now.globals.now.bound.now mapped.entry.global.now }
    ensures whole { result.whole ≡ whole_in names.now.globals.now.bound.now mapped.entry.global.now }
{
    let global = names.globals.get(mapped.global);
    Content {
        mapped,
        is_element: global.is_element,
        whole: global.whole,
    }
}

/// The name stands for the value of the expression.
fn bind<'a>(
    alloc: Global,
    names: &Names<'_, '_, 'a>,
    name: Text,
    e: Expr,
) -> Result<Instruction<'a>, AllocError>
    ensures { IfOk result (λ i. step_here i ≡ spec.Bind name (lowered.evaluation (tables_of names.now).targets (tree e))) }
{
    let (name, value) = both(Ok(name), evaluation(alloc, names.slots, e))?;
    Ok(Instruction::Bind { name, value })
}

/// The name stands for a member of the set.
fn pick<'a>(
    alloc: Global,
    names: &Names<'_, '_, 'a>,
    name: Text,
    e: Expr,
) -> Result<Instruction<'a>, AllocError>
    ensures { IfOk result (λ i. step_here i ≡ spec.Pick name (lowered.evaluation (tables_of names.now).targets (tree e))) }
{
    let (name, set) = both(Ok(name), evaluation(alloc, names.slots, e))?;
    Ok(Instruction::Pick { name, set })
}

/// What an effect is.
fn effect_step<'a>(
    alloc: Global,
    names: &Names<'_, '_, 'a>,
    effect: Effect<'a>,
) -> Result<Instruction<'a>, AllocError>
    ensures { IfOk result (λ i. step_here i ≡ head (tables_of names.now) effect.entry) }
{
    match effect {
        Effect::Let { name, value, .. } => bind(alloc, names, name, value),
        Effect::Pick { name, set, .. } => pick(alloc, names, name, set),
        Effect::Read {
            value,
            mapped,
            index,
        } => Ok(Instruction::Read {
            name: value,
            content: content(names, mapped),
            index,
        }),
    }
}

/// Puts what effects are before what is made.
pub fn add_effects<'a>(
    alloc: Global,
    names: &Names<'_, '_, 'a>,
    effects: Vec<Effect<'a>>,
    made: &mut Stack<Instruction<'a>>,
) -> Result<(), AllocError>
    ensures { IfOk result (λ _. steps_here made.new ≡ heads (tables_of names.now) effects.entry.items (steps_here made.old)) }
{
    let mut left = effects;
    while let Some(effect) = left.pop() {
        made.push(effect_step(alloc, names, effect)?)?;
    }
    Ok(())
}

/// Puts as many `Unbind` as these are before what is made.
pub fn add_unbinds<'a>(
    effects: &[Effect<'_>],
    made: &mut Stack<Instruction<'a>>,
) -> Result<(), AllocError>
    ensures { IfOk result (λ _. steps_here made.new ≡ unbound_by effects.now (steps_here made.old)) }
{
    for _effect in effects {
        made.push(Instruction::Unbind)?;
    }
    Ok(())
}

/// The place becomes the value of the expression.
fn set<'a>(
    alloc: Global,
    names: &Names<'_, '_, 'a>,
    place: Place,
    e: Expr,
) -> Result<Instruction<'a>, AllocError>
    ensures { IfOk result (λ i. step_here i ≡ spec.Set (lowered.target_of (tables_of names.now).whole (place_view place)) (lowered.evaluation (tables_of names.now).targets (tree e))) }
{
    let target = target_at(names.globals, place);
    let (target, value) = both(Ok(target), evaluation(alloc, names.slots, e))?;
    Ok(Instruction::Set { target, value })
}

/// Puts what a change does before what is made.
pub fn add_change<'a>(
    alloc: Global,
    names: &Names<'_, '_, 'a>,
    change: Change<'a>,
    made: &mut Stack<Instruction<'a>>,
) -> Result<(), AllocError>
    ensures { IfOk result (λ _. steps_here made.new ≡ lowered.lowered (tables_of names.now) (change_code change.entry) ++ steps_here made.old) }
{
    match change {
        Change::Nothing => Ok(()),
        Change::Become(place, name) => made.push(Instruction::Assign {
            target: target_at(names.globals, place),
            name,
        }),
        Change::Set(_, place, e) => made.push(set(alloc, names, place, e)?),
        Change::Write(mapped, index, name) => made.push(Instruction::Write {
            content: content(names, mapped),
            index,
            name,
        }),
    }
}

/// Puts a wait for the expression before what is made.
pub fn add_await<'a>(
    alloc: Global,
    names: &Names<'_, '_, 'a>,
    e: Expr,
    made: &mut Stack<Instruction<'a>>,
) -> Result<(), AllocError>
    ensures { IfOk result (λ _. steps_here made.new ≡ spec.Await (lowered.evaluation (tables_of names.now).targets (tree e)) ∷ steps_here made.old) }
{
    let value = evaluation(alloc, names.slots, e)?;
    made.push(Instruction::Await(value))
}

/// Puts a test of the expression before what is made.
pub fn add_assert<'a>(
    alloc: Global,
    names: &Names<'_, '_, 'a>,
    e: Expr,
    made: &mut Stack<Instruction<'a>>,
) -> Result<(), AllocError>
    ensures { IfOk result (λ _. steps_here made.new ≡ spec.Assert (lowered.evaluation (tables_of names.now).targets (tree e)) ∷ steps_here made.old) }
{
    let value = evaluation(alloc, names.slots, e)?;
    made.push(Instruction::Assert(value))
}

/// Puts the print of the expression before what is made.
pub fn add_print<'a>(
    alloc: Global,
    names: &Names<'_, '_, 'a>,
    e: Expr,
    made: &mut Stack<Instruction<'a>>,
) -> Result<(), AllocError>
    ensures { IfOk result (λ _. steps_here made.new ≡ spec.Print (lowered.evaluation (tables_of names.now).targets (tree e)) ∷ steps_here made.old) }
{
    let value = evaluation(alloc, names.slots, e)?;
    made.push(Instruction::Print(value))
}

/// Puts before what is made that there is no value: a section ends with none.
pub fn add_fail<'a>(_value: Expr, made: &mut Stack<Instruction<'a>>) -> Result<(), AllocError>
    ensures { IfOk result (λ _. steps_here made.new ≡ spec.Fail ∷ steps_here made.old) }
{
    made.push(Instruction::Fail)
}
