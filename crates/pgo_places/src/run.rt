// One instruction that stands at no access.
ghost use Rattle.std.specs.Prelude.{◌≡◌, true, [], map, None, IfOk, IsSome};
ghost use Rattle.pgo_base.specs.Lookup.{Name};
ghost use Rattle.pgo_base.specs.View.{named_data};
ghost use Rattle.pgo_accesses.specs.Accesses.{Attempt, all_shallow};
ghost use Rattle.pgo_code.specs.Steps.{Evaluation, Own as OwnTarget, Assign, Set, Choose, End};
ghost use Rattle.pgo_code.specs.See.{step_of, target_view};
ghost use Rattle.pgo_places.specs.Flows.{IsOwn, IsPlain, LeadsTo, evaluation_in, is_plain, left_of};
ghost use Rattle.pgo_places.specs.PlaceView.{stand_view, fixed_view, attempt_view};
ghost use Rattle.pgo_places.specs.Stands.{Fixed, labelled};
ghost use Rattle.pgo_places.specs.Turns.{GoesOn, IsReadied};

use crate::access::evaluation;
use crate::behind::behind;
use crate::evaluated::{Frame, value_of};
use crate::flow::Flow;
use crate::stand::{Stand, under};
use pgo_base::depth::is_deeper;
use pgo_base::scope::State;
use pgo_base::text::Text;
use pgo_base::value::Value;
use pgo_code::instruction::{Instruction, Target};
use pgo_syntax::records::NoteKind;
use std::alloc::{AllocError, Global};
use std::mem::replace;

/// Whether each of these can stand in a state, where `pc` is a label.
fn rows_fit(own: &[(Text, Value)]) -> bool
    ensures { (l : Name) → all_shallow (labelled l (map named_data own.now)) ≡ result }
{
    for component in own {
        if !component.0.is_bytes(b"pc") && is_deeper(&component.1, 255) {
            return false;
        }
    }
    true
}

/// Whether each own component can stand in a state, where `pc` is a label.
fn all_fit(own: &State) -> bool
    ensures { (l : Name) → all_shallow (labelled l own.now) ≡ result }
{
    rows_fit(own.as_slice())
}

/// The section's end, where no value is too deep for a state.
fn ended(stand: &Stand) -> Flow
    ensures walk { (a : Attempt) (k : Fixed) (l : Name) → LeadsTo a k (End l) (stand_view stand.now) result (stand_view stand.now) }
    ensures goes { GoesOn result }
{
    if !stand.too_deep.is_empty() {
        return Flow::Noted(NoteKind::NoValue);
    }
    if all_fit(&stand.own) {
        Flow::Ended
    } else {
        Flow::Noted(NoteKind::NoValue)
    }
}

/// As many instructions are passed over as the picked arm says.
fn chosen(arms: &[usize], stand: &mut Stand) -> Result<Flow, AllocError>
    ensures walk { IfOk result (λ f. (a : Attempt) (k : Fixed) → LeadsTo a k (Choose arms.now) (stand_view stand.old) f (stand_view stand.new)) }
    ensures goes { IfOk result (λ f. GoesOn f) }
    ensures first { IfOk result (λ _. (stand_view stand.new).first ≡ (stand_view stand.old).first) }
{
    stand.onward();
    let count = arms.len();
    if count == 0 {
        stand.pick(1)?;
        return Ok(Flow::Over(0));
    }
    let i = stand.pick(count)?;
    Ok(Flow::Over(arms[i]))
}

/// The own component that is assigned.
fn own_of(target: &Target) -> &Text
    requires { IsOwn (target_view target.now) }
    ensures { target_view target.entry.now ≡ OwnTarget result.now }
{
    match target {
        Target::Own(own) => own,
        Target::Resource(_) => unreachable!(),
    }
}

/// The own component becomes what the name stands for.
fn assign(
    alloc: Global,
    frame: Frame<'_>,
    own: &Text,
    name: &Text,
    stand: &mut Stand,
) -> Result<Flow, AllocError>
    ensures walk { IfOk result (λ f. (a : Attempt) → LeadsTo a (fixed_view frame.entry.fixed.now) (Assign (OwnTarget own.now) name.now) (stand_view stand.old) f (stand_view stand.new)) }
    ensures goes { IfOk result (λ f. GoesOn f) }
    ensures first { IfOk result (λ _. (stand_view stand.new).first ≡ (stand_view stand.old).first) }
{
    let value = match under(&stand.env, name) {
        Some(v) => v.copy(alloc)?,
        None => return Ok(Flow::Noted(NoteKind::NoValue)),
    };
    stand.onward();
    stand.assign(alloc, frame.fixed, own, &value)?;
    Ok(Flow::On)
}

/// The own component becomes the value that stands ready.
fn assign_ready(
    alloc: Global,
    frame: Frame<'_>,
    own: &Text,
    stand: &mut Stand,
) -> Result<Flow, AllocError>
    requires { IsSome (stand_view stand.old).value }
    ensures walk { IfOk result (λ f. (a : Attempt) (e : Evaluation) → LeadsTo a (fixed_view frame.entry.fixed.now) (Set (OwnTarget own.now) e) (stand_view stand.old) f (stand_view stand.new)) }
    ensures goes { IfOk result (λ f. GoesOn f) }
    ensures first { IfOk result (λ _. (stand_view stand.new).first ≡ (stand_view stand.old).first) }
{
    let Some(value) = replace(&mut stand.value, None) else {
        unreachable!()
    };
    stand.onward();
    stand.assign(alloc, frame.fixed, own, &value)?;
    Ok(Flow::On)
}

/// One instruction that evaluates nothing more and stands at no access.
fn plain(
    alloc: Global,
    frame: Frame<'_>,
    instruction: &Instruction<'_>,
    stand: &mut Stand,
) -> Result<Flow, AllocError>
    requires known { evaluation_in (step_of instruction.now) (stand_view stand.old).value ≡ None }
    requires plain { is_plain (step_of instruction.now) ≡ true }
    ensures walk { IfOk result (λ f. LeadsTo (attempt_view frame.entry.bound.now frame.entry.fixed.now) (fixed_view frame.entry.fixed.now) (step_of instruction.now) (stand_view stand.old) f (stand_view stand.new)) }
    ensures goes { IfOk result (λ f. GoesOn f) }
    ensures first { IfOk result (λ _. (stand_view stand.new).first ≡ (stand_view stand.old).first) }
{
    match instruction {
        Instruction::Unbind => {
            stand.onward();
            stand.unbind();
            Ok(Flow::On)
        }
        Instruction::Assign { target, name } => assign(alloc, frame, own_of(target), name, stand),
        Instruction::Set { target, .. } => assign_ready(alloc, frame, own_of(target), stand),
        Instruction::Choose(arms) => chosen(arms, stand),
        Instruction::Jump(over) => {
            stand.onward();
            Ok(Flow::Over(*over))
        }
        Instruction::End(_) => Ok(ended(stand)),
        Instruction::Fail => Ok(Flow::Noted(NoteKind::NoValue)),
        _ => unreachable!(),
    }
}

/// One instruction whose reads are done and that stands at no access.
pub fn run(
    alloc: Global,
    frame: Frame<'_>,
    instruction: &Instruction<'_>,
    stand: &mut Stand,
) -> Result<Flow, AllocError>
    requires reads { left_of (evaluation_in (step_of instruction.now) (stand_view stand.old).value) (stand_view stand.old) ≡ [] }
    requires plain { IsPlain (step_of instruction.now) (stand_view stand.old) }
    ensures walk { IfOk result (λ f. LeadsTo (attempt_view frame.entry.bound.now frame.entry.fixed.now) (fixed_view frame.entry.fixed.now) (step_of instruction.now) (stand_view stand.old) f (stand_view stand.new)) }
    ensures again { IfOk result (λ f. IsReadied f (stand_view stand.old).value (stand_view stand.new).value) }
    ensures first { IfOk result (λ _. (stand_view stand.new).first ≡ (stand_view stand.old).first) }
{
    match evaluation(instruction, &stand.value) {
        Some(e) => {
            let value = value_of(alloc, frame, &e.expression, stand)?;
            behind(alloc, frame, instruction, value, stand)
        }
        None => plain(alloc, frame, instruction, stand),
    }
}
