// What is done behind an evaluation.
ghost use Rattle.std.specs.Prelude.{◌≡◌, ℕ, ◌<◌, length, List, map, option_map, option_and_then, Option, None, Some, IfOk};
ghost use Rattle.pgo_base.specs.Data.{Data};
ghost use Rattle.pgo_base.specs.View.{data_of};
ghost use Rattle.pgo_model.specs.Operators.{members_of, truth_of};
ghost use Rattle.pgo_sections.specs.BoundValues.{bindable};
ghost use Rattle.pgo_accesses.specs.Accesses.{Attempt, with_value, with_member, if_true, printing};
ghost use Rattle.pgo_code.specs.Steps.{Step, Evaluation, Set};
ghost use Rattle.pgo_code.specs.See.{step_of, target_view};
ghost use Rattle.pgo_places.specs.Flows.{flow_walk, after, evaluation_in};
ghost use Rattle.pgo_places.specs.PlaceView.{stand_view, fixed_view, attempt_view};
ghost use Rattle.pgo_places.specs.Picked.{picked, behind_pick, judging};
ghost use Rattle.pgo_places.specs.Stands.{Fixed, Stand as StandView, resume, binding, going, putting, onward, with_words};
ghost use Rattle.pgo_places.specs.Turns.{GoesOn, IsReadied};

use crate::evaluated::{Frame, bindable_value};
use crate::flow::Flow;
use crate::stand::Stand;
use pgo_base::text::Text;
use pgo_base::value::Value;
use pgo_code::instruction::{Instruction, Target};
use pgo_syntax::records::NoteKind;
use std::alloc::{AllocError, Global};

/// Whether the value is true, where it is a Boolean.
fn truth(value: &Option<Value>) -> Option<bool>
    ensures { result ≡ truth_of (option_map data_of value.now) }
{
    match value {
        Some(Value::Bool(b)) => Some(*b),
        _ => None,
    }
}

/// At the next instruction where the condition is true, and elsewhere where it is false.
fn tested(truth: Option<bool>, otherwise: Flow) -> Flow
    ensures walk { (a : Attempt) (k : Fixed) (n : ℕ) (i : Step) (is : List Step) (s : StandView) → if_true truth (resume a k n is s) (flow_walk a k n i is otherwise s) ≡ flow_walk a k n i is result s }
    ensures goes { GoesOn otherwise → GoesOn result }
{
    match truth {
        Some(true) => Flow::On,
        Some(false) => otherwise,
        None => Flow::Noted(NoteKind::NoValue),
    }
}

/// The name stands for the value, where it can be bound.
fn bound(
    alloc: Global,
    name: &Text,
    value: Option<Value>,
    stand: &mut Stand,
) -> Result<Flow, AllocError>
    ensures walk { IfOk result (λ f. (a : Attempt) (k : Fixed) (n : ℕ) (i : Step) (is : List Step) → with_value (bindable (option_map data_of value)) (λ v. resume a k n is (binding name.now v (stand_view stand.old))) ≡ flow_walk a k n i is f (stand_view stand.new)) }
    ensures goes { IfOk result (λ f. GoesOn f) }
    ensures first { IfOk result (λ _. (stand_view stand.new).first ≡ (stand_view stand.old).first) }
{
    match bindable_value(value) {
        Some(v) => {
            stand.bind(alloc, name, v)?;
            Ok(Flow::On)
        }
        None => Ok(Flow::Noted(NoteKind::NoValue)),
    }
}

/// The member that the next word picks, if there is one.
fn member(alloc: Global, members: &[Value], stand: &mut Stand) -> Result<Option<Value>, AllocError>
    ensures member { IfOk result (λ o. option_map data_of o ≡ picked (map data_of members.now) (stand_view stand.old)) }
    ensures stand { IfOk result (λ _. stand_view stand.new ≡ behind_pick (map data_of members.now) (stand_view stand.old)) }
{
    let count = members.len();
    if count == 0 {
        return Ok(None);
    }
    let i = stand.pick(count)?;
    Ok(Some(members[i].copy(alloc)?))
}

/// The name stands for one of the members.
fn picked_from(
    alloc: Global,
    name: &Text,
    members: &[Value],
    stand: &mut Stand,
) -> Result<Flow, AllocError>
    ensures walk { IfOk result (λ f. (a : Attempt) (k : Fixed) (n : ℕ) (i : Step) (is : List Step) → with_member (with_words (stand_view stand.old).words a) (map data_of members.now) (stand_view stand.old).progress (λ v q. resume a k n is (binding name.now v (going q (stand_view stand.old)))) ≡ flow_walk a k n i is f (stand_view stand.new)) }
    ensures goes { IfOk result (λ f. GoesOn f) }
    ensures first { IfOk result (λ _. (stand_view stand.new).first ≡ (stand_view stand.old).first) }
{
    let found = member(alloc, members, stand)?;
    match found {
        Some(v) => {
            stand.bind(alloc, name, v)?;
            Ok(Flow::On)
        }
        None => Ok(Flow::Noted(NoteKind::Blocked)),
    }
}

/// The name stands for a member of the set.
fn picked_member(
    alloc: Global,
    name: &Text,
    value: Option<Value>,
    stand: &mut Stand,
) -> Result<Flow, AllocError>
    ensures walk { IfOk result (λ f. (a : Attempt) (k : Fixed) (n : ℕ) (i : Step) (is : List Step) → with_value (option_and_then members_of (option_map data_of value)) (λ ms. with_member (with_words (stand_view stand.old).words a) ms (stand_view stand.old).progress (λ v q. resume a k n is (binding name.now v (going q (stand_view stand.old))))) ≡ flow_walk a k n i is f (stand_view stand.new)) }
    ensures goes { IfOk result (λ f. GoesOn f) }
    ensures first { IfOk result (λ _. (stand_view stand.new).first ≡ (stand_view stand.old).first) }
{
    match value {
        Some(Value::Set(set)) => picked_from(alloc, name, set.members(), stand),
        _ => Ok(Flow::Noted(NoteKind::NoValue)),
    }
}

/// The own component becomes the value, or the resource is about to.
fn put(
    alloc: Global,
    frame: Frame<'_>,
    target: &Target,
    value: Value,
    stand: &mut Stand,
) -> Result<Flow, AllocError>
    ensures walk { IfOk result (λ f. (a : Attempt) (n : ℕ) (e : Evaluation) (is : List Step) → putting (fixed_view frame.entry.fixed.now) (target_view target.now) (data_of value) (onward (stand_view stand.old)) (resume a (fixed_view frame.entry.fixed.now) n is) ≡ flow_walk a (fixed_view frame.entry.fixed.now) n (Set (target_view target.now) e) is f (stand_view stand.new)) }
    ensures again { IfOk result (λ f. IsReadied f None (stand_view stand.new).value) }
    ensures first { IfOk result (λ _. (stand_view stand.new).first ≡ (stand_view stand.old).first) }
{
    stand.onward();
    match target {
        Target::Own(name) => {
            stand.assign(alloc, frame.fixed, name, &value)?;
            Ok(Flow::On)
        }
        Target::Resource(_) => {
            stand.value = Some(value);
            Ok(Flow::Again)
        }
    }
}

/// The target becomes the value, where it can be bound.
fn assigned(
    alloc: Global,
    frame: Frame<'_>,
    target: &Target,
    value: Option<Value>,
    stand: &mut Stand,
) -> Result<Flow, AllocError>
    ensures walk { IfOk result (λ f. (a : Attempt) (n : ℕ) (e : Evaluation) (is : List Step) → with_value (bindable (option_map data_of value)) (λ v. putting (fixed_view frame.entry.fixed.now) (target_view target.now) v (onward (stand_view stand.old)) (resume a (fixed_view frame.entry.fixed.now) n is)) ≡ flow_walk a (fixed_view frame.entry.fixed.now) n (Set (target_view target.now) e) is f (stand_view stand.new)) }
    ensures again { IfOk result (λ f. IsReadied f None (stand_view stand.new).value) }
    ensures first { IfOk result (λ _. (stand_view stand.new).first ≡ (stand_view stand.old).first) }
{
    match bindable_value(value) {
        Some(v) => put(alloc, frame, target, v, stand),
        None => Ok(Flow::Noted(NoteKind::NoValue)),
    }
}

/// The value is printed.
fn printed(value: Option<Value>, stand: &mut Stand) -> Result<Flow, AllocError>
    ensures walk { IfOk result (λ f. (a : Attempt) (k : Fixed) (n : ℕ) (i : Step) (is : List Step) → with_value (option_map data_of value) (λ v. resume a k n is (going (printing v (stand_view stand.old).progress) (stand_view stand.old))) ≡ flow_walk a k n i is f (stand_view stand.new)) }
    ensures goes { IfOk result (λ f. GoesOn f) }
    ensures first { IfOk result (λ _. (stand_view stand.new).first ≡ (stand_view stand.old).first) }
{
    match value {
        Some(v) => {
            stand.print(v)?;
            Ok(Flow::On)
        }
        None => Ok(Flow::Noted(NoteKind::NoValue)),
    }
}

/// What the instruction does with the value of its expression, once no global is seen any more.
pub fn behind(
    alloc: Global,
    frame: Frame<'_>,
    instruction: &Instruction<'_>,
    value: Option<Value>,
    stand: &mut Stand,
) -> Result<Flow, AllocError>
    ensures walk { IfOk result (λ f. (n : ℕ) (is : List Step) → after (attempt_view frame.entry.bound.now frame.entry.fixed.now) (fixed_view frame.entry.fixed.now) n is (step_of instruction.now) (stand_view stand.old) (option_map data_of value) ≡ flow_walk (attempt_view frame.entry.bound.now frame.entry.fixed.now) (fixed_view frame.entry.fixed.now) n (step_of instruction.now) is f (stand_view stand.new)) }
    ensures again { IfOk result (λ f. (o : Option Data) (e : Evaluation) → evaluation_in (step_of instruction.now) o ≡ Some e → IsReadied f o (stand_view stand.new).value) }
    ensures first { IfOk result (λ _. (stand_view stand.new).first ≡ (stand_view stand.old).first) }
{
    match instruction {
        Instruction::Bind { name, .. } => bound(alloc, name, value, stand),
        Instruction::Pick { name, .. } => picked_member(alloc, name, value, stand),
        Instruction::Set { target, .. } => assigned(alloc, frame, target, value, stand),
        Instruction::Print(_) => printed(value, stand),
        _ => Ok(judged(instruction, &value)),
    }
}

/// Where a condition leads; nowhere where the instruction has none.
fn judged(instruction: &Instruction<'_>, value: &Option<Value>) -> Flow
    ensures walk { (a : Attempt) (k : Fixed) (n : ℕ) (is : List Step) (s : StandView) → judging a k n is (step_of instruction.now) s (option_map data_of value.now) ≡ flow_walk a k n (step_of instruction.now) is result s }
    ensures goes { GoesOn result }
{
    match instruction {
        Instruction::Await(_) => tested(truth(value), Flow::Noted(NoteKind::Blocked)),
        Instruction::Assert(_) => tested(truth(value), Flow::Noted(NoteKind::AssertFails)),
        Instruction::Branch { otherwise, .. } => tested(truth(value), Flow::Over(*otherwise)),
        _ => Flow::Noted(NoteKind::NoValue),
    }
}
