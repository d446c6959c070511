// The access at which an instruction stands.
ghost use Rattle.std.specs.Prelude.{◌≡◌, [], drop, map, option_map, option_and_then, reverse, ◌<◌, Some, IfSome};
ghost use Rattle.pgo_base.specs.BindingsView.{named_view};
ghost use Rattle.pgo_base.specs.View.{data_of};
ghost use Rattle.pgo_model.specs.Core.{number_among};
ghost use Rattle.pgo_meaning.specs.System.{resource_of};
ghost use Rattle.pgo_sections.specs.Context.{index_value};
ghost use Rattle.pgo_code.specs.See.{step_of, evaluation_view, content_view, unmapped_view, target_view};
ghost use Rattle.pgo_base.specs.Lookup.{Name};
ghost use Rattle.pgo_accesses.specs.Accesses.{Attempt};
ghost use Rattle.pgo_code.specs.Steps.{Evaluation as EvaluationStep, Assign, Set, Read, Write};
ghost use Rattle.pgo_places.specs.Stands.{Fixed};
ghost use Rattle.pgo_places.specs.Flows.{evaluation_in, left_of, IsFirst, resource_at, access_to, StandsAt};
ghost use Rattle.pgo_places.specs.PlaceView.{stand_view, fixed_view, attempt_view};

use crate::evaluated::Frame;
use crate::flow::Access;
use crate::stand::{Stand, under};
use pgo_base::bindings::NamedValue;
use pgo_base::text::Text;
use pgo_base::value::Value;
use pgo_code::instruction::{Content, Evaluation, Instruction, Target, Unmapped};

/// What the instruction evaluates, unless it has its value.
pub fn evaluation<'x>(
    instruction: &'x Instruction<'_>,
    value: &Option<Value>,
) -> Option<&'x Evaluation>
    ensures { option_map (λ r. evaluation_view r.now) result ≡ evaluation_in (step_of instruction.entry.now) (option_map data_of value.now) }
{
    match instruction {
        Instruction::Bind { value: e, .. } => Some(e),
        Instruction::Pick { set, .. } => Some(set),
        Instruction::Set { value: e, .. } => { if value.is_some() { None } else { Some(e) } }
        Instruction::Await(e) | Instruction::Assert(e) | Instruction::Print(e) => Some(e),
        Instruction::Branch { condition, .. } => Some(condition),
        _ => None,
    }
}

/// The read with this number, if there is one.
#[tactic(auto, using(crate::proofs::FirstReads::read_here, crate::proofs::FirstReads::none_left))]
fn read_at(reads: &[Unmapped], number: usize) -> Option<&Unmapped>
    ensures first { IsFirst (drop number (map unmapped_view reads.entry.now)) result }
    ensures below { IfSome result (λ _. number < 18446744073709551615) }
{
    if number < reads.len() {
        Some(&reads[number])
    } else {
        None
    }
}

/// The next of the instruction's reads.
pub fn next_read<'x>(instruction: &'x Instruction<'_>, stand: &Stand) -> Option<&'x Unmapped>
    ensures first { IsFirst (left_of (evaluation_in (step_of instruction.entry.now) (stand_view stand.now).value) (stand_view stand.now)) result }
    ensures below { IfSome result (λ _. stand.now.done < 18446744073709551615) }
{
    match evaluation(instruction, &stand.value) {
        Some(e) => read_at(&e.reads, stand.done),
        None => None,
    }
}

/// The number of the resource that is this element of a global, if there is one.
fn element(frame: Frame<'_>, global: &Text, index: &Value) -> Option<u32>
    ensures { result ≡ number_among (map resource_of frame.entry.bound.now.resources) (global.now, Some (data_of index.now)) }
{
    frame.elements.number(global, index)
}

/// The number of the resource of a mapped parameter, whose index has this value.
pub fn resource_number(
    frame: Frame<'_>,
    content: &Content<'_>,
    index: Option<&Value>,
) -> Option<u32>
    ensures { result ≡ resource_at (attempt_view frame.entry.bound.now frame.entry.fixed.now) (content_view content.now) (option_map (λ r. data_of r.now) index.entry) }
{
    if !content.is_element {
        return content.whole;
    }
    match index {
        Some(i) => element(frame, content.mapped.global, i),
        None => None,
    }
}

/// The value of an index, if there is one; none where a name stands for none.
pub fn index_in<'x>(index: &Option<Text>, env: &'x [NamedValue]) -> Option<Option<&'x Value>>
    ensures { option_map (λ o. option_map (λ r. data_of r.now) o) result ≡ index_value index.now (reverse (map named_view env.entry.now)) }
{
    match index {
        None => Some(None),
        Some(name) => match under(env, name) {
            Some(v) => Some(Some(v)),
            None => None,
        },
    }
}

/// The access of a resource, if there is one.
fn access_to(resource: Option<u32>) -> Access
    ensures { result ≡ access_to resource }
{
    match resource {
        Some(r) => Access::Of(r),
        None => Access::Nothing,
    }
}

/// The resource of a mapped parameter, if there is one.
fn mapped_resource(
    frame: Frame<'_>,
    content: &Content<'_>,
    index: &Option<Text>,
    stand: &Stand,
) -> Option<u32>
    ensures { result ≡ option_and_then (λ j. resource_at (attempt_view frame.entry.bound.now frame.entry.fixed.now) (content_view content.now) j) (index_value index.now (stand_view stand.now).env) }
{
    match index_in(index, &stand.env) {
        Some(j) => resource_number(frame, content, j),
        None => None,
    }
}

/// The access of a mapped parameter.
fn mapped_access(
    frame: Frame<'_>,
    content: &Content<'_>,
    index: &Option<Text>,
    stand: &Stand,
) -> Access
    ensures read { (w : Name) → StandsAt (attempt_view frame.entry.bound.now frame.entry.fixed.now) (fixed_view frame.entry.fixed.now) (Read w (content_view content.now) index.now) (stand_view stand.now) result }
    ensures write { (w : Name) → StandsAt (attempt_view frame.entry.bound.now frame.entry.fixed.now) (fixed_view frame.entry.fixed.now) (Write (content_view content.now) index.now w) (stand_view stand.now) result }
{
    access_to(mapped_resource(frame, content, index, stand))
}

/// The access of an assignment of what a name stands for.
fn assign_access(target: &Target, name: &Text, stand: &Stand) -> Access
    ensures { (a : Attempt) (k : Fixed) → StandsAt a k (Assign (target_view target.now) name.now) (stand_view stand.now) result }
{
    let Target::Resource(r) = target else {
        return Access::No;
    };
    match under(&stand.env, name) {
        Some(_) => access_to(*r),
        None => Access::Nothing,
    }
}

/// The access of an assignment whose expression has its reads done.
fn set_access(target: &Target, stand: &Stand) -> Access
    ensures { (a : Attempt) (k : Fixed) (e : EvaluationStep) → left_of (evaluation_in (Set (target_view target.now) e) (stand_view stand.now).value) (stand_view stand.now) ≡ [] → StandsAt a k (Set (target_view target.now) e) (stand_view stand.now) result }
{
    let Target::Resource(r) = target else {
        return Access::No;
    };
    match &stand.value {
        Some(_) => access_to(*r),
        None => Access::No,
    }
}

/// The access at which an instruction stands whose reads are done.
fn plain_access(frame: Frame<'_>, instruction: &Instruction<'_>, stand: &Stand) -> Access
    requires { left_of (evaluation_in (step_of instruction.now) (stand_view stand.now).value) (stand_view stand.now) ≡ [] }
    ensures { StandsAt (attempt_view frame.entry.bound.now frame.entry.fixed.now) (fixed_view frame.entry.fixed.now) (step_of instruction.now) (stand_view stand.now) result }
{
    match instruction {
        Instruction::Assign { target, name } => assign_access(target, name, stand),
        Instruction::Set { target, .. } => set_access(target, stand),
        Instruction::Read { content, index, .. } => mapped_access(frame, content, index, stand),
        Instruction::Write { content, index, .. } => mapped_access(frame, content, index, stand),
        _ => Access::No,
    }
}

/// The access at which an instruction stands.
pub fn access(frame: Frame<'_>, instruction: &Instruction<'_>, stand: &Stand) -> Access
    ensures { StandsAt (attempt_view frame.entry.bound.now frame.entry.fixed.now) (fixed_view frame.entry.fixed.now) (step_of instruction.now) (stand_view stand.now) result }
{
    match next_read(instruction, stand) {
        Some(u) => access_to(u.resource),
        None => plain_access(frame, instruction, stand),
    }
}
