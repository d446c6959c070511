// The access at which an instruction stands, done on a content.
ghost use Rattle.std.specs.Prelude.{◌≡◌, ℕ, false, [], ◌∷◌, ◌<◌, length, map, reverse, option_map, option_and_then, Some, List, IfOk, IsSome, IsTrue};
ghost use Rattle.pgo_base.specs.Data.{Data};
ghost use Rattle.pgo_base.specs.BindingsView.{named_view};
ghost use Rattle.pgo_base.specs.View.{data_of};
ghost use Rattle.pgo_sections.specs.BoundValues.{bindable, value_under};
ghost use Rattle.pgo_sections.specs.Context.{index_value};
ghost use Rattle.pgo_sections.specs.Exec.{MacroEnd};
ghost use Rattle.pgo_sections.specs.SectionRun.{ChoiceMade};
ghost use Rattle.pgo_accesses.specs.Accesses.{Attempt, Progress, becoming, behind_block, behind_read, behind_write, can_stand, state_limit, set_limit};
ghost use Rattle.pgo_code.specs.Steps.{Step, Unmapped as UnmappedStep, Evaluation, Resource as TargetView, Assign as AssignStep, Set as SetStep, Read as ReadStep, Write as WriteStep};
ghost use Rattle.pgo_code.specs.See.{step_of, content_view, unmapped_view};
ghost use Rattle.pgo_places.specs.Flows.{evaluation_in, flow_walk, left_of, part_index, resource_at};
ghost use Rattle.pgo_places.specs.Performs.{Performs, Puts, Keeps, NotesAs, IsNoMemory, IsTold, ReadAnswers, WriteAnswers};
ghost use Rattle.pgo_places.specs.Ready.{IsAccess};
ghost use Rattle.pgo_places.specs.Stands.{Fixed, binding, going, onward, resume};
ghost use Rattle.pgo_places.specs.PlaceView.{stand_view, fixed_view, attempt_view};

use crate::access::{index_in, next_read};
use crate::evaluated::Frame;
use crate::flow::Flow;
use crate::stand::{Stand, under};
use pgo_base::bindings::NamedValue;
use pgo_base::depth::is_deeper;
use pgo_base::text::Text;
use pgo_base::value::Value;
use pgo_code::instruction::{Content, Instruction, Unmapped};
use pgo_resource::resource::{MacroEnv, OpStop, Resource};
use pgo_syntax::bound::Mapping;
use pgo_syntax::records::NoteKind;
use std::alloc::{AllocError, Global};
use std::mem::replace;

/// Whether a value can be bound.
fn can_be_bound(value: &Value) -> bool
    ensures { IsTrue result → bindable (Some (data_of value.now)) ≡ Some (data_of value.now) }
{
    !is_deeper(value, 2047)
}

/// An unmapped parameter is read.
fn look<R: Resource>(
    alloc: Global,
    frame: Frame<'_>,
    unmapped: &Unmapped,
    stand: &mut Stand,
    content: &R,
) -> Result<Flow, AllocError>
    requires there { IsSome unmapped.now.resource }
    requires below { stand.old.done < 18446744073709551615 }
    ensures performs { IfOk result (λ f. (a : Attempt) (i : Step) (xs : List UnmappedStep) → left_of (evaluation_in i (stand_view stand.old).value) (stand_view stand.old) ≡ unmapped_view unmapped.now ∷ xs → Performs a (fixed_view frame.entry.fixed.now) i (stand_view stand.old) f (stand_view stand.new) (R.shows content.now).current (R.shows content.now).current) }
    ensures first { IfOk result (λ _. (stand_view stand.new).first ≡ (stand_view stand.old).first) }
{
    let value = content.value(alloc)?;
    stand.look(alloc, frame.fixed, &unmapped.name, &value)?;
    Ok(Flow::Again)
}

/// What stopped an access that nothing but want of memory can stop.
fn without_memory(stop: OpStop) -> Result<(), AllocError>
    requires { IsNoMemory stop }
    ensures { IfOk result (λ _. ⊥) }
{
    match stop {
        OpStop::NoMemory => Err(AllocError),
        _ => unreachable!(),
    }
}

/// The content becomes the value as it is.
fn overwrite<R: Resource>(
    alloc: Global,
    frame: Frame<'_>,
    value: Value,
    stand: &mut Stand,
    content: &mut R,
) -> Result<(), AllocError>
    ensures stand { IfOk result (λ _. stand_view stand.new ≡ stand_view stand.old) }
    ensures value { IfOk result (λ _. (R.shows content.new).current ≡ data_of value) }
    ensures content { Keeps (R.shows content.old) (R.shows content.new) }
{
    if !can_be_bound(&value) {
        return Err(AllocError);
    }
    let env = MacroEnv {
        defs: frame.definitions,
        id: &frame.fixed.id,
    };
    let m = Mapping::Identity;
    match content.write(alloc, &m, env, None, value, &mut stand.picks) {
        Ok(()) => Ok(()),
        Err(stop) => without_memory(stop),
    }
}

/// A resource becomes the value.
fn put<R: Resource>(
    alloc: Global,
    frame: Frame<'_>,
    resource: u32,
    value: Value,
    stand: &mut Stand,
    content: &mut R,
) -> Result<Flow, AllocError>
    ensures puts { IfOk result (λ f. Puts (Some resource) (data_of value) (stand_view stand.old) f (stand_view stand.new) (R.shows content.new).current) }
    ensures content { Keeps (R.shows content.old) (R.shows content.new) }
{
    let is_too_deep = is_deeper(&value, 256);
    overwrite(alloc, frame, value, stand, content)?;
    stand.mark(alloc, is_too_deep, resource)?;
    stand.onward();
    Ok(Flow::On)
}

/// The greatest depth of a content of a state, and of one that can stand in a set by itself.
fn limits(is_element: bool) -> (usize, usize)
    ensures state { result.0 ≡ state_limit is_element }
    ensures set { result.1 ≡ set_limit is_element }
{
    if is_element { (255, 2046) } else { (256, 2047) }
}

/// Behind a macro's block: whether the content can stand in a set; then it is marked where it is too deep for a state.
fn settle<R: Resource>(
    alloc: Global,
    is_element: bool,
    resource: u32,
    stand: &mut Stand,
    content: &R,
) -> Result<bool, AllocError>
    ensures stands { IfOk result (λ b. b ≡ can_stand is_element (R.shows content.now).current) }
    ensures stand { IfOk result (λ b. IsTrue b → stand_view stand.new ≡ onward (going (becoming is_element resource (R.shows content.now).current (stand_view stand.old).progress) (stand_view stand.old))) }
    ensures first { IfOk result (λ _. (stand_view stand.new).first ≡ (stand_view stand.old).first) }
{
    let (state, set) = limits(is_element);
    if content.is_deeper(set) {
        return Ok(false);
    }
    stand.mark(alloc, content.is_deeper(state), resource)?;
    stand.onward();
    Ok(true)
}

/// The note of a block that stopped.
fn noted(stop: OpStop) -> Result<Flow, AllocError>
    ensures { IfOk result (λ f. NotesAs stop f) }
{
    match stop {
        OpStop::Blocked => Ok(Flow::Noted(NoteKind::Blocked)),
        OpStop::NoValue => Ok(Flow::Noted(NoteKind::NoValue)),
        OpStop::AssertFails => Ok(Flow::Noted(NoteKind::AssertFails)),
        OpStop::NoMemory => Err(AllocError),
    }
}

/// The index at which a macro works on a part.
fn part<'x>(content: &Content<'_>, index: Option<&'x Value>) -> Option<&'x Value>
    ensures { option_map (λ r. data_of r.now) result ≡ part_index (content_view content.now) (option_map (λ r. data_of r.now) index.entry) }
{
    if content.is_element { None } else { index }
}

/// Behind a block that gave something: marks the content, or there is no value.
fn gave<R: Resource>(
    alloc: Global,
    is_element: bool,
    resource: u32,
    stand: &mut Stand,
    content: &R,
) -> Result<Flow, AllocError>
    ensures walk { IfOk result (λ f. (a : Attempt) (k : Fixed) (n : ℕ) (i : Step) (is : List Step) (p : Progress) (cs : List ChoiceMade) → record p { points = cs } ≡ (stand_view stand.old).progress → behind_block is_element resource (R.shows content.now).current cs p (λ q. resume a k n is (going q (onward (stand_view stand.old)))) ≡ flow_walk a k n i is f (stand_view stand.new)) }
    ensures first { IfOk result (λ _. (stand_view stand.new).first ≡ (stand_view stand.old).first) }
{
    if settle(alloc, is_element, resource, stand, content)? {
        Ok(Flow::On)
    } else {
        Ok(Flow::Noted(NoteKind::NoValue))
    }
}

/// Behind a read.
fn read_end<R: Resource>(
    alloc: Global,
    name: &Text,
    resource: (bool, u32),
    answer: Result<Value, OpStop>,
    stand: &mut Stand,
    content: &R,
) -> Result<Flow, AllocError>
    ensures walk { IfOk result (λ f. IsTold answer × ((a : Attempt) (k : Fixed) (n : ℕ) (i : Step) (is : List Step) (p : Progress) (m : MacroEnd (Data × Data)) → ReadAnswers answer (R.shows content.now).current (stand_view stand.old).progress p m → behind_read resource.0 resource.1 p m (λ x q. resume a k n is (binding name.now x (going q (onward (stand_view stand.old))))) ≡ flow_walk a k n i is f (stand_view stand.new))) }
    ensures first { IfOk result (λ _. (stand_view stand.new).first ≡ (stand_view stand.old).first) }
{
    match answer {
        Ok(v) => {
            if settle(alloc, resource.0, resource.1, stand, content)? {
                stand.bind(alloc, name, v)?;
                Ok(Flow::On)
            } else {
                Ok(Flow::Noted(NoteKind::NoValue))
            }
        }
        Err(stop) => noted(stop),
    }
}

/// Behind a write.
fn write_end<R: Resource>(
    alloc: Global,
    resource: (bool, u32),
    answer: Result<(), OpStop>,
    stand: &mut Stand,
    content: &R,
) -> Result<Flow, AllocError>
    ensures walk { IfOk result (λ f. IsTold answer × ((a : Attempt) (k : Fixed) (n : ℕ) (i : Step) (is : List Step) (p : Progress) (m : MacroEnd Data) → WriteAnswers answer (R.shows content.now).current (stand_view stand.old).progress p m → behind_write resource.0 resource.1 p m (λ q. resume a k n is (going q (onward (stand_view stand.old)))) ≡ flow_walk a k n i is f (stand_view stand.new))) }
    ensures first { IfOk result (λ _. (stand_view stand.new).first ≡ (stand_view stand.old).first) }
{
    match answer {
        Ok(()) => gave(alloc, resource.0, resource.1, stand, content),
        Err(stop) => noted(stop),
    }
}

/// The value of an index, if there is one.
fn index_there<'x>(index: &Option<Text>, env: &'x [NamedValue]) -> Option<&'x Value>
    requires { IsSome (index_value index.now (reverse (map named_view env.now))) }
    ensures { Some (option_map (λ r. data_of r.now) result) ≡ index_value index.now (reverse (map named_view env.entry.now)) }
{
    match index_in(index, env) {
        Some(j) => j,
        None => unreachable!(),
    }
}

/// What a name in scope stands for.
fn value_there<'x>(env: &'x [NamedValue], name: &Text) -> &'x Value
    requires { IsSome (value_under name.now (reverse (map named_view env.now))) }
    ensures { Some (data_of result.now) ≡ value_under name.now (reverse (map named_view env.entry.now)) }
{
    match under(env, name) {
        Some(v) => v,
        None => unreachable!(),
    }
}

/// A mapped parameter is read.
fn mapped_read<R: Resource>(
    alloc: Global,
    frame: Frame<'_>,
    resource: u32,
    read: (&Text, &Content<'_>, &Option<Text>),
    stand: &mut Stand,
    content: &mut R,
) -> Result<Flow, AllocError>
    requires { option_and_then (λ j. resource_at (attempt_view frame.bound.now frame.fixed.now) (content_view read.1.now) j) (index_value read.2.now (stand_view stand.old).env) ≡ Some resource }
    ensures performs { IfOk result (λ f. Performs (attempt_view frame.entry.bound.now frame.entry.fixed.now) (fixed_view frame.entry.fixed.now) (ReadStep read.entry.0.now (content_view read.entry.1.now) read.entry.2.now) (stand_view stand.old) f (stand_view stand.new) (R.shows content.old).current (R.shows content.new).current) }
    ensures content { Keeps (R.shows content.old) (R.shows content.new) }
    ensures first { IfOk result (λ _. (stand_view stand.new).first ≡ (stand_view stand.old).first) }
{
    let (name, c, index) = read;
    let j = index_there(index, &stand.env);
    let env = MacroEnv {
        defs: frame.definitions,
        id: &frame.fixed.id,
    };
    let answer = content.read(alloc, c.mapped.mapping, env, part(c, j), &mut stand.picks);
    read_end(
        alloc,
        name,
        (c.is_element, resource),
        answer,
        stand,
        content,
    )
}

/// A mapped parameter is written.
fn mapped_write<R: Resource>(
    alloc: Global,
    frame: Frame<'_>,
    resource: u32,
    write: (&Content<'_>, &Option<Text>, &Text),
    stand: &mut Stand,
    content: &mut R,
) -> Result<Flow, AllocError>
    requires { option_and_then (λ j. resource_at (attempt_view frame.bound.now frame.fixed.now) (content_view write.0.now) j) (index_value write.1.now (stand_view stand.old).env) ≡ Some resource }
    ensures performs { IfOk result (λ f. Performs (attempt_view frame.entry.bound.now frame.entry.fixed.now) (fixed_view frame.entry.fixed.now) (WriteStep (content_view write.entry.0.now) write.entry.1.now write.entry.2.now) (stand_view stand.old) f (stand_view stand.new) (R.shows content.old).current (R.shows content.new).current) }
    ensures content { Keeps (R.shows content.old) (R.shows content.new) }
    ensures first { IfOk result (λ _. (stand_view stand.new).first ≡ (stand_view stand.old).first) }
{
    let (c, index, name) = write;
    let j = index_there(index, &stand.env);
    let Some(v) = under(&stand.env, name) else {
        return Ok(Flow::Noted(NoteKind::NoValue));
    };
    let value = v.copy(alloc)?;
    let env = MacroEnv {
        defs: frame.definitions,
        id: &frame.fixed.id,
    };
    let answer = content.write(
        alloc,
        c.mapped.mapping,
        env,
        part(c, j),
        value,
        &mut stand.picks,
    );
    write_end(alloc, (c.is_element, resource), answer, stand, content)
}

/// A resource becomes what a name stands for.
fn put_named<R: Resource>(
    alloc: Global,
    frame: Frame<'_>,
    resource: u32,
    name: &Text,
    stand: &mut Stand,
    content: &mut R,
) -> Result<Flow, AllocError>
    requires { IsSome (value_under name.now (stand_view stand.old).env) }
    ensures performs { IfOk result (λ f. (a : Attempt) → Performs a (fixed_view frame.entry.fixed.now) (AssignStep (TargetView (Some resource)) name.now) (stand_view stand.old) f (stand_view stand.new) (R.shows content.old).current (R.shows content.new).current) }
    ensures content { Keeps (R.shows content.old) (R.shows content.new) }
    ensures first { IfOk result (λ _. (stand_view stand.new).first ≡ (stand_view stand.old).first) }
{
    let value = value_there(&stand.env, name).copy(alloc)?;
    put(alloc, frame, resource, value, stand, content)
}

/// A resource becomes the value that stands ready.
fn put_value<R: Resource>(
    alloc: Global,
    frame: Frame<'_>,
    resource: u32,
    stand: &mut Stand,
    content: &mut R,
) -> Result<Flow, AllocError>
    requires { IsSome (stand_view stand.old).value }
    ensures performs { IfOk result (λ f. (a : Attempt) (e : Evaluation) → Performs a (fixed_view frame.entry.fixed.now) (SetStep (TargetView (Some resource)) e) (stand_view stand.old) f (stand_view stand.new) (R.shows content.old).current (R.shows content.new).current) }
    ensures content { Keeps (R.shows content.old) (R.shows content.new) }
    ensures first { IfOk result (λ _. (stand_view stand.new).first ≡ (stand_view stand.old).first) }
{
    let Some(value) = replace(&mut stand.value, None) else {
        unreachable!()
    };
    put(alloc, frame, resource, value, stand, content)
}

/// The access at which an instruction stands whose reads are done.
fn performed<R: Resource>(
    alloc: Global,
    frame: Frame<'_>,
    resource: u32,
    instruction: &Instruction<'_>,
    stand: &mut Stand,
    content: &mut R,
) -> Result<Flow, AllocError>
    requires reads { left_of (evaluation_in (step_of instruction.now) (stand_view stand.old).value) (stand_view stand.old) ≡ [] }
    requires access { IsAccess (attempt_view frame.bound.now frame.fixed.now) (fixed_view frame.fixed.now) resource (step_of instruction.now) (stand_view stand.old) }
    ensures performs { IfOk result (λ f. Performs (attempt_view frame.entry.bound.now frame.entry.fixed.now) (fixed_view frame.entry.fixed.now) (step_of instruction.now) (stand_view stand.old) f (stand_view stand.new) (R.shows content.old).current (R.shows content.new).current) }
    ensures content { Keeps (R.shows content.old) (R.shows content.new) }
    ensures first { IfOk result (λ _. (stand_view stand.new).first ≡ (stand_view stand.old).first) }
{
    match instruction {
        Instruction::Assign { name, .. } => {
            put_named(alloc, frame, resource, name, stand, content)
        }
        Instruction::Set { .. } => put_value(alloc, frame, resource, stand, content),
        Instruction::Read {
            name,
            content: c,
            index,
        } => mapped_read(alloc, frame, resource, (name, c, index), stand, content),
        Instruction::Write {
            content: c,
            index,
            name,
        } => mapped_write(alloc, frame, resource, (c, index, name), stand, content),
        // no other instruction is an access
        _ => unreachable!(),
    }
}

/// The access at which an instruction stands, which is of this resource.
pub fn perform<R: Resource>(
    alloc: Global,
    frame: Frame<'_>,
    resource: u32,
    instruction: &Instruction<'_>,
    stand: &mut Stand,
    content: &mut R,
) -> Result<Flow, AllocError>
    requires { IsAccess (attempt_view frame.bound.now frame.fixed.now) (fixed_view frame.fixed.now) resource (step_of instruction.now) (stand_view stand.old) }
    ensures performs { IfOk result (λ f. Performs (attempt_view frame.entry.bound.now frame.entry.fixed.now) (fixed_view frame.entry.fixed.now) (step_of instruction.now) (stand_view stand.old) f (stand_view stand.new) (R.shows content.old).current (R.shows content.new).current) }
    ensures content { Keeps (R.shows content.old) (R.shows content.new) }
    ensures first { IfOk result (λ _. (stand_view stand.new).first ≡ (stand_view stand.old).first) }
{
    match next_read(instruction, stand) {
        Some(u) => look(alloc, frame, u, stand, content),
        None => performed(alloc, frame, resource, instruction, stand, content),
    }
}
