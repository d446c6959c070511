// Turns at the ends of blocks and sections.
ghost use Rattle.std.specs.Prelude.{◌≡◌, ◌∷◌, [], suc, reverse, true, false, if◌then◌else◌, List, Option, Some, None, option_map, IfOk};
ghost use Rattle.pgo_base.specs.Lookup.{Name};
ghost use Rattle.pgo_sections.specs.Code.{Whole, content_name};
ghost use Rattle.pgo_sections.specs.Context.{is_assigned};
ghost use Rattle.pgo_sections.specs.Expand.{current as spec_current, nowhere as spec_nowhere};
ghost use Rattle.pgo_sections.specs.Expansion.{Expansion};
ghost use Rattle.pgo_model.specs.Written.{made};
ghost use Rattle.pgo_walk.specs.Behind.{behind_read};
ghost use Rattle.pgo_walk.specs.Emitted.{emitted, left_in, with_frame};
ghost use Rattle.pgo_walk.specs.FrameView.{code_left, frame_view, frames_view, state_view};
ghost use Rattle.pgo_walk.specs.Frames as spec;
ghost use Rattle.pgo_walk.specs.SettingPlaces.{places_in};

use crate::binds::{bind, rename};
use crate::contents::{content_put, name_sub, settle, whole_now};
use crate::event::{Event, Move};
use crate::frames::{Frame, Run, State};
use crate::made::Made;
use crate::stack::Stack;
use pgo_base::expr::Sub;
use pgo_base::results::both;
use pgo_base::text::Text;
use pgo_rewrite::mapped::Mapped;
use std::alloc::{AllocError, Global};

/// Whether a yield ends a block there.
fn is_block(frame: &Frame<'_, '_>) -> bool
    ensures { result ≡ spec.has_block (frame_view frame.now ∷ []) }
{
    match frame {
        Frame::Run(_) => false,
        Frame::Reading { .. } => true,
        Frame::Writing { .. } => true,
        Frame::Put { .. } => false,
    }
}

/// Whether a yield ends a block anywhere among these.
fn is_in_block(frames: &[Frame<'_, '_>]) -> bool
    ensures { result ≡ spec.has_block (frames_view (reverse frames.now)) }
{
    for frame in frames {
        if is_block(frame) {
            return true;
        }
    }
    false
}

/// No step.
pub fn nowhere<'a, 'i>(alloc: Global) -> Event<'a, 'i>
    ensures { (vs : List Name) (x : Expansion) → emitted vs result x ≡ spec_nowhere }
{
    Event::Either(Vec::new(alloc))
}

/// A turn at a jump.
pub fn jump<'a, 'i>(
    alloc: Global,
    variables: &[Text],
    state: &State<'a, 'i>,
    label: &Text,
) -> Result<Event<'a, 'i>, AllocError>
    ensures { IfOk result (λ t. (x : Expansion) → spec.jumps variables.now (frames_view state.now.frames) label.now state.now.current state.now.bound ≡ emitted variables.now t x) }
{
    if is_in_block(state.frames.as_slice()) {
        return Ok(nowhere(alloc));
    }
    let changes = settle(alloc, variables, &state.current)?;
    Ok(Event::End(changes, label.copy(alloc)?))
}

/// Takes the frames up to the innermost block's, and that one, which it gives.
fn leave_block<'a, 'i>(frames: &mut Stack<Frame<'a, 'i>>) -> Option<Frame<'a, 'i>>
    ensures { option_map (λ f. (frame_view f, frames_view frames.new)) result ≡ spec.block_in (frames_view frames.old) }
{
    while let Some(frame) = frames.pop() {
        if is_block(&frame) {
            return Some(frame);
        }
    }
    None
}

/// Whether a block whose current values these are has assigned its content.
fn is_written(current: &Made) -> bool
    ensures { result ≡ is_assigned current.now }
{
    current.as_slice().len() > 1
}

/// What a block that read puts back, if it assigned its content: its content.
fn written_content(alloc: Global, current: &Made) -> Result<Option<Sub>, AllocError>
    ensures { IfOk result (λ o. o ≡ (if is_assigned current.now then Some (spec_current current.now (Whole content_name)) else None)) }
{
    if !is_written(current) {
        return Ok(None);
    }
    let content = Text::from_slice(alloc, b"$variable")?;
    Ok(Some(whole_now(alloc, current, &content)?))
}

/// The mapped parameter has its new content, before the code that is left.
fn push_put<'a, 'i>(
    frames: &mut Stack<Frame<'a, 'i>>,
    mapped: Mapped<'a>,
    index: Option<Text>,
    renames: Made,
    value: Sub,
) -> Result<(), AllocError>
    ensures { IfOk result (λ _. frames_view frames.new ≡ spec.Put mapped.entry.global.now index renames value ∷ frames_view frames.old) }
{
    frames.push(Frame::Put {
        mapped,
        index,
        renames,
        value,
    })
}

/// The code goes on where a name stands for what was read.
fn resume<'a, 'i>(
    alloc: Global,
    frames: &mut Stack<Frame<'a, 'i>>,
    rest: Run<'a, 'i>,
    value: &Text,
    made: &Text,
) -> Result<(), AllocError>
    ensures { IfOk result (λ _. frames_view frames.new ≡ spec.Run (places_in rest.entry.setting) (code_left rest.entry) ((value.now, made.now) ∷ rest.entry.renames) ∷ frames_view frames.old) }
{
    let mut rest = rest;
    rename(alloc, &mut rest.renames, value, made)?;
    frames.push(Frame::Run(rest))
}

/// The mapped parameter has its new content, and then the code goes on where a name stands for what was read.
fn resume_behind_put<'a, 'i>(
    alloc: Global,
    frames: &mut Stack<Frame<'a, 'i>>,
    value: &Text,
    mapped: Mapped<'a>,
    index: Option<Text>,
    rest: Run<'a, 'i>,
    made: &Text,
    content: Sub,
) -> Result<(), AllocError>
    ensures { IfOk result (λ _. frames_view frames.new ≡ spec.Put mapped.entry.global.now index rest.entry.renames content ∷ spec.Run (places_in rest.entry.setting) (code_left rest.entry) ((value.now, made.now) ∷ rest.entry.renames) ∷ frames_view frames.old) }
{
    let renames = rest.renames.copy(alloc)?;
    resume(alloc, frames, rest, value, made)?;
    push_put(frames, mapped, index, renames, content)
}

/// What is left behind a read: the new content, if the block assigned it, and the code.
fn behind_read<'a, 'i>(
    alloc: Global,
    state: &mut State<'a, 'i>,
    value: &Text,
    mapped: Mapped<'a>,
    index: Option<Text>,
    rest: Run<'a, 'i>,
    made: &Text,
) -> Result<(), AllocError>
    ensures frames { IfOk result (λ _. frames_view state.new.frames ≡ behind_read (frames_view state.old.frames) value.now mapped.entry.global.now index (places_in rest.entry.setting) (code_left rest.entry) rest.entry.renames made.now state.old.current) }
    ensures bound { IfOk result (λ _. state.new.bound ≡ state.old.bound) }
{
    let content = written_content(alloc, &state.current)?;
    match content {
        None => resume(alloc, &mut state.frames, rest, value, made),
        Some(content) => resume_behind_put(
            alloc,
            &mut state.frames,
            value,
            mapped,
            index,
            rest,
            made,
            content,
        ),
    }
}

/// A turn at the end of a block that reads.
fn end_read<'a, 'i>(
    alloc: Global,
    state: &mut State<'a, 'i>,
    value: Text,
    mapped: Mapped<'a>,
    index: Option<Text>,
    rest: Run<'a, 'i>,
    current: Made,
    e: Sub,
) -> Result<Event<'a, 'i>, AllocError>
    ensures { IfOk result (λ t. (vs : List Name) → spec.yields vs (spec.Reading value mapped.entry.global.now index (places_in rest.entry.setting) (code_left rest.entry) rest.entry.renames current ∷ frames_view state.old.frames) e state.old.current state.old.bound ≡ emitted vs t (left_in vs state.new)) }
{
    let made = bind(alloc, &mut state.bound, b"val")?;
    behind_read(alloc, state, &value, mapped, index, rest, &made)?;
    state.current = current;
    Ok(Event::Step(Move::With(made, e)))
}

/// A turn at the end of a block that writes.
fn end_write<'a, 'i>(
    alloc: Global,
    state: &mut State<'a, 'i>,
    mapped: Mapped<'a>,
    index: Option<Text>,
    renames: Made,
    current: Made,
    e: Sub,
) -> Result<Event<'a, 'i>, AllocError>
    ensures { IfOk result (λ t. (vs : List Name) → spec.yields vs (spec.Writing mapped.entry.global.now index renames current ∷ frames_view state.old.frames) e state.old.current state.old.bound ≡ emitted vs t (left_in vs state.new)) }
{
    let made = bind(alloc, &mut state.bound, b"new")?;
    let value = name_sub(alloc, &made)?;
    push_put(&mut state.frames, mapped, index, renames, value)?;
    state.current = current;
    Ok(Event::Step(Move::With(made, e)))
}

/// A turn at the end of a block.
fn end_block<'a, 'i>(
    alloc: Global,
    state: &mut State<'a, 'i>,
    block: Frame<'a, 'i>,
    e: Sub,
) -> Result<Event<'a, 'i>, AllocError>
    ensures { IfOk result (λ t. (vs : List Name) → spec.has_block (frame_view block.entry ∷ []) ≡ true → spec.yields vs (frame_view block.entry ∷ frames_view state.old.frames) e state.old.current state.old.bound ≡ emitted vs t (left_in vs state.new)) }
{
    match block {
        Frame::Reading {
            value,
            mapped,
            index,
            rest,
            current,
        } => end_read(alloc, state, value, mapped, index, rest, current, e),
        Frame::Writing {
            mapped,
            index,
            renames,
            current,
        } => end_write(alloc, state, mapped, index, renames, current, e),
        _ => Ok(nowhere(alloc)),
    }
}

/// A turn at a yield of this value.
pub fn end_with<'a, 'i>(
    alloc: Global,
    state: &mut State<'a, 'i>,
    e: Sub,
) -> Result<Event<'a, 'i>, AllocError>
    ensures { IfOk result (λ t. (vs : List Name) → spec.yields vs (frames_view state.old.frames) e state.old.current state.old.bound ≡ emitted vs t (left_in vs state.new)) }
{
    match leave_block(&mut state.frames) {
        None => Ok(nowhere(alloc)),
        Some(block) => end_block(alloc, state, block, e),
    }
}

/// The made name of this base for the new value of x, which is then current.
pub fn bind_current<'a, 'i>(
    alloc: Global,
    state: &mut State<'a, 'i>,
    base: &[u8],
    x: &Text,
) -> Result<Text, AllocError>
    ensures name { IfOk result (λ y. y ≡ made base.now (suc state.old.bound)) }
    ensures state { IfOk result (λ y. state_view state.new ≡ record { frames = frames_view state.old.frames; current = (x.now, y) ∷ state.old.current; bound = suc state.old.bound }) }
{
    let made = bind(alloc, &mut state.bound, base)?;
    rename(alloc, &mut state.current, x, &made)?;
    Ok(made)
}

/// A turn at a new content of a mapped parameter.
pub fn put_turn<'a, 'i>(
    alloc: Global,
    state: &mut State<'a, 'i>,
    mapped: Mapped<'a>,
    index: Option<Text>,
    renames: Made,
    value: Sub,
) -> Result<Event<'a, 'i>, AllocError>
    ensures { IfOk result (λ t. (vs : List Name) → with_frame vs state.old (spec.Put mapped.entry.global.now index renames value) ≡ emitted vs t (left_in vs state.new)) }
{
    let e = content_put(
        alloc,
        &renames,
        &state.current,
        mapped.global,
        index.as_ref(),
        value,
    );
    let made = bind_current(alloc, state, mapped.global.as_bytes(), mapped.global);
    let (made, e) = both(made, e)?;
    Ok(Event::Step(Move::With(made, e)))
}
