// Turns at effects.
ghost use Rattle.std.specs.Prelude.{◌≡◌, ◌∷◌, [], suc, IfOk, List, option_map};
ghost use Rattle.pgo_base.specs.ExprView.{tree};
ghost use Rattle.pgo_base.specs.Lookup.{Name};
ghost use Rattle.pgo_model.specs.Written.{made};
ghost use Rattle.pgo_effects.specs.Pieces.{effect_code};
ghost use Rattle.pgo_sections.specs.Code.{Let, Pick, Read, content_places, old_base};
ghost use Rattle.pgo_sections.specs.Expand.{content_now, content_tree};
ghost use Rattle.pgo_rewrite.specs.Views.{mapped_view};
ghost use Rattle.pgo_walk.specs.Emitted.{emitted, left_in, with_frame};
ghost use Rattle.pgo_walk.specs.FrameView.{code_left, frames_view, state_view};
ghost use Rattle.pgo_walk.specs.Frames as spec;
ghost use Rattle.pgo_walk.specs.SettingPlaces.{places_in};

use crate::binds::{bind, enter, rename};
use crate::contents::content;
use crate::event::{Event, Move};
use crate::frames::{Frame, Run, State, copy_name};
use crate::made::Made;
use crate::naming::expr_now;
use crate::pushes::push_todo;
use crate::stack::Stack;
use pgo_base::expr::{Expr, Sub};
use pgo_base::results::both;
use pgo_base::text::Text;
use pgo_effects::piece::Effect;
use pgo_effects::setting::Setting;
use pgo_effects::todo::read_block;
use pgo_rewrite::mapped::Mapped;
use pgo_rewrite::shared::Shared;
use std::alloc::{AllocError, Global};

/// The run goes on where the name stands for a value that gets a made name of this base.
fn bind_in<'a, 'i>(
    alloc: Global,
    state: &mut State<'a, 'i>,
    run: Run<'a, 'i>,
    base: &Text,
    name: &Text,
) -> Result<Text, AllocError>
    ensures name { IfOk result (λ y. y ≡ made base.now (suc state.old.bound)) }
    ensures state { IfOk result (λ y. state_view state.new ≡ record { frames = spec.Run (places_in run.entry.setting) (code_left run.entry) ((name.now, y) ∷ run.entry.renames) ∷ frames_view state.old.frames; current = state.old.current; bound = suc state.old.bound }) }
{
    let mut run = run;
    let made = bind(alloc, &mut state.bound, base.as_bytes())?;
    rename(alloc, &mut run.renames, name, &made)?;
    state.frames.push(Frame::Run(run))?;
    Ok(made)
}

/// A turn at a value that a name stands for in what is left of the run.
fn let_value<'a, 'i>(
    alloc: Global,
    state: &mut State<'a, 'i>,
    run: Run<'a, 'i>,
    base: &Text,
    name: &Text,
    e: &Expr,
) -> Result<Event<'a, 'i>, AllocError>
    ensures { IfOk result (λ t. (vs : List Name) → with_frame vs state.old (spec.Run (places_in run.entry.setting) (Let base.now name.now (tree e.now) (code_left run.entry)) run.entry.renames) ≡ emitted vs t (left_in vs state.new)) }
{
    let value = expr_now(alloc, run.setting, &run.renames, &state.current, e);
    let (made, value) = both(bind_in(alloc, state, run, base, name), value)?;
    Ok(Event::Step(Move::With(made, value)))
}

/// A turn at a member of a set for which a name stands in what is left of the run.
fn pick_member<'a, 'i>(
    alloc: Global,
    state: &mut State<'a, 'i>,
    run: Run<'a, 'i>,
    base: &Text,
    name: &Text,
    set: &Expr,
) -> Result<Event<'a, 'i>, AllocError>
    ensures { IfOk result (λ t. (vs : List Name) → with_frame vs state.old (spec.Run (places_in run.entry.setting) (Pick base.now name.now (tree set.now) (code_left run.entry)) run.entry.renames) ≡ emitted vs t (left_in vs state.new)) }
{
    let value = expr_now(alloc, run.setting, &run.renames, &state.current, set);
    let (made, value) = both(bind_in(alloc, state, run, base, name), value)?;
    Ok(Event::Step(Move::In(made, value)))
}

/// What is left of the run waits for what is read.
fn wait_for<'a, 'i>(
    alloc: Global,
    state: &mut State<'a, 'i>,
    run: Run<'a, 'i>,
    old: &Text,
    value: &Text,
    mapped: Mapped<'a>,
    index: Option<&Text>,
) -> Result<(), AllocError>
    ensures { IfOk result (λ _. state_view state.new ≡ record { frames = spec.Reading value.now mapped.entry.global.now (option_map (λ i. i.now) index.entry) (places_in run.entry.setting) (code_left run.entry) run.entry.renames state.old.current ∷ frames_view state.old.frames; current = content_now old.now; bound = state.old.bound }) }
{
    let names = both(value.copy(alloc), copy_name(alloc, index));
    let ((value, index), current) = both(names, enter(alloc, &mut state.current, old))?;
    state.frames.push(Frame::Reading {
        value,
        mapped,
        index,
        rest: run,
        current,
    })
}

/// Puts the block that reads a mapped parameter before what is there.
fn push_read<'a, 'i>(
    alloc: Global,
    frames: &mut Stack<Frame<'a, 'i>>,
    mapped: Mapped<'a>,
) -> Result<(), AllocError>
    ensures { IfOk result (λ _. frames_view frames.new ≡ spec.Run content_places (mapped_view mapped.entry).reads [] ∷ frames_view frames.old) }
{
    let block = read_block(alloc, mapped)?;
    push_todo(alloc, frames, Setting::Block, &Shared::new(alloc), block)
}

/// The name for what a mapped parameter has before a block, or its element, and that as it is now.
pub fn content_before(
    alloc: Global,
    bound: &mut u64,
    renames: &Made,
    current: &Made,
    g: &Text,
    index: Option<&Text>,
) -> Result<(Text, Sub), AllocError>
    ensures name { IfOk result (λ p. p.0 ≡ made old_base (suc bound.old)) }
    ensures value { IfOk result (λ p. p.1 ≡ content_tree renames.now current.now g.now (option_map (λ i. i.now) index.entry)) }
    ensures bound { IfOk result (λ _. bound.new ≡ suc bound.old) }
{
    both(
        bind(alloc, bound, b"old"),
        content(alloc, renames, current, g, index),
    )
}

/// What is left of the run waits for what is read, behind the block that reads.
fn begin_read<'a, 'i>(
    alloc: Global,
    state: &mut State<'a, 'i>,
    run: Run<'a, 'i>,
    old: &Text,
    value: &Text,
    mapped: Mapped<'a>,
    index: Option<&Text>,
) -> Result<(), AllocError>
    ensures { IfOk result (λ _. state_view state.new ≡ record { frames = spec.Run content_places (mapped_view mapped.entry).reads [] ∷ spec.Reading value.now mapped.entry.global.now (option_map (λ i. i.now) index.entry) (places_in run.entry.setting) (code_left run.entry) run.entry.renames state.old.current ∷ frames_view state.old.frames; current = content_now old.now; bound = state.old.bound }) }
{
    wait_for(alloc, state, run, old, value, mapped, index)?;
    push_read(alloc, &mut state.frames, mapped)
}

/// A turn at a read of a mapped parameter.
fn read_mapped<'a, 'i>(
    alloc: Global,
    state: &mut State<'a, 'i>,
    run: Run<'a, 'i>,
    value: &Text,
    mapped: Mapped<'a>,
    index: Option<&Text>,
) -> Result<Event<'a, 'i>, AllocError>
    ensures { IfOk result (λ t. (vs : List Name) → with_frame vs state.old (spec.Run (places_in run.entry.setting) (Read value.now mapped.entry.global.now (option_map (λ i. i.now) index.entry) (mapped_view mapped.entry).reads (code_left run.entry)) run.entry.renames) ≡ emitted vs t (left_in vs state.new)) }
{
    let (old, before) = content_before(
        alloc,
        &mut state.bound,
        &run.renames,
        &state.current,
        mapped.global,
        index,
    )?;
    begin_read(alloc, state, run, &old, value, mapped, index)?;
    Ok(Event::Step(Move::With(old, before)))
}

/// A turn at an effect, behind which the run goes on.
pub fn effect_turn<'a, 'i>(
    alloc: Global,
    state: &mut State<'a, 'i>,
    run: Run<'a, 'i>,
    effect: &Effect<'a>,
) -> Result<Event<'a, 'i>, AllocError>
    ensures { IfOk result (λ t. (vs : List Name) → with_frame vs state.old (spec.Run (places_in run.entry.setting) (effect_code effect.now (code_left run.entry)) run.entry.renames) ≡ emitted vs t (left_in vs state.new)) }
{
    match effect {
        Effect::Let { base, name, value } => let_value(alloc, state, run, base, name, value),
        Effect::Pick { base, name, set } => pick_member(alloc, state, run, base, name, set),
        Effect::Read {
            value,
            mapped,
            index,
        } => read_mapped(alloc, state, run, value, *mapped, index.as_ref()),
    }
}
