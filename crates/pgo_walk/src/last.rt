// Turns at what comes last.
ghost use Rattle.std.specs.Prelude.{◌≡◌, ◌∷◌, List, option_map, IfOk};
ghost use Rattle.pgo_base.specs.ExprView.{tree};
ghost use Rattle.pgo_base.specs.Lookup.{Name, find};
ghost use Rattle.pgo_effects.specs.Pieces.{all_arms, last_code};
ghost use Rattle.pgo_effects.specs.PlaceView.{place_view};
ghost use Rattle.pgo_effects.specs.SettingView.{setting_view};
ghost use Rattle.pgo_effects.specs.Todos.{change_code, code_of, codes_of};
ghost use Rattle.pgo_rewrite.specs.Views.{mapped_view};
ghost use Rattle.pgo_sections.specs.Code.{Assert, Await, Become, Either, If, Print, Seq, Set, Write, Yield, content_places, in_turn, variable_of};
ghost use Rattle.pgo_sections.specs.Expand.{becoming, content_now, value_handed};
ghost use Rattle.pgo_sections.specs.Expansion.{Expansion};
ghost use Rattle.pgo_walk.specs.Emitted.{emitted, left_in, with_frame};
ghost use Rattle.pgo_walk.specs.FrameView.{frames_view, state_view};
ghost use Rattle.pgo_walk.specs.Frames as spec;
ghost use Rattle.pgo_walk.specs.SettingPlaces.{places_in};

use crate::binds::{enter, handed, rename};
use crate::blocks::{bind_current, end_with, jump};
use crate::effects::content_before;
use crate::event::{Event, Move};
use crate::frames::{Frame, State, copy_name};
use crate::made::{Made, made_for};
use crate::naming::expr_now;
use crate::pushes::{push_code, push_codes, push_piece, push_todo};
use crate::stack::Stack;
use pgo_base::expr::Expr;
use pgo_base::results::both;
use pgo_base::text::Text;
use pgo_effects::change::Change;
use pgo_effects::piece::Last;
use pgo_effects::place::Place;
use pgo_effects::setting::Setting;
use pgo_effects::todo::{Todo, write_block};
use pgo_effects::unfold::unfold;
use pgo_rewrite::mapped::Mapped;
use std::alloc::{AllocError, Global};

/// The variable of a place.
fn variable(p: &Place) -> &Text
    ensures { result.now ≡ variable_of (place_view p.now) }
{
    match p {
        Place::Whole(x) => x,
        Place::Own(x) => x,
    }
}

/// The place becomes what w stands for.
fn become_named(
    alloc: Global,
    current: &mut Made,
    renames: &Made,
    p: &Place,
    w: &Text,
) -> Result<(), AllocError>
    ensures { IfOk result (λ _. current.new ≡ becoming (place_view p.now) (find w.now renames.now) current.old) }
{
    match made_for(w, renames) {
        None => Ok(()),
        Some(made) => rename(alloc, current, variable(p), made),
    }
}

/// A turn at a place that becomes what w stands for.
fn become_turn<'a, 'i>(
    alloc: Global,
    state: &mut State<'a, 'i>,
    setting: Setting<'a, 'i>,
    renames: &Made,
    p: &Place,
    w: &Text,
) -> Result<Event<'a, 'i>, AllocError>
    ensures { IfOk result (λ t. (vs : List Name) → with_frame vs state.old (spec.Run (places_in setting.entry) (Become (place_view p.now) w.now) renames.now) ≡ emitted vs t (left_in vs state.new)) }
{
    let _ = setting;
    become_named(alloc, &mut state.current, renames, p, w)?;
    Ok(Event::Quiet)
}

/// A turn at a place that becomes the value of an expression.
fn set_turn<'a, 'i>(
    alloc: Global,
    state: &mut State<'a, 'i>,
    setting: Setting<'a, 'i>,
    renames: &Made,
    base: &Text,
    p: &Place,
    e: &Expr,
) -> Result<Event<'a, 'i>, AllocError>
    ensures { IfOk result (λ t. (vs : List Name) → with_frame vs state.old (spec.Run (places_in setting.entry) (Set base.now (place_view p.now) (tree e.now)) renames.now) ≡ emitted vs t (left_in vs state.new)) }
{
    let value = expr_now(alloc, setting, renames, &state.current, e);
    let made = bind_current(alloc, state, base.as_bytes(), variable(p));
    let (made, value) = both(made, value)?;
    Ok(Event::Step(Move::With(made, value)))
}

/// Puts the block that writes a mapped parameter before what is there.
fn push_write<'a, 'i>(
    alloc: Global,
    frames: &mut Stack<Frame<'a, 'i>>,
    renames: &Made,
    mapped: Mapped<'a>,
    w: &Text,
) -> Result<(), AllocError>
    ensures { IfOk result (λ _. frames_view frames.new ≡ spec.Run content_places (mapped_view mapped.entry).writes (value_handed (find w.now renames.now)) ∷ frames_view frames.old) }
{
    let names = handed(alloc, made_for(w, renames))?;
    let block = write_block(alloc, mapped)?;
    push_todo(alloc, frames, Setting::Block, &names, block)
}

/// What is left waits for what is written.
fn wait_for_write<'a, 'i>(
    alloc: Global,
    state: &mut State<'a, 'i>,
    renames: &Made,
    mapped: Mapped<'a>,
    index: Option<&Text>,
    old: &Text,
) -> Result<(), AllocError>
    ensures { IfOk result (λ _. state_view state.new ≡ record { frames = spec.Writing mapped.entry.global.now (option_map (λ i. i.now) index.entry) renames.now state.old.current ∷ frames_view state.old.frames; current = content_now old.now; bound = state.old.bound }) }
{
    let names = both(renames.copy(alloc), copy_name(alloc, index));
    let ((renames, index), current) = both(names, enter(alloc, &mut state.current, old))?;
    state.frames.push(Frame::Writing {
        mapped,
        index,
        renames,
        current,
    })
}

/// What is left waits for what is written, behind the block that writes.
fn begin_write<'a, 'i>(
    alloc: Global,
    state: &mut State<'a, 'i>,
    renames: &Made,
    mapped: Mapped<'a>,
    index: Option<&Text>,
    w: &Text,
    old: &Text,
) -> Result<(), AllocError>
    ensures { IfOk result (λ _. state_view state.new ≡ record { frames = spec.Run content_places (mapped_view mapped.entry).writes (value_handed (find w.now renames.now)) ∷ spec.Writing mapped.entry.global.now (option_map (λ i. i.now) index.entry) renames.now state.old.current ∷ frames_view state.old.frames; current = content_now old.now; bound = state.old.bound }) }
{
    wait_for_write(alloc, state, renames, mapped, index, old)?;
    push_write(alloc, &mut state.frames, renames, mapped, w)
}

/// A turn at a write of a mapped parameter.
fn write_turn<'a, 'i>(
    alloc: Global,
    state: &mut State<'a, 'i>,
    setting: Setting<'a, 'i>,
    renames: &Made,
    mapped: Mapped<'a>,
    index: Option<&Text>,
    w: &Text,
) -> Result<Event<'a, 'i>, AllocError>
    ensures { IfOk result (λ t. (vs : List Name) → with_frame vs state.old (spec.Run (places_in setting.entry) (Write mapped.entry.global.now (option_map (λ i. i.now) index.entry) w.now (mapped_view mapped.entry).writes) renames.now) ≡ emitted vs t (left_in vs state.new)) }
{
    let _ = setting;
    let (old, before) = content_before(
        alloc,
        &mut state.bound,
        renames,
        &state.current,
        mapped.global,
        index,
    )?;
    begin_write(alloc, state, renames, mapped, index, w, &old)?;
    Ok(Event::Step(Move::With(old, before)))
}

/// A turn at what an assignment does.
fn change_turn<'a, 'i>(
    alloc: Global,
    state: &mut State<'a, 'i>,
    setting: Setting<'a, 'i>,
    renames: &Made,
    change: &Change<'a>,
) -> Result<Event<'a, 'i>, AllocError>
    ensures { IfOk result (λ t. (vs : List Name) → with_frame vs state.old (spec.Run (places_in setting.entry) (change_code change.now) renames.now) ≡ emitted vs t (left_in vs state.new)) }
{
    match change {
        Change::Nothing => Ok(Event::Quiet),
        Change::Become(p, w) => become_turn(alloc, state, setting, renames, p, w),
        Change::Set(base, p, e) => set_turn(alloc, state, setting, renames, base, p, e),
        Change::Write(mapped, index, w) => write_turn(
            alloc,
            state,
            setting,
            renames,
            *mapped,
            index.as_ref(),
            w,
        ),
    }
}

/// The state with this code before what is still to be done.
fn branch<'a, 'i>(
    alloc: Global,
    state: &State<'a, 'i>,
    setting: Setting<'a, 'i>,
    renames: &Made,
    todo: &Todo<'a>,
) -> Result<State<'a, 'i>, AllocError>
    ensures { IfOk result (λ s. (vs : List Name) → left_in vs s ≡ with_frame vs state.now (spec.Run (places_in setting.entry) (code_of (setting_view setting.entry) todo.now) renames.now)) }
{
    let mut other = state.copy(alloc)?;
    push_code(alloc, &mut other.frames, setting, renames, todo)?;
    Ok(other)
}

/// A turn at a test.
fn if_turn<'a, 'i>(
    alloc: Global,
    state: &mut State<'a, 'i>,
    setting: Setting<'a, 'i>,
    renames: &Made,
    e: &Expr,
    a: &Todo<'a>,
    b: &Todo<'a>,
) -> Result<Event<'a, 'i>, AllocError>
    ensures { IfOk result (λ t. (vs : List Name) → with_frame vs state.old (spec.Run (places_in setting.entry) (If (tree e.now) (code_of (setting_view setting.entry) a.now) (code_of (setting_view setting.entry) b.now)) renames.now) ≡ emitted vs t (left_in vs state.new)) }
{
    let test = expr_now(alloc, setting, renames, &state.current, e);
    let other = branch(alloc, state, setting, renames, b);
    let pushed = push_code(alloc, &mut state.frames, setting, renames, a);
    let ((test, other), _) = both(both(test, other), pushed)?;
    Ok(Event::If(test, other))
}

/// A turn at a choice.
fn either_turn<'a, 'i>(
    alloc: Global,
    state: &State<'a, 'i>,
    setting: Setting<'a, 'i>,
    renames: &Made,
    todos: &[Todo<'a>],
) -> Result<Event<'a, 'i>, AllocError>
    ensures { IfOk result (λ t. (vs : List Name) (x : Expansion) → with_frame vs state.now (spec.Run (places_in setting.entry) (Either (all_arms (codes_of (setting_view setting.entry) todos.now))) renames.now) ≡ emitted vs t x) }
{
    let mut arms = Vec::new(alloc);
    for todo in todos {
        arms.push(branch(alloc, state, setting, renames, todo)?)?;
    }
    Ok(Event::Either(arms))
}

/// A turn at code that has not been looked at.
fn unfold_turn<'a, 'i>(
    alloc: Global,
    state: &mut State<'a, 'i>,
    setting: Setting<'a, 'i>,
    renames: &Made,
    todo: &Todo<'a>,
) -> Result<Event<'a, 'i>, AllocError>
    ensures { IfOk result (λ t. (vs : List Name) → with_frame vs state.old (spec.Run (places_in setting.entry) (code_of (setting_view setting.entry) todo.now) renames.now) ≡ emitted vs t (left_in vs state.new)) }
{
    let piece = unfold(alloc, setting, todo)?;
    push_piece(alloc, &mut state.frames, setting, renames, piece)?;
    Ok(Event::Quiet)
}

/// A turn at `await`.
fn await_turn<'a, 'i>(
    alloc: Global,
    state: &mut State<'a, 'i>,
    setting: Setting<'a, 'i>,
    renames: &Made,
    e: &Expr,
) -> Result<Event<'a, 'i>, AllocError>
    ensures { IfOk result (λ t. (vs : List Name) → with_frame vs state.old (spec.Run (places_in setting.entry) (Await (tree e.now)) renames.now) ≡ emitted vs t (left_in vs state.new)) }
{
    let e = expr_now(alloc, setting, renames, &state.current, e)?;
    Ok(Event::Step(Move::Await(e)))
}

/// A turn at `assert`.
fn assert_turn<'a, 'i>(
    alloc: Global,
    state: &mut State<'a, 'i>,
    setting: Setting<'a, 'i>,
    renames: &Made,
    e: &Expr,
) -> Result<Event<'a, 'i>, AllocError>
    ensures { IfOk result (λ t. (vs : List Name) → with_frame vs state.old (spec.Run (places_in setting.entry) (Assert (tree e.now)) renames.now) ≡ emitted vs t (left_in vs state.new)) }
{
    let e = expr_now(alloc, setting, renames, &state.current, e)?;
    Ok(Event::Step(Move::Assert(e)))
}

/// A turn at `print`.
fn print_turn<'a, 'i>(
    alloc: Global,
    state: &mut State<'a, 'i>,
    setting: Setting<'a, 'i>,
    renames: &Made,
    e: &Expr,
) -> Result<Event<'a, 'i>, AllocError>
    ensures { IfOk result (λ t. (vs : List Name) → with_frame vs state.old (spec.Run (places_in setting.entry) (Print (tree e.now)) renames.now) ≡ emitted vs t (left_in vs state.new)) }
{
    let e = expr_now(alloc, setting, renames, &state.current, e)?;
    Ok(Event::Step(Move::Print(e)))
}

/// A turn at `yield`.
fn yield_turn<'a, 'i>(
    alloc: Global,
    state: &mut State<'a, 'i>,
    setting: Setting<'a, 'i>,
    renames: &Made,
    e: &Expr,
) -> Result<Event<'a, 'i>, AllocError>
    ensures { IfOk result (λ t. (vs : List Name) → with_frame vs state.old (spec.Run (places_in setting.entry) (Yield (tree e.now)) renames.now) ≡ emitted vs t (left_in vs state.new)) }
{
    let e = expr_now(alloc, setting, renames, &state.current, e)?;
    end_with(alloc, state, e)
}

/// A turn at one piece of code behind another.
fn then_turn<'a, 'i>(
    alloc: Global,
    state: &mut State<'a, 'i>,
    setting: Setting<'a, 'i>,
    renames: &Made,
    a: &Todo<'a>,
    b: &Todo<'a>,
) -> Result<Event<'a, 'i>, AllocError>
    ensures { IfOk result (λ t. (vs : List Name) → with_frame vs state.old (spec.Run (places_in setting.entry) (Seq (code_of (setting_view setting.entry) a.now) (code_of (setting_view setting.entry) b.now)) renames.now) ≡ emitted vs t (left_in vs state.new)) }
{
    push_code(alloc, &mut state.frames, setting, renames, b)?;
    push_code(alloc, &mut state.frames, setting, renames, a)?;
    Ok(Event::Quiet)
}

/// A turn at pieces of code in a row.
fn row_turn<'a, 'i>(
    alloc: Global,
    state: &mut State<'a, 'i>,
    setting: Setting<'a, 'i>,
    renames: &Made,
    todos: &[Todo<'a>],
) -> Result<Event<'a, 'i>, AllocError>
    ensures { IfOk result (λ t. (vs : List Name) → with_frame vs state.old (spec.Run (places_in setting.entry) (in_turn (codes_of (setting_view setting.entry) todos.now)) renames.now) ≡ emitted vs t (left_in vs state.new)) }
{
    push_codes(alloc, &mut state.frames, setting, renames, todos)?;
    Ok(Event::Quiet)
}

/// A turn at what comes last: code, and the variables in their order.
pub fn last_turn<'a, 'i>(
    alloc: Global,
    variables: &[Text],
    state: &mut State<'a, 'i>,
    setting: Setting<'a, 'i>,
    renames: &Made,
    last: &Last<'a>,
) -> Result<Event<'a, 'i>, AllocError>
    ensures { IfOk result (λ t. with_frame variables.now state.old (spec.Run (places_in setting.entry) (last_code (setting_view setting.entry) last.now) renames.now) ≡ emitted variables.now t (left_in variables.now state.new)) }
{
    match last {
        Last::Empty => Ok(Event::Quiet),
        Last::Skip => Ok(Event::Step(Move::Skip)),
        Last::Change(change) => change_turn(alloc, state, setting, renames, change),
        Last::Await(e) => await_turn(alloc, state, setting, renames, e),
        Last::Assert(e) => assert_turn(alloc, state, setting, renames, e),
        Last::Print(e) => print_turn(alloc, state, setting, renames, e),
        Last::Yield(e) => yield_turn(alloc, state, setting, renames, e),
        Last::Goto(label) => jump(alloc, variables, state, label),
        Last::If(e, a, b) => if_turn(alloc, state, setting, renames, e, a, b),
        Last::Either(todos) => either_turn(alloc, state, setting, renames, todos.as_slice()),
        Last::Then(a, b) => then_turn(alloc, state, setting, renames, a, b),
        Last::Row(todos) => row_turn(alloc, state, setting, renames, todos.as_slice()),
        Last::Code(todo) => unfold_turn(alloc, state, setting, renames, todo),
    }
}
