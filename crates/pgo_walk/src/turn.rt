// One turn of the walk: what the next effect gives, and what is left behind it.
ghost use Rattle.std.specs.Prelude.{◌≡◌, IfOk};
ghost use Rattle.pgo_walk.specs.Emitted.{emitted, left_in, with_frame};
ghost use Rattle.pgo_walk.specs.FrameView.{frame_view, run_view};

use crate::blocks::{nowhere, put_turn};
use crate::effects::effect_turn;
use crate::event::Event;
use crate::frames::{Frame, Run, State};
use crate::last::last_turn;
use pgo_base::text::Text;
use pgo_effects::piece::Piece;
use std::alloc::{AllocError, Global};

/// A turn at a run of this code.
fn piece_turn<'a, 'i>(
    alloc: Global,
    variables: &[Text],
    state: &mut State<'a, 'i>,
    run: Run<'a, 'i>,
    piece: &Piece<'a>,
) -> Result<Event<'a, 'i>, AllocError>
    requires { piece.now ≡ run.piece.value }
    ensures { IfOk result (λ t. with_frame variables.now state.old (run_view run.entry) ≡ emitted variables.now t (left_in variables.now state.new)) }
{
    let mut run = run;
    let done = run.done;
    if done < piece.effects.len() {
        run.done = done + 1;
        return effect_turn(alloc, state, run, &piece.effects[done]);
    }
    last_turn(
        alloc,
        variables,
        state,
        run.setting,
        &run.renames,
        &piece.last,
    )
}

/// A turn at a run.
fn run_turn<'a, 'i>(
    alloc: Global,
    variables: &[Text],
    state: &mut State<'a, 'i>,
    run: Run<'a, 'i>,
) -> Result<Event<'a, 'i>, AllocError>
    ensures { IfOk result (λ t. with_frame variables.now state.old (run_view run.entry) ≡ emitted variables.now t (left_in variables.now state.new)) }
{
    let piece = run.piece.clone()?;
    piece_turn(alloc, variables, state, run, &piece)
}

/// A turn at a frame.
fn frame_turn<'a, 'i>(
    alloc: Global,
    variables: &[Text],
    state: &mut State<'a, 'i>,
    frame: Frame<'a, 'i>,
) -> Result<Event<'a, 'i>, AllocError>
    ensures { IfOk result (λ t. with_frame variables.now state.old (frame_view frame.entry) ≡ emitted variables.now t (left_in variables.now state.new)) }
{
    match frame {
        Frame::Run(run) => run_turn(alloc, variables, state, run),
        Frame::Put {
            mapped,
            index,
            renames,
            value,
        } => put_turn(alloc, state, mapped, index, renames, value),
        _ => Ok(nowhere(alloc)),
    }
}

/// What the next effect gives of the expansion. The state is then what is left behind it.
///
/// Err where there is no memory, or more than 2^64 - 1 names are bound; the state is then of no use.
pub fn turn<'a, 'i>(
    alloc: Global,
    variables: &[Text],
    state: &mut State<'a, 'i>,
) -> Result<Event<'a, 'i>, AllocError>
    ensures { IfOk result (λ t. left_in variables.now state.old ≡ emitted variables.now t (left_in variables.now state.new)) }
{
    match state.frames.pop() {
        None => Ok(nowhere(alloc)),
        Some(frame) => frame_turn(alloc, variables, state, frame),
    }
}
