// Whether what a state does first has more nodes than are left.
ghost use Rattle.std.specs.Prelude.{◌≡◌, ◌<◌, ◌∷◌, ℕ, List, true, IfOk};
ghost use Rattle.pgo_base.specs.Lookup.{Name};
ghost use Rattle.pgo_put_sizes.specs.Least.{least};
ghost use Rattle.pgo_sections.specs.Expand.{Current};
ghost use Rattle.pgo_sections.specs.Nodes.{nodes};
ghost use Rattle.pgo_walk.specs.Emitted.{left_in};
ghost use Rattle.pgo_walk.specs.FrameView.{code_left, frame_view};
ghost use Rattle.pgo_walk.specs.Frames as spec;

use pgo_effects::piece::Last;
use pgo_put_sizes::wide::is_wide;
use pgo_walk::frames::{Frame, Run, State};
use std::alloc::{AllocError, Global};

/// Whether the code that a run is at, if it has not been looked at yet, has more nodes than are left.
fn is_run_wide(alloc: Global, run: &Run<'_, '_>, left: u64) -> Result<bool, AllocError>
    ensures { IfOk result (λ b. b ≡ true → left < least (code_left run.now)) }
{
    if run.done < run.piece.effects.len() {
        return Ok(false);
    }
    match &run.piece.last {
        Last::Code(todo) => is_wide(alloc, run.setting, todo, left),
        _ => Ok(false),
    }
}

/// The same of the code of a frame.
fn is_frame_wide(alloc: Global, frame: &Frame<'_, '_>, left: u64) -> Result<bool, AllocError>
    ensures { IfOk result (λ b. b ≡ true → (vs : List Name) (fs : List spec.Frame) (cur : Current) (n : ℕ) → left < nodes (spec.goes vs (frame_view frame.now ∷ fs) cur n)) }
{
    match frame {
        Frame::Run(run) => is_run_wide(alloc, run, left),
        _ => Ok(false),
    }
}

/// Whether the code that comes first in a state, if it has not been looked at yet, has more nodes than are left. Its expressions are
/// not made.
///
/// Err as `is_wide` of `pgo_put_sizes`.
pub fn is_too_wide(alloc: Global, state: &State<'_, '_>, left: u64) -> Result<bool, AllocError>
    ensures { IfOk result (λ b. b ≡ true → (vs : List Name) → left < nodes (left_in vs state.now)) }
{
    match state.frames.as_slice().split_last() {
        None => Ok(false),
        Some((frame, _)) => is_frame_wide(alloc, frame, left),
    }
}
