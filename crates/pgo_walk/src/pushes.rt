// Code that is put before what is still to be done.
ghost use Rattle.std.specs.Prelude.{◌≡◌, ◌∷◌, IfOk};
ghost use Rattle.pgo_effects.specs.Pieces.{piece_code};
ghost use Rattle.pgo_effects.specs.SettingView.{setting_view};
ghost use Rattle.pgo_effects.specs.Todos.{code_of, codes_of};
ghost use Rattle.pgo_walk.specs.FrameView.{frames_view};
ghost use Rattle.pgo_walk.specs.Frames as spec;
ghost use Rattle.pgo_walk.specs.SettingPlaces.{places_in};

use crate::frames::{Frame, Run, whole_piece};
use crate::made::Made;
use crate::stack::Stack;
use pgo_effects::piece::Piece;
use pgo_effects::setting::Setting;
use pgo_effects::todo::Todo;
use std::alloc::{AllocError, Global};

/// Puts one level of code before what is there.
pub fn push_piece<'a, 'i>(
    alloc: Global,
    frames: &mut Stack<Frame<'a, 'i>>,
    setting: Setting<'a, 'i>,
    renames: &Made,
    piece: Piece<'a>,
) -> Result<(), AllocError>
    ensures { IfOk result (λ _. frames_view frames.new ≡ spec.Run (places_in setting.entry) (piece_code (setting_view setting.entry) piece.entry) renames.now ∷ frames_view frames.old) }
{
    let run = Run::new(alloc, setting, piece, renames)?;
    frames.push(Frame::Run(run))
}

/// Puts code before what is there.
pub fn push_todo<'a, 'i>(
    alloc: Global,
    frames: &mut Stack<Frame<'a, 'i>>,
    setting: Setting<'a, 'i>,
    renames: &Made,
    todo: Todo<'a>,
) -> Result<(), AllocError>
    ensures { IfOk result (λ _. frames_view frames.new ≡ spec.Run (places_in setting.entry) (code_of (setting_view setting.entry) todo.entry) renames.now ∷ frames_view frames.old) }
{
    push_piece(alloc, frames, setting, renames, whole_piece(alloc, todo))
}

/// Puts lent code before what is there.
pub fn push_code<'a, 'i>(
    alloc: Global,
    frames: &mut Stack<Frame<'a, 'i>>,
    setting: Setting<'a, 'i>,
    renames: &Made,
    todo: &Todo<'a>,
) -> Result<(), AllocError>
    ensures { IfOk result (λ _. frames_view frames.new ≡ spec.Run (places_in setting.entry) (code_of (setting_view setting.entry) todo.now) renames.now ∷ frames_view frames.old) }
{
    let todo = todo.copy(alloc)?;
    push_todo(alloc, frames, setting, renames, todo)
}

/// Puts pieces of code, one after the other, before what is there.
pub fn push_codes<'a, 'i>(
    alloc: Global,
    frames: &mut Stack<Frame<'a, 'i>>,
    setting: Setting<'a, 'i>,
    renames: &Made,
    todos: &[Todo<'a>],
) -> Result<(), AllocError>
    ensures { IfOk result (λ _. frames_view frames.new ≡ spec.runs (places_in setting.entry) renames.now (codes_of (setting_view setting.entry) todos.now) (frames_view frames.old)) }
{
    for i in 0..todos.len() {
        push_code(alloc, frames, setting, renames, &todos[todos.len() - 1 - i])?;
    }
    Ok(())
}
