// What is still to be done, once more.
ghost use Rattle.std.specs.Prelude.{◌≡◌, ◌∷◌, reverse, option_map, IfOk};
ghost use Rattle.pgo_walk.specs.FrameView.{code_left, frame_view, frames_view, run_view, state_view};
ghost use Rattle.pgo_walk.specs.Frames as spec;
ghost use Rattle.pgo_walk.specs.SettingPlaces.{places_in};

use crate::frames::{Frame, Run, State, copy_name};
use crate::made::Made;
use crate::stack::Stack;
use pgo_base::expr::Sub;
use pgo_base::results::both;
use pgo_base::text::Text;
use pgo_rewrite::mapped::Mapped;
use std::alloc::{AllocError, Global};

fn copy_reading<'a, 'i>(
    alloc: Global,
    value: &Text,
    mapped: Mapped<'a>,
    index: Option<&Text>,
    rest: &Run<'a, 'i>,
    current: &Made,
) -> Result<Frame<'a, 'i>, AllocError>
    ensures { IfOk result (λ f. frame_view f ≡ spec.Reading value.now mapped.entry.global.now (option_map (λ i. i.now) index.entry) (places_in rest.now.setting) (code_left rest.now) rest.now.renames current.now) }
{
    let value = value.copy(alloc)?;
    let index = copy_name(alloc, index)?;
    let rest = rest.copy(alloc)?;
    let current = current.copy(alloc)?;
    Ok(Frame::Reading {
        value,
        mapped,
        index,
        rest,
        current,
    })
}

fn copy_writing<'a, 'i>(
    alloc: Global,
    mapped: Mapped<'a>,
    index: Option<&Text>,
    renames: &Made,
    current: &Made,
) -> Result<Frame<'a, 'i>, AllocError>
    ensures { IfOk result (λ f. frame_view f ≡ spec.Writing mapped.entry.global.now (option_map (λ i. i.now) index.entry) renames.now current.now) }
{
    let index = copy_name(alloc, index)?;
    let renames = renames.copy(alloc)?;
    let current = current.copy(alloc)?;
    Ok(Frame::Writing {
        mapped,
        index,
        renames,
        current,
    })
}

fn copy_put<'a, 'i>(
    alloc: Global,
    mapped: Mapped<'a>,
    index: Option<&Text>,
    renames: &Made,
    value: &Sub,
) -> Result<Frame<'a, 'i>, AllocError>
    ensures { IfOk result (λ f. frame_view f ≡ spec.Put mapped.entry.global.now (option_map (λ i. i.now) index.entry) renames.now value.now) }
{
    let index = copy_name(alloc, index)?;
    let renames = renames.copy(alloc)?;
    let value = value.copy(alloc)?;
    Ok(Frame::Put {
        mapped,
        index,
        renames,
        value,
    })
}

fn copy_run<'a, 'i>(alloc: Global, run: &Run<'a, 'i>) -> Result<Frame<'a, 'i>, AllocError>
    ensures { IfOk result (λ f. frame_view f ≡ run_view run.now) }
{
    Ok(Frame::Run(run.copy(alloc)?))
}

fn copy_frame<'a, 'i>(alloc: Global, frame: &Frame<'a, 'i>) -> Result<Frame<'a, 'i>, AllocError>
    ensures { IfOk result (λ f. frame_view f ≡ frame_view frame.now) }
{
    match frame {
        Frame::Run(run) => copy_run(alloc, run),
        Frame::Reading {
            value,
            mapped,
            index,
            rest,
            current,
        } => copy_reading(alloc, value, *mapped, index.as_ref(), rest, current),
        Frame::Writing {
            mapped,
            index,
            renames,
            current,
        } => copy_writing(alloc, *mapped, index.as_ref(), renames, current),
        Frame::Put {
            mapped,
            index,
            renames,
            value,
        } => copy_put(alloc, *mapped, index.as_ref(), renames, value),
    }
}

fn push_copy<'a, 'i>(
    alloc: Global,
    frames: &mut Stack<Frame<'a, 'i>>,
    frame: &Frame<'a, 'i>,
) -> Result<(), AllocError>
    ensures { IfOk result (λ _. frames_view frames.new ≡ frame_view frame.now ∷ frames_view frames.old) }
{
    frames.push(copy_frame(alloc, frame)?)
}

fn copy_frames<'a, 'i>(
    alloc: Global,
    frames: &[Frame<'a, 'i>],
) -> Result<Stack<Frame<'a, 'i>>, AllocError>
    ensures { IfOk result (λ c. frames_view c ≡ frames_view (reverse frames.now)) }
{
    let mut copies = Stack::new(alloc);
    for frame in frames {
        push_copy(alloc, &mut copies, frame)?;
    }
    Ok(copies)
}

impl<'a, 'i> State<'a, 'i> {
    /// The same once more.
    pub fn copy(&self, alloc: Global) -> Result<State<'a, 'i>, AllocError>
        ensures { IfOk result (λ s. state_view s ≡ state_view self.now) }
    {
        let copies = copy_frames(alloc, self.frames.as_slice());
        let (frames, current) = both(copies, self.current.copy(alloc))?;
        Ok(State {
            frames,
            current,
            bound: self.bound,
        })
    }
}
