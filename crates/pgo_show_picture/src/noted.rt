// The marks of a lane.
ghost use Rattle.std.specs.Prelude.{◌≡◌, ◌∷◌, ◌++◌, [], None, map, option_map, IfOk};
ghost use Rattle.pgo_bundle.specs.View.{attempt_view, logged_entry_view};
ghost use Rattle.pgo_show_picture.specs.Picture as spec;

use crate::drawing::{push_label, push_link, push_mark};
use crate::layout::{Size, across, across_entry, down, has_labels};
use crate::marks::{is_again, label_behind, note_shape, stands_behind};
use pgo_bundle::log::{Attempt, LoggedEntry};
use pgo_lines::line::Lines;
use std::alloc::{AllocError, Global};

/// The label of an entry, where labels are drawn.
fn push_entry_label(
    lines: &mut Lines,
    alloc: Global,
    size: Size,
    label: &[u8],
    x: u64,
    y: u64,
) -> Result<(), AllocError>
    ensures { IfOk result (λ _. lines.new ≡ spec.with_label size label.now x y lines.old) }
{
    if has_labels(size) {
        return push_label(lines, alloc, label, x, y);
    }
    Ok(())
}

/// The entry behind so many, in a lane.
fn push_entry(
    lines: &mut Lines,
    alloc: Global,
    entries: &[LoggedEntry],
    size: Size,
    lane: u64,
    behind: u64,
) -> Result<(), AllocError>
    ensures { IfOk result (λ _. lines.new ≡ spec.with_entry (map logged_entry_view entries.now) size lane behind lines.old) }
{
    let x = across_entry(size, behind);
    let y = down(size, lane, behind);
    push_mark(lines, alloc, b"committed", x, y)?;
    push_entry_label(lines, alloc, size, label_behind(entries, behind), x, y)
}

/// An attempt that is no entry.
fn push_note(
    lines: &mut Lines,
    alloc: Global,
    size: Size,
    lane: u64,
    shape: &[u8],
    behind: u64,
) -> Result<(), AllocError>
    ensures { IfOk result (λ _. lines.new ≡ lines.old ++ spec.note_line size lane shape.now behind ∷ []) }
{
    let x = across(size, behind);
    let y = down(size, lane, behind);
    push_mark(lines, alloc, shape, x, y)
}

/// The line to the lane of another instance.
fn push_holder(
    lines: &mut Lines,
    alloc: Global,
    size: Size,
    lane: u64,
    holder: u64,
    behind: u64,
) -> Result<(), AllocError>
    ensures { IfOk result (λ _. lines.new ≡ lines.old ++ spec.holder_line size lane holder behind ∷ []) }
{
    let x = across(size, behind);
    let y = down(size, lane, behind);
    let other = down(size, holder, behind);
    push_link(lines, alloc, x, y, other)
}

/// An attempt that was refused by an instance.
fn push_held(
    lines: &mut Lines,
    alloc: Global,
    size: Size,
    lane: u64,
    holder: u64,
    behind: u64,
) -> Result<(), AllocError>
    ensures { IfOk result (λ _. lines.new ≡ spec.with_held size lane holder behind lines.old) }
{
    push_holder(lines, alloc, size, lane, holder, behind)?;
    push_note(lines, alloc, size, lane, b"held", behind)
}

/// An attempt in a lane, that stands behind so many entries.
fn push_attempt(
    lines: &mut Lines,
    alloc: Global,
    entries: &[LoggedEntry],
    size: Size,
    lane: u64,
    behind: u64,
    attempt: &Attempt,
) -> Result<(), AllocError>
    ensures { IfOk result (λ _. lines.new ≡ spec.with_attempt (map logged_entry_view entries.now) size lane behind (attempt_view attempt.now) lines.old) }
{
    match attempt {
        Attempt::Step { n } => {
            push_entry(
                lines,
                alloc,
                entries,
                size,
                lane,
                (*n as u64).saturating_sub(1),
            )
        }
        Attempt::Noted { kind, .. } => {
            push_note(lines, alloc, size, lane, note_shape(*kind), behind)
        }
        Attempt::Held { holder, .. } => {
            push_held(lines, alloc, size, lane, *holder as u64, behind)
        }
        Attempt::HeldJournal { holder } => {
            push_held(lines, alloc, size, lane, *holder as u64, behind)
        }
        Attempt::Down { .. } => push_note(lines, alloc, size, lane, b"failed", behind),
        Attempt::Full { .. } => push_note(lines, alloc, size, lane, b"full", behind),
    }
}

/// The same, but for one like the attempt before it.
fn push_new(
    lines: &mut Lines,
    alloc: Global,
    entries: &[LoggedEntry],
    size: Size,
    lane: u64,
    behind: u64,
    before: Option<&Attempt>,
    attempt: &Attempt,
) -> Result<(), AllocError>
    ensures { IfOk result (λ _. lines.new ≡ spec.with_new (map logged_entry_view entries.now) size lane behind (option_map (λ r. attempt_view r.now) before.entry) (attempt_view attempt.now) lines.old) }
{
    if is_again(before, attempt) {
        return Ok(());
    }
    push_attempt(lines, alloc, entries, size, lane, behind, attempt)
}

/// The attempts of a lane, in order.
#[tactic(auto, unfolding(crate::specs::Picture::with_attempts))]
pub fn push_attempts(
    lines: &mut Lines,
    alloc: Global,
    entries: &[LoggedEntry],
    size: Size,
    lane: u64,
    attempts: &[Attempt],
) -> Result<(), AllocError>
    ensures { IfOk result (λ _. lines.new ≡ spec.with_attempts (map logged_entry_view entries.now) size lane 0 None (map attempt_view attempts.now) lines.old) }
{
    let mut behind: u64 = 0;
    let mut before: Option<&Attempt> = None;
    for attempt in attempts {
        behind = stands_behind(behind, attempt);
        push_new(lines, alloc, entries, size, lane, behind, before, attempt)?;
        before = Some(attempt);
    }
    Ok(())
}
