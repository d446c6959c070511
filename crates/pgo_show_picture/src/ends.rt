// What stands before all lanes, and behind them.
ghost use Rattle.std.specs.Prelude.{◌≡◌, ◌++◌, IfOk, map};
ghost use Rattle.pgo_model.specs.ModuleText.{line};
ghost use Rattle.pgo_show_picture.specs.Picture as spec;

use crate::drawing::{push_ground, push_head, push_key_head, push_rows, push_whole};
use crate::layout::{Size, down, has_labels, right_end};
use pgo_lines::line::Lines;
use std::alloc::{AllocError, Global};

/// The shapes where labels are drawn.
const LARGE_SHAPES: [&[u8]; 8] = [
    b"<defs>",
    b"<path id='committed' d='M-3 -9H3V9H-3Z'/>",
    b"<circle id='blocked' r='4' fill='white' stroke='black'/>",
    b"<path id='stopped' d='M-5 -5L5 5M-5 5L5 -5' stroke='black' stroke-width='2'/>",
    b"<circle id='held' r='3'/>",
    b"<path id='failed' d='M-5 -5L5 -5L0 5Z' fill='white' stroke='black'/>",
    b"<path id='full' d='M-4 -4H4V4H-4Z' fill='white' stroke='black'/>",
    b"</defs>",
];

/// Those where there are too many entries for labels.
const SMALL_SHAPES: [&[u8]; 8] = [
    b"<defs>",
    b"<path id='committed' d='M-1 -9H1V9H-1Z'/>",
    b"<circle id='blocked' r='2' fill='white' stroke='black'/>",
    b"<path id='stopped' d='M-4 -4L4 4M-4 4L4 -4' stroke='black' stroke-width='2'/>",
    b"<circle id='held' r='2'/>",
    b"<path id='failed' d='M-3 -3L3 -3L0 3Z' fill='white' stroke='black'/>",
    b"<path id='full' d='M-3 -3H3V3H-3Z' fill='white' stroke='black'/>",
    b"</defs>",
];

/// What the marks are, and the end of the picture.
const KEY_ROWS: [&[u8]; 8] = [
    b"<use href='#committed'/><text x='10' y='4'>committed, with its label</text>",
    b"<use href='#blocked' x='180'/><text x='190' y='4'>blocked</text>",
    b"<use href='#stopped' x='260'/><text x='270' y='4'>no value, or an assertion failed</text>",
    b"<use href='#failed' y='20'/><text x='10' y='24'>a pre-commit failed</text>",
    b"<use href='#full' x='180' y='20'/><text x='190' y='24'>journal full</text>",
    b"<use href='#held' x='280' y='20'/><text x='290' y='24'>held by the instance to which the line leads</text>",
    b"</g>",
    b"</svg>",
];

/// How wide the picture is.
fn width_of(size: Size) -> u64
    ensures { result ≡ spec.width_of size }
{
    (right_end(size) + 110).max(760)
}

/// The shapes where labels are drawn.
#[tactic(auto, unfolding(crate::specs::Picture::large_shapes))]
fn push_large(lines: &mut Lines, alloc: Global) -> Result<(), AllocError>
    ensures { IfOk result (λ _. lines.new ≡ lines.old ++ map line spec.large_shapes) }
{
    push_rows(lines, alloc, &LARGE_SHAPES)
}

/// Those where there are too many entries for labels.
#[tactic(auto, unfolding(crate::specs::Picture::small_shapes))]
fn push_small(lines: &mut Lines, alloc: Global) -> Result<(), AllocError>
    ensures { IfOk result (λ _. lines.new ≡ lines.old ++ map line spec.small_shapes) }
{
    push_rows(lines, alloc, &SMALL_SHAPES)
}

/// What the marks are, and the end of the picture.
#[tactic(auto, unfolding(crate::specs::Picture::key_rows))]
fn push_key_rows(lines: &mut Lines, alloc: Global) -> Result<(), AllocError>
    ensures { IfOk result (λ _. lines.new ≡ lines.old ++ map line spec.key_rows) }
{
    push_rows(lines, alloc, &KEY_ROWS)
}

/// The shapes.
fn push_shapes(lines: &mut Lines, alloc: Global, size: Size) -> Result<(), AllocError>
    ensures { IfOk result (λ _. lines.new ≡ lines.old ++ map line (spec.shapes size)) }
{
    if has_labels(size) {
        push_large(lines, alloc)
    } else {
        push_small(lines, alloc)
    }
}

/// The first lines, of a picture that is so high.
fn push_title(lines: &mut Lines, alloc: Global, size: Size, height: u64) -> Result<(), AllocError>
    ensures { IfOk result (λ _. lines.new ≡ spec.with_title size height lines.old) }
{
    let width = width_of(size);
    push_head(lines, alloc, width, height)?;
    push_ground(lines, alloc, width, height)?;
    push_whole(lines, alloc, size.lanes, size.entries)
}

/// What stands before all lanes.
pub fn push_front(lines: &mut Lines, alloc: Global, size: Size) -> Result<(), AllocError>
    ensures { IfOk result (λ _. lines.new ≡ spec.with_front size lines.old) }
{
    let height = down(size, size.lanes, size.entries) + 50;
    push_title(lines, alloc, size, height)?;
    push_shapes(lines, alloc, size)
}

/// What stands behind all lanes.
pub fn push_key(lines: &mut Lines, alloc: Global, size: Size) -> Result<(), AllocError>
    ensures { IfOk result (λ _. lines.new ≡ spec.with_key size lines.old) }
{
    push_key_head(lines, alloc, down(size, size.lanes, size.entries))?;
    push_key_rows(lines, alloc)
}
