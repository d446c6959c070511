// The lines of what is drawn.
ghost use Rattle.std.specs.Prelude.{◌≡◌, ◌∷◌, ◌++◌, [], map, IfOk};
ghost use Rattle.pgo_model.specs.ModuleText.{line};
ghost use Rattle.pgo_show_picture.specs.Picture as spec;

use crate::marks::escaped;
use pgo_lines::line::Lines;
use pgo_lines::line::Piece::{Bytes, Number};
use std::alloc::{AllocError, Global};

/// A shape at a place.
pub fn push_mark(
    lines: &mut Lines,
    alloc: Global,
    shape: &[u8],
    x: u64,
    y: u64,
) -> Result<(), AllocError>
    ensures { IfOk result (λ _. lines.new ≡ lines.old ++ spec.mark_line shape.now x y ∷ []) }
{
    lines.push(
        alloc,
        &[
            Bytes(b"<use href='#"),
            Bytes(shape),
            Bytes(b"' x='"),
            Number(x),
            Bytes(b"' y='"),
            Number(y),
            Bytes(b"'/>"),
        ],
    )
}

/// The label of a mark.
pub fn push_label(
    lines: &mut Lines,
    alloc: Global,
    label: &[u8],
    x: u64,
    y: u64,
) -> Result<(), AllocError>
    ensures { IfOk result (λ _. lines.new ≡ lines.old ++ spec.label_line label.now x y ∷ []) }
{
    let text = escaped(alloc, label)?;
    lines.push(
        alloc,
        &[
            Bytes(b"<text font-size='9' transform='translate("),
            Number(x),
            Bytes(b" "),
            Number(y),
            Bytes(b") translate(0 -12) rotate(-25)'>"),
            Bytes(text.as_slice()),
            Bytes(b"</text>"),
        ],
    )
}

/// The line from one lane to another.
pub fn push_link(
    lines: &mut Lines,
    alloc: Global,
    x: u64,
    y: u64,
    other: u64,
) -> Result<(), AllocError>
    ensures { IfOk result (λ _. lines.new ≡ lines.old ++ spec.link_line x y other ∷ []) }
{
    lines.push(
        alloc,
        &[
            Bytes(b"<path d='M"),
            Number(x),
            Bytes(b" "),
            Number(y),
            Bytes(b"V"),
            Number(other),
            Bytes(b"' stroke='black' stroke-dasharray='3 3'/>"),
        ],
    )
}

/// A text behind the lanes.
pub fn push_ending(
    lines: &mut Lines,
    alloc: Global,
    x: u64,
    y: u64,
    text: &[u8],
) -> Result<(), AllocError>
    ensures { IfOk result (λ _. lines.new ≡ lines.old ++ spec.ending_at x y text.now ∷ []) }
{
    lines.push(
        alloc,
        &[
            Bytes(b"<text x='"),
            Number(x),
            Bytes(b"' y='"),
            Number(y),
            Bytes(b"' dx='8' dy='4'>"),
            Bytes(text),
            Bytes(b"</text>"),
        ],
    )
}

/// The name of a lane.
pub fn push_name(lines: &mut Lines, alloc: Global, lane: u64, y: u64) -> Result<(), AllocError>
    ensures { IfOk result (λ _. lines.new ≡ lines.old ++ spec.name_at lane y ∷ []) }
{
    lines.push(
        alloc,
        &[
            Bytes(b"<text x='6' y='"),
            Number(y),
            Bytes(b"' dy='4'>instance "),
            Number(lane),
            Bytes(b"</text>"),
        ],
    )
}

/// A lane.
pub fn push_lane(lines: &mut Lines, alloc: Global, y: u64, right: u64) -> Result<(), AllocError>
    ensures { IfOk result (λ _. lines.new ≡ lines.old ++ spec.lane_at y right ∷ []) }
{
    lines.push(
        alloc,
        &[
            Bytes(b"<path d='M100 "),
            Number(y),
            Bytes(b"H"),
            Number(right),
            Bytes(b"' stroke='gray'/>"),
        ],
    )
}

/// The first line, of a picture that is so wide and so high.
pub fn push_head(
    lines: &mut Lines,
    alloc: Global,
    width: u64,
    height: u64,
) -> Result<(), AllocError>
    ensures { IfOk result (λ _. lines.new ≡ lines.old ++ spec.head_line width height ∷ []) }
{
    lines.push(
        alloc,
        &[
            Bytes(b"<svg xmlns='http://www.w3.org/2000/svg' width='"),
            Number(width),
            Bytes(b"' height='"),
            Number(height),
            Bytes(b"' viewBox='0 0 "),
            Number(width),
            Bytes(b" "),
            Number(height),
            Bytes(b"' font-family='sans-serif' font-size='11'>"),
        ],
    )
}

/// The white ground.
pub fn push_ground(
    lines: &mut Lines,
    alloc: Global,
    width: u64,
    height: u64,
) -> Result<(), AllocError>
    ensures { IfOk result (λ _. lines.new ≡ lines.old ++ spec.ground_line width height ∷ []) }
{
    lines.push(
        alloc,
        &[
            Bytes(b"<rect width='"),
            Number(width),
            Bytes(b"' height='"),
            Number(height),
            Bytes(b"' fill='white'/>"),
        ],
    )
}

/// How many instances and entries there are.
pub fn push_whole(
    lines: &mut Lines,
    alloc: Global,
    lanes: u64,
    entries: u64,
) -> Result<(), AllocError>
    ensures { IfOk result (λ _. lines.new ≡ lines.old ++ spec.whole_line lanes entries ∷ []) }
{
    lines.push(
        alloc,
        &[
            Bytes(b"<text x='6' y='16'>instances "),
            Number(lanes),
            Bytes(b", entries "),
            Number(entries),
            Bytes(b"</text>"),
        ],
    )
}

/// The line above what the marks are.
pub fn push_key_head(lines: &mut Lines, alloc: Global, y: u64) -> Result<(), AllocError>
    ensures { IfOk result (λ _. lines.new ≡ lines.old ++ spec.key_line y ∷ []) }
{
    lines.push(
        alloc,
        &[
            Bytes(b"<g transform='translate(100 "),
            Number(y),
            Bytes(b")'>"),
        ],
    )
}

/// Lines that are always the same.
pub fn push_rows(lines: &mut Lines, alloc: Global, rows: &[&[u8]]) -> Result<(), AllocError>
    ensures { IfOk result (λ _. lines.new ≡ lines.old ++ map line (map (λ r. r.now) rows.now)) }
{
    for row in rows {
        push_row(lines, alloc, *row)?;
    }
    Ok(())
}

/// A line of these bytes.
#[tactic(auto, using(crate::proofs::Rows::whole_row))]
fn push_row(lines: &mut Lines, alloc: Global, row: &[u8]) -> Result<(), AllocError>
    ensures { IfOk result (λ _. lines.new ≡ lines.old ++ line row.now ∷ []) }
{
    lines.push(alloc, &[Bytes(row)])
}
