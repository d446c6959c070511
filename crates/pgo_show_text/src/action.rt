// An action, line for line as the module has it.
ghost use Rattle.std.specs.Prelude.{◌≡◌, ◌∷◌, ◌++◌, [], true, codes, map, IfOk};
ghost use Rattle.pgo_model.specs.ExprText.{expr_text};
ghost use Rattle.pgo_model.specs.ModuleText as text;
ghost use Rattle.pgo_show_text.specs.Shown as spec;

use crate::texts::body_text;
use pgo_base::expr::Sub;
use pgo_lines::line::Lines;
use pgo_lines::line::Piece::Bytes;
use pgo_module_write::conjuncts::conjuncts;
use std::alloc::{AllocError, Global};

/// The line of an action of one item.
#[tactic(auto, using(crate::proofs::Heads::only_line))]
fn push_only(lines: &mut Lines, alloc: Global, label: &[u8], e: &Sub) -> Result<(), AllocError>
    ensures { IfOk result (λ _. lines.new ≡ lines.old ++ spec.indented (text.line (text.with_self label.now ++ codes " == " ++ expr_text true e.now)) ∷ []) }
{
    let body = body_text(alloc, e)?;
    lines.push(
        alloc,
        &[
            Bytes(b"    "),
            Bytes(label),
            Bytes(b"(self) == "),
            Bytes(body.as_bytes()),
        ],
    )
}

/// The line above the items of an action.
#[tactic(auto, using(crate::proofs::Heads::head_line))]
fn push_head(lines: &mut Lines, alloc: Global, label: &[u8]) -> Result<(), AllocError>
    ensures { IfOk result (λ _. lines.new ≡ lines.old ++ spec.indented (text.line (text.with_self label.now ++ codes " ==")) ∷ []) }
{
    lines.push(alloc, &[Bytes(b"    "), Bytes(label), Bytes(b"(self) ==")])
}

/// The line of an item.
fn push_item(lines: &mut Lines, alloc: Global, e: &Sub) -> Result<(), AllocError>
    ensures { IfOk result (λ _. lines.new ≡ lines.old ++ spec.indented (text.bullet e.now) ∷ []) }
{
    let body = body_text(alloc, e)?;
    lines.push(alloc, &[Bytes(b"      /\\ "), Bytes(body.as_bytes())])
}

/// The lines of items.
fn push_items(lines: &mut Lines, alloc: Global, items: &[&Sub]) -> Result<(), AllocError>
    ensures { IfOk result (λ _. lines.new ≡ lines.old ++ map spec.indented (map text.bullet (map (λ r. r.now) items.now))) }
{
    for item in items {
        push_item(lines, alloc, *item)?;
    }
    Ok(())
}

/// The lines of an action of these items.
fn push_body(
    lines: &mut Lines,
    alloc: Global,
    label: &[u8],
    items: &[&Sub],
) -> Result<(), AllocError>
    ensures { IfOk result (λ _. lines.new ≡ lines.old ++ map spec.indented (text.body_lines (text.with_self label.now) (map (λ r. r.now) items.now))) }
{
    match items {
        [] => Ok(()),
        [only] => push_only(lines, alloc, label, *only),
        [_, _, ..] => {
            push_head(lines, alloc, label)?;
            push_items(lines, alloc, items)
        }
    }
}

/// The lines of an action.
pub fn push_action(
    lines: &mut Lines,
    alloc: Global,
    label: &[u8],
    action: &Sub,
) -> Result<(), AllocError>
    ensures { IfOk result (λ _. lines.new ≡ spec.with_action label.now action.now lines.old) }
{
    let mut items = conjuncts(alloc, action)?;
    items.reverse();
    push_body(lines, alloc, label, items.as_slice())
}
