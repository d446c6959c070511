// The lines of definitions.
ghost use Rattle.std.specs.Prelude.{◌≡◌, ◌++◌, ◌∷◌, codes, map, reverse, true, IfOk};
ghost use Rattle.pgo_model.specs.ExprText.{expr_text};
ghost use Rattle.pgo_model.specs.ModuleText as text;

use crate::conjuncts::conjuncts;
use crate::lines::push_line;
use pgo_base::expr::Sub;
use pgo_expr_write::errors::NoMemory;
use pgo_expr_write::write::write_body;
use std::alloc::Global;

/// Adds the line of a definition with this body.
fn push_one(bytes: &mut Vec<u8>, alloc: Global, head: &[u8], e: &Sub) -> Result<(), NoMemory>
    ensures { IfOk result (λ _. bytes.new.items ≡ bytes.old.items ++ text.line (head.now ++ codes " == " ++ expr_text true e.now)) }
{
    let body = write_body(alloc, e.get())?;
    push_line(bytes, &[head, b" == ", body.as_bytes()])?;
    Ok(())
}

/// Adds the line of an item.
fn push_bullet(bytes: &mut Vec<u8>, alloc: Global, e: &Sub) -> Result<(), NoMemory>
    ensures { IfOk result (λ _. bytes.new.items ≡ bytes.old.items ++ text.bullet e.now) }
{
    let body = write_body(alloc, e.get())?;
    push_line(bytes, &[b"  /\\ ", body.as_bytes()])?;
    Ok(())
}

/// Adds the lines of items, of which the last stands first.
#[tactic(auto, using(crate::proofs::Split::last_first))]
fn push_bullets(bytes: &mut Vec<u8>, alloc: Global, items: Vec<&Sub>) -> Result<(), NoMemory>
    ensures { IfOk result (λ _. bytes.new.items ≡ bytes.old.items ++ text.flatten (map text.bullet (map (λ r. r.now) (reverse items.entry.items)))) }
{
    let mut left = items;
    while let Some(e) = left.pop() {
        push_bullet(bytes, alloc, e)?;
    }
    Ok(())
}

/// Adds the head of a definition and the lines of its items: the first, and the others, of which the last stands first.
fn push_listed(
    bytes: &mut Vec<u8>,
    alloc: Global,
    head: &[u8],
    first: &Sub,
    others: Vec<&Sub>,
) -> Result<(), NoMemory>
    ensures { IfOk result (λ _. bytes.new.items ≡ bytes.old.items ++ text.flatten (text.line (head.now ++ codes " ==") ∷ map text.bullet (first.now ∷ map (λ r. r.now) (reverse others.entry.items)))) }
{
    push_line(bytes, &[head, b" =="])?;
    push_bullet(bytes, alloc, first)?;
    push_bullets(bytes, alloc, others)
}

/// Adds the lines of a definition with these items, of which the last stands first.
#[tactic(auto, using(crate::proofs::Split::last_first))]
fn push_body(
    bytes: &mut Vec<u8>,
    alloc: Global,
    head: &[u8],
    items: Vec<&Sub>,
) -> Result<(), NoMemory>
    ensures { IfOk result (λ _. bytes.new.items ≡ bytes.old.items ++ text.flatten (text.body_lines head.now (map (λ r. r.now) (reverse items.entry.items)))) }
{
    let mut left = items;
    let Some(first) = left.pop() else {
        return Ok(());
    };
    let count = left.len();
    if count == 0 {
        push_one(bytes, alloc, head, first)
    } else {
        push_listed(bytes, alloc, head, first, left)
    }
}

/// Adds the lines of a definition: `head == body` on one line, or where the body is a conjunction, the head and a line for each item
/// along its left side.
pub fn push_definition(
    bytes: &mut Vec<u8>,
    alloc: Global,
    head: &[u8],
    body: &Sub,
) -> Result<(), NoMemory>
    ensures { IfOk result (λ _. bytes.new.items ≡ bytes.old.items ++ text.flatten (text.definition_lines head.now body.now)) }
{
    let items = conjuncts(alloc, body)?;
    push_body(bytes, alloc, head, items)
}
