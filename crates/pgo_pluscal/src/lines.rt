// The lines of a tree.
ghost use Rattle.std.specs.Prelude.{◌≡◌, ◌<◌, ◌≤◌, ◌++◌, length, IfOk};
ghost use Rattle.pgo_base.specs.ExprView.{tree};
ghost use Rattle.pgo_sections.specs.Expansion.{If};
ghost use Rattle.pgo_pluscal.specs.PartView.{expansions, ending_of};
ghost use Rattle.pgo_pluscal.specs.Text.{tree_text, arms_text, more_arms_text};

use crate::part::{Ending, Part};
use crate::steps::{push_closings, push_end, push_steps};
use crate::words::Word::{Bytes, Own};
use crate::words::push_line;
use pgo_base::expr::{Expr, Names};
use pgo_expr_write::errors::NoMemory;
use std::alloc::Global;

/// Adds the lines of a part, in so many blocks; own: the variables of the process. Each block around has opened with a line, so the blocks
/// are no more than the bytes before.
#[cycle(lines)]
pub fn push_part(
    bytes: &mut Vec<u8>,
    alloc: Global,
    own: &Names,
    level: usize,
    part: &Part,
) -> Result<(), NoMemory>
    requires { level ≤ length bytes.old.items }
    ensures { IfOk result (λ _. bytes.new.items ≡ bytes.old.items ++ tree_text own.now level part.now) }
{
    let opened = part.open();
    let within = push_steps(bytes, alloc, own, level, opened.steps)?;
    push_ending(bytes, alloc, own, within, opened.ending)?;
    push_closings(bytes, alloc, level, within.saturating_sub(level))
}

/// Adds the lines of how a part ends.
#[cycle(lines)]
fn push_ending(
    bytes: &mut Vec<u8>,
    alloc: Global,
    own: &Names,
    level: usize,
    ending: &Ending,
) -> Result<(), NoMemory>
    requires { level ≤ length bytes.old.items }
    ensures { IfOk result (λ _. bytes.new.items ≡ bytes.old.items ++ tree_text own.now level (ending_of ending.now)) }
{
    match ending {
        Ending::If(e, a, b) => push_if(bytes, alloc, own, level, e, a, b),
        Ending::Either(arms) => {
            push_line(bytes, alloc, level, &[Bytes(b"either {")])?;
            push_arms(bytes, alloc, own, level, arms.as_slice())?;
            push_line(bytes, alloc, level, &[Bytes(b"}")])
        }
        Ending::End(changes, label) => push_end(bytes, alloc, level, changes.as_slice(), label),
    }
}

/// Adds the lines of an `if`.
#[cycle(lines)]
fn push_if<'a>(
    bytes: &mut Vec<u8>,
    alloc: Global,
    own: &'a Names,
    level: usize,
    e: &'a Expr,
    a: &Part,
    b: &Part,
) -> Result<(), NoMemory>
    requires { level ≤ length bytes.old.items }
    ensures { IfOk result (λ _. bytes.new.items ≡ bytes.old.items ++ tree_text own.now level (If (tree e.now) a.now b.now)) }
{
    push_line(
        bytes,
        alloc,
        level,
        &[Bytes(b"if ("), Own(own, e), Bytes(b") {")],
    )?;
    let within = level + 1;
    push_part(bytes, alloc, own, within, a)?;
    push_line(bytes, alloc, level, &[Bytes(b"} else {")])?;
    push_part(bytes, alloc, own, within, b)?;
    push_line(bytes, alloc, level, &[Bytes(b"}")])
}

/// Adds the lines of the arms of an `either`.
#[cycle(lines)]
fn push_arms(
    bytes: &mut Vec<u8>,
    alloc: Global,
    own: &Names,
    level: usize,
    arms: &[Part],
) -> Result<(), NoMemory>
    requires { level < length bytes.old.items }
    ensures { IfOk result (λ _. bytes.new.items ≡ bytes.old.items ++ arms_text own.now level (expansions arms.now)) }
{
    match arms.split_first() {
        Some((first, rest)) => {
            push_part(bytes, alloc, own, level + 1, first)?;
            push_more_arms(bytes, alloc, own, level, rest)
        }
        None => Ok(()),
    }
}

/// Adds the lines of the arms behind the first.
#[cycle(lines)]
fn push_more_arms(
    bytes: &mut Vec<u8>,
    alloc: Global,
    own: &Names,
    level: usize,
    arms: &[Part],
) -> Result<(), NoMemory>
    requires { level < length bytes.old.items }
    ensures { IfOk result (λ _. bytes.new.items ≡ bytes.old.items ++ more_arms_text own.now level (expansions arms.now)) }
{
    let within = level + 1;
    for arm in arms {
        push_line(bytes, alloc, level, &[Bytes(b"} or {")])?;
        push_part(bytes, alloc, own, within, arm)?;
    }
    Ok(())
}
