// The lines of a row of statements, and of a row's end.
ghost use Rattle.std.specs.Prelude.{◌≡◌, ◌+◌, ◌^◌, ◌<◌, ◌≤◌, ◌++◌, [], ◌∷◌, codes, length, IfOk};
ghost use Rattle.std.specs.List.{flat_map};
ghost use Rattle.pgo_base.specs.ExprView.{tree};
ghost use Rattle.pgo_pluscal.specs.Steps as spec;
ghost use Rattle.pgo_pluscal.specs.Text.{change_text, end_text, line, value_text};

use crate::part::Step;
use crate::words::Word::{Bytes, Name, Own};
use crate::words::push_line;
use pgo_base::expr::{Expr, Names};
use pgo_base::text::Text;
use pgo_expr_write::errors::NoMemory;
use std::alloc::Global;

/// Whether what follows a statement is its part.
fn opens(step: &Step) -> bool
    ensures { result ≡ spec.opens step.now }
{
    match step {
        Step::With(..) | Step::In(..) => true,
        _ => false,
    }
}

/// How many blocks stand around what follows a statement.
fn level_after(level: usize, step: &Step) -> usize
    requires { level + 1 < 2 ^ 64 }
    ensures { result ≡ spec.level_after level step.now }
{
    if opens(step) { level + 1 } else { level }
}

/// Adds the lines of a row of statements, and says how many blocks stand around what follows it. A block opens with a line, so they are
/// no more than the bytes before.
#[tactic(auto, using(crate::proofs::Room::step_more))]
pub fn push_steps(
    bytes: &mut Vec<u8>,
    alloc: Global,
    own: &Names,
    level: usize,
    steps: &[Step],
) -> Result<usize, NoMemory>
    requires { level ≤ length bytes.old.items }
    ensures text { IfOk result (λ n. (bytes.new.items ≡ bytes.old.items ++ spec.opened own.now level steps.now) × (n ≡ spec.level_within level steps.now)) }
    ensures room { IfOk result (λ n. n ≤ length bytes.new.items) }
{
    let mut at = level;
    for step in steps {
        push_step(bytes, alloc, own, at, step)?;
        at = level_after(at, step);
    }
    Ok(at)
}

/// Adds the line of a statement.
fn push_step(
    bytes: &mut Vec<u8>,
    alloc: Global,
    own: &Names,
    level: usize,
    step: &Step,
) -> Result<(), NoMemory>
    ensures { IfOk result (λ _. bytes.new.items ≡ bytes.old.items ++ spec.step_text own.now level step.now) }
{
    match step {
        Step::With(x, e) => push_with(bytes, alloc, own, level, x, b" = ", e),
        Step::In(x, e) => push_with(bytes, alloc, own, level, x, b" \\in ", e),
        Step::Skip => Ok(()),
        Step::Await(e) => push_simple(bytes, alloc, own, level, b"await ", e),
        Step::Assert(e) => push_simple(bytes, alloc, own, level, b"assert ", e),
        Step::Print(e) => push_simple(bytes, alloc, own, level, b"print ", e),
    }
}

/// Adds the line of a `with`; sign: what stands between the name and the expression.
fn push_with<'a>(
    bytes: &mut Vec<u8>,
    alloc: Global,
    own: &'a Names,
    level: usize,
    x: &'a Text,
    sign: &'a [u8],
    e: &'a Expr,
) -> Result<(), NoMemory>
    ensures { IfOk result (λ _. bytes.new.items ≡ bytes.old.items ++ line level (codes "with (" ∷ x.now ∷ sign.now ∷ value_text own.now (tree e.now) ∷ codes ") {" ∷ [])) }
{
    let words = [
        Bytes(b"with ("),
        Name(x),
        Bytes(sign),
        Own(own, e),
        Bytes(b") {"),
    ];
    push_line(bytes, alloc, level, &words)
}

/// Adds the line of a statement that is a word and an expression.
fn push_simple<'a>(
    bytes: &mut Vec<u8>,
    alloc: Global,
    own: &'a Names,
    level: usize,
    word: &'a [u8],
    e: &'a Expr,
) -> Result<(), NoMemory>
    ensures { IfOk result (λ _. bytes.new.items ≡ bytes.old.items ++ line level (word.now ∷ value_text own.now (tree e.now) ∷ codes ";" ∷ [])) }
{
    push_line(
        bytes,
        alloc,
        level,
        &[Bytes(word), Own(own, e), Bytes(b";")],
    )
}

/// Adds the lines that close so many blocks, the innermost first; level: how many blocks stand around them.
pub fn push_closings(
    bytes: &mut Vec<u8>,
    alloc: Global,
    level: usize,
    blocks: usize,
) -> Result<(), NoMemory>
    requires { level + blocks < 2 ^ 64 }
    ensures { IfOk result (λ _. bytes.new.items ≡ bytes.old.items ++ spec.closings level blocks) }
{
    let mut left = blocks;
    while left > 0 {
        left -= 1;
        push_line(bytes, alloc, level + left, &[Bytes(b"}")])?;
    }
    Ok(())
}

/// Adds the assignments of a label's end, and where it goes.
pub fn push_end(
    bytes: &mut Vec<u8>,
    alloc: Global,
    level: usize,
    changes: &[(Text, Text)],
    label: &Text,
) -> Result<(), NoMemory>
    ensures { IfOk result (λ _. bytes.new.items ≡ bytes.old.items ++ end_text level changes.now label.now) }
{
    push_changes(bytes, alloc, level, changes)?;
    push_line(
        bytes,
        alloc,
        level,
        &[Bytes(b"goto "), Name(label), Bytes(b";")],
    )
}

/// Adds assignments.
fn push_changes(
    bytes: &mut Vec<u8>,
    alloc: Global,
    level: usize,
    changes: &[(Text, Text)],
) -> Result<(), NoMemory>
    ensures { IfOk result (λ _. bytes.new.items ≡ bytes.old.items ++ flat_map (change_text level) changes.now) }
{
    for change in changes {
        push_line(
            bytes,
            alloc,
            level,
            &[
                Name(&change.0),
                Bytes(b" := "),
                Name(&change.1),
                Bytes(b";"),
            ],
        )?;
    }
    Ok(())
}
