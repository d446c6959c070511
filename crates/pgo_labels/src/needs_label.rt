// Rule 1: a statement of an archetype needs a label and has none.
ghost use Rattle.std.specs.Prelude.{◌≡◌, ◌||◌, ◌++◌, [], true, false, Some, is_some, map, IfOk};
ghost use Rattle.std.specs.List.{list_any};
ghost use Rattle.pgo_syntax.specs.Statement.{labeled};
ghost use Rattle.pgo_syntax.specs.StatementView.{statement};
ghost use Rattle.pgo_syntax.specs.Least.{sooner_of, least};
ghost use Rattle.pgo_labels.specs.Lent.{lent};
ghost use Rattle.pgo_labels.specs.NeedsLabel as spec;
ghost use Rattle.pgo_labels.specs.Parts.{see};

use crate::finding::{Finding, Rule, make_finding};
use crate::items::{Item, items_in, items_of_body};
use crate::names::body_labels;
use pgo_base::text::Text;
use pgo_syntax::archetype::Archetype;
use pgo_syntax::name::PlacedName;
use pgo_syntax::statement::{Block, Stmt};
use std::alloc::{AllocError, Global};

/// Whether a statement is a `goto`.
fn is_goto(s: &Stmt) -> bool
    ensures { result ≡ spec.is_goto (statement s.now) }
{
    match s {
        Stmt::Goto(..) => true,
        _ => false,
    }
}

/// Whether one of these statements has a label or is a `goto`.
fn any_jump(items: &[Item<'_>]) -> bool
    ensures { result ≡ list_any (λ i. is_some i.0 || spec.is_goto i.1) (map see items.now) }
{
    for item in items {
        if item.label().is_some() || is_goto(item.statement()) {
            return true;
        }
    }
    false
}

/// Whether a label or a `goto` stands within this statement.
fn holds_jump(alloc: Global, s: &Stmt) -> Result<bool, AllocError>
    ensures { IfOk result (λ b. b ≡ spec.holds_jump (statement s.now)) }
{
    let items = items_in(alloc, s)?;
    Ok(any_jump(items.as_slice()))
}

/// Whether what stands behind this statement, in a block, is reached by a jump alone.
fn jumps(alloc: Global, s: &Stmt) -> Result<bool, AllocError>
    ensures { IfOk result (λ b. b ≡ spec.jumps (statement s.now)) }
{
    match s {
        Stmt::Goto(..) => Ok(true),
        Stmt::If(..) => holds_jump(alloc, s),
        Stmt::IfElse(..) => holds_jump(alloc, s),
        Stmt::Either(..) => holds_jump(alloc, s),
        Stmt::With(_, _, body) => jumps(alloc, body.get()),
        Stmt::Block(_, block) => match block.as_slice().last() {
            None => Ok(false),
            Some(last) => jumps(alloc, &last.statement),
        },
        _ => Ok(false),
    }
}

/// Adds the statements of a block that stand behind one that jumps, and its first if `first`.
fn add_behind_jumps<'a>(
    items: &mut Vec<Item<'a>>,
    alloc: Global,
    first: bool,
    block: &'a Block,
) -> Result<(), AllocError>
    ensures { IfOk result (λ _. map see items.new.items ≡ map see items.old.items ++ spec.behind_jumps first (labeled block.now)) }
{
    let mut needs = first;
    let list = block.as_slice();
    for one in list {
        if needs {
            items.push(Item::Labeled(one))?;
        }
        needs = jumps(alloc, &one.statement)?;
    }
    Ok(())
}

/// Adds a statement if it is a `while`, and those of a block that stand behind one that jumps.
fn add_needing<'a>(
    items: &mut Vec<Item<'a>>,
    alloc: Global,
    item: Item<'a>,
) -> Result<(), AllocError>
    ensures { IfOk result (λ _. map see items.new.items ≡ map see items.old.items ++ (spec.loop_of (see item.entry) ++ spec.in_block (see item.entry).1)) }
{
    match item.statement() {
        Stmt::While(..) => {
            items.push(item)?;
            Ok(())
        }
        Stmt::Block(_, block) => add_behind_jumps(items, alloc, false, block),
        _ => Ok(()),
    }
}

/// The statements of a body that need a label.
fn needing<'a>(alloc: Global, body: &'a Block) -> Result<Vec<Item<'a>>, AllocError>
    ensures { IfOk result (λ v. map see v.items ≡ spec.needing body.entry.now) }
{
    let mut items = Vec::new(alloc);
    add_behind_jumps(&mut items, alloc, true, body)?;
    let all = items_of_body(alloc, body)?;
    let list = all.as_slice();
    for item in list {
        add_needing(&mut items, alloc, *item)?;
    }
    Ok(items)
}

/// Of two places the lesser.
fn sooner_place(first: Option<u32>, second: u32) -> Option<u32>
    ensures { result ≡ sooner_of (λ p. p) first (Some second) }
{
    match first {
        None => Some(second),
        Some(first) => {
            if second < first {
                Some(second)
            } else {
                Some(first)
            }
        }
    }
}

/// The least place of those that have no label.
fn least_unlabeled(items: &[Item<'_>]) -> Option<u32>
    ensures { result ≡ least (λ p. p) (spec.unlabeled_places (map see items.now)) }
{
    let mut found = None;
    for item in items {
        if item.label().is_none() {
            found = sooner_place(found, item.statement().place());
        }
    }
    found
}

/// The least place at which a label is missing.
fn missing(alloc: Global, name: &PlacedName, body: &Block) -> Result<Option<u32>, AllocError>
    ensures { IfOk result (λ p. p ≡ least (λ p. p) (spec.missing name.now body.now)) }
{
    if body.as_slice().is_empty() {
        return Ok(Some(name.place));
    }
    let items = needing(alloc, body)?;
    Ok(least_unlabeled(items.as_slice()))
}

/// The name of the last of these labels that stands before the place; empty where there is none.
fn last_before(alloc: Global, place: u32, labels: &[&PlacedName]) -> Result<Text, AllocError>
    ensures { IfOk result (λ t. t ≡ spec.last_before place [] (lent labels.now)) }
{
    let mut last: &[u8] = b"";
    for label in labels {
        if label.place < place {
            last = label.name.as_bytes();
        }
    }
    Text::from_slice(alloc, last)
}

/// A statement that needs a label and has none.
pub fn needs_label(alloc: Global, a: &Archetype) -> Result<Option<Finding>, AllocError>
    ensures { IfOk result (λ f. f ≡ least (λ f. f.place) (spec.needs_label a.now)) }
{
    match missing(alloc, &a.name, &a.body)? {
        None => Ok(None),
        Some(place) => {
            let labels = body_labels(alloc, &a.body)?;
            let after = last_before(alloc, place, labels.as_slice())?;
            let found = make_finding(alloc, Rule::NeedsLabel, place, &a.name.name, &after)?;
            Ok(Some(found))
        }
    }
}
