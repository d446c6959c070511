// The statements that stand in a statement, as a list of what is lent.
ghost use Rattle.std.specs.Prelude.{◌≡◌, [], ◌∷◌, ◌++◌, None, map, IfOk, option_copied};
ghost use Rattle.pgo_syntax.specs.Statement.{labeled, statements, guarded};
ghost use Rattle.pgo_syntax.specs.StatementView.{statement};
ghost use Rattle.pgo_labels.specs.Inside.{inside, with_inside};
ghost use Rattle.pgo_labels.specs.Parts as spec;
ghost use Rattle.pgo_labels.specs.Parts.{see};

use pgo_syntax::name::PlacedName;
use pgo_syntax::statement::{Alternatives, Block, Branches, Labeled, Nested, Stmt};
use std::alloc::{AllocError, Global};

/// A statement of a block, with its label if it has one, or a statement that stands alone.
#[derive(Clone, Copy)]
pub enum Item<'a> {
    Labeled(&'a Labeled),
    Alone(&'a Stmt),
}

impl<'a> Item<'a> {
    /// Its label.
    pub fn label(self) -> Option<&'a PlacedName>
        ensures { option_copied result ≡ (see self.entry).0 }
    {
        match self {
            Item::Labeled(l) => l.label.as_ref(),
            Item::Alone(_) => None,
        }
    }

    /// The statement.
    pub fn statement(self) -> &'a Stmt
        ensures { statement result.now ≡ (see self.entry).1 }
    {
        match self {
            Item::Labeled(l) => &l.statement,
            Item::Alone(s) => s,
        }
    }
}

/// The statements of a block.
pub fn block_items<'a>(alloc: Global, block: &'a Block) -> Result<Vec<Item<'a>>, AllocError>
    ensures { IfOk result (λ v. map see v.items ≡ spec.items (labeled block.entry.now)) }
{
    let list = block.as_slice();
    let mut items = Vec::with_capacity(alloc, list.len())?;
    for one in list {
        items.push(Item::Labeled(one))?;
    }
    Ok(items)
}

/// The statements of an `either`.
fn alternative_items<'a>(
    alloc: Global,
    alternatives: &'a Alternatives,
) -> Result<Vec<Item<'a>>, AllocError>
    ensures { IfOk result (λ v. map see v.items ≡ spec.alternative_items (statements alternatives.entry.now)) }
{
    let list = alternatives.as_slice();
    let mut items = Vec::with_capacity(alloc, list.len())?;
    for one in list {
        items.push(Item::Alone(one))?;
    }
    Ok(items)
}

/// The statements of the branches of an `if`.
fn branch_items<'a>(alloc: Global, branches: &'a Branches) -> Result<Vec<Item<'a>>, AllocError>
    ensures { IfOk result (λ v. map see v.items ≡ spec.branch_items (guarded branches.entry.now)) }
{
    let list = branches.as_slice();
    let mut items = Vec::with_capacity(alloc, list.len())?;
    for one in list {
        items.push(Item::Alone(&one.statement))?;
    }
    Ok(items)
}

/// One statement.
fn one_item<'a>(alloc: Global, body: &'a Nested) -> Result<Vec<Item<'a>>, AllocError>
    ensures { IfOk result (λ v. map see v.items ≡ (None, body.entry.now) ∷ []) }
{
    let mut items = Vec::new(alloc);
    items.push(Item::Alone(body.get()))?;
    Ok(items)
}

/// The statements that stand directly in this one.
pub fn parts_of<'a>(alloc: Global, s: &'a Stmt) -> Result<Vec<Item<'a>>, AllocError>
    ensures { IfOk result (λ v. map see v.items ≡ spec.parts (statement s.entry.now)) }
{
    match s {
        Stmt::If(_, branches) => branch_items(alloc, branches),
        Stmt::IfElse(_, branches, other) => {
            let mut items = branch_items(alloc, branches)?;
            items.push(Item::Alone(other.get()))?;
            Ok(items)
        }
        Stmt::While(_, _, body) => one_item(alloc, body),
        Stmt::With(_, _, body) => one_item(alloc, body),
        Stmt::Either(_, alternatives) => alternative_items(alloc, alternatives),
        Stmt::Block(_, block) => block_items(alloc, block),
        _ => Ok(Vec::new(alloc)),
    }
}

/// Adds the statements within this one, at any depth.
fn gather<'a>(items: &mut Vec<Item<'a>>, alloc: Global, s: &'a Stmt) -> Result<(), AllocError>
    ensures { IfOk result (λ _. map see items.new.items ≡ map see items.old.items ++ inside (statement s.now)) }
{
    let parts = parts_of(alloc, s)?;
    let list = parts.as_slice();
    for part in list {
        items.push(*part)?;
        gather(items, alloc, part.statement())?;
    }
    Ok(())
}

/// The statements within this one, at any depth.
pub fn items_in<'a>(alloc: Global, s: &'a Stmt) -> Result<Vec<Item<'a>>, AllocError>
    ensures { IfOk result (λ v. map see v.items ≡ inside (statement s.entry.now)) }
{
    let mut items = Vec::new(alloc);
    gather(&mut items, alloc, s)?;
    Ok(items)
}

/// The statements of a body, at any depth.
pub fn items_of_body<'a>(alloc: Global, body: &'a Block) -> Result<Vec<Item<'a>>, AllocError>
    ensures { IfOk result (λ v. map see v.items ≡ with_inside body.entry.now) }
{
    let mut items = Vec::new(alloc);
    let list = body.as_slice();
    for one in list {
        items.push(Item::Labeled(one))?;
        gather(&mut items, alloc, &one.statement)?;
    }
    Ok(items)
}
