// The statements that stand directly in a statement, as a list of what is lent.
ghost use Rattle.std.specs.Prelude.{◌≡◌, [], ◌∷◌, None, map, IfOk, option_map};
ghost use Rattle.pgo_section_list.specs.Sections as spec;
ghost use Rattle.pgo_section_list.specs.Sections.{see, label_above};
ghost use Rattle.pgo_meaning.specs.Labels.{labelled};
ghost use Rattle.pgo_meaning.specs.Statements.{Setting as Meant};
ghost use Rattle.pgo_syntax.specs.Statement.{labeled, statements, guarded};
ghost use Rattle.pgo_syntax.specs.StatementView.{statement, labeled_pair, branch_parts};

use pgo_base::text::Text;
use pgo_syntax::name::PlacedName;
use pgo_syntax::statement::{Branch, Labeled, Stmt};
use std::alloc::{AllocError, Global};

/// A statement that stands directly in another one.
#[derive(Clone, Copy)]
pub enum Inner<'a> {
    /// a statement of a block, and those behind it
    Row(&'a Labeled, &'a [Labeled]),
    /// a branch, an alternative, or what stands in a `with`
    Alone(&'a Stmt),
    /// the body of a `while`
    Loop(&'a Stmt),
}

impl<'a> Inner<'a> {
    /// Its label.
    pub fn label(self) -> Option<&'a PlacedName>
        ensures { option_map (λ x. x.now) result ≡ (see self.entry).0 }
    {
        match self {
            Inner::Row(one, _) => one.label.as_ref(),
            _ => None,
        }
    }

    /// Its label, or else this one.
    pub fn label_or(self, above: Option<&'a Text>) -> Option<&'a Text>
        ensures { (s : Meant) → label_above s result ≡ labelled s (label_above s above.entry) (see self.entry).0 }
    {
        match self.label() {
            None => above,
            Some(x) => Some(&x.name),
        }
    }

    /// The statement.
    pub fn statement(self) -> &'a Stmt
        ensures { statement result.now ≡ (see self.entry).1 }
    {
        match self {
            Inner::Row(one, _) => &one.statement,
            Inner::Alone(t) => t,
            Inner::Loop(t) => t,
        }
    }
}

/// The statements of a block.
pub fn in_block<'a>(alloc: Global, list: &'a [Labeled]) -> Result<Vec<Inner<'a>>, AllocError>
    ensures { IfOk result (λ v. map see v.items ≡ spec.block_items (labeled (map labeled_pair list.entry.now))) }
{
    let mut items = Vec::with_capacity(alloc, list.len())?;
    let mut left = list;
    while let Some((one, behind)) = left.split_first() {
        items.push(Inner::Row(one, behind))?;
        left = behind;
    }
    Ok(items)
}

/// The statements of an `either`.
fn in_either<'a>(alloc: Global, list: &'a [Stmt]) -> Result<Vec<Inner<'a>>, AllocError>
    ensures { IfOk result (λ v. map see v.items ≡ spec.alternative_items (statements (map statement list.entry.now))) }
{
    let mut items = Vec::with_capacity(alloc, list.len())?;
    for one in list {
        items.push(Inner::Alone(one))?;
    }
    Ok(items)
}

/// The statements of the branches of an `if`.
fn in_branches<'a>(alloc: Global, list: &'a [Branch]) -> Result<Vec<Inner<'a>>, AllocError>
    ensures { IfOk result (λ v. map see v.items ≡ spec.branch_items (guarded (map branch_parts list.entry.now))) }
{
    let mut items = Vec::with_capacity(alloc, list.len())?;
    for one in list {
        items.push(Inner::Alone(&one.statement))?;
    }
    Ok(items)
}

/// One statement.
fn single<'a>(alloc: Global, inner: Inner<'a>) -> Result<Vec<Inner<'a>>, AllocError>
    ensures { IfOk result (λ v. map see v.items ≡ see inner.entry ∷ []) }
{
    let mut items = Vec::new(alloc);
    items.push(inner)?;
    Ok(items)
}

/// The statements that stand directly in this one.
pub fn inners_of<'a>(alloc: Global, t: &'a Stmt) -> Result<Vec<Inner<'a>>, AllocError>
    ensures { IfOk result (λ v. map see v.items ≡ spec.items (statement t.entry.now)) }
{
    match t {
        Stmt::If(_, list) => in_branches(alloc, list.as_slice()),
        Stmt::IfElse(_, list, other) => {
            let mut items = in_branches(alloc, list.as_slice())?;
            items.push(Inner::Alone(other.get()))?;
            Ok(items)
        }
        Stmt::While(_, _, body) => single(alloc, Inner::Loop(body.get())),
        Stmt::With(_, _, body) => single(alloc, Inner::Alone(body.get())),
        Stmt::Either(_, list) => in_either(alloc, list.as_slice()),
        Stmt::Block(_, list) => in_block(alloc, list.as_slice()),
        _ => Ok(Vec::new(alloc)),
    }
}
