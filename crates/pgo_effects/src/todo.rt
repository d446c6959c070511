// Code that has not been looked at.
ghost use Rattle.std.specs.Prelude.{◌≡◌, map, IfOk};
ghost use Rattle.pgo_syntax.specs.StatementView.{labeled_pair};
ghost use Rattle.pgo_meaning.specs.Statements.{Setting};
ghost use Rattle.pgo_effects.specs.Todos.{code_of, part_code};
ghost use Rattle.pgo_effects.specs.Around.{around_view};
ghost use Rattle.pgo_rewrite.specs.Views.{mapped_view};
ghost use Rattle.pgo_meaning.specs.Parameters.{block_code, block_setting};

use crate::around::Around;
use crate::change::Change;
use crate::indexed_macros::IndexedMacros;
use pgo_base::text::Text;
use pgo_rewrite::mapped::Mapped;
use pgo_syntax::bound::Mapping;
use pgo_syntax::statement::{Branch, Labeled, Stmt};
use std::alloc::{AllocError, Global};

/// A part of the text.
#[derive(Clone, Copy)]
pub enum Part<'a> {
    /// a statement
    Statement(&'a Stmt),
    /// the statements of a block from here on
    Order(&'a [Labeled]),
    /// the branches of an `if` from here on, and its last `else`
    Branches(&'a [Branch], Option<&'a Stmt>),
    /// the body of a `while`, and then the jump to its label
    Loop(&'a Stmt),
}

/// Code that has not been looked at.
#[derive(Drop)]
pub enum Todo<'a> {
    /// nothing
    Empty,
    /// `skip`
    Skip,
    /// the section ends at `Done`
    End,
    /// the section ends at this label
    Goto(Option<&'a Text>),
    /// what an assignment does when its expressions have been evaluated
    Change(Change<'a>),
    /// the block ends with the content
    Content,
    /// the block ends with the value that is written
    Value,
    /// a part of the text
    Text(Part<'a>, Around<'a>),
}

impl<'a> Todo<'a> {
    /// The same once more.
    pub fn copy(&self, alloc: Global) -> Result<Todo<'a>, AllocError>
        ensures { IfOk result (λ t. (s : Setting) → code_of s t ≡ code_of s self.now) }
    {
        match self {
            Todo::Empty => Ok(Todo::Empty),
            Todo::Skip => Ok(Todo::Skip),
            Todo::End => Ok(Todo::End),
            Todo::Goto(label) => Ok(Todo::Goto(*label)),
            Todo::Change(change) => Ok(Todo::Change(change.copy(alloc)?)),
            Todo::Content => Ok(Todo::Content),
            Todo::Value => Ok(Todo::Value),
            Todo::Text(part, around) => part_todo(*part, around),
        }
    }
}

/// The statements of a mapping macro's block.
fn block_todo<'a>(alloc: Global, list: &'a [Labeled]) -> Result<Todo<'a>, AllocError>
    ensures { IfOk result (λ t. code_of block_setting t ≡ block_code (map labeled_pair list.entry.now)) }
{
    let macros = IndexedMacros::new(alloc, &[])?;
    let around = Around::new(alloc, macros)?;
    Ok(Todo::Text(Part::Order(list), around))
}

/// What a read of a mapped parameter does with its content.
pub fn read_block<'a>(alloc: Global, mapped: Mapped<'a>) -> Result<Todo<'a>, AllocError>
    ensures { IfOk result (λ t. code_of block_setting t ≡ (mapped_view mapped.entry).reads) }
{
    match mapped.mapping {
        Mapping::Identity => Ok(Todo::Content),
        Mapping::Macro(m) => block_todo(alloc, m.read.as_slice()),
    }
}

/// What a write of a mapped parameter does with its content and the value.
pub fn write_block<'a>(alloc: Global, mapped: Mapped<'a>) -> Result<Todo<'a>, AllocError>
    ensures { IfOk result (λ t. code_of block_setting t ≡ (mapped_view mapped.entry).writes) }
{
    match mapped.mapping {
        Mapping::Identity => Ok(Todo::Value),
        Mapping::Macro(m) => block_todo(alloc, m.write.as_slice()),
    }
}

/// A part of the text that is still to be looked at.
pub(crate) fn part_todo<'a>(part: Part<'a>, around: &Around<'a>) -> Result<Todo<'a>, AllocError>
    ensures { IfOk result (λ t. (s : Setting) → code_of s t ≡ part_code s (around_view around.now) part.entry) }
{
    Ok(Todo::Text(part, around.copy()?))
}
