// How many nodes the expressions of one level of code have, with the arguments of the macros around them in place.
ghost use Rattle.std.specs.Prelude.{◌≡◌, map, IfOk};
ghost use Rattle.pgo_effects.specs.Puts.{behind_name as behind};
ghost use Rattle.pgo_put_sizes.specs.Counted as spec;
ghost use Rattle.pgo_sizes.specs.Left.{left_after};
ghost use Rattle.pgo_syntax.specs.Statement.{guarded};
ghost use Rattle.pgo_syntax.specs.StatementView.{branch_parts, statement};

use crate::lefts::take_left;
use crate::nodes::take_alone;
use pgo_base::text::Text;
use pgo_effects::names::{add_marked, copy_layers, marked, origin_of};
use pgo_effects::todo::{Part, Todo};
use pgo_rewrite::arguments::Arguments;
use pgo_syntax::assignment::Assignment;
use pgo_syntax::binding::WithName;
use pgo_syntax::statement::{Branch, Stmt};
use std::alloc::{AllocError, Global};

/// Takes the nodes of an assignment: those of its indices and of its right side.
fn take_assignment(
    alloc: Global,
    layers: &[Arguments],
    a: &Assignment,
    left: u64,
) -> Result<Option<u64>, AllocError>
    ensures { IfOk result (λ o. o ≡ left_after left (spec.assignment_nodes layers.now a.now)) }
{
    let before = take_left(alloc, layers, &a.left, left)?;
    match before {
        None => Ok(None),
        Some(rest) => take_alone(alloc, layers, a.right.get(), rest),
    }
}

/// Takes the nodes of assignments.
fn take_assignments(
    alloc: Global,
    layers: &[Arguments],
    list: &[Assignment],
    left: u64,
) -> Result<Option<u64>, AllocError>
    ensures { IfOk result (λ o. o ≡ left_after left (spec.assignments_nodes layers.now list.now)) }
{
    let mut left = left;
    for a in list {
        match take_assignment(alloc, layers, a, left)? {
            Some(rest) => left = rest,
            None => return Ok(None),
        }
    }
    Ok(Some(left))
}

/// The arguments behind a name of a `with`.
fn behind_name(
    alloc: Global,
    layers: Vec<Arguments>,
    x: &Text,
) -> Result<Vec<Arguments>, AllocError>
    ensures { IfOk result (λ v. v.items ≡ behind layers.items x.now) }
{
    let mut name = x.copy(alloc)?;
    let mut all = Vec::new(alloc);
    for arguments in layers {
        let new = marked(alloc, &name)?;
        all.push(add_marked(alloc, arguments, name, &new)?)?;
        name = new;
    }
    Ok(all)
}

/// Takes the nodes of the expressions of a `with`'s names.
fn take_names(
    alloc: Global,
    layers: &[Arguments],
    names: &[WithName],
    left: u64,
) -> Result<Option<u64>, AllocError>
    ensures { IfOk result (λ o. o ≡ left_after left (spec.names_nodes layers.now names.now)) }
{
    let mut left = left;
    let mut all = copy_layers(alloc, layers)?;
    for w in names {
        match take_alone(alloc, &all, origin_of(&w.origin), left)? {
            Some(rest) => left = rest,
            None => return Ok(None),
        }
        all = behind_name(alloc, all, &w.name.name)?;
    }
    Ok(Some(left))
}

/// Takes the nodes of the condition of the first branch, if there is one.
fn take_branches(
    alloc: Global,
    layers: &[Arguments],
    list: &[Branch],
    left: u64,
) -> Result<Option<u64>, AllocError>
    ensures { IfOk result (λ o. o ≡ left_after left (spec.branches_nodes layers.now (guarded (map branch_parts list.now)))) }
{
    match list.split_first() {
        None => Ok(Some(left)),
        Some((branch, _)) => take_alone(alloc, layers, branch.condition.get(), left),
    }
}

/// Takes the nodes of the expressions that a statement evaluates first.
fn take_statement(
    alloc: Global,
    layers: &[Arguments],
    t: &Stmt,
    left: u64,
) -> Result<Option<u64>, AllocError>
    ensures { IfOk result (λ o. o ≡ left_after left (spec.statement_nodes layers.now (statement t.now))) }
{
    match t {
        Stmt::Assign(_, list) => take_assignments(alloc, layers, list.as_slice(), left),
        Stmt::If(_, list) => take_branches(alloc, layers, list.as_slice(), left),
        Stmt::IfElse(_, list, _) => take_branches(alloc, layers, list.as_slice(), left),
        Stmt::While(_, e, _) => take_alone(alloc, layers, e.get(), left),
        Stmt::Await(_, e) => take_alone(alloc, layers, e.get(), left),
        Stmt::With(_, names, _) => take_names(alloc, layers, names.as_slice(), left),
        Stmt::Print(_, e) => take_alone(alloc, layers, e.get(), left),
        Stmt::Assert(_, e) => take_alone(alloc, layers, e.get(), left),
        _ => Ok(Some(left)),
    }
}

/// The same of a part of the text.
fn take_part(
    alloc: Global,
    layers: &[Arguments],
    part: Part<'_>,
    left: u64,
) -> Result<Option<u64>, AllocError>
    ensures { IfOk result (λ o. o ≡ left_after left (spec.part_nodes layers.now part.entry)) }
{
    match part {
        Part::Statement(t) => take_statement(alloc, layers, t, left),
        Part::Branches(list, _) => take_branches(alloc, layers, list, left),
        _ => Ok(Some(left)),
    }
}

/// The same of code that has not been looked at.
pub(crate) fn take_todo(
    alloc: Global,
    todo: &Todo<'_>,
    left: u64,
) -> Result<Option<u64>, AllocError>
    ensures { IfOk result (λ o. o ≡ left_after left (spec.todo_nodes todo.now)) }
{
    match todo {
        Todo::Text(part, around) => take_part(alloc, &around.layers, *part, left),
        _ => Ok(Some(left)),
    }
}
