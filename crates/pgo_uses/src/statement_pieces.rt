// What stands in a statement, one level deep, in the order of the text: names, expressions and statements.
ghost use Rattle.std.specs.Prelude.{◌≡◌, [], ◌∷◌, ◌++◌, map, length, IfOk};
ghost use Rattle.pgo_syntax.specs.StatementView.{statement};
ghost use Rattle.pgo_syntax.specs.Statement.{statements, labeled, guarded};
ghost use Rattle.pgo_uses.specs.declared.uses.Form.TheVariants as forms;
ghost use Rattle.pgo_uses.specs.Scopes.{row_names};
ghost use Rattle.pgo_uses.specs.StatementPieces as spec;
ghost use Rattle.pgo_uses.specs.StatementPieceView.{see_part};
ghost use Rattle.pgo_uses.specs.StatementUses.{with_names, origin_tree, shape_of as as_shape};

use crate::names::Names;
use crate::uses::Shape;
use pgo_base::expr::{Expr, Exprs, Sub};
use pgo_base::text::Text;
use pgo_syntax::assignment::{Assignments, Path, Step};
use pgo_syntax::binding::{Origin, WithNames};
use pgo_syntax::name::PlacedName;
use pgo_syntax::statement::{Alternatives, Block, Branches, Nested, Stmt};
use std::alloc::{AllocError, Global};

/// A part of a statement. A number of names says how many of the names that the statement binds are in scope there.
#[derive(Clone, Copy)]
pub enum Part<'a> {
    /// the name of a left side, with how it goes on
    Left(&'a PlacedName, Shape),
    /// the field of a path, at this place
    Field(u32, &'a Text),
    /// the name that a `with` binds
    Named(&'a PlacedName, usize),
    /// a label
    Label(&'a PlacedName),
    /// the name after `goto`
    Target(&'a PlacedName),
    /// a macro's call
    Called(&'a PlacedName, &'a Exprs),
    /// an expression, at this place
    Operand(u32, &'a Sub, usize),
    /// an argument of a macro's call, at this place
    Passed(u32, &'a Expr),
    Nested(&'a Nested, usize),
    /// a statement in a list
    Member(&'a Stmt),
}

/// Adds these parts.
fn add<'a>(parts: &mut Vec<Part<'a>>, row: &[Part<'a>]) -> Result<(), AllocError>
    ensures { IfOk result (λ _. map see_part parts.new.items ≡ map see_part parts.old.items ++ map see_part row.now) }
{
    parts.extend_from_slice(row)
}

/// The parts of a statement, and the names that it binds.
#[derive(Drop)]
pub struct Parts<'a> {
    pub list: Vec<Part<'a>>,
    pub bound: Names,
}

/// The parts of a statement.
pub fn parts_of<'a>(alloc: Global, s: &'a Stmt) -> Result<Parts<'a>, AllocError>
    ensures parts { IfOk result (λ v. map see_part v.list.items ≡ spec.parts_of (statement s.now)) }
    ensures bound { IfOk result (λ v. row_names v.bound ≡ spec.bound_in (statement s.now)) }
{
    let mut list = Vec::new(alloc);
    let mut bound = Names::new(alloc);
    add_form(alloc, &mut list, &mut bound, s)?;
    Ok(Parts { list, bound })
}

fn add_form<'a>(
    alloc: Global,
    parts: &mut Vec<Part<'a>>,
    bound: &mut Names,
    s: &'a Stmt,
) -> Result<(), AllocError>
    requires { bound.old ≡ [] }
    ensures parts { IfOk result (λ _. map see_part parts.new.items ≡ map see_part parts.old.items ++ spec.parts_of (statement s.now)) }
    ensures bound { IfOk result (λ _. row_names bound.new ≡ spec.bound_in (statement s.now)) }
{
    match s {
        Stmt::Skip(_) => Ok(()),
        Stmt::Assign(_, list) => add_assignments(parts, list),
        Stmt::If(_, list) => add_branches(parts, list),
        Stmt::IfElse(_, list, s) => add_if_else(parts, list, s),
        Stmt::While(place, e, s) => add(parts, &[Part::Operand(*place, e, 0), Part::Nested(s, 0)]),
        Stmt::Either(_, list) => add_alternatives(parts, list),
        Stmt::Await(place, e)
        | Stmt::Print(place, e)
        | Stmt::Assert(place, e)
        | Stmt::Yield(place, e) => add(parts, &[Part::Operand(*place, e, 0)]),
        Stmt::With(_, names, s) => add_with(alloc, parts, bound, names, s),
        Stmt::Goto(_, label) => add(parts, &[Part::Target(label)]),
        Stmt::Call(_, name, list) => add_call(parts, name, list),
        Stmt::Block(_, list) => add_block(parts, list),
    }
}

/// Adds assignments, each with its left side before its right side.
fn add_assignments<'a>(parts: &mut Vec<Part<'a>>, list: &'a Assignments) -> Result<(), AllocError>
    ensures { IfOk result (λ _. map see_part parts.new.items ≡ map see_part parts.old.items ++ spec.assignment_parts list.now) }
{
    for a in list.as_slice() {
        let place = a.left.name.place;
        add(parts, &[Part::Left(&a.left.name, shape_of(&a.left.path))])?;
        add_path(parts, place, &a.left.path)?;
        add(parts, &[Part::Operand(place, &a.right, 0)])?;
    }
    Ok(())
}

/// How a path goes on.
fn shape_of(path: &Path) -> Shape
    ensures { result ≡ as_shape path.now }
{
    match path.as_slice() {
        [] => Shape::Bare,
        [Step::Index(_)] => Shape::OneIndex,
        _ => Shape::Further,
    }
}

/// Adds the steps of a path, at this place.
fn add_path<'a>(parts: &mut Vec<Part<'a>>, place: u32, path: &'a Path) -> Result<(), AllocError>
    ensures { IfOk result (λ _. map see_part parts.new.items ≡ map see_part parts.old.items ++ spec.path_parts place path.now) }
{
    for step in path.as_slice() {
        add_step(parts, place, step)?;
    }
    Ok(())
}

fn add_step<'a>(parts: &mut Vec<Part<'a>>, place: u32, step: &'a Step) -> Result<(), AllocError>
    ensures { IfOk result (λ _. map see_part parts.new.items ≡ map see_part parts.old.items ++ spec.path_parts place (step.now ∷ [])) }
{
    match step {
        Step::Index(e) => add(parts, &[Part::Operand(place, e, 0)]),
        Step::Field(f) => add(parts, &[Part::Field(place, f)]),
    }
}

/// Adds branches, each with its condition before its statement.
fn add_branches<'a>(parts: &mut Vec<Part<'a>>, list: &'a Branches) -> Result<(), AllocError>
    ensures { IfOk result (λ _. map see_part parts.new.items ≡ map see_part parts.old.items ++ spec.branch_parts (guarded list.now)) }
{
    for b in list.as_slice() {
        add(
            parts,
            &[
                Part::Operand(b.place, &b.condition, 0),
                Part::Member(&b.statement),
            ],
        )?;
    }
    Ok(())
}

fn add_if_else<'a>(
    parts: &mut Vec<Part<'a>>,
    list: &'a Branches,
    s: &'a Nested,
) -> Result<(), AllocError>
    ensures { IfOk result (λ _. map see_part parts.new.items ≡ map see_part parts.old.items ++ (spec.branch_parts (guarded list.now) ++ spec.nested s.now 0 ∷ [])) }
{
    add_branches(parts, list)?;
    add(parts, &[Part::Nested(s, 0)])
}

/// Adds the statements of an `either`.
fn add_alternatives<'a>(parts: &mut Vec<Part<'a>>, list: &'a Alternatives) -> Result<(), AllocError>
    ensures { IfOk result (λ _. map see_part parts.new.items ≡ map see_part parts.old.items ++ spec.alternative_parts (statements list.now)) }
{
    for s in list.as_slice() {
        add(parts, &[Part::Member(s)])?;
    }
    Ok(())
}

/// Adds the names of a `with`, each before its expression, and the statement that sees them all.
fn add_with<'a>(
    alloc: Global,
    parts: &mut Vec<Part<'a>>,
    bound: &mut Names,
    names: &'a WithNames,
    s: &'a Nested,
) -> Result<(), AllocError>
    requires { bound.old ≡ [] }
    ensures parts { IfOk result (λ _. map see_part parts.new.items ≡ map see_part parts.old.items ++ (spec.with_parts 0 names.now ++ spec.nested s.now (length (with_names names.now)) ∷ [])) }
    ensures bound { IfOk result (λ _. row_names bound.new ≡ with_names names.now) }
{
    add_with_parts(parts, names)?;
    add_with_names(alloc, bound, names)?;
    add(parts, &[Part::Nested(s, bound.len())])
}

/// Adds the names of a `with`, each before its expression, which sees the names before it.
fn add_with_parts<'a>(parts: &mut Vec<Part<'a>>, names: &'a WithNames) -> Result<(), AllocError>
    ensures { IfOk result (λ _. map see_part parts.new.items ≡ map see_part parts.old.items ++ spec.with_parts 0 names.now) }
{
    for (i, w) in names.as_slice().iter().enumerate() {
        let operand = Part::Operand(w.name.place, origin_of(&w.origin), i);
        add(parts, &[Part::Named(&w.name, i), operand])?;
    }
    Ok(())
}

/// Adds the names that a `with` binds.
fn add_with_names(alloc: Global, bound: &mut Names, names: &WithNames) -> Result<(), AllocError>
    ensures { IfOk result (λ _. row_names bound.new ≡ row_names bound.old ++ with_names names.now) }
{
    for w in names.as_slice() {
        bound.push(alloc, &w.name.name, 0)?;
    }
    Ok(())
}

/// The expression behind a name, that of its value or of its set.
pub fn origin_of(origin: &Origin) -> &Sub
    ensures { result.now ≡ origin_tree origin.now }
{
    match origin {
        Origin::Equals(e) | Origin::In(e) => e,
    }
}

/// Adds a macro's call: its name, and its arguments.
fn add_call<'a>(
    parts: &mut Vec<Part<'a>>,
    name: &'a PlacedName,
    list: &'a Exprs,
) -> Result<(), AllocError>
    ensures { IfOk result (λ _. map see_part parts.new.items ≡ map see_part parts.old.items ++ (spec.named name.now.place name.now.name (forms.Called list.now) 0 ∷ spec.argument_parts name.now.place list.now)) }
{
    add(parts, &[Part::Called(name, list)])?;
    add_arguments(parts, name.place, list)
}

fn add_arguments<'a>(
    parts: &mut Vec<Part<'a>>,
    place: u32,
    list: &'a Exprs,
) -> Result<(), AllocError>
    ensures { IfOk result (λ _. map see_part parts.new.items ≡ map see_part parts.old.items ++ spec.argument_parts place list.now) }
{
    for e in list.as_slice() {
        add(parts, &[Part::Passed(place, e)])?;
    }
    Ok(())
}

/// Adds the statements of a block, each behind its label.
fn add_block<'a>(parts: &mut Vec<Part<'a>>, list: &'a Block) -> Result<(), AllocError>
    ensures { IfOk result (λ _. map see_part parts.new.items ≡ map see_part parts.old.items ++ spec.block_parts (labeled list.now)) }
{
    for s in list.as_slice() {
        add_label(parts, &s.label)?;
        add(parts, &[Part::Member(&s.statement)])?;
    }
    Ok(())
}

fn add_label<'a>(parts: &mut Vec<Part<'a>>, label: &'a Option<PlacedName>) -> Result<(), AllocError>
    ensures { IfOk result (λ _. map see_part parts.new.items ≡ map see_part parts.old.items ++ spec.label_parts label.now) }
{
    match label {
        Some(l) => add(parts, &[Part::Label(l)]),
        None => Ok(()),
    }
}
