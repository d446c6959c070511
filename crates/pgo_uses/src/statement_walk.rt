// The names in a statement. Each call goes down to the depth of the nesting; lists are walked by loops.
ghost use Rattle.std.specs.Prelude.{◌≡◌, ◌++◌, map, IfOk};
ghost use Rattle.pgo_syntax.specs.StatementView.{statement};
ghost use Rattle.pgo_uses.specs.Scopes.{in_scope, row_names};
ghost use Rattle.pgo_uses.specs.StatementPieces.{part_uses, parts_uses};
ghost use Rattle.pgo_uses.specs.StatementPieceView.{see_part};
ghost use Rattle.pgo_uses.specs.StatementUses as spec;

use crate::names::Names;
use crate::scopes::Scope;
use crate::statement_pieces::{Part, parts_of};
use crate::uses::{Around, Form, Use};
use crate::walk::{add_use, add_uses_in};
use pgo_syntax::name::PlacedName;
use pgo_syntax::statement::Stmt;
use std::alloc::{AllocError, Global};

/// What is known at another place.
pub fn at_place(place: u32, around: Around) -> Around
    ensures { result ≡ spec.at_place place around }
{
    let mut there = around;
    there.place = place;
    there
}

/// What is known in an argument of a macro's call.
fn as_passed(around: Around) -> Around
    ensures { result ≡ spec.as_passed around }
{
    let mut there = around;
    there.passed = true;
    there
}

/// Adds a name that has a place of its own, where these names are in scope.
pub fn add_placed(
    alloc: Global,
    scope: &Scope<'_>,
    around: Around,
    name: &PlacedName,
    form: Form,
    out: &mut Vec<Use>,
) -> Result<(), AllocError>
    ensures { IfOk result (λ _. out.new.items ≡ out.old.items ++ spec.placed (in_scope scope.now) around name.now form) }
{
    let there = at_place(name.place, around);
    add_use(alloc, scope, there, &name.name, form, out)
}

/// Adds the names in a statement, in the order of the text, where these names are in scope.
#[cycle(statement_walk)]
pub fn add_statement(
    alloc: Global,
    scope: &Scope<'_>,
    around: Around,
    s: &Stmt,
    out: &mut Vec<Use>,
) -> Result<(), AllocError>
    ensures { IfOk result (λ _. out.new.items ≡ out.old.items ++ spec.statement_uses (in_scope scope.now) around (statement s.now)) }
{
    let parts = parts_of(alloc, s)?;
    let list = parts.list.as_slice();
    add_parts(alloc, scope, &parts.bound, around, list, out)
}

/// The same of the parts of a statement, which binds the names `bound`.
#[cycle(statement_walk)]
fn add_parts(
    alloc: Global,
    scope: &Scope<'_>,
    bound: &Names,
    around: Around,
    parts: &[Part<'_>],
    out: &mut Vec<Use>,
) -> Result<(), AllocError>
    ensures { IfOk result (λ _. out.new.items ≡ out.old.items ++ parts_uses (in_scope scope.now) (row_names bound.now) around (map see_part parts.now)) }
{
    for part in parts {
        add_part(alloc, scope, bound, around, *part, out)?;
    }
    Ok(())
}

/// The same of one part.
#[cycle(statement_walk)]
fn add_part(
    alloc: Global,
    scope: &Scope<'_>,
    bound: &Names,
    around: Around,
    part: Part<'_>,
    out: &mut Vec<Use>,
) -> Result<(), AllocError>
    ensures { IfOk result (λ _. out.new.items ≡ out.old.items ++ part_uses (in_scope scope.now) (row_names bound.now) around (see_part part.entry)) }
{
    match part {
        Part::Left(x, shape) => add_placed(alloc, scope, around, x, Form::Assigned(shape), out),
        Part::Field(place, f) => {
            let there = at_place(place, around);
            add_use(alloc, scope, there, f, Form::Field, out)
        }
        Part::Named(x, count) => {
            let inner = Scope::within(&*scope, &*bound, count);
            add_placed(alloc, &inner, around, x, Form::Named, out)
        }
        Part::Label(x) => add_placed(alloc, scope, around, x, Form::Label, out),
        Part::Target(x) => add_placed(alloc, scope, around, x, Form::Target, out),
        Part::Called(x, list) => {
            let form = Form::Called(list.copy(alloc)?);
            add_placed(alloc, scope, around, x, form, out)
        }
        Part::Operand(place, e, count) => {
            let inner = Scope::within(&*scope, &*bound, count);
            let there = at_place(place, around);
            add_uses_in(alloc, &inner, there, e.get(), out)
        }
        Part::Passed(place, e) => {
            let there = as_passed(at_place(place, around));
            add_uses_in(alloc, scope, there, e, out)
        }
        Part::Nested(s, count) => {
            let inner = Scope::within(&*scope, &*bound, count);
            add_statement(alloc, &inner, around, s.get(), out)
        }
        Part::Member(s) => add_statement(alloc, scope, around, s, out),
    }
}
