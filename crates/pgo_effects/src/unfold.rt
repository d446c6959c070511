// One level of code that has not been looked at.
ghost use Rattle.std.specs.Prelude.{◌≡◌, option_map, IfOk};
ghost use Rattle.pgo_base.specs.Tree.{name};
ghost use Rattle.pgo_effects.specs.Around.{around_view};
ghost use Rattle.pgo_effects.specs.Pieces.{piece_code};
ghost use Rattle.pgo_effects.specs.SettingView.{setting_view};
ghost use Rattle.pgo_effects.specs.Todos.{change_code, code_of, part_code};
ghost use Rattle.pgo_effects.specs.declared.todo.Part.TheVariants as parts;
ghost use Rattle.pgo_meaning.specs.Statements.{Setting as Meant};
ghost use Rattle.pgo_model.specs.Written.{done};
ghost use Rattle.pgo_sections.specs.Code as codes_spec;
ghost use Rattle.pgo_effects.specs.Around.{written_label as label_at};

use crate::around::Around;
use crate::assign::assign_piece;
use crate::branches::{branches_piece, either_piece, loop_piece, order_piece, while_piece};
use crate::calls::call_piece;
use crate::change::Change;
use crate::names::with_piece;
use crate::piece::{Last, Piece};
use crate::setting::Setting;
use crate::simple::{assert_piece, await_piece, goto_piece, last_alone, print_piece, yield_piece};
use crate::todo::{Part, Todo};
use pgo_base::expr::Expr;
use pgo_base::text::Text;
use pgo_syntax::statement::Stmt;
use std::alloc::{AllocError, Global};

/// One level of a statement.
fn statement_piece<'a>(
    alloc: Global,
    setting: Setting<'a, '_>,
    around: &Around<'a>,
    t: &'a Stmt,
) -> Result<Piece<'a>, AllocError>
    ensures { IfOk result (λ p. piece_code (setting_view setting.entry) p ≡ part_code (setting_view setting.entry) (around_view around.now) (parts.Statement t.entry)) }
{
    match t {
        Stmt::Skip(_) => Ok(last_alone(alloc, Last::Skip)),
        Stmt::Assign(_, list) => assign_piece(alloc, setting, around, list.as_slice()),
        Stmt::If(_, list) => branches_piece(alloc, setting, around, list.as_slice(), None),
        Stmt::IfElse(_, list, other) => {
            branches_piece(alloc, setting, around, list.as_slice(), Some(other.get()))
        }
        Stmt::While(_, e, body) => while_piece(alloc, setting, around, e.get(), body.get()),
        Stmt::Either(_, list) => either_piece(alloc, around, list.as_slice()),
        Stmt::Await(_, e) => await_piece(alloc, setting, around, e.get()),
        Stmt::With(_, names, body) => {
            with_piece(alloc, setting, around, names.as_slice(), body.get())
        }
        Stmt::Print(_, e) => print_piece(alloc, setting, around, e.get()),
        Stmt::Assert(_, e) => assert_piece(alloc, setting, around, e.get()),
        Stmt::Goto(_, x) => goto_piece(alloc, setting, &x.name),
        Stmt::Call(_, m, list) => call_piece(alloc, around, m, list.as_slice()),
        Stmt::Yield(_, e) => yield_piece(alloc, around, e.get()),
        Stmt::Block(_, list) => order_piece(alloc, setting, around, list.as_slice()),
    }
}

/// One level of a part of the text.
fn part_piece<'a>(
    alloc: Global,
    setting: Setting<'a, '_>,
    around: &Around<'a>,
    part: Part<'a>,
) -> Result<Piece<'a>, AllocError>
    ensures { IfOk result (λ p. piece_code (setting_view setting.entry) p ≡ part_code (setting_view setting.entry) (around_view around.now) part.entry) }
{
    match part {
        Part::Statement(t) => statement_piece(alloc, setting, around, t),
        Part::Order(list) => order_piece(alloc, setting, around, list),
        Part::Branches(list, other) => branches_piece(alloc, setting, around, list, other),
        Part::Loop(body) => loop_piece(alloc, around, body),
    }
}

/// The jump to a label.
fn jump_piece<'a>(
    alloc: Global,
    setting: Setting<'a, '_>,
    label: Option<&'a Text>,
) -> Result<Piece<'a>, AllocError>
    ensures { IfOk result (λ p. (s : Meant) → piece_code s p ≡ codes_spec.Goto (label_at (setting_view setting.entry) (option_map (λ x. x.now) label.entry))) }
{
    match label {
        None => Ok(last_alone(alloc, Last::Goto(Text::new(alloc)))),
        Some(x) => goto_piece(alloc, setting, x),
    }
}

/// The end of the process.
fn end_piece<'a>(alloc: Global) -> Result<Piece<'a>, AllocError>
    ensures { IfOk result (λ p. (s : Meant) → piece_code s p ≡ codes_spec.Goto done) }
{
    let label = Text::from_slice(alloc, b"Done")?;
    Ok(last_alone(alloc, Last::Goto(label)))
}

/// The change once more, by itself.
fn change_piece<'a>(alloc: Global, change: &Change<'a>) -> Result<Piece<'a>, AllocError>
    ensures { IfOk result (λ p. (s : Meant) → piece_code s p ≡ change_code change.now) }
{
    let change = change.copy(alloc)?;
    Ok(last_alone(alloc, Last::Change(change)))
}

/// The block ends with what this name stands for.
fn yielded_piece<'a>(alloc: Global, x: &[u8]) -> Result<Piece<'a>, AllocError>
    ensures { IfOk result (λ p. (s : Meant) → piece_code s p ≡ codes_spec.Yield (name x.now)) }
{
    let x = Text::from_slice(alloc, x)?;
    Ok(last_alone(alloc, Last::Yield(Expr::Name(x))))
}

/// One level of the code.
///
/// Err where there is no memory, or a statement has 2^64 places or more.
pub fn unfold<'a>(
    alloc: Global,
    setting: Setting<'a, '_>,
    todo: &Todo<'a>,
) -> Result<Piece<'a>, AllocError>
    ensures { IfOk result (λ p. piece_code (setting_view setting.entry) p ≡ code_of (setting_view setting.entry) todo.now) }
{
    match todo {
        Todo::Empty => Ok(last_alone(alloc, Last::Empty)),
        Todo::Skip => Ok(last_alone(alloc, Last::Skip)),
        Todo::End => end_piece(alloc),
        Todo::Goto(label) => jump_piece(alloc, setting, *label),
        Todo::Change(change) => change_piece(alloc, change),
        Todo::Content => yielded_piece(alloc, b"$variable"),
        Todo::Value => yielded_piece(alloc, b"$value"),
        Todo::Text(part, around) => part_piece(alloc, setting, around, *part),
    }
}
