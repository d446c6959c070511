// One level of statements that branch, and of rows of statements.
ghost use Rattle.std.specs.Prelude.{◌≡◌, ℕ, ◌∷◌, map, IfOk};
ghost use Rattle.pgo_base.specs.ExprView.{tree};
ghost use Rattle.pgo_effects.specs.Around.{around_view, stands, stands_each, stands_guarded, written_label as label_at};
ghost use Rattle.pgo_effects.specs.Pieces.{all_arms, piece_code};
ghost use Rattle.pgo_effects.specs.SettingView.{setting_view};
ghost use Rattle.pgo_effects.specs.Todos as spec;
ghost use Rattle.pgo_effects.specs.Todos.{code_of, codes_of, part_code};
ghost use Rattle.pgo_effects.specs.declared.todo.Part.TheVariants as parts;
ghost use Rattle.pgo_meaning.specs.Statements.{Setting as Meant, arms, branches, code};
ghost use Rattle.pgo_sections.specs.Code.{Either, Seq};
ghost use Rattle.pgo_syntax.specs.Statement.{guarded, statements, while_do};
ghost use Rattle.pgo_syntax.specs.StatementView.{branch_parts, statement};

use crate::around::Around;
use crate::evaluate::evaluate_alone;
use crate::piece::{Last, Piece};
use crate::setting::Setting;
use crate::simple::{goto_piece, last_alone};
use crate::todo::{Part, Todo, part_todo};
use pgo_base::expr::Expr;
use pgo_base::results::both;
use pgo_syntax::statement::{Branch, Labeled, Stmt};
use std::alloc::{AllocError, Global};

/// The last `else`.
fn otherwise_todo<'a>(
    otherwise: Option<&'a Stmt>,
    around: &Around<'a>,
) -> Result<Todo<'a>, AllocError>
    ensures { IfOk result (λ t. (s : Meant) → code_of s t ≡ spec.otherwise s (around_view around.now) otherwise.entry) }
{
    match otherwise {
        None => Ok(Todo::Empty),
        Some(t) => part_todo(Part::Statement(t), around),
    }
}

/// A branch, and those behind it.
fn branch_piece<'a>(
    alloc: Global,
    setting: Setting<'a, '_>,
    around: &Around<'a>,
    branch: &'a Branch,
    rest: &'a [Branch],
    otherwise: Option<&'a Stmt>,
) -> Result<Piece<'a>, AllocError>
    ensures { IfOk result (λ p. piece_code (setting_view setting.entry) p ≡ branches (setting_view setting.entry) (label_at (setting_view setting.entry) (around_view around.now).label) (stands_guarded (around_view around.now) (guarded (branch_parts branch.entry.now ∷ map branch_parts rest.entry.now))) (spec.otherwise (setting_view setting.entry) (around_view around.now) otherwise.entry)) }
{
    let condition = branch.condition.get();
    let todos = both(
        part_todo(Part::Statement(&branch.statement), around),
        part_todo(Part::Branches(rest, otherwise), around),
    );
    let evaluated = evaluate_alone(alloc, setting, around, condition);
    let ((effects, condition), (first, second)) = both(evaluated, todos)?;
    Ok(Piece {
        effects,
        last: Last::If(condition, first, second),
    })
}

/// The branches of an `if`.
pub(crate) fn branches_piece<'a>(
    alloc: Global,
    setting: Setting<'a, '_>,
    around: &Around<'a>,
    list: &'a [Branch],
    otherwise: Option<&'a Stmt>,
) -> Result<Piece<'a>, AllocError>
    ensures { IfOk result (λ p. piece_code (setting_view setting.entry) p ≡ part_code (setting_view setting.entry) (around_view around.now) (parts.Branches list.entry otherwise.entry)) }
{
    match list.split_first() {
        None => {
            let todo = otherwise_todo(otherwise, around)?;
            Ok(last_alone(alloc, Last::Code(todo)))
        }
        Some((branch, rest)) => branch_piece(alloc, setting, around, branch, rest, otherwise),
    }
}

/// `while (e) t`
pub(crate) fn while_piece<'a>(
    alloc: Global,
    setting: Setting<'a, '_>,
    around: &Around<'a>,
    condition: &Expr,
    body: &'a Stmt,
) -> Result<Piece<'a>, AllocError>
    ensures { IfOk result (λ p. (n : ℕ) → piece_code (setting_view setting.entry) p ≡ code (setting_view setting.entry) (label_at (setting_view setting.entry) (around_view around.now).label) (stands (around_view around.now) (while_do n (tree condition.now) (statement body.entry.now)))) }
{
    let evaluated = evaluate_alone(alloc, setting, around, condition);
    let ((effects, condition), first) = both(evaluated, part_todo(Part::Loop(body), around))?;
    Ok(Piece {
        effects,
        last: Last::If(condition, first, Todo::Empty),
    })
}

/// The body of a `while`, and then the jump to its label.
pub(crate) fn loop_piece<'a>(
    alloc: Global,
    around: &Around<'a>,
    body: &'a Stmt,
) -> Result<Piece<'a>, AllocError>
    ensures { IfOk result (λ p. (s : Meant) → piece_code s p ≡ part_code s (around_view around.now) (parts.Loop body.entry)) }
{
    let first = part_todo(Part::Statement(body), around)?;
    let last = Last::Then(first, Todo::Goto(around.label));
    Ok(last_alone(alloc, last))
}

/// The alternatives of an `either`.
fn alternatives<'a>(
    alloc: Global,
    around: &Around<'a>,
    list: &'a [Stmt],
) -> Result<Vec<Todo<'a>>, AllocError>
    ensures { IfOk result (λ v. (s : Meant) → all_arms (codes_of s v.items) ≡ arms s (label_at s (around_view around.now).label) (stands_each (around_view around.now) (statements (map statement list.entry.now)))) }
{
    let mut todos = Vec::new(alloc);
    for t in list {
        todos.push(part_todo(Part::Statement(t), around)?)?;
    }
    Ok(todos)
}

/// `either s or s ..`
pub(crate) fn either_piece<'a>(
    alloc: Global,
    around: &Around<'a>,
    list: &'a [Stmt],
) -> Result<Piece<'a>, AllocError>
    ensures { IfOk result (λ p. (s : Meant) → piece_code s p ≡ Either (arms s (label_at s (around_view around.now).label) (stands_each (around_view around.now) (statements (map statement list.entry.now))))) }
{
    let todos = alternatives(alloc, around, list)?;
    Ok(last_alone(alloc, Last::Either(todos)))
}

/// A statement that has no label, and those behind it.
fn then_piece<'a>(
    alloc: Global,
    around: &Around<'a>,
    first: &'a Stmt,
    rest: &'a [Labeled],
) -> Result<Piece<'a>, AllocError>
    ensures { IfOk result (λ p. (s : Meant) → piece_code s p ≡ Seq (part_code s (around_view around.now) (parts.Statement first.entry)) (part_code s (around_view around.now) (parts.Order rest.entry))) }
{
    let (first, second) = both(
        part_todo(Part::Statement(first), around),
        part_todo(Part::Order(rest), around),
    )?;
    Ok(last_alone(alloc, Last::Then(first, second)))
}

/// The statements of a block up to the first label.
pub(crate) fn order_piece<'a>(
    alloc: Global,
    setting: Setting<'a, '_>,
    around: &Around<'a>,
    list: &'a [Labeled],
) -> Result<Piece<'a>, AllocError>
    ensures { IfOk result (λ p. piece_code (setting_view setting.entry) p ≡ part_code (setting_view setting.entry) (around_view around.now) (parts.Order list.entry)) }
{
    match list.split_first() {
        None => Ok(last_alone(alloc, Last::Empty)),
        Some((first, rest)) => match &first.label {
            None => then_piece(alloc, around, &first.statement, rest),
            Some(x) => goto_piece(alloc, setting, &x.name),
        },
    }
}
