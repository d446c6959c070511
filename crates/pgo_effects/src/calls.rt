// One level of a macro's call: its body in the place of the call.
ghost use Rattle.std.specs.Prelude.{◌≡◌, ℕ, [], ◌∷◌, map, take, IfOk};
ghost use Rattle.pgo_base.specs.ExprView.{tree};
ghost use Rattle.pgo_effects.specs.Around.{around_view, stands, written_label as label_at};
ghost use Rattle.pgo_effects.specs.Called.{called_body};
ghost use Rattle.pgo_effects.specs.Pieces.{piece_code};
ghost use Rattle.pgo_effects.specs.Puts.{puts, puts_among};
ghost use Rattle.pgo_effects.specs.Todos.{code_of, codes_of};
ghost use Rattle.pgo_meaning.specs.MacrosPlaced as spec;
ghost use Rattle.pgo_meaning.specs.Statements.{Setting as Meant, code, in_order};
ghost use Rattle.pgo_sections.specs.Code.{Skip};
ghost use Rattle.pgo_syntax.specs.Statement.{call_macro, labeled};

use crate::around::Around;
use crate::called::{Called, find_macro, handed};
use crate::piece::{Last, Piece};
use crate::simple::last_alone;
use crate::todo::{Part, Todo};
use pgo_base::expr::Expr;
use pgo_rewrite::arguments::Arguments;
use pgo_syntax::name::PlacedName;
use std::alloc::{AllocError, Global};
use std::rc::Rc;

/// Arguments, and those around them.
fn within(
    alloc: Global,
    arguments: Arguments,
    layers: &[Arguments],
) -> Result<Vec<Arguments>, AllocError>
    ensures { IfOk result (λ v. v.items ≡ arguments ∷ layers.now) }
{
    let mut all = Vec::new(alloc);
    all.push(arguments)?;
    for es in layers {
        all.push(es.copy(alloc)?)?;
    }
    Ok(all)
}

/// The body of a macro with these arguments.
fn body_todo<'a>(
    alloc: Global,
    around: &Around<'a>,
    called: Called<'a>,
    arguments: Arguments,
) -> Result<Todo<'a>, AllocError>
    ensures { IfOk result (λ t. (s : Meant) → code_of s t ≡ in_order s (label_at s (around_view around.now).label) (puts_among (arguments ∷ (around_view around.now).layers) (spec.placed_among (spec.bodies (take called.entry.place around.now.macros)) (labeled called.entry.of.now.body)))) }
{
    let layers = Rc::new(alloc, within(alloc, arguments, &around.layers)?)?;
    let macros = around.macros.before(called.place)?;
    let inner = Around {
        layers,
        macros,
        label: around.label,
    };
    Ok(Todo::Text(Part::Order(called.of.body.as_slice()), inner))
}

/// `skip`, and then the body of a macro with these arguments.
fn body_row<'a>(
    alloc: Global,
    around: &Around<'a>,
    called: Called<'a>,
    arguments: Arguments,
) -> Result<Vec<Todo<'a>>, AllocError>
    ensures { IfOk result (λ v. (s : Meant) → codes_of s v.items ≡ Skip ∷ in_order s (label_at s (around_view around.now).label) (puts_among (arguments ∷ (around_view around.now).layers) (spec.placed_among (spec.bodies (take called.entry.place around.now.macros)) (labeled called.entry.of.now.body))) ∷ []) }
{
    let mut todos = Vec::new(alloc);
    todos.push(Todo::Skip)?;
    todos.push(body_todo(alloc, around, called, arguments)?)?;
    Ok(todos)
}

/// What a call does of a macro that is there.
fn body_piece<'a>(
    alloc: Global,
    around: &Around<'a>,
    called: Called<'a>,
    list: &[Expr],
) -> Result<Piece<'a>, AllocError>
    ensures { IfOk result (λ p. (s : Meant) (n : ℕ) → piece_code s p ≡ code s (label_at s (around_view around.now).label) (puts (around_view around.now).layers (spec.walked n (spec.put (spec.handed (called_body around.now.macros called.entry).parameters (map tree list.now)) (called_body around.now.macros called.entry).statement)))) }
{
    let arguments = handed(alloc, called.of.params.as_slice(), list)?;
    let todos = body_row(alloc, around, called, arguments)?;
    Ok(last_alone(alloc, Last::Row(todos)))
}

/// `m(e, f)`
pub(crate) fn call_piece<'a>(
    alloc: Global,
    around: &Around<'a>,
    m: &PlacedName,
    list: &[Expr],
) -> Result<Piece<'a>, AllocError>
    ensures { IfOk result (λ p. (s : Meant) (n : ℕ) → piece_code s p ≡ code s (label_at s (around_view around.now).label) (stands (around_view around.now) (call_macro n m.now (map tree list.now)))) }
{
    match find_macro(&around.macros, &m.name) {
        None => Ok(last_alone(alloc, Last::Empty)),
        Some(called) => body_piece(alloc, around, called, list),
    }
}
