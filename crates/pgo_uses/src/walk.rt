// The names in an expression. Each call goes down to the height of the tree; lists are walked by loops.
ghost use Rattle.std.specs.Prelude.{◌≡◌, ◌++◌, [], map, IfOk};
ghost use Rattle.pgo_base.specs.ExprView.{tree};
ghost use Rattle.pgo_uses.specs.Pieces.{in_manner as as_manner, piece_uses, pieces_uses};
ghost use Rattle.pgo_uses.specs.PieceView.{see};
ghost use Rattle.pgo_uses.specs.Scopes.{in_scope, row_names};
ghost use Rattle.pgo_uses.specs.Uses as spec;

use crate::names::Names;
use crate::pieces::{Manner, Piece, pieces_of};
use crate::scopes::Scope;
use crate::uses::{Around, Form, Use};
use pgo_base::expr::Expr;
use pgo_base::text::Text;
use std::alloc::{AllocError, Global};

/// Adds a name as it stands, where these names are in scope.
pub(crate) fn add_use(
    alloc: Global,
    scope: &Scope<'_>,
    around: Around,
    name: &Text,
    form: Form,
    out: &mut Vec<Use>,
) -> Result<(), AllocError>
    ensures { IfOk result (λ _. out.new.items ≡ out.old.items ++ spec.one (in_scope scope.now) around name.now form) }
{
    out.push(Use {
        name: name.copy(alloc)?,
        form,
        inner: scope.has(name),
        around,
    })?;
    Ok(())
}

/// What is known in an operand that stands so.
fn in_manner(around: Around, manner: Manner) -> Around
    ensures { result ≡ as_manner manner around }
{
    let mut inside = around;
    match manner {
        Manner::Plain => inside.indexed = false,
        Manner::Indexed => inside.indexed = true,
        Manner::Hidden => {
            inside.indexed = false;
            inside.hidden = true;
        }
    }
    inside
}

/// Adds the names in an expression, in the order of the text, where no names are in scope.
pub fn add_uses(
    alloc: Global,
    around: Around,
    e: &Expr,
    out: &mut Vec<Use>,
) -> Result<(), AllocError>
    ensures { IfOk result (λ _. out.new.items ≡ out.old.items ++ spec.uses [] around (tree e.now)) }
{
    let scope = Scope::new();
    add_uses_in(alloc, &scope, around, e, out)
}

/// Adds the names in an expression, in the order of the text, where these names are in scope.
#[cycle(walk)]
pub(crate) fn add_uses_in(
    alloc: Global,
    scope: &Scope<'_>,
    around: Around,
    e: &Expr,
    out: &mut Vec<Use>,
) -> Result<(), AllocError>
    ensures { IfOk result (λ _. out.new.items ≡ out.old.items ++ spec.uses (in_scope scope.now) around (tree e.now)) }
{
    let pieces = pieces_of(alloc, e)?;
    let list = pieces.list.as_slice();
    add_pieces(alloc, scope, &pieces.bound, around, list, out)
}

/// The same of the pieces of an expression, which binds the names `bound`.
#[cycle(walk)]
fn add_pieces(
    alloc: Global,
    scope: &Scope<'_>,
    bound: &Names,
    around: Around,
    pieces: &[Piece<'_>],
    out: &mut Vec<Use>,
) -> Result<(), AllocError>
    ensures { IfOk result (λ _. out.new.items ≡ out.old.items ++ pieces_uses (in_scope scope.now) (row_names bound.now) around (map see pieces.now)) }
{
    for piece in pieces {
        add_piece(alloc, scope, bound, around, *piece, out)?;
    }
    Ok(())
}

/// The same of one piece.
#[cycle(walk)]
fn add_piece(
    alloc: Global,
    scope: &Scope<'_>,
    bound: &Names,
    around: Around,
    piece: Piece<'_>,
    out: &mut Vec<Use>,
) -> Result<(), AllocError>
    ensures { IfOk result (λ _. out.new.items ≡ out.old.items ++ piece_uses (in_scope scope.now) (row_names bound.now) around (see piece.entry)) }
{
    match piece {
        Piece::Name(x) => add_use(alloc, scope, around, x, Form::Alone, out),
        Piece::Applied(x, count) => add_use(alloc, scope, around, x, Form::Applied(count), out),
        Piece::Field(x) => add_use(alloc, scope, around, x, Form::Field, out),
        Piece::Bound(x, count) => {
            let inner = Scope::within(&*scope, &*bound, count);
            add_use(alloc, &inner, around, x, Form::Bound, out)
        }
        Piece::Operand(e, manner, count) => {
            let inner = Scope::within(&*scope, &*bound, count);
            let inside = in_manner(around, manner);
            add_uses_in(alloc, &inner, inside, e.get(), out)
        }
        Piece::Member(e, manner, count) => {
            let inner = Scope::within(&*scope, &*bound, count);
            let inside = in_manner(around, manner);
            add_uses_in(alloc, &inner, inside, e, out)
        }
    }
}
