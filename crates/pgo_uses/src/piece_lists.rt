// The lists of an expression as pieces.
ghost use Rattle.std.specs.Prelude.{◌≡◌, ◌+◌, [], ◌++◌, map, length, IfOk};
ghost use Rattle.pgo_base.specs.Tree.{trees, named, arms, bound as bound_trees, paths, let_in};
ghost use Rattle.pgo_uses.specs.Pieces as spec;
ghost use Rattle.pgo_uses.specs.PieceView.{see};
ghost use Rattle.pgo_uses.specs.Scopes.{row_names};
ghost use Rattle.pgo_uses.specs.Uses.{let_names, binder_names};
ghost use Rattle.pgo_uses.specs.declared.pieces.Manner.TheVariants.{Plain};

use crate::names::Names;
use crate::pieces::{Manner, Piece, add};
use pgo_base::expr::{Arms, Binders, Exprs, Named, Names as BoundNames, Sub, Updates};
use std::alloc::{AllocError, Global};

/// Adds operands.
pub fn add_all<'a>(pieces: &mut Vec<Piece<'a>>, list: &'a Exprs) -> Result<(), AllocError>
    ensures { IfOk result (λ _. map see pieces.new.items ≡ map see pieces.old.items ++ spec.operands (trees list.now)) }
{
    for e in list.as_slice() {
        add(pieces, &[Piece::Member(e, Manner::Plain, 0)])?;
    }
    Ok(())
}

/// Adds the fields of a record.
pub fn add_fields<'a>(pieces: &mut Vec<Piece<'a>>, list: &'a Named) -> Result<(), AllocError>
    ensures { IfOk result (λ _. map see pieces.new.items ≡ map see pieces.old.items ++ spec.field_pieces (named list.now)) }
{
    for f in list.as_slice() {
        add(
            pieces,
            &[Piece::Field(&f.0), Piece::Member(&f.1, Manner::Plain, 0)],
        )?;
    }
    Ok(())
}

/// Adds the arms of CASE.
pub fn add_arms<'a>(pieces: &mut Vec<Piece<'a>>, list: &'a Arms) -> Result<(), AllocError>
    ensures { IfOk result (λ _. map see pieces.new.items ≡ map see pieces.old.items ++ spec.arm_pieces Plain (arms list.now)) }
{
    let mut manner = Manner::Plain;
    for arm in list.as_slice() {
        add(
            pieces,
            &[
                Piece::Member(&arm.0, manner, 0),
                Piece::Member(&arm.1, Manner::Hidden, 0),
            ],
        )?;
        manner = Manner::Hidden;
    }
    Ok(())
}

/// Adds the definitions of a LET, each behind those before it, and the expression that sees them all.
pub fn add_let<'a>(
    alloc: Global,
    pieces: &mut Vec<Piece<'a>>,
    bound: &mut Names,
    list: &'a Named,
    e: &'a Sub,
) -> Result<(), AllocError>
    requires { bound.old ≡ [] }
    ensures pieces { IfOk result (λ _. map see pieces.new.items ≡ map see pieces.old.items ++ spec.pieces_of (let_in (named list.now) e.now)) }
    ensures bound { IfOk result (λ _. row_names bound.new ≡ let_names (named list.now)) }
{
    add_definitions(alloc, pieces, bound, list)?;
    add(pieces, &[Piece::Operand(e, Manner::Hidden, bound.len())])
}

/// Adds the definitions of a LET, behind these names.
fn add_definitions<'a>(
    alloc: Global,
    pieces: &mut Vec<Piece<'a>>,
    bound: &mut Names,
    list: &'a Named,
) -> Result<(), AllocError>
    ensures pieces { IfOk result (λ _. map see pieces.new.items ≡ map see pieces.old.items ++ spec.let_pieces (length bound.old) (named list.now)) }
    ensures bound { IfOk result (λ _. row_names bound.new ≡ row_names bound.old ++ let_names (named list.now)) }
{
    for d in list.as_slice() {
        let count = bound.len();
        add(
            pieces,
            &[
                Piece::Bound(&d.0, count),
                Piece::Member(&d.1, Manner::Hidden, count),
            ],
        )?;
        bound.push(alloc, &d.0, 0)?;
    }
    Ok(())
}

/// Adds names that are bound, behind these.
fn add_names<'a>(
    alloc: Global,
    pieces: &mut Vec<Piece<'a>>,
    bound: &mut Names,
    names: &'a BoundNames,
) -> Result<(), AllocError>
    ensures pieces { IfOk result (λ _. map see pieces.new.items ≡ map see pieces.old.items ++ spec.name_pieces (length bound.old) names.now) }
    ensures bound { IfOk result (λ _. row_names bound.new ≡ row_names bound.old ++ names.now) }
    ensures count { IfOk result (λ _. length bound.new ≡ length names.now + length bound.old) }
{
    for x in names.as_slice() {
        let count = bound.len();
        add(pieces, &[Piece::Bound(x, count)])?;
        bound.push(alloc, x, 0)?;
    }
    Ok(())
}

/// Adds binders, behind these names.
pub fn add_binders<'a>(
    alloc: Global,
    pieces: &mut Vec<Piece<'a>>,
    bound: &mut Names,
    list: &'a Binders,
) -> Result<(), AllocError>
    ensures pieces { IfOk result (λ _. map see pieces.new.items ≡ map see pieces.old.items ++ spec.binder_pieces (length bound.old) (bound_trees list.now)) }
    ensures bound { IfOk result (λ _. row_names bound.new ≡ row_names bound.old ++ binder_names (bound_trees list.now)) }
{
    for b in list.as_slice() {
        add_names(alloc, pieces, bound, &b.0)?;
        add(pieces, &[Piece::Member(&b.1, Manner::Plain, 0)])?;
    }
    Ok(())
}

/// Adds the changes of an EXCEPT.
pub fn add_updates<'a>(pieces: &mut Vec<Piece<'a>>, list: &'a Updates) -> Result<(), AllocError>
    ensures { IfOk result (λ _. map see pieces.new.items ≡ map see pieces.old.items ++ spec.update_pieces (paths list.now)) }
{
    for u in list.as_slice() {
        add_all(pieces, &u.path)?;
        add(pieces, &[Piece::Member(&u.value, Manner::Plain, 0)])?;
    }
    Ok(())
}
