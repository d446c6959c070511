// What stands in an expression, one level deep, in the order of the text: names, and operands.
ghost use Rattle.std.specs.Prelude.{◌≡◌, [], ◌∷◌, ◌++◌, map, IfOk};
ghost use Rattle.pgo_base.specs.ExprView.{tree};
ghost use Rattle.pgo_base.specs.Tree.{trees, arms, paths, bound as bound_trees, case_other, except, index, call, choose, image};
ghost use Rattle.pgo_uses.specs.Pieces as spec;
ghost use Rattle.pgo_uses.specs.Uses.{binder_names, count_trees};
ghost use Rattle.pgo_uses.specs.PieceView.{see};
ghost use Rattle.pgo_uses.specs.Scopes.{row_names};
ghost use Rattle.pgo_uses.specs.declared.pieces.Manner.TheVariants.{Plain, Hidden};

use crate::names::Names;
use crate::piece_lists::{add_all, add_arms, add_binders, add_fields, add_let, add_updates};
use pgo_base::expr::{Arms, Binders, Expr, Exprs, Sub, Updates};
use pgo_base::text::Text;
use std::alloc::{AllocError, Global};

/// How an operand stands.
#[derive(Clone, Copy)]
pub enum Manner {
    Plain,
    /// directly before one index
    Indexed,
    /// evaluated with some values of the names only, or not always
    Hidden,
}

/// A piece of an expression. A number of names says how many of the names that the expression binds are in scope there.
#[derive(Clone, Copy)]
pub enum Piece<'a> {
    /// a name alone
    Name(&'a Text),
    /// an operator with so many arguments
    Applied(&'a Text, usize),
    /// the field of a record
    Field(&'a Text),
    /// a name that is bound here
    Bound(&'a Text, usize),
    Operand(&'a Sub, Manner, usize),
    /// a member of a list
    Member(&'a Expr, Manner, usize),
}

/// Adds these pieces.
pub fn add<'a>(pieces: &mut Vec<Piece<'a>>, row: &[Piece<'a>]) -> Result<(), AllocError>
    ensures { IfOk result (λ _. map see pieces.new.items ≡ map see pieces.old.items ++ map see row.now) }
{
    pieces.extend_from_slice(row)
}

/// The pieces of an expression, and the names that it binds.
#[derive(Drop)]
pub struct Pieces<'a> {
    pub list: Vec<Piece<'a>>,
    pub bound: Names,
}

/// The pieces of an expression.
pub fn pieces_of<'a>(alloc: Global, e: &'a Expr) -> Result<Pieces<'a>, AllocError>
    ensures pieces { IfOk result (λ v. map see v.list.items ≡ spec.pieces_of (tree e.now)) }
    ensures bound { IfOk result (λ v. row_names v.bound ≡ spec.bound_by (tree e.now)) }
{
    let mut list = Vec::new(alloc);
    let mut bound = Names::new(alloc);
    add_form(alloc, &mut list, &mut bound, e)?;
    Ok(Pieces { list, bound })
}

fn add_form<'a>(
    alloc: Global,
    pieces: &mut Vec<Piece<'a>>,
    bound: &mut Names,
    e: &'a Expr,
) -> Result<(), AllocError>
    requires { bound.old ≡ [] }
    ensures pieces { IfOk result (λ _. map see pieces.new.items ≡ map see pieces.old.items ++ spec.pieces_of (tree e.now)) }
    ensures bound { IfOk result (λ _. row_names bound.new ≡ spec.bound_by (tree e.now)) }
{
    match e {
        Expr::Name(x) => add(pieces, &[Piece::Name(x)]),
        Expr::Primed(_)
        | Expr::Number(_)
        | Expr::Text(_)
        | Expr::Truth(_)
        | Expr::At
        | Expr::Word(_)
        | Expr::Unchanged(_) => Ok(()),
        Expr::Prefix(_, a) => add(pieces, &[plain(a)]),
        Expr::Infix(_, a, b) | Expr::FunSet(a, b) => add(pieces, &[plain(a), plain(b)]),
        Expr::Product(list) | Expr::Tuple(list) | Expr::SetOf(list) => add_all(pieces, list),
        Expr::If(p, a, b) => add(pieces, &[plain(p), hidden(a, 0), hidden(b, 0)]),
        Expr::Case(list) => add_arms(pieces, list),
        Expr::CaseOther(list, e) => add_case_other(pieces, list, e),
        Expr::Let(list, e) => add_let(alloc, pieces, bound, list, e),
        Expr::Quantified(_, list, e) | Expr::FunOf(list, e) => add_bound(
            alloc, pieces, bound, list, e,
        ),
        Expr::Choose(x, s, p) | Expr::Filter(x, s, p) => add_choice(alloc, pieces, bound, x, s, p),
        Expr::Image(e, x, s) => add_image(alloc, pieces, bound, e, x, s),
        Expr::Record(list) | Expr::RecordSet(list) => add_fields(pieces, list),
        Expr::Except(f, list) => add_except(pieces, f, list),
        Expr::Index(f, list) => add_index(pieces, f, list),
        Expr::Field(r, x) => add(pieces, &[plain(r), Piece::Field(x)]),
        Expr::Call(x, list) => add_call(pieces, x, list),
    }
}

/// An operand that sees what the expression sees.
fn plain<'a>(e: &'a Sub) -> Piece<'a>
    ensures { see result ≡ spec.operand e.now Plain 0 }
{
    Piece::Operand(e, Manner::Plain, 0)
}

/// An operand that is evaluated with some values of the names only, or not always.
fn hidden<'a>(e: &'a Sub, count: usize) -> Piece<'a>
    ensures { see result ≡ spec.operand e.now Hidden count }
{
    Piece::Operand(e, Manner::Hidden, count)
}

fn add_case_other<'a>(
    pieces: &mut Vec<Piece<'a>>,
    list: &'a Arms,
    e: &'a Sub,
) -> Result<(), AllocError>
    ensures { IfOk result (λ _. map see pieces.new.items ≡ map see pieces.old.items ++ spec.pieces_of (case_other (arms list.now) e.now)) }
{
    add_arms(pieces, list)?;
    add(pieces, &[hidden(e, 0)])
}

fn add_bound<'a>(
    alloc: Global,
    pieces: &mut Vec<Piece<'a>>,
    bound: &mut Names,
    list: &'a Binders,
    e: &'a Sub,
) -> Result<(), AllocError>
    requires { bound.old ≡ [] }
    ensures pieces { IfOk result (λ _. map see pieces.new.items ≡ map see pieces.old.items ++ spec.bound_pieces (bound_trees list.now) e.now) }
    ensures bound { IfOk result (λ _. row_names bound.new ≡ binder_names (bound_trees list.now)) }
{
    add_binders(alloc, pieces, bound, list)?;
    add(pieces, &[hidden(e, bound.len())])
}

/// `CHOOSE x \in S : p` and `{x \in S : p}`.
fn add_choice<'a>(
    alloc: Global,
    pieces: &mut Vec<Piece<'a>>,
    bound: &mut Names,
    x: &'a Text,
    s: &'a Sub,
    p: &'a Sub,
) -> Result<(), AllocError>
    requires { bound.old ≡ [] }
    ensures pieces { IfOk result (λ _. map see pieces.new.items ≡ map see pieces.old.items ++ spec.pieces_of (choose x.now s.now p.now)) }
    ensures bound { IfOk result (λ _. row_names bound.new ≡ x.now ∷ []) }
{
    bound.push(alloc, x, 0)?;
    add(pieces, &[Piece::Bound(x, 0), plain(s), hidden(p, 1)])
}

/// `{e : x \in S}`.
fn add_image<'a>(
    alloc: Global,
    pieces: &mut Vec<Piece<'a>>,
    bound: &mut Names,
    e: &'a Sub,
    x: &'a Text,
    s: &'a Sub,
) -> Result<(), AllocError>
    requires { bound.old ≡ [] }
    ensures pieces { IfOk result (λ _. map see pieces.new.items ≡ map see pieces.old.items ++ spec.pieces_of (image e.now x.now s.now)) }
    ensures bound { IfOk result (λ _. row_names bound.new ≡ x.now ∷ []) }
{
    bound.push(alloc, x, 0)?;
    add(pieces, &[hidden(e, 1), Piece::Bound(x, 0), plain(s)])
}

fn add_except<'a>(
    pieces: &mut Vec<Piece<'a>>,
    f: &'a Sub,
    list: &'a Updates,
) -> Result<(), AllocError>
    ensures { IfOk result (λ _. map see pieces.new.items ≡ map see pieces.old.items ++ spec.pieces_of (except f.now (paths list.now))) }
{
    add(pieces, &[plain(f)])?;
    add_updates(pieces, list)
}

fn add_index<'a>(pieces: &mut Vec<Piece<'a>>, f: &'a Sub, list: &'a Exprs) -> Result<(), AllocError>
    ensures { IfOk result (λ _. map see pieces.new.items ≡ map see pieces.old.items ++ spec.pieces_of (index f.now (trees list.now))) }
{
    let manner = index_manner(list);
    add(pieces, &[Piece::Operand(f, manner, 0)])?;
    add_all(pieces, list)
}

/// How what stands before these indices stands.
fn index_manner(list: &Exprs) -> Manner
    ensures { result ≡ spec.index_manner (trees list.now) }
{
    if list.as_slice().len() == 1 {
        Manner::Indexed
    } else {
        Manner::Plain
    }
}

/// How many these are.
fn count_of(list: &Exprs) -> usize
    ensures { result ≡ count_trees (trees list.now) }
{
    list.as_slice().len()
}

fn add_call<'a>(pieces: &mut Vec<Piece<'a>>, x: &'a Text, list: &'a Exprs) -> Result<(), AllocError>
    ensures { IfOk result (λ _. map see pieces.new.items ≡ map see pieces.old.items ++ spec.pieces_of (call x.now (trees list.now))) }
{
    add(pieces, &[Piece::Applied(x, count_of(list))])?;
    add_all(pieces, list)
}
