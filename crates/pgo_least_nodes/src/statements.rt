// The counts of statements.
ghost use Rattle.std.specs.Prelude.{◌≡◌, map};
ghost use Rattle.pgo_base.specs.ExprView.{tree};
ghost use Rattle.pgo_syntax.specs.Origins.{origin_tree};
ghost use Rattle.pgo_least_nodes.specs.Counts as spec;
ghost use Rattle.pgo_syntax.specs.Statement.{guarded, labeled, statements};
ghost use Rattle.pgo_syntax.specs.StatementView.{branch_parts, labeled_pair, statement};

use crate::count::{
    Count, Counts, behind, either_of, ended, in_row, jump, labelled, none, plain, step,
};
use crate::macros::{MacroCounts, called};
use pgo_base::expr::Expr;
use pgo_syntax::assignment::Assignment;
use pgo_syntax::binding::{Origin, WithName};
use pgo_syntax::statement::{Branch, Labeled, Stmt};

/// Nodes that an expression has at least.
fn some_of(e: &Expr) -> u64
    ensures { result ≡ spec.some_of (tree e.now) }
{
    match e {
        Expr::Infix(_, _, _) => 3,
        _ => 1,
    }
}

/// A statement with this expression, and then what follows.
fn said(e: &Expr) -> Count
    ensures { result ≡ spec.said (tree e.now) }
{
    step(1 + some_of(e))
}

/// The first of these assignments, if there is one.
fn first_assignment(list: &[Assignment]) -> Count
    ensures { result ≡ spec.said_first (map (λ a. a.right) list.now) }
{
    match list.first() {
        None => step(0),
        Some(a) => said(a.right.get()),
    }
}

/// A statement with the expression of a name of a `with`.
fn said_origin(origin: &Origin) -> Count
    ensures { result ≡ spec.said (origin_tree origin.now) }
{
    match origin {
        Origin::Equals(e) => said(e.get()),
        Origin::In(e) => said(e.get()),
    }
}

/// The first of these names of a `with`, if there is one.
fn first_name(list: &[WithName]) -> Count
    ensures { result ≡ spec.said_first (map (λ w. origin_tree w.origin) list.now) }
{
    match list.first() {
        None => step(0),
        Some(w) => said_origin(&w.origin),
    }
}

/// Of a statement. It recurses to the nesting of statements.
#[cycle(counts)]
pub(crate) fn statement_counts(macros: &MacroCounts, t: &Stmt) -> Counts
    ensures { result ≡ spec.counts macros.now (statement t.now) }
{
    match t {
        Stmt::Skip(_) => plain(step(1)),
        Stmt::Assign(_, list) => plain(first_assignment(list.as_slice())),
        Stmt::If(_, list) => branches_counts(macros, plain(step(0)), list.as_slice()),
        Stmt::IfElse(_, list, other) => branches_counts(
            macros,
            statement_counts(macros, other.get()),
            list.as_slice(),
        ),
        Stmt::While(_, e, body) => branch(
            e.get(),
            ended(statement_counts(macros, body.get())),
            plain(step(0)),
        ),
        Stmt::Either(_, list) => behind(step(1), arms_counts(macros, list.as_slice())),
        Stmt::With(_, names, body) => behind(
            first_name(names.as_slice()),
            statement_counts(macros, body.get()),
        ),
        Stmt::Await(_, e) => plain(said(e.get())),
        Stmt::Print(_, e) => plain(said(e.get())),
        Stmt::Assert(_, e) => plain(said(e.get())),
        Stmt::Call(_, name, _) => plain(called(macros, &name.name)),
        Stmt::Block(_, list) => row_counts(macros, list.as_slice()),
        _ => plain(jump()),
    }
}

/// Of a test between the one and the other.
fn branch(e: &Expr, a: Counts, b: Counts) -> Counts
    ensures { result ≡ spec.branch (tree e.now) a b }
{
    behind(said(e), either_of(a, b))
}

/// Of the statements of an `either`.
#[cycle(counts)]
fn arms_counts(macros: &MacroCounts, list: &[Stmt]) -> Counts
    ensures { result ≡ spec.arms_counts macros.now (statements (map statement list.now)) }
{
    let mut all = plain(none());
    let mut at = list.len();
    while at > 0 {
        at -= 1;
        all = either_of(statement_counts(macros, &list[at]), all);
    }
    all
}

/// Of the branches of an `if`, and what is done where none is taken.
#[cycle(counts)]
fn branches_counts(macros: &MacroCounts, other: Counts, list: &[Branch]) -> Counts
    ensures { result ≡ spec.branches_counts macros.now other (guarded (map branch_parts list.now)) }
{
    let mut all = other;
    let mut at = list.len();
    while at > 0 {
        at -= 1;
        let one = &list[at];
        all = branch(
            one.condition.get(),
            statement_counts(macros, &one.statement),
            all,
        );
    }
    all
}

/// Of the first of these statements and those behind it.
fn with_rest(is_labelled: bool, a: Counts, rest: Counts) -> Counts
    ensures { result ≡ spec.with_rest is_labelled a rest }
{
    if is_labelled {
        labelled(a, rest)
    } else {
        in_row(a, rest)
    }
}

/// Of the statements of a block.
#[cycle(counts)]
pub(crate) fn row_counts(macros: &MacroCounts, list: &[Labeled]) -> Counts
    ensures { result ≡ spec.row_counts macros.now (labeled (map labeled_pair list.now)) }
{
    let mut all = plain(step(0));
    let mut at = list.len();
    while at > 0 {
        at -= 1;
        let one = &list[at];
        all = with_rest(
            one.label.is_some(),
            statement_counts(macros, &one.statement),
            all,
        );
    }
    all
}
