// Expressions from their parts.
ghost use Rattle.std.specs.Prelude.{◌≡◌, IfOk};
ghost use Rattle.pgo_base.specs.ExprView.{tree};
ghost use Rattle.pgo_expr_read.specs.Spells as spec;

use crate::table::{Form, Operator};
use pgo_base::expr::{Expr, Exprs, Infix, Sub};
use pgo_lexer::symbol::Junction;
use std::alloc::{AllocError, Global};

/// A product of two.
#[tactic(auto, unfolding(crate::specs::Spells::product_of_two))]
fn product_of_two(alloc: Global, a: Sub, b: Sub) -> Result<Expr, AllocError>
    ensures { IfOk result (λ made. tree made ≡ spec.product_of_two a b) }
{
    let mut all = Exprs::new(alloc);
    all.push(a)?;
    all.push(b)?;
    Ok(Expr::Product(all))
}

/// A product of one more.
#[tactic(auto, using(crate::proofs::Products::appended_trees), unfolding(crate::specs::Spells::extended))]
fn extended(alloc: Global, a: Sub, b: Sub) -> Result<Expr, AllocError>
    ensures { IfOk result (λ made. tree made ≡ spec.extended a b) }
{
    let mut e = a.into_expr();
    match &mut e {
        Expr::Product(list) => {
            list.push(b)?;
            Ok(e)
        }
        _ => product_of_two(alloc, Sub::new(alloc, e)?, b),
    }
}

/// An operator between two operands, the left one of this form.
pub fn applied(alloc: Global, op: Operator, form: Form, a: Sub, b: Sub) -> Result<Expr, AllocError>
    ensures { IfOk result (λ made. tree made ≡ spec.applied op form a b) }
{
    match op {
        Operator::Infix(op) => Ok(Expr::Infix(op, a, b)),
        Operator::Product => match form {
            Form::Operation(Operator::Product) => extended(alloc, a, b),
            _ => product_of_two(alloc, a, b),
        },
    }
}

/// The operator of a junction list.
pub fn infix_of(op: Junction) -> Infix
    ensures { result ≡ spec.infix_of op }
{
    match op {
        Junction::And => Infix::And,
        Junction::Or => Infix::Or,
    }
}
