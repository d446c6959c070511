// The operators of an expression.
use crate::spellings::spelling;
use pgo_base::expr::Expr;
use pgo_lexer::symbol::Symbol;
use std::alloc::{AllocError, Global};

/// The outermost operator, and those of its two operands around it.
pub fn operators(alloc: Global, e: &Expr) -> Result<String, AllocError> {
    match e {
        Expr::Infix(op, left, right) => {
            let op = spelling(Symbol::Infix(*op));
            let (left, right) = (operator(left.get()), operator(right.get()));
            format!(in alloc; "{left} {op} {right}")
        }
        _ => String::from_str(alloc, operator(e)),
    }
}

fn operator(e: &Expr) -> &'static str {
    match e {
        Expr::Infix(op, _, _) => spelling(Symbol::Infix(*op)),
        Expr::Prefix(op, _) => spelling(Symbol::Prefix(*op)),
        Expr::Quantified(quantifier, _, _) => spelling(Symbol::Quantifier(*quantifier)),
        Expr::Word(word) => spelling(Symbol::Word(*word)),
        _ => "_",
    }
}
