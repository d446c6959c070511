// Whether two expressions are the same.
ghost use Rattle.std.specs.Prelude.{◌≡◌, false, IfOk};
ghost use Rattle.pgo_base.specs.ExprView.{tree};
ghost use Rattle.pgo_model.specs.ExprText.{expr_text};
ghost use Rattle.pgo_module_read.specs.Building as spec;

use pgo_base::expr::{Expr, Sub};
use pgo_base::text::Text;
use pgo_expr_write::write::write_expr;
use pgo_lexer::bytes::is_same;
use std::alloc::{AllocError, Global};

/// The canonical text of an expression.
pub fn text_of(alloc: Global, e: &Expr) -> Result<Text, AllocError>
    ensures { IfOk result (λ t. t ≡ expr_text false (tree e.now)) }
{
    match write_expr(alloc, e) {
        Ok(text) => Ok(text),
        Err(_) => Err(AllocError),
    }
}

/// Whether two expressions have the same canonical text.
pub fn same_tree(alloc: Global, a: &Sub, b: &Sub) -> Result<bool, AllocError>
    ensures { IfOk result (λ r. r ≡ spec.same_tree a.now b.now) }
{
    let first = text_of(alloc, a.get())?;
    let second = text_of(alloc, b.get())?;
    Ok(is_same(first.as_bytes(), second.as_bytes()))
}
