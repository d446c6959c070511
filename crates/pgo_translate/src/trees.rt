// Small trees.
ghost use Rattle.std.specs.Prelude.{◌≡◌, IfOk};
ghost use Rattle.pgo_base.specs.ExprView.{tree};
ghost use Rattle.pgo_base.specs.Tree.{primed};
ghost use Rattle.pgo_translate.specs.Items.{asserts, only, prints, some_in};

use pgo_base::expr::{Expr, Quantifier, Sub};
use pgo_base::results::both;
use pgo_base::text::Text;
use pgo_module_trees::small::{call_of, one_expr, quantified_of, text_of};
use std::alloc::{AllocError, Global};

/// `x'`
pub fn primed_name(alloc: Global, x: &[u8]) -> Result<Sub, AllocError>
    ensures { IfOk result (λ s. s ≡ primed x.now) }
{
    Sub::new(alloc, Expr::Primed(Text::from_slice(alloc, x)?))
}

/// The same expression once more.
pub fn copy_of(alloc: Global, e: &Expr) -> Result<Sub, AllocError>
    ensures { IfOk result (λ s. s ≡ tree e.now) }
{
    Sub::new(alloc, e.copy(alloc)?)
}

/// `\E x \in r : p`
pub fn some_of(alloc: Global, x: &[u8], r: Sub, p: Sub) -> Result<Sub, AllocError>
    ensures { IfOk result (λ s. s ≡ some_in x.now r p) }
{
    quantified_of(alloc, Quantifier::Exists, x, r, p)
}

/// `{e}`
pub fn only_of(alloc: Global, e: &Expr) -> Result<Sub, AllocError>
    ensures { IfOk result (λ s. s ≡ only (tree e.now)) }
{
    let members = one_expr(alloc, copy_of(alloc, e)?)?;
    Sub::new(alloc, Expr::SetOf(members))
}

/// `Assert(e, "assert")`
pub fn assert_of(alloc: Global, e: &Expr) -> Result<Sub, AllocError>
    ensures { IfOk result (λ s. s ≡ asserts (tree e.now)) }
{
    let (e, word) = both(copy_of(alloc, e), text_of(alloc, b"assert"))?;
    let mut arguments = one_expr(alloc, e)?;
    arguments.push(word)?;
    call_of(alloc, b"Assert", arguments)
}

/// `PrintT(e)`
pub fn print_of(alloc: Global, e: &Expr) -> Result<Sub, AllocError>
    ensures { IfOk result (λ s. s ≡ prints (tree e.now)) }
{
    let arguments = one_expr(alloc, copy_of(alloc, e)?)?;
    call_of(alloc, b"PrintT", arguments)
}
