// Small trees.
ghost use Rattle.std.specs.Prelude.{◌≡◌, [], ◌∷◌, IfOk};
ghost use Rattle.pgo_base.specs.Tree.{binary, bound, call, index, name, quantified, text, trees};
ghost use Rattle.pgo_model.specs.Module.{self_call, stands_at};
ghost use Rattle.pgo_model.specs.Written.{pc, self_name};

use pgo_base::expr::{Binders, Expr, Exprs, Infix, Names, Quantifier, Sub};
use pgo_base::results::both;
use pgo_base::text::Text;
use std::alloc::{AllocError, Global};

/// `x`. `AllocError` comes where there is no memory, here and below.
pub fn name_of(alloc: Global, x: &[u8]) -> Result<Sub, AllocError>
    ensures { IfOk result (λ s. s ≡ name x.now) }
{
    Sub::new(alloc, Expr::Name(Text::from_slice(alloc, x)?))
}

/// `"x"`
pub fn text_of(alloc: Global, x: &[u8]) -> Result<Sub, AllocError>
    ensures { IfOk result (λ s. s ≡ text x.now) }
{
    Sub::new(alloc, Expr::Text(Text::from_slice(alloc, x)?))
}

/// `a o b`
pub fn binary_of(alloc: Global, o: Infix, a: Sub, b: Sub) -> Result<Sub, AllocError>
    ensures { IfOk result (λ s. s ≡ binary o a b) }
{
    Sub::new(alloc, Expr::Infix(o, a, b))
}

/// One expression.
pub fn one_expr(alloc: Global, e: Sub) -> Result<Exprs, AllocError>
    ensures { IfOk result (λ es. es ≡ e ∷ []) }
{
    let mut list = Exprs::new(alloc);
    list.push(e)?;
    Ok(list)
}

/// One name.
fn one_name(alloc: Global, x: &[u8]) -> Result<Names, AllocError>
    ensures { IfOk result (λ xs. xs ≡ x.now ∷ []) }
{
    let mut list = Names::new(alloc);
    list.push(Text::from_slice(alloc, x)?)?;
    Ok(list)
}

/// `x \in r`, where a name is bound.
pub fn binder(alloc: Global, x: &[u8], r: Sub) -> Result<Binders, AllocError>
    ensures { IfOk result (λ bs. bs ≡ (x.now ∷ [], r) ∷ []) }
{
    let names = one_name(alloc, x)?;
    let mut list = Binders::new(alloc);
    list.push(names, r)?;
    Ok(list)
}

/// `\E x \in r : p` or `\A x \in r : p`
pub fn quantified_of(
    alloc: Global,
    q: Quantifier,
    x: &[u8],
    r: Sub,
    p: Sub,
) -> Result<Sub, AllocError>
    ensures { IfOk result (λ s. s ≡ quantified q (bound ((x.now ∷ [], r) ∷ [])) p) }
{
    let bound = binder(alloc, x, r)?;
    Sub::new(alloc, Expr::Quantified(q, bound, p))
}

/// A call.
pub fn call_of(alloc: Global, x: &[u8], arguments: Exprs) -> Result<Sub, AllocError>
    ensures { IfOk result (λ s. s ≡ call x.now (trees arguments)) }
{
    let x = Text::from_slice(alloc, x)?;
    Sub::new(alloc, Expr::Call(x, arguments))
}

/// `x(self)`
pub fn call_with_self(alloc: Global, x: &Text) -> Result<Sub, AllocError>
    ensures { IfOk result (λ s. s ≡ self_call x.now) }
{
    let own = one_expr(alloc, name_of(alloc, b"self")?)?;
    call_of(alloc, x.as_bytes(), own)
}

/// `pc[self]`
fn place_of_self(alloc: Global) -> Result<Sub, AllocError>
    ensures { IfOk result (λ s. s ≡ index (name pc) (trees (name self_name ∷ []))) }
{
    let (pc, own) = both(name_of(alloc, b"pc"), name_of(alloc, b"self"))?;
    let indices = one_expr(alloc, own)?;
    Sub::new(alloc, Expr::Index(pc, indices))
}

/// `pc[self] = "l"`
pub fn place_is(alloc: Global, label: &[u8]) -> Result<Sub, AllocError>
    ensures { IfOk result (λ s. s ≡ stands_at label.now) }
{
    let (place, label) = both(place_of_self(alloc), text_of(alloc, label))?;
    binary_of(alloc, Infix::Equal, place, label)
}
