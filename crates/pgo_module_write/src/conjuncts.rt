// The items of a conjunction.
ghost use Rattle.std.specs.Prelude.{◌≡◌, [], map, reverse, option_map, IfOk};
ghost use Rattle.pgo_base.specs.ExprView.{tree};
ghost use Rattle.pgo_base.specs.Tree.{binary};
ghost use Rattle.pgo_model.specs.ModuleText as text;
ghost use Rattle.pgo_module_write.specs.Conjuncts as spec;

use pgo_base::expr::{Expr, Infix, Sub};
use std::alloc::{AllocError, Global};

/// The sides, where the operator is `/\`.
fn sides_with<'a>(o: Infix, a: &'a Sub, b: &'a Sub) -> Option<(&'a Sub, &'a Sub)>
    ensures { option_map (λ p. (p.0.now, p.1.now)) result ≡ spec.sides (binary o a.now b.now) }
{
    match o {
        Infix::And => Some((a, b)),
        _ => None,
    }
}

/// The two sides of a conjunction.
fn sides(e: &Expr) -> Option<(&Sub, &Sub)>
    ensures { option_map (λ p. (p.0.now, p.1.now)) result ≡ spec.sides (tree e.now) }
{
    match e {
        Expr::Infix(o, a, b) => sides_with(*o, a, b),
        _ => None,
    }
}

/// The items of a conjunction along its left side, of which the last stands first.
pub fn conjuncts(alloc: Global, e: &Sub) -> Result<Vec<&Sub>, AllocError>
    ensures { IfOk result (λ v. map (λ r. r.now) (reverse v.items) ≡ text.conjuncts e.now []) }
{
    let mut left = e;
    let mut items = Vec::new(alloc);
    while let Some((a, b)) = sides(left.get()) {
        items.push(b)?;
        left = a;
    }
    items.push(left)?;
    Ok(items)
}
