// The macro that a call names, and its arguments.
ghost use Rattle.std.specs.Prelude.{◌≡◌, ◌≤◌, ◌⊎◌, map, Some, option_map, IfOk};
ghost use Rattle.pgo_base.specs.ExprView.{tree};
ghost use Rattle.pgo_base.specs.Lookup.{find};
ghost use Rattle.pgo_meaning.specs.MacrosPlaced as spec;
ghost use Rattle.pgo_meaning.specs.MacrosPlaced.{bodies};
ghost use Rattle.pgo_effects.specs.Bodies.{body_at};
ghost use Rattle.pgo_effects.specs.Called.{called_body};

use crate::indexed_macros::IndexedMacros;
use pgo_base::expr::Expr;
use pgo_base::text::Text;
use pgo_rewrite::arguments::Arguments;
use pgo_syntax::macros::Macro;
use pgo_syntax::name::PlacedName;
use std::alloc::{AllocError, Global};

/// A macro, and its place: those before it may be called in it.
#[derive(Clone, Copy)]
pub(crate) struct Called<'a> {
    pub of: &'a Macro,
    pub place: usize,
}

/// The last macro of the name.
pub(crate) fn find_macro<'a>(macros: &IndexedMacros<'a>, x: &Text) -> Option<Called<'a>>
    ensures { option_map (called_body macros.now) result ≡ find x.now (bodies macros.now) }
{
    match macros.place(x) {
        None => None,
        Some(place) => called_at(macros, place),
    }
}

/// The macro in this place.
fn called_at<'a>(macros: &IndexedMacros<'a>, place: usize) -> Option<Called<'a>>
    ensures { option_map (called_body macros.now) result ≡ body_at macros.now (Some place) }
{
    match macros.list().get(place) {
        None => None,
        Some(of) => Some(Called { of, place }),
    }
}

/// The lesser of two numbers.
fn lesser(a: usize, b: usize) -> usize
    ensures first { result ≤ a }
    ensures second { result ≤ b }
    ensures one { (result ≡ a) ⊎ (result ≡ b) }
{
    if a <= b { a } else { b }
}

/// The arguments of a call, each under its parameter's name. Where there are more of one than of the other, the first ones.
pub(crate) fn handed(
    alloc: Global,
    params: &[PlacedName],
    list: &[Expr],
) -> Result<Arguments, AllocError>
    ensures { IfOk result (λ es. es ≡ spec.handed (map (λ p. p.name) params.now) (map tree list.now)) }
{
    let mut arguments = Arguments::new(alloc);
    let mut k = lesser(params.len(), list.len());
    while k > 0 {
        k -= 1;
        let name = params[k].name.copy(alloc)?;
        let value = list[k].copy(alloc)?;
        arguments.push(name, value)?;
    }
    Ok(arguments)
}
