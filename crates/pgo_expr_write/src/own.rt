// The part of a process's own variable at `self`.
ghost use Rattle.std.specs.Prelude.{◌≡◌, option_map};
ghost use Rattle.std.specs.List.{list_any};
ghost use Rattle.pgo_base.specs.ExprView.{tree};
ghost use Rattle.pgo_base.specs.Lookup.{same_name};
ghost use Rattle.pgo_base.specs.Tree.{name, trees};
ghost use Rattle.pgo_expr_write.specs.ByName as spec;

use pgo_base::expr::{Expr, Exprs, Names};
use pgo_base::text::Text;

/// The variable of these whose part at `self` the expression is.
pub fn own_part<'a>(own: &Names, e: &'a Expr) -> Option<&'a Text>
    ensures { option_map (λ x. x.now) result ≡ spec.own_part own.now (tree e.now) }
{
    match e {
        Expr::Index(f, list) => own_variable(own, f.get(), list),
        _ => None,
    }
}

/// The variable of these whose part at `self` f[ts] is.
fn own_variable<'a>(own: &Names, f: &'a Expr, list: &Exprs) -> Option<&'a Text>
    ensures { option_map (λ x. x.now) result ≡ spec.own_variable own.now (tree f.now) (trees list.now) }
{
    match f {
        Expr::Name(x) => own_name(own, x, list),
        _ => None,
    }
}

/// The name, where it is one of these and the index is `self`.
fn own_name<'a>(own: &Names, x: &'a Text, list: &Exprs) -> Option<&'a Text>
    ensures { option_map (λ y. y.now) result ≡ spec.own_variable own.now (name x.now) (trees list.now) }
{
    if is_any(own, x) && is_self(list) {
        Some(x)
    } else {
        None
    }
}

/// Whether the name is one of these.
fn is_any(own: &Names, x: &Text) -> bool
    ensures { result ≡ list_any (λ y. same_name x.now y) own.now }
{
    own.as_slice().iter().any(|y| x.is(y))
}

/// Whether there is one index, and it is `self`.
fn is_self(list: &Exprs) -> bool
    ensures { result ≡ spec.is_self (trees list.now) }
{
    match list.as_slice() {
        [one] => is_self_name(one),
        _ => false,
    }
}

/// Whether the expression is `self`.
fn is_self_name(e: &Expr) -> bool
    ensures { result ≡ spec.is_self_name (tree e.now) }
{
    match e {
        Expr::Name(x) => x.as_bytes().cmp(b"self".as_slice()).is_eq(),
        _ => false,
    }
}
