// How a name is used in the body of a macro.
ghost use Rattle.std.specs.Prelude.{◌≡◌, if◌then◌else◌, option_map};
ghost use Rattle.pgo_base.specs.ExprView.{tree};
ghost use Rattle.pgo_base.specs.Tree.{trees};
ghost use Rattle.pgo_scope.specs.Usage as spec;
ghost use Rattle.pgo_syntax.specs.Lefts.{only};

use pgo_base::expr::{Expr, Exprs};
use pgo_base::text::Text;
use pgo_uses::uses::Shape;

/// How a name is used in a body: whether it stands so somewhere.
#[derive(Clone, Copy)]
pub struct Usage {
    /// read, plainly and not directly before one index
    pub plain: bool,
    /// read directly before one index
    pub indexed: bool,
    /// read under a binder, in an arm or a later guard of IF or CASE, or in a LET
    pub hidden: bool,
    /// the same, directly before one index
    pub hidden_indexed: bool,
    /// assigned as a whole
    pub bare: bool,
    /// assigned with one index behind it
    pub one_index: bool,
    /// assigned with more behind it
    pub further: bool,
}

/// Not used.
pub fn no_usage() -> Usage
    ensures { result ≡ spec.no_usage }
{
    Usage {
        plain: false,
        indexed: false,
        hidden: false,
        hidden_indexed: false,
        bare: false,
        one_index: false,
        further: false,
    }
}

/// Used in both.
pub fn either_usage(v: Usage, w: Usage) -> Usage
    ensures { result ≡ spec.either_usage v w }
{
    Usage {
        plain: v.plain || w.plain,
        indexed: v.indexed || w.indexed,
        hidden: v.hidden || w.hidden,
        hidden_indexed: v.hidden_indexed || w.hidden_indexed,
        bare: v.bare || w.bare,
        one_index: v.one_index || w.one_index,
        further: v.further || w.further,
    }
}

/// Read so.
pub fn read_usage(hidden: bool, indexed: bool) -> Usage
    ensures { result ≡ spec.read_usage hidden indexed }
{
    let mut usage = no_usage();
    match (hidden, indexed) {
        (false, false) => usage.plain = true,
        (false, true) => usage.indexed = true,
        (true, false) => usage.hidden = true,
        (true, true) => usage.hidden_indexed = true,
    }
    usage
}

/// Assigned, with what follows.
pub fn write_usage(shape: Shape) -> Usage
    ensures { result ≡ spec.write_usage shape }
{
    let mut usage = no_usage();
    match shape {
        Shape::Bare => usage.bare = true,
        Shape::OneIndex => usage.one_index = true,
        Shape::Further => usage.further = true,
    }
    usage
}

impl Usage {
    /// Whether the name is assigned.
    pub fn is_assigned(self) -> bool
        ensures { result ≡ spec.is_assigned self }
    {
        self.bare || self.one_index || self.further
    }
}

/// What follows a left side that goes on as the first, and then as the second.
pub fn join(first: Shape, second: Shape) -> Shape
    ensures { result ≡ spec.join first second }
{
    match (first, second) {
        (Shape::Bare, _) => second,
        (Shape::OneIndex, Shape::Bare) => Shape::OneIndex,
        (Shape::OneIndex, _) => Shape::Further,
        (Shape::Further, _) => Shape::Further,
    }
}

/// The one expression of these, where there is one alone.
pub fn only(list: &Exprs) -> Option<&Expr>
    ensures { option_map (λ e. tree e.now) result ≡ only (trees list.now) }
{
    let items = list.as_slice();
    if items.len() == 1 {
        items.first()
    } else {
        None
    }
}

/// The variable of a left side; none where the expression is no left side.
pub fn left_base(e: &Expr) -> Option<&Text>
    ensures { option_map (λ x. x.now) result ≡ spec.left_base (tree e.now) }
{
    match e {
        Expr::Name(x) => Some(x),
        Expr::Index(f, list) => match only(list) {
            Some(_) => left_base(f.get()),
            None => None,
        },
        Expr::Field(r, _) => left_base(r.get()),
        _ => None,
    }
}

/// How a left side goes on.
pub fn left_shape(e: &Expr) -> Shape
    ensures { result ≡ spec.left_shape (tree e.now) }
{
    match e {
        Expr::Index(f, _) => join(left_shape(f.get()), Shape::OneIndex),
        Expr::Field(_, _) => Shape::Further,
        _ => Shape::Bare,
    }
}
