// What was read.
ghost use Rattle.std.specs.Prelude.{◌≡◌};
ghost use Rattle.pgo_expr_read.specs.Reading as spec;

use crate::table::{Form, Operator};
use pgo_base::expr::Sub;

/// How an expression ends outside brackets.
#[derive(Clone, Copy)]
pub enum Ending {
    /// In no open form.
    Closed,
    /// In an open form, but not in a CASE.
    Open,
    /// In a CASE.
    Case,
}

/// Something that was read.
#[derive(Drop)]
pub struct Read<T: Drop> {
    /// Its outermost form.
    pub form: Form,
    /// How it ends outside brackets.
    pub ending: Ending,
    /// The height of its highest expression.
    pub height: u32,
    pub tree: T,
}

/// A part of an expression or of a list.
pub fn part<T: Drop>(ending: Ending, height: u32, tree: T) -> Read<T>
    ensures { result ≡ spec.part ending height tree }
{
    Read {
        form: Form::Closed,
        ending,
        height,
        tree,
    }
}

/// What stands in brackets.
pub fn closed(r: Read<Sub>) -> Read<Sub>
    ensures { result ≡ spec.closed r }
{
    part(Ending::Closed, r.height, r.tree)
}

/// The height that counts of a left operand: a product of more has no node above that of its first operands.
pub fn left_height(op: Operator, form: Form, height: u32) -> u32
    ensures { result ≡ spec.left_height op form height }
{
    match (op, form) {
        (Operator::Product, Form::Operation(Operator::Product)) => height.saturating_sub(1),
        _ => height,
    }
}
