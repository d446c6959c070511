// The table of operators: levels and sides. This project's own profile of the operators of "Specifying Systems".
ghost use Rattle.std.specs.Prelude.{◌≡◌, ◌<◌};
ghost use Rattle.pgo_expr_read.specs.Table as spec;

use pgo_base::expr::{Infix, Prefix};

/// An operator between its operands; `\X` makes one product of all its operands.
#[derive(Clone, Copy, PartialEq, Eq)]
pub enum Operator {
    Infix(Infix),
    Product,
}

/// The outermost form of an expression, outside brackets.
#[derive(Clone, Copy)]
pub enum Form {
    Operation(Operator),
    Prefix(Prefix),
    Closed,
}

/// The levels of an operator, each twice, and whether a row of it groups from the left.
#[derive(Clone, Copy)]
pub struct Levels {
    pub least: u8,
    pub greatest: u8,
    pub is_left: bool,
}

/// The row of this operator.
pub fn row(op: Operator) -> Levels
    ensures value { result ≡ spec.row op }
    ensures small { result.greatest < 31 }
{
    let (least, greatest, is_left) = match op {
        Operator::Product => (20, 26, true),
        Operator::Infix(op) => match op {
            Infix::Implies => (2, 2, false),
            Infix::Iff => (4, 4, false),
            Infix::And | Infix::Or => (6, 6, true),
            Infix::Equal
            | Infix::Differs
            | Infix::Less
            | Infix::Greater
            | Infix::AtMost
            | Infix::AtLeast
            | Infix::In
            | Infix::NotIn
            | Infix::SubsetEq => (10, 10, false),
            Infix::Merge => (12, 12, true),
            Infix::Single => (14, 14, false),
            Infix::Union | Infix::Intersect => (16, 16, true),
            Infix::Without => (16, 16, false),
            Infix::Range => (18, 18, false),
            Infix::Add => (20, 20, true),
            Infix::Subtract => (22, 22, true),
            Infix::Modulo => (20, 22, false),
            Infix::Multiply | Infix::Concat => (26, 26, true),
            Infix::Divide => (26, 26, false),
        },
    };
    Levels {
        least,
        greatest,
        is_left,
    }
}

/// The least level of the operand of a prefix operator, and the level of its application.
#[tactic(auto, unfolding(crate::specs::Table::prefix_least))]
pub fn prefix_least(p: Prefix) -> u8
    ensures { result ≡ spec.prefix_least p }
{
    match p {
        Prefix::Not => 9,
        Prefix::Minus => 25,
        Prefix::Powerset => 17,
        Prefix::Flatten => 17,
        Prefix::Domain => 19,
    }
}

/// The least level of an application of this form.
#[tactic(auto, unfolding(crate::specs::Table::low))]
pub fn form_low(form: Form) -> u8
    ensures { result ≡ spec.form_low form }
{
    match form {
        Form::Operation(op) => row(op).least,
        Form::Prefix(p) => prefix_least(p),
        Form::Closed => 32,
    }
}

fn is_of(op: Operator, form: Form) -> bool
    ensures { result ≡ spec.is_of op form }
{
    match form {
        Form::Operation(other) => op == other,
        _ => false,
    }
}

/// Whether the form may be the left operand of the operator.
#[tactic(auto, unfolding(crate::specs::Table::takes_left, crate::specs::Table::high, crate::specs::Table::is_left))]
pub fn takes_left(op: Operator, form: Form) -> bool
    ensures { result ≡ spec.takes_left op form }
{
    let row = row(op);
    row.greatest + 1 < form_low(form) || (row.is_left && is_of(op, form))
}

/// The least level of a right operand.
#[tactic(auto, unfolding(crate::specs::Table::high))]
pub fn right_least(op: Operator) -> u8
    ensures { result ≡ spec.right_least op }
{
    row(op).greatest + 2
}
