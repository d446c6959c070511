// An operator on what its operands come to.
ghost use Rattle.std.specs.Prelude.{◌≡◌, option_map, IfOk};
ghost use Rattle.pgo_base.specs.View.{data_of};
ghost use Rattle.pgo_model.specs.Operators.{truth_of};
ghost use Rattle.pgo_model.specs.Val.{plain, unary_sem, binary_sem};
ghost use Rattle.pgo_eval.specs.HeldView.{held_data, sem_of};
ghost use Rattle.pgo_eval.specs.Decided.{decided, is_membership};

use crate::answers::truth;
use crate::built::{range, subsets, with_value};
use crate::evaluated::Evaluated;
use crate::held::{Held, lent};
use crate::operators::{binary, unary};
use pgo_base::expr::{Infix, Prefix};
use pgo_base::value::Value;
use std::alloc::{AllocError, Global};

/// An operator before its operand.
pub fn prefixed<'a>(
    alloc: Global,
    op: Prefix,
    a: Option<Held<'a>>,
) -> Result<Option<Evaluated<'a>>, AllocError>
    ensures { IfOk result (λ o. sem_of o ≡ unary_sem op (plain (option_map held_data a.entry))) }
{
    match op {
        Prefix::Powerset => Ok(subsets(a)),
        _ => Ok(with_value(unary(alloc, op, lent(&a))?)),
    }
}

/// An operator between its operands.
pub fn infixed<'a>(
    alloc: Global,
    op: Infix,
    a: Option<Held<'a>>,
    b: Option<Held<'a>>,
) -> Result<Option<Evaluated<'a>>, AllocError>
    ensures { IfOk result (λ o. sem_of o ≡ binary_sem op (plain (option_map held_data a.entry)) (plain (option_map held_data b.entry))) }
{
    match op {
        Infix::Range => Ok(range(a, b)),
        _ => Ok(with_value(binary(alloc, op, lent(&a), lent(&b))?)),
    }
}

/// Whether the operator asks its right side what it holds.
pub fn is_membership(op: Infix) -> bool
    ensures { result ≡ is_membership op }
{
    match op {
        Infix::In => true,
        _ => false,
    }
}

/// The truth that an operator has whatever stands at its right.
pub fn decided(op: Infix, a: Option<&Value>) -> Option<bool>
    ensures { result ≡ decided op (truth_of (option_map (λ r. data_of r.now) a.entry)) }
{
    match (op, truth(a)) {
        (Infix::And, Some(false)) => Some(false),
        (Infix::Or, Some(true)) => Some(true),
        (Infix::Implies, Some(false)) => Some(true),
        _ => None,
    }
}
