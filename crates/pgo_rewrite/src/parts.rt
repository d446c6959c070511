// Operands that are taken one after another.
ghost use Rattle.std.specs.Prelude.{◌≡◌, map, IfOk};
ghost use Rattle.pgo_base.specs.ExprView.{tree};
ghost use Rattle.pgo_rewrite.specs.Rebuilt as spec;

use pgo_base::expr::{Expr, Exprs, Sub};
use std::alloc::{AllocError, Global};
use std::collections::VecDeque;
use std::marker::Model;
use std::mem::{drop, replace};

/// Operands in the order of the text.
#[derive(Drop)]
pub(crate) struct Parts {
    list: VecDeque<Expr>,
}

impl Model for Parts {
    ghost use Rattle.std.specs.Prelude.{List, map};
    ghost use Rattle.pgo_base.specs.Tree.{Tree};
    ghost use Rattle.pgo_base.specs.TreeCode.{coded_trees};
    ghost use Rattle.pgo_base.specs.ExprView.{tree};

    ghost Value = { List Tree };

    ghost coded = { coded_trees };

    ghost view = { λ p. map tree p.list.items };
}

impl Parts {
    /// These operands.
    pub(crate) fn from_vec(list: Vec<Expr>) -> Parts
        ensures { result ≡ map tree list.items }
    {
        Parts {
            list: VecDeque::from_vec(list),
        }
    }

    /// The first operand, which is taken off, or `@` where there is none.
    pub(crate) fn next(&mut self) -> Expr
        ensures first { tree result ≡ spec.next self.old }
        ensures left { self.new ≡ spec.behind self.old }
    {
        match self.list.pop_front() {
            Some(e) => e,
            None => Expr::At,
        }
    }

    /// Takes the first operand off, if there is one.
    pub(crate) fn skip(&mut self)
        ensures { self.new ≡ spec.behind self.old }
    {
        drop(self.next())
    }

    /// The first operand as an operand of its own.
    pub(crate) fn next_sub(&mut self, alloc: Global) -> Result<Sub, AllocError>
        ensures first { IfOk result (λ s. s ≡ spec.next self.old) }
        ensures left { IfOk result (λ _. self.new ≡ spec.behind self.old) }
    {
        Sub::new(alloc, self.next())
    }

    /// All that are left.
    pub(crate) fn into_vec(self) -> Vec<Expr>
        ensures { map tree result.items ≡ self }
    {
        Vec::from(self.list)
    }

    /// All that are left, which are taken off, as a list.
    pub(crate) fn take_exprs(&mut self, alloc: Global) -> Exprs
        ensures { result ≡ self.old }
    {
        let rest = Parts::from_vec(Vec::new(alloc));
        Exprs::from_vec(replace(self, rest).into_vec())
    }
}
