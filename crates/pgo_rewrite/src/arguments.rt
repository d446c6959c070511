// What stands for the parameters of a macro.
ghost use Rattle.std.specs.Prelude.{◌≡◌, [], ◌∷◌, option_map, IfOk};
ghost use Rattle.pgo_base.specs.ExprView.{tree};
ghost use Rattle.pgo_base.specs.Lookup.{find};
ghost use Rattle.pgo_meaning.specs.MacrosPlaced.{put_tree};

use crate::rewrite::substitute;
use crate::shared::Shared;
use crate::substitution::Substitution;
use pgo_base::expr::Expr;
use pgo_base::items::Copied;
use pgo_base::text::Text;
use std::alloc::{AllocError, Global};
use std::marker::Model;

/// The expression of a name.
#[derive(Drop)]
struct Argument {
    e: Expr,
}

impl Model for Argument {
    ghost use Rattle.pgo_base.specs.Tree.{Tree};
    ghost use Rattle.pgo_base.specs.TreeCode.{coded_tree};
    ghost use Rattle.pgo_base.specs.ExprView.{tree};

    ghost Value = { Tree };

    ghost coded = { coded_tree };

    ghost view = { λ a. tree a.e };
}

impl Copied for Argument {
    fn copy(&self, alloc: Global) -> Result<Argument, AllocError> {
        Ok(Argument {
            e: self.e.copy(alloc)?,
        })
    }
}

/// Names with expressions, the newest first; the newest of a name stands for it.
#[derive(Drop)]
pub struct Arguments {
    names: Shared<Argument>,
}

impl Model for Arguments {
    ghost use Rattle.std.specs.Prelude.{List, ℕ};
    ghost use Rattle.pgo_base.specs.Tree.{Tree};
    ghost use Rattle.pgo_base.specs.TreeCode.{coded_named};

    ghost Value = { List (List ℕ × Tree) };

    ghost coded = { coded_named };

    ghost view = { λ a. a.names };
}

impl Arguments {
    /// No name.
    pub fn new(alloc: Global) -> Arguments
        ensures { result ≡ [] }
    {
        Arguments {
            names: Shared::new(alloc),
        }
    }

    /// One name more, before the others.
    ///
    /// Err only where there is no memory.
    pub fn push(&mut self, name: Text, e: Expr) -> Result<(), AllocError>
        ensures { IfOk result (λ _. self.new ≡ (name, tree e) ∷ self.old) }
    {
        self.names.push(name, Argument { e })
    }

    /// The same once more.
    ///
    /// Err only where there is no memory.
    pub fn copy(&self, alloc: Global) -> Result<Arguments, AllocError>
        ensures { IfOk result (λ a. a ≡ self.now) }
    {
        Ok(Arguments {
            names: self.names.copy(alloc)?,
        })
    }

    /// The expression of a name.
    pub fn find(&self, name: &Text) -> Option<&Expr>
        ensures { option_map (λ r. tree r.now) result ≡ find name.now self.now }
    {
        match self.names.find(name) {
            Some(argument) => Some(&argument.e),
            None => None,
        }
    }
}

impl Substitution for Arguments {
    ghost use Rattle.pgo_base.specs.Lookup.{find};

    ghost stands = { λ es x. find x es };

    fn tree_for(&self, alloc: Global, x: &Text) -> Result<Option<Expr>, AllocError> {
        match self.find(x) {
            Some(e) => Ok(Some(e.copy(alloc)?)),
            None => Ok(None),
        }
    }
}

/// An expression with the arguments in the place of the names that they stand for.
///
/// Err only where there is no memory.
pub fn put(alloc: Global, es: &Arguments, e: &Expr) -> Result<Expr, AllocError>
    ensures { IfOk result (λ r. tree r ≡ put_tree es.now (tree e.now)) }
{
    substitute(alloc, es, e)
}
