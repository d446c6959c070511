// What stands for a name.
ghost use Rattle.std.specs.Prelude.{◌≡◌, List, ℕ, Option, None, option_map, IfOk};
ghost use Rattle.pgo_base.specs.ExprView.{tree};
ghost use Rattle.pgo_base.specs.Tree.{Tree};

use pgo_base::expr::Expr;
use pgo_base::text::Text;
use std::alloc::{AllocError, Global};

/// What stands for names.
pub trait Substitution {
    // The expression that stands for a name, if one does.
    ghost stands: { Self → List ℕ → Option Tree };

    /// The expression that stands for a name, if one does.
    ///
    /// Err only where there is no memory.
    fn tree_for(&self, alloc: Global, x: &Text) -> Result<Option<Expr>, AllocError>
        ensures { IfOk result (λ o. option_map tree o ≡ stands self.now x.now) };
}

/// Nothing stands for any name.
pub struct Nothing;

impl Substitution for Nothing {
    ghost stands = { λ s x. None };

    fn tree_for(&self, _alloc: Global, _x: &Text) -> Result<Option<Expr>, AllocError> {
        Ok(None)
    }
}
