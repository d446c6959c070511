// A stack that contracts see as a list, its top first.
ghost use Rattle.std.specs.Prelude.{◌≡◌, List, [], ◌∷◌, OnOk, MatchOption, length};

use crate::lookahead::Opener;
use std::alloc::{AllocError, Global};
use std::marker::Model;

/// What was opened and isn't closed yet, the innermost on top.
#[derive(Drop)]
pub struct Openers {
    list: Vec<Opener>,
}

impl Model for Openers {
    ghost use Rattle.std.specs.Prelude.{List, reverse};
    ghost use Rattle.pgo_expr_read.specs.declared.lookahead.Opener.{Opener};

    ghost Value = { List Opener };

    ghost view = { λ s. reverse s.list.items };
}

impl Openers {
    pub fn new(alloc: Global) -> Openers
        ensures { result ≡ [] }
    {
        Openers {
            list: Vec::new(alloc),
        }
    }

    pub fn push(&mut self, opener: Opener) -> Result<(), AllocError>
        ensures { OnOk result (self.new ≡ opener ∷ self.old) }
    {
        self.list.push(opener)?;
        Ok(())
    }

    /// The top, which is taken off.
    pub fn pop(&mut self) -> Option<Opener>
        ensures { MatchOption result ((self.old ≡ []) × (self.new ≡ [])) (λ top. self.old ≡ top ∷ self.new) }
    {
        self.list.pop()
    }

    pub fn len(&self) -> usize
        ensures { result ≡ length self.now }
    {
        self.list.len()
    }
}
