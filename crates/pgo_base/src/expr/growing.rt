// Lists of expressions and names that grow at their end.
ghost use Rattle.std.specs.Prelude.{◌≡◌, [], ◌∷◌, ◌++◌, length, IfOk};

use crate::expr::{Arms, Binders, Exprs, Named, Names, Sub, Update, Updates};
use crate::text::Text;
use std::alloc::{AllocError, Global};

impl Exprs {
    pub fn len(&self) -> usize
        ensures { result ≡ length self.now }
    {
        self.list.len()
    }
}

impl Named {
    pub fn new(alloc: Global) -> Named
        ensures { result ≡ [] }
    {
        Named {
            list: Vec::new(alloc),
        }
    }

    pub fn push(&mut self, name: Text, a: Sub) -> Result<(), AllocError>
        ensures { IfOk result (λ _. self.new ≡ self.old ++ (name, a) ∷ []) }
    {
        self.list.push((name, a.into_expr()))?;
        Ok(())
    }
}

impl Arms {
    pub fn new(alloc: Global) -> Arms
        ensures { result ≡ [] }
    {
        Arms {
            list: Vec::new(alloc),
        }
    }

    pub fn push(&mut self, guard: Sub, a: Sub) -> Result<(), AllocError>
        ensures { IfOk result (λ _. self.new ≡ self.old ++ (guard, a) ∷ []) }
    {
        self.list.push((guard.into_expr(), a.into_expr()))?;
        Ok(())
    }
}

impl Binders {
    pub fn new(alloc: Global) -> Binders
        ensures { result ≡ [] }
    {
        Binders {
            list: Vec::new(alloc),
        }
    }

    pub fn push(&mut self, names: Names, set: Sub) -> Result<(), AllocError>
        ensures { IfOk result (λ _. self.new ≡ self.old ++ (names, set) ∷ []) }
    {
        self.list.push((names, set.into_expr()))?;
        Ok(())
    }
}

impl Updates {
    pub fn new(alloc: Global) -> Updates
        ensures { result ≡ [] }
    {
        Updates {
            list: Vec::new(alloc),
        }
    }

    pub fn push(&mut self, path: Exprs, value: Sub) -> Result<(), AllocError>
        ensures { IfOk result (λ _. self.new ≡ self.old ++ (path, value) ∷ []) }
    {
        self.list.push(Update {
            path,
            value: value.into_expr(),
        })?;
        Ok(())
    }
}
