// Declared variables and definitions.
ghost use Rattle.std.specs.Prelude.{◌≡◌, [], ◌∷◌, ◌++◌, IfOk};

use crate::binding::Origin;
use crate::name::{PlacedName, PlacedNames};
use pgo_base::expr::Sub;
use pgo_base::items::{Copied, Items};
use std::alloc::{AllocError, Global};

/// A variable, and what it starts with: `v`, `v = e` or `v \in e`.
pub struct Declaration {
    pub name: PlacedName,
    pub initial: Option<Origin>,
}

impl Drop for Declaration {
    fn drop(self) {
        let Declaration { name, initial } = self;
    }
}

impl Copied for Declaration {
    /// The same declaration once more.
    fn copy(&self, alloc: Global) -> Result<Declaration, AllocError>
        ensures { IfOk result (λ d. d ≡ self.now) }
    {
        let name = self.name.copy(alloc)?;
        let initial = match &self.initial {
            Some(origin) => Some(origin.copy(alloc)?),
            None => None,
        };
        Ok(Declaration { name, initial })
    }
}

/// Declarations in order.
pub type Declarations = Items<Declaration>;

/// A definition of a specification: `name == e` or `name(a, b) == e`.
pub struct Definition {
    pub name: PlacedName,
    pub params: PlacedNames,
    pub body: Sub,
}

impl Drop for Definition {
    fn drop(self) {
        let Definition { name, params, body } = self;
    }
}

impl Copied for Definition {
    /// The same definition once more.
    fn copy(&self, alloc: Global) -> Result<Definition, AllocError>
        ensures { IfOk result (λ d. d ≡ self.now) }
    {
        Ok(Definition {
            name: self.name.copy(alloc)?,
            params: self.params.copy(alloc)?,
            body: self.body.copy(alloc)?,
        })
    }
}

/// Definitions in order.
pub type Definitions = Items<Definition>;
