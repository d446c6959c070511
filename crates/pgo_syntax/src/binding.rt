// Names that a `with` binds, and where a value comes from.
ghost use Rattle.std.specs.Prelude.{◌≡◌, [], ◌∷◌, ◌++◌, IfOk};

use crate::name::PlacedName;
use pgo_base::expr::Sub;
use pgo_base::items::{Copied, Items};
use std::alloc::{AllocError, Global};

/// What stands behind a name: `= e`, the value of e, or `\in e`, a member of e.
pub enum Origin {
    Equals(Sub),
    In(Sub),
}

impl Drop for Origin {
    fn drop(self) {
        match self {
            Origin::Equals(a) => {}
            Origin::In(a) => {}
        }
    }
}

impl Origin {
    /// The same once more.
    pub fn copy(&self, alloc: Global) -> Result<Origin, AllocError>
        ensures { IfOk result (λ o. o ≡ self.now) }
    {
        match self {
            Origin::Equals(e) => Ok(Origin::Equals(e.copy(alloc)?)),
            Origin::In(e) => Ok(Origin::In(e.copy(alloc)?)),
        }
    }
}

/// A name that a `with` binds: `v = e` or `v \in e`.
pub struct WithName {
    pub name: PlacedName,
    pub origin: Origin,
}

impl Drop for WithName {
    fn drop(self) {
        let WithName { name, origin } = self;
    }
}

impl Copied for WithName {
    /// The same once more.
    fn copy(&self, alloc: Global) -> Result<WithName, AllocError>
        ensures { IfOk result (λ w. w ≡ self.now) }
    {
        Ok(WithName {
            name: self.name.copy(alloc)?,
            origin: self.origin.copy(alloc)?,
        })
    }
}

/// Names in order.
pub type WithNames = Items<WithName>;
