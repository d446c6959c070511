// Assignments: left sides with their paths, and right sides.
ghost use Rattle.std.specs.Prelude.{◌≡◌, [], ◌∷◌, ◌++◌, IfOk};

use crate::name::PlacedName;
use pgo_base::expr::Sub;
use pgo_base::items::{Copied, Items};
use pgo_base::text::Text;
use std::alloc::{AllocError, Global};

/// One step of a left side's path: `[i]` or `.f`.
#[derive(Drop)]
pub enum Step {
    Index(Sub),
    Field(Text),
}

impl Copied for Step {
    /// The same step once more.
    fn copy(&self, alloc: Global) -> Result<Step, AllocError>
        ensures { IfOk result (λ s. s ≡ self.now) }
    {
        match self {
            Step::Index(e) => Ok(Step::Index(e.copy(alloc)?)),
            Step::Field(f) => Ok(Step::Field(f.copy(alloc)?)),
        }
    }
}

/// Steps in order.
pub type Path = Items<Step>;

/// A left side: a variable, or the part of it at the end of a path. In a mapping macro the name may be `$variable`.
#[derive(Drop)]
pub struct Left {
    pub name: PlacedName,
    pub path: Path,
}

impl Left {
    /// The same left side once more.
    pub fn copy(&self, alloc: Global) -> Result<Left, AllocError>
        ensures { IfOk result (λ l. l ≡ self.now) }
    {
        Ok(Left {
            name: self.name.copy(alloc)?,
            path: self.path.copy(alloc)?,
        })
    }
}

/// `left := right`.
pub struct Assignment {
    pub left: Left,
    pub right: Sub,
}

impl Drop for Assignment {
    fn drop(self) {
        let Assignment { left, right } = self;
    }
}

impl Copied for Assignment {
    /// The same assignment once more.
    fn copy(&self, alloc: Global) -> Result<Assignment, AllocError>
        ensures { IfOk result (λ a. a ≡ self.now) }
    {
        Ok(Assignment {
            left: self.left.copy(alloc)?,
            right: self.right.copy(alloc)?,
        })
    }
}

/// Assignments in order.
pub type Assignments = Items<Assignment>;
