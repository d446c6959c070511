// Processes: their identifiers, their archetype, its arguments and their mapping.
ghost use Rattle.std.specs.Prelude.{◌≡◌, [], ◌∷◌, ◌++◌, IfOk};

use crate::archetype::Extent;
use crate::binding::Origin;
use crate::name::PlacedName;
use pgo_base::expr::Sub;
use pgo_base::items::{Copied, Items};
use pgo_base::results::both;
use std::alloc::{AllocError, Global};

/// An argument of an instance: an expression, with the place of its first byte, or a global, `ref g` and `ref g[_]`.
pub enum Argument {
    Value(u32, Sub),
    Ref(PlacedName, Extent),
}

impl Drop for Argument {
    fn drop(self) {
        match self {
            Argument::Value(_, b) => {}
            Argument::Ref(a, _) => {}
        }
    }
}

impl Copied for Argument {
    /// The same argument once more.
    fn copy(&self, alloc: Global) -> Result<Argument, AllocError>
        ensures { IfOk result (λ a. a ≡ self.now) }
    {
        match self {
            Argument::Value(place, e) => Ok(Argument::Value(*place, e.copy(alloc)?)),
            Argument::Ref(name, extent) => Ok(Argument::Ref(name.copy(alloc)?, *extent)),
        }
    }
}

/// Arguments in order.
pub type Arguments = Items<Argument>;

/// What a mapping clause speaks of: each argument that is the global, `g` and `g[_]`, or the argument of a number from
/// 1, `@1` and `@1[_]`, with the place of its first byte.
pub enum MappingTarget {
    Global {
        name: PlacedName,
        extent: Extent,
    },
    Argument {
        place: u32,
        number: u64,
        extent: Extent,
    },
}

impl Drop for MappingTarget {
    fn drop(self) {
        match self {
            MappingTarget::Global { name, extent: _ } => {}
            MappingTarget::Argument {
                place: _,
                number: _,
                extent: _,
            } => {}
        }
    }
}

impl MappingTarget {
    /// The same target once more.
    pub fn copy(&self, alloc: Global) -> Result<MappingTarget, AllocError>
        ensures { IfOk result (λ t. t ≡ self.now) }
    {
        match self {
            MappingTarget::Global { name, extent } => Ok(MappingTarget::Global {
                name: name.copy(alloc)?,
                extent: *extent,
            }),
            MappingTarget::Argument {
                place,
                number,
                extent,
            } => Ok(MappingTarget::Argument {
                place: *place,
                number: *number,
                extent: *extent,
            }),
        }
    }
}

/// `mapping target via name`.
pub struct MappingClause {
    pub target: MappingTarget,
    pub mapping: PlacedName,
}

impl Drop for MappingClause {
    fn drop(self) {
        let MappingClause { target, mapping } = self;
    }
}

impl Copied for MappingClause {
    /// The same clause once more.
    fn copy(&self, alloc: Global) -> Result<MappingClause, AllocError>
        ensures { IfOk result (λ m. m ≡ self.now) }
    {
        Ok(MappingClause {
            target: self.target.copy(alloc)?,
            mapping: self.mapping.copy(alloc)?,
        })
    }
}

/// Mapping clauses in order.
pub type MappingClauses = Items<MappingClause>;

/// `process (name = e) == instance archetype(arguments) mapping .. via ..`, or with `\in`. That it is `fair` is dropped.
///
/// Source: the Modular PlusCal paper.
pub struct Process {
    pub name: PlacedName,
    pub ids: Origin,
    pub archetype: PlacedName,
    pub arguments: Arguments,
    pub clauses: MappingClauses,
}

impl Drop for Process {
    fn drop(self) {
        let Process {
            name,
            ids,
            archetype,
            arguments,
            clauses,
        } = self;
    }
}

impl Copied for Process {
    /// The same process once more.
    fn copy(&self, alloc: Global) -> Result<Process, AllocError>
        ensures { IfOk result (λ p. p ≡ self.now) }
    {
        let (name, ids) = both(self.name.copy(alloc), self.ids.copy(alloc))?;
        let (archetype, (arguments, clauses)) = both(
            self.archetype.copy(alloc),
            both(self.arguments.copy(alloc), self.clauses.copy(alloc)),
        )?;
        Ok(Process {
            name,
            ids,
            archetype,
            arguments,
            clauses,
        })
    }
}

/// Processes in order.
pub type Processes = Items<Process>;
