// A specification, as it is read.
ghost use Rattle.std.specs.Prelude.{◌≡◌, IfOk};

use crate::archetype::Archetypes;
use crate::declaration::{Declarations, Definitions};
use crate::macros::{Macros, MappingMacros};
use crate::name::{PlacedName, PlacedNames};
use crate::process::Processes;
use pgo_base::items::Copied;
use pgo_base::results::both;
use std::alloc::{AllocError, Global};

/// A specification: the module around the algorithm, and the algorithm's units, those of one kind in the order of the
/// text.
pub struct Spec {
    /// the module's name
    pub name: PlacedName,
    pub extends: PlacedNames,
    pub constants: PlacedNames,
    /// those before the algorithm
    pub definitions: Definitions,
    /// the algorithm's name
    pub algorithm: PlacedName,
    /// those of `define`, if it stands there
    pub define: Option<Definitions>,
    pub macros: Macros,
    pub mappings: MappingMacros,
    pub archetypes: Archetypes,
    pub globals: Declarations,
    pub processes: Processes,
}

impl Drop for Spec {
    fn drop(self) {
        let Spec {
            name,
            extends,
            constants,
            definitions,
            algorithm,
            define,
            macros,
            mappings,
            archetypes,
            globals,
            processes,
        } = self;
    }
}

impl Spec {
    /// The same specification once more.
    pub fn copy(&self, alloc: Global) -> Result<Spec, AllocError>
        ensures { IfOk result (λ s. s ≡ self.now) }
    {
        let (name, algorithm) = both(self.name.copy(alloc), self.algorithm.copy(alloc))?;
        let (extends, constants) = both(self.extends.copy(alloc), self.constants.copy(alloc))?;
        let (definitions, define) = both(
            self.definitions.copy(alloc),
            copy_define(alloc, &self.define),
        )?;
        let (macros, mappings) = both(self.macros.copy(alloc), self.mappings.copy(alloc))?;
        let (archetypes, (globals, processes)) = both(
            self.archetypes.copy(alloc),
            both(self.globals.copy(alloc), self.processes.copy(alloc)),
        )?;
        Ok(Spec {
            name,
            extends,
            constants,
            definitions,
            algorithm,
            define,
            macros,
            mappings,
            archetypes,
            globals,
            processes,
        })
    }
}

/// The definitions of `define` once more, if it stands there.
fn copy_define(
    alloc: Global,
    define: &Option<Definitions>,
) -> Result<Option<Definitions>, AllocError>
    ensures { IfOk result (λ d. d ≡ define.now) }
{
    match define {
        Some(definitions) => Ok(Some(definitions.copy(alloc)?)),
        None => Ok(None),
    }
}
