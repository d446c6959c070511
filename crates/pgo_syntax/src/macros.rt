// Macros and mapping macros.
ghost use Rattle.std.specs.Prelude.{◌≡◌, [], ◌∷◌, ◌++◌, IfOk};
ghost use Rattle.pgo_syntax.specs.UnitNames.{macro_name, mapping_name};

use crate::name::{PlacedName, PlacedNames};
use crate::statement::Block;
use pgo_base::items::{Copied, Items};
use pgo_base::last_place::Named;
use pgo_base::text::Text;
use std::alloc::{AllocError, Global};

/// `macro name (params) body`.
pub struct Macro {
    pub name: PlacedName,
    pub params: PlacedNames,
    pub body: Block,
}

impl Drop for Macro {
    fn drop(self) {
        let Macro { name, params, body } = self;
    }
}

impl Copied for Macro {
    /// The same macro once more.
    fn copy(&self, alloc: Global) -> Result<Macro, AllocError>
        ensures { IfOk result (λ m. m ≡ self.now) }
    {
        Ok(Macro {
            name: self.name.copy(alloc)?,
            params: self.params.copy(alloc)?,
            body: self.body.copy(alloc)?,
        })
    }
}

impl Named for Macro {
    ghost name_of = { macro_name };

    /// Its name.
    fn name(&self) -> &Text {
        &self.name.name
    }
}

/// Macros in order.
pub type Macros = Items<Macro>;

/// `mapping macro name { read .. write .. }`: what a read and a write of a mapped parameter do.
///
/// In its blocks `$variable` and `$value` are names like others: no identifier holds a `$`.
///
/// Source: the Modular PlusCal paper.
pub struct MappingMacro {
    pub name: PlacedName,
    pub read: Block,
    pub write: Block,
}

impl Drop for MappingMacro {
    fn drop(self) {
        let MappingMacro { name, read, write } = self;
    }
}

impl Copied for MappingMacro {
    /// The same mapping macro once more.
    fn copy(&self, alloc: Global) -> Result<MappingMacro, AllocError>
        ensures { IfOk result (λ m. m ≡ self.now) }
    {
        Ok(MappingMacro {
            name: self.name.copy(alloc)?,
            read: self.read.copy(alloc)?,
            write: self.write.copy(alloc)?,
        })
    }
}

impl Named for MappingMacro {
    ghost name_of = { mapping_name };

    /// Its name.
    fn name(&self) -> &Text {
        &self.name.name
    }
}

/// Mapping macros in order.
pub type MappingMacros = Items<MappingMacro>;
