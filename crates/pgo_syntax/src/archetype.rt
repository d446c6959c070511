// Archetypes and their parameters.
ghost use Rattle.std.specs.Prelude.{◌≡◌, [], ◌∷◌, ◌++◌, IfOk};
ghost use Rattle.pgo_syntax.specs.UnitNames.{archetype_name};

use crate::declaration::Declarations;
use crate::name::PlacedName;
use crate::statement::Block;
use pgo_base::items::{Copied, Items};
use pgo_base::last_place::Named;
use pgo_base::results::both;
use pgo_base::text::Text;
use std::alloc::{AllocError, Global};

/// How much of a global a parameter, an argument or a mapping clause speaks of: the global as a whole, or with `[_]` one
/// element at a time.
#[derive(Clone, Copy)]
pub enum Extent {
    Whole,
    Element,
}

/// What a parameter stands for: a value, `x`, or a global, `ref x` and `ref x[_]`.
#[derive(Clone, Copy)]
pub enum ParameterKind {
    Value,
    Ref(Extent),
}

/// A parameter of an archetype.
pub struct Parameter {
    pub name: PlacedName,
    pub kind: ParameterKind,
}

impl Drop for Parameter {
    fn drop(self) {
        let Parameter { name, kind } = self;
    }
}

impl Copied for Parameter {
    /// The same parameter once more.
    fn copy(&self, alloc: Global) -> Result<Parameter, AllocError>
        ensures { IfOk result (λ p. p ≡ self.now) }
    {
        Ok(Parameter {
            name: self.name.copy(alloc)?,
            kind: self.kind,
        })
    }
}

/// Parameters in order.
pub type Parameters = Items<Parameter>;

/// `archetype name (params) variables locals; body`.
///
/// Source: the Modular PlusCal paper.
pub struct Archetype {
    pub name: PlacedName,
    pub params: Parameters,
    pub locals: Declarations,
    pub body: Block,
}

impl Drop for Archetype {
    fn drop(self) {
        let Archetype {
            name,
            params,
            locals,
            body,
        } = self;
    }
}

impl Copied for Archetype {
    /// The same archetype once more.
    fn copy(&self, alloc: Global) -> Result<Archetype, AllocError>
        ensures { IfOk result (λ a. a ≡ self.now) }
    {
        let (name, params) = both(self.name.copy(alloc), self.params.copy(alloc))?;
        let (locals, body) = both(self.locals.copy(alloc), self.body.copy(alloc))?;
        Ok(Archetype {
            name,
            params,
            locals,
            body,
        })
    }
}

impl Named for Archetype {
    ghost name_of = { archetype_name };

    /// Its name.
    fn name(&self) -> &Text {
        &self.name.name
    }
}

/// Archetypes in order.
pub type Archetypes = Items<Archetype>;
