// A specification with its instances, its resources and its starting state.
ghost use Rattle.std.specs.Prelude.{◌≡◌, [], ◌∷◌, ◌++◌, IfOk};

use crate::archetype::{Archetype, Extent};
use crate::macros::MappingMacro;
use crate::spec::Spec;
use pgo_base::expr::Sub;
use pgo_base::items::{Copied, Items};
use pgo_base::module::Defs;
use pgo_base::scope::State;
use pgo_base::text::Text;
use pgo_base::value::Value;
use std::alloc::{AllocError, Global};

/// What a read and a write of a mapped parameter do: nothing besides, or what the macro says.
pub enum Mapping {
    Identity,
    Macro(MappingMacro),
}

impl Drop for Mapping {
    fn drop(self) {
        match self {
            Mapping::Identity => {}
            Mapping::Macro(a) => {}
        }
    }
}

impl Mapping {
    /// The same mapping once more.
    pub fn copy(&self, alloc: Global) -> Result<Mapping, AllocError>
        ensures { IfOk result (λ m. m ≡ self.now) }
    {
        match self {
            Mapping::Identity => Ok(Mapping::Identity),
            Mapping::Macro(m) => Ok(Mapping::Macro(m.copy(alloc)?)),
        }
    }
}

/// What a parameter stands for: the value of an expression, or a global, which is unmapped where it has no mapping.
pub enum Target {
    Value(Sub),
    Global {
        name: Text,
        extent: Extent,
        mapping: Option<Mapping>,
    },
}

impl Drop for Target {
    fn drop(self) {
        match self {
            Target::Value(a) => {}
            Target::Global {
                name,
                extent: _,
                mapping,
            } => {}
        }
    }
}

/// A parameter of an instance, and what it stands for.
pub struct Binding {
    pub parameter: Text,
    pub target: Target,
}

impl Drop for Binding {
    fn drop(self) {
        let Binding { parameter, target } = self;
    }
}

/// Bindings in order.
pub type Bindings = Items<Binding>;

/// One process identifier that runs one archetype. Instances are numbered from 0.
pub struct Instance {
    pub number: u32,
    pub id: Value,
    /// the process's name
    pub process: Text,
    pub archetype: Archetype,
    /// one for each parameter, in order
    pub bindings: Bindings,
}

impl Drop for Instance {
    fn drop(self) {
        let Instance {
            number,
            id,
            process,
            archetype,
            bindings,
        } = self;
    }
}

/// Instances in order.
pub type Instances = Items<Instance>;

/// A global as a whole, or one element of it. Resources are numbered from 0.
pub struct Resource {
    pub number: u32,
    pub global: Text,
    pub index: Option<Value>,
}

impl Drop for Resource {
    fn drop(self) {
        let Resource {
            number,
            global,
            index,
        } = self;
    }
}

/// Resources in order.
pub type Resources = Items<Resource>;

/// A specification that is bound to constants.
pub struct Bound {
    pub spec: Spec,
    /// the constants with their values, and then the specification's definitions
    pub defs: Defs,
    pub instances: Instances,
    pub resources: Resources,
    /// the value of each variable that a run starts with
    pub start: State,
}

impl Drop for Bound {
    fn drop(self) {
        let Bound {
            spec,
            defs,
            instances,
            resources,
            start,
        } = self;
    }
}
