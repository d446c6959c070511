// A written module: what it declares, and what its processes do.
ghost use Rattle.std.specs.Prelude.{◌≡◌, List, [], ◌∷◌, ◌++◌, take, map, IfOk};
ghost use Rattle.pgo_base.specs.ActionView.{action_pair};
ghost use Rattle.pgo_base.specs.LastPlace.{defined_name, last_place};

use crate::expr::{Names, Sub};
use crate::items::Items;
use crate::last_place::{Named, last_among};
use crate::name_map::NameMap;
use crate::slices::first;
use crate::text::Text;
use crate::value::Value;
use std::alloc::{AllocError, Global};
use std::marker::Model;

/// A label's action: what a step from the label is.
#[derive(Drop)]
pub struct Action {
    pub name: Text,
    pub body: Sub,
}

/// Actions in order.
pub struct Actions {
    list: Vec<Action>,
}

impl Drop for Actions {
    fn drop(self) {
        let Actions { list } = self;
    }
}

impl Model for Actions {
    ghost use Rattle.std.specs.Prelude.{List, ℕ, map};
    ghost use Rattle.pgo_base.specs.Tree.{Tree};
    ghost use Rattle.pgo_base.specs.TreeCode.{coded_named};

    ghost Value = { List (List ℕ × Tree) };

    ghost coded = { coded_named };

    ghost use Rattle.pgo_base.specs.ActionView.{action_pair};

    ghost view = { λ a. map action_pair a.list.items };
}

impl Actions {
    /// No action.
    pub fn new(alloc: Global) -> Actions
        ensures { result ≡ [] }
    {
        Actions {
            list: Vec::new(alloc),
        }
    }

    /// One action more, at the end.
    pub fn push(&mut self, action: Action) -> Result<(), AllocError>
        ensures { IfOk result (λ _. self.new ≡ self.old ++ action_pair action ∷ []) }
    {
        self.list.push(action)?;
        Ok(())
    }

    /// The actions as a slice.
    pub fn as_slice(&self) -> &[Action]
        ensures { map action_pair result.now ≡ self.now }
    {
        self.list.as_slice()
    }

    /// These actions.
    pub fn from_vec(list: Vec<Action>) -> Actions
        ensures { result ≡ map action_pair list.items }
    {
        Actions { list }
    }
}

/// A process: its name, the set of its identifiers, and the actions of its labels.
pub struct WrittenProcess {
    pub name: Text,
    pub ids: Sub,
    pub actions: Actions,
}

impl Drop for WrittenProcess {
    fn drop(self) {
        let WrittenProcess { name, ids, actions } = self;
    }
}

/// Processes in order.
pub type Processes = Items<WrittenProcess>;

/// A definition of a module: a constant with its value, or a name with its parameters and its body.
pub enum Defined {
    Given {
        name: Text,
        value: Value,
    },
    Means {
        name: Text,
        params: Names,
        body: Sub,
    },
}

impl Drop for Defined {
    fn drop(self) {
        match self {
            Defined::Given { name, value } => {}
            Defined::Means { name, params, body } => {}
        }
    }
}

impl Named for Defined {
    ghost name_of = { defined_name };

    /// The name that is defined.
    fn name(&self) -> &Text {
        match self {
            Defined::Given { name, .. } => name,
            Defined::Means { name, .. } => name,
        }
    }
}

/// Definitions in order; the values of constants may be among them. The last one of a name is found without going over the list.
pub struct Defs {
    list: Vec<Defined>,
    places: NameMap<usize>,
}

impl Drop for Defs {
    fn drop(self) {
        let Defs { list, places } = self;
    }
}

impl Model for Defs {
    ghost use Rattle.std.specs.Prelude.{◌≡◌, List};
    ghost use Rattle.std.specs.Coded.{codes};
    ghost use Rattle.pgo_base.specs.Code.{coded_data};
    ghost use Rattle.pgo_base.specs.LastPlace.{defined_name, last_place};
    ghost use Rattle.pgo_base.specs.Lookup.{Name};
    ghost use Rattle.pgo_base.specs.NameMaps.{found};
    ghost use Rattle.pgo_base.specs.TreeCode.{coded_tree};
    ghost use Rattle.pgo_base.specs.declared.module.Defined.{Defined};

    ghost Value = { List Defined };

    ghost coded = { Prim.hlevel (codes, coded_data, coded_tree) };

    ghost view = { λ d. d.list.items };

    ghost invariant = { λ d. (x : Name) → found d.places x ≡ last_place defined_name x d.list.items };
}

impl Defs {
    /// No definition.
    pub fn new(alloc: Global) -> Defs
        ensures { result ≡ [] }
    {
        Defs {
            list: Vec::new(alloc),
            places: NameMap::new(alloc),
        }
    }

    /// The definitions as a slice.
    pub fn as_slice(&self) -> &[Defined]
        ensures { result.now ≡ self.now }
    {
        self.list.as_slice()
    }

    /// One definition more, at the end.
    pub fn push(&mut self, definition: Defined) -> Result<(), AllocError>
        ensures { IfOk result (λ _. self.new ≡ self.old ++ definition ∷ []) }
    {
        let place = self.list.len();
        self.list.reserve(1)?;
        self.places
            .set(*self.list.allocator(), definition.name(), place)?;
        self.list.push_reserved(definition);
        Ok(())
    }

    /// The place of the last definition of a name among the first so many.
    pub fn last_place(&self, name: &Text, count: usize) -> Option<usize>
        ensures { result ≡ last_place defined_name name.now (take count self.now) }
    {
        match self.places.get(name) {
            Some(place) => {
                if *place < count {
                    Some(*place)
                } else {
                    last_among(first(self.list.as_slice(), count), name)
                }
            }
            None => None,
        }
    }
}

/// A written module, in the order of its lines.
pub struct Module {
    pub name: Text,
    pub constants: Names,
    pub definitions: Defs,
    pub variables: Names,
    pub init: Sub,
    pub processes: Processes,
}

impl Drop for Module {
    fn drop(self) {
        let Module {
            name,
            constants,
            definitions,
            variables,
            init,
            processes,
        } = self;
    }
}
