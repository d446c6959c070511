// Names with values in order, of which the last of a name is found without going over them.
ghost use Rattle.std.specs.Prelude.{◌≡◌, [], ◌∷◌, ◌++◌, IfOk};
ghost use Rattle.pgo_base.specs.BindingsView.{value_name, ArePlaces};

use crate::bindings::NamedValue;
use crate::name_map::NameMap;
use crate::text::Text;
use crate::value::Value;
use std::alloc::{AllocError, Global};
use std::marker::Model;

/// Names with values in order. A map has the place of the last of each name.
pub struct NamedValues {
    list: Vec<NamedValue>,
    places: NameMap<usize>,
}

impl Drop for NamedValues {
    fn drop(self) {
        let NamedValues { list, places } = self;
    }
}

impl Model for NamedValues {
    ghost use Rattle.std.specs.Prelude.{List};
    ghost use Rattle.std.specs.Coded.{codes};
    ghost use Rattle.pgo_base.specs.BindingsView.{value_name, ArePlaces};
    ghost use Rattle.pgo_base.specs.Code.{coded_data};
    ghost use Rattle.pgo_base.specs.declared.bindings.NamedValue.{NamedValue};

    ghost Value = { List NamedValue };

    ghost coded = { Prim.hlevel (codes, coded_data) };

    ghost view = { λ n. n.list.items };

    ghost invariant = { λ n. ArePlaces value_name n.list.items n.places };
}

impl NamedValues {
    /// No name.
    pub fn new(alloc: Global) -> NamedValues
        ensures { result ≡ [] }
    {
        NamedValues {
            list: Vec::new(alloc),
            places: NameMap::new(alloc),
        }
    }

    /// The names with their values.
    pub fn as_slice(&self) -> &[NamedValue]
        ensures { result.now ≡ self.now }
    {
        self.list.as_slice()
    }

    /// The place of the last of each name.
    pub fn places(&self) -> &NameMap<usize>
        ensures { ArePlaces value_name self.now result.now }
    {
        &self.places
    }

    /// One more at the end.
    ///
    /// Err only where there is no memory.
    pub fn push(
        &mut self,
        alloc: Global,
        name: Text,
        value: Option<Value>,
    ) -> Result<(), AllocError>
        ensures { IfOk result (λ _. self.new ≡ self.old ++ record { name = name; value = value } ∷ []) }
    {
        let place = self.list.len();
        self.list.reserve(1)?;
        self.places.set(alloc, &name, place)?;
        self.list.push_reserved(NamedValue { name, value });
        Ok(())
    }
}
