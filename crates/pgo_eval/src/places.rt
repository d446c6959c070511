// The places of bound names.
ghost use Rattle.std.specs.Prelude.{List, IfOk};
ghost use Rattle.pgo_base.specs.BindingsView.{bound_name, ArePlacesIfAny};
ghost use Rattle.pgo_base.specs.declared.bindings.BoundName.{BoundName};
ghost use Rattle.pgo_eval.specs.PlacesView.{ArePlacesOf};

use pgo_base::bindings::BoundName;
use pgo_base::last_place::last_places;
use pgo_base::name_map::NameMap;
use std::alloc::{AllocError, Global};

/// So many names are gone over as fast as one is found by a map.
const FEW: usize = 8;

/// A map of the place of the last of each bound name, where there are many names.
pub struct Places {
    known: Option<NameMap<usize>>,
}

impl Drop for Places {
    fn drop(self) {
        let Places { known } = self;
    }
}

impl Places {
    /// The places of these names.
    pub fn of(alloc: Global, names: &[BoundName]) -> Result<Places, AllocError>
        ensures { IfOk result (λ p. ArePlacesOf names.now p) }
    {
        if names.len() > FEW {
            let places = last_places(alloc, names)?;
            Ok(Places {
                known: Some(places),
            })
        } else {
            Ok(Places { known: None })
        }
    }

    /// The map, where there is one.
    pub fn lent(&self) -> Option<&NameMap<usize>>
        ensures { (bs : List BoundName) → ArePlacesOf bs self.now → ArePlacesIfAny bound_name bs result }
    {
        match &self.known {
            Some(places) => Some(places),
            None => None,
        }
    }
}
