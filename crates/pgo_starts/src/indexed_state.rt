// The value of each variable, found by its name.
ghost use Rattle.std.specs.Prelude.{◌≡◌, map, option_map, IfOk};
ghost use Rattle.pgo_base.specs.Lookup.{Name, find};
ghost use Rattle.pgo_base.specs.NameMaps.{found};
ghost use Rattle.pgo_base.specs.View.{data_of, named_data};

use pgo_base::name_map::NameMap;
use pgo_base::scope::State;
use pgo_base::text::Text;
use pgo_base::value::Value;
use std::alloc::{AllocError, Global};
use std::marker::Model;

/// The value of each variable. One is found without going over all of them.
#[derive(Drop)]
pub(crate) struct IndexedState<'a> {
    state: &'a State,
    first: NameMap<&'a Value>,
}

impl<'a> Model for IndexedState<'a> {
    ghost use Rattle.std.specs.Prelude.{◌≡◌, List, ℕ, option_map};
    ghost use Rattle.pgo_base.specs.Code.{coded_state};
    ghost use Rattle.pgo_base.specs.Data.{Data};
    ghost use Rattle.pgo_base.specs.Lookup.{Name, find};
    ghost use Rattle.pgo_base.specs.NameMaps.{found};
    ghost use Rattle.pgo_base.specs.View.{data_of};

    ghost Value = { List (List ℕ × Data) };

    ghost coded = { coded_state };

    ghost view = { λ s. s.state.now };

    ghost invariant = { λ s. (x : Name) → option_map (λ r. data_of r.now) (found s.first x) ≡ find x s.state.now };
}

/// The first value of each name.
fn first_values<'a>(
    alloc: Global,
    list: &'a [(Text, Value)],
) -> Result<NameMap<&'a Value>, AllocError>
    ensures { IfOk result (λ m. (x : Name) → option_map (λ r. data_of r.now) (found m x) ≡ find x (map named_data list.now)) }
{
    let mut first = NameMap::new(alloc);
    let mut i = list.len();
    while i > 0 {
        i -= 1;
        first.set(alloc, &list[i].0, &list[i].1)?;
    }
    Ok(first)
}

impl<'a> IndexedState<'a> {
    /// The values of this state.
    ///
    /// Err only where there is no memory.
    pub(crate) fn new(alloc: Global, state: &'a State) -> Result<IndexedState<'a>, AllocError>
        ensures { IfOk result (λ s. s ≡ state.now) }
    {
        let first = first_values(alloc, state.as_slice())?;
        Ok(IndexedState { state, first })
    }

    /// The value of a variable.
    pub(crate) fn find(&self, name: &Text) -> Option<&'a Value>
        ensures { option_map (λ r. data_of r.now) result ≡ find name.now self.now }
    {
        self.first.get(name).copied()
    }
}
