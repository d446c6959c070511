// The values that constants are given.
ghost use Rattle.std.specs.Prelude.{◌≡◌, map, option_map, IfOk};
ghost use Rattle.pgo_base.specs.Lookup.{Name};
ghost use Rattle.pgo_base.specs.View.{data_of, named_data};
ghost use Rattle.pgo_bound.specs.Values as values;
ghost use Rattle.pgo_heads.specs.NameMaps.{value_in};

use pgo_base::name_map::NameMap;
use pgo_base::text::Text;
use pgo_base::value::Value;
use std::alloc::{AllocError, Global};
use std::marker::Model;

/// The values that constants are given. One is found without going over the list; of several of one name the last counts.
#[derive(Drop)]
pub struct GivenValues<'a> {
    list: &'a [(Text, Value)],
    last: NameMap<&'a Value>,
}

impl<'a> Model for GivenValues<'a> {
    ghost use Rattle.std.specs.Prelude.{◌≡◌, List, ℕ, map};
    ghost use Rattle.pgo_base.specs.Data.{Data};
    ghost use Rattle.pgo_base.specs.Code.{coded_state};
    ghost use Rattle.pgo_base.specs.Lookup.{Name};
    ghost use Rattle.pgo_base.specs.View.{named_data};
    ghost use Rattle.pgo_bound.specs.Values.{given_value};
    ghost use Rattle.pgo_heads.specs.NameMaps.{value_in};

    ghost Value = { List (List ℕ × Data) };

    ghost coded = { coded_state };

    ghost view = { λ s. map named_data s.list.now };

    ghost invariant = { λ s. (n : Name) → value_in s.last n ≡ given_value (map named_data s.list.now) n };
}

impl<'a> GivenValues<'a> {
    /// These values.
    pub fn new(alloc: Global, list: &'a [(Text, Value)]) -> Result<GivenValues<'a>, AllocError>
        ensures { IfOk result (λ g. g ≡ map named_data list.now) }
    {
        let last = last_values(alloc, list)?;
        Ok(GivenValues { list, last })
    }

    /// The value that a constant is given.
    pub fn get(&self, name: &Text) -> Option<&'a Value>
        ensures { option_map (λ r. data_of r.now) result ≡ values.given_value self.now name.now }
    {
        self.last.get(name).copied()
    }
}

/// What each name is given last.
fn last_values<'a>(
    alloc: Global,
    list: &'a [(Text, Value)],
) -> Result<NameMap<&'a Value>, AllocError>
    ensures { IfOk result (λ m. (n : Name) → value_in m n ≡ values.given_value (map named_data list.now) n) }
{
    let mut last = NameMap::new(alloc);
    for c in list {
        last.set(alloc, &c.0, &c.1)?;
    }
    Ok(last)
}
