// The places of a state's variables: found once for all states of a log, since its changes move no variable.
ghost use Rattle.std.specs.Prelude.{◌≡◌, option_map, IfOk};
ghost use Rattle.pgo_base.specs.Lookup.{find};
ghost use Rattle.pgo_base.specs.View.{data_of};
ghost use Rattle.pgo_model.specs.Steps.{place_in};
ghost use Rattle.pgo_check.specs.Placed.{ArePlaces, ArePlacesIfAny};

use pgo_base::name_map::NameMap;
use pgo_base::scope::State;
use pgo_base::text::Text;
use pgo_base::value::Value;
use pgo_sets::lookup::place_in;
use std::alloc::{AllocError, Global};

/// The place of the first variable of each name.
pub fn places_of(alloc: Global, s: &State) -> Result<NameMap<usize>, AllocError>
    ensures { IfOk result (λ places. ArePlaces s.now places) }
{
    let mut places = NameMap::new(alloc);
    let list = s.as_slice();
    for (i, p) in list.iter().enumerate() {
        places.set_first(alloc, &p.0, i)?;
    }
    Ok(places)
}

/// The place of the first variable of the name: by the places, where they are given.
pub(crate) fn place(places: Option<&NameMap<usize>>, name: &Text, s: &State) -> Option<usize>
    requires { ArePlacesIfAny s.now places }
    ensures { result ≡ place_in name.now s.now }
{
    match places {
        Some(places) => places.get(name).copied(),
        None => place_in(name, s.as_slice()),
    }
}

/// The value of a variable: by the places, where they are given.
pub(crate) fn value_of<'a>(
    places: Option<&NameMap<usize>>,
    name: &Text,
    s: &'a State,
) -> Option<&'a Value>
    requires { ArePlacesIfAny s.now places }
    ensures { option_map (λ r. data_of r.now) result ≡ find name.now s.now }
{
    match place(places, name, s) {
        Some(i) => Some(&s.as_slice()[i].1),
        None => None,
    }
}
