// The names in scope.
ghost use Rattle.std.specs.Prelude.{◌≡◌, [], ◌∷◌, map, option_map, slice_get};
ghost use Rattle.pgo_base.specs.View.{data_of};
ghost use Rattle.pgo_base.specs.Lookup.{find, nth};
ghost use Rattle.pgo_base.specs.BindingsView.{onto, named_view, bound_view, value_name, bound_name, ArePlaces, ArePlacesIfAny};
ghost use Rattle.pgo_base.specs.LastPlace.{last_row};

use crate::last_place::{Named, last_among};
use crate::name_map::NameMap;
use crate::named_values::NamedValues;
use crate::text::Text;
use crate::value::{Set, Value};
use std::marker::Model;

/// A name with its value; one without a value is a LET name that has none.
pub struct NamedValue {
    pub name: Text,
    pub value: Option<Value>,
}

impl Drop for NamedValue {
    fn drop(self) {
        let NamedValue { name, value } = self;
    }
}

/// A name that a binder binds: the set that it runs over, and at which of the members it stands, from 0.
pub struct BoundName {
    pub name: Text,
    pub set: Set,
    pub at: usize,
}

impl Drop for BoundName {
    fn drop(self) {
        let BoundName { name, set, at } = self;
    }
}

/// The names that an expression sees, the newest first; one without a value is a LET name that has none.
#[cycle(bindings)]
#[derive(Drop)]
pub struct Bindings<'a> {
    link: Link<'a>,
}

/// Names before others: one, one or more with values of their own, or one or more that a binder binds. Beside these there
/// may be a map of the place of the last of each name.
#[cycle(bindings)]
#[derive(Clone, Copy)]
enum Link<'a> {
    Empty,
    More(&'a Text, Option<&'a Value>, &'a Bindings<'a>),
    Named(&'a NamedValue, &'a [NamedValue], Option<&'a NameMap<usize>>, &'a Bindings<'a>),
    Bound(&'a BoundName, &'a [BoundName], Option<&'a NameMap<usize>>, &'a Bindings<'a>),
}

impl<'a> Model for Bindings<'a> {
    ghost use Rattle.std.specs.Prelude.{List, ℕ, length, Option};
    ghost use Rattle.pgo_base.specs.Data.{Data};
    ghost use Rattle.pgo_base.specs.Code.{coded_bindings};

    ghost Value = { List (List ℕ × Option Data) };

    ghost coded = { coded_bindings };

    ghost use Rattle.pgo_base.specs.BindingsView.{names_of, HasPlaces};

    ghost view = { λ e. names_of e.link };

    ghost invariant = { λ e. HasPlaces e.link };

    ghost size = { length };

    ghost use Rattle.pgo_base.specs.BindingsFall.{link_falls};

    ghost size_decreases = { λ a h. link_falls a.link };
}

impl<'a> Bindings<'a> {
    /// No name.
    pub fn new() -> Bindings<'a>
        ensures { result ≡ [] }
    {
        Bindings { link: Link::Empty }
    }

    /// The names of `outer`, and one more before them.
    pub fn with(name: &'a Text, value: Option<&'a Value>, outer: &'a Bindings<'a>) -> Bindings<'a>
        ensures { result ≡ (name.entry.now, option_map (λ r. data_of r.now) value.entry) ∷ outer.entry.now }
    {
        Bindings {
            link: Link::More(name, value, outer),
        }
    }

    /// The names of `outer`, and these before them, the last one first.
    pub fn with_values(list: &'a [NamedValue], outer: &'a Bindings<'a>) -> Bindings<'a>
        ensures { result ≡ onto (map named_view list.entry.now) outer.entry.now }
    {
        match list.split_first() {
            None => Bindings { link: outer.link },
            Some((first, rest)) => Bindings {
                link: Link::Named(first, rest, None, outer),
            },
        }
    }
}

impl<'a> Bindings<'a> {
    /// The names of `outer`, and these before them, the last one first.
    pub fn with_named(list: &'a NamedValues, outer: &'a Bindings<'a>) -> Bindings<'a>
        ensures { result ≡ onto (map named_view list.entry.now) outer.entry.now }
    {
        match list.as_slice().split_first() {
            None => Bindings { link: outer.link },
            Some((first, rest)) => Bindings {
                link: Link::Named(first, rest, Some(list.places()), outer),
            },
        }
    }

    /// The names of `outer`, and these before them, the last one first. The map, where there is one, has the place of the last
    /// of each name; without it a name is found by going over these.
    pub fn with_bound(
        list: &'a [BoundName],
        places: Option<&'a NameMap<usize>>,
        outer: &'a Bindings<'a>,
    ) -> Bindings<'a>
        requires { ArePlacesIfAny bound_name list.now places }
        ensures { result ≡ onto (map bound_view list.entry.now) outer.entry.now }
    {
        match list.split_first() {
            None => Bindings { link: outer.link },
            Some((first, rest)) => Bindings {
                link: Link::Bound(first, rest, places, outer),
            },
        }
    }
}

impl<'a> Bindings<'a> {
    /// What a name stands for: a value, or none.
    pub fn find(&self, name: &Text) -> Option<Option<&'a Value>>
        ensures { option_map (λ o. option_map (λ r. data_of r.now) o) result ≡ find name.now self.now }
    {
        match &self.link {
            Link::Empty => None,
            Link::More(n, v, outer) => {
                if name.is(n) {
                    Some(*v)
                } else {
                    outer.find(name)
                }
            }
            Link::Named(first, rest, places, outer) => match found_named(
                name, first, rest, *places,
            ) {
                Some(v) => Some(v),
                None => outer.find(name),
            },
            Link::Bound(first, rest, places, outer) => match found_bound(
                name, first, rest, *places,
            ) {
                Some(v) => Some(v),
                None => outer.find(name),
            },
        }
    }
}

/// The one in this place.
pub(crate) fn row_at<'a, T>(list: &'a [T], place: usize) -> Option<&'a T>
    ensures { option_map (λ r. r.now) result ≡ slice_get list.now place }
{
    list.get(place)
}

/// The one in this place among the first and those behind it.
fn item_at<'a, T>(first: &'a T, rest: &'a [T], place: usize) -> Option<&'a T>
    ensures { option_map (λ r. r.now) result ≡ slice_get (first.now ∷ rest.now) place }
{
    if place == 0 {
        Some(first)
    } else {
        row_at(rest, place - 1)
    }
}

/// The last of the name.
fn placed<'a, T: Named>(
    name: &Text,
    first: &'a T,
    rest: &'a [T],
    places: &NameMap<usize>,
) -> Option<&'a T>
    requires { ArePlaces T.name_of (first.now ∷ rest.now) places.now }
    ensures { option_map (λ r. r.now) result ≡ last_row T.name_of name.now (first.now ∷ rest.now) }
{
    match places.get(name) {
        Some(place) => item_at(first, rest, *place),
        None => None,
    }
}

/// The last of the name, found by going over them.
fn last_of<'a, T: Named>(name: &Text, first: &'a T, rest: &'a [T]) -> Option<&'a T>
    ensures { option_map (λ r. r.now) result ≡ last_row T.name_of name.now (first.now ∷ rest.now) }
{
    match last_among(rest, name) {
        Some(i) => row_at(rest, i),
        None => {
            if name.is(first.name()) {
                Some(first)
            } else {
                None
            }
        }
    }
}

/// The last of the name.
fn last_named<'a, T: Named>(
    name: &Text,
    first: &'a T,
    rest: &'a [T],
    places: Option<&'a NameMap<usize>>,
) -> Option<&'a T>
    requires { ArePlacesIfAny T.name_of (first.now ∷ rest.now) places }
    ensures { option_map (λ r. r.now) result ≡ last_row T.name_of name.now (first.now ∷ rest.now) }
{
    match places {
        Some(places) => placed(name, first, rest, places),
        None => last_of(name, first, rest),
    }
}

/// What the last of the name stands for.
fn found_named<'a>(
    name: &Text,
    first: &'a NamedValue,
    rest: &'a [NamedValue],
    places: Option<&'a NameMap<usize>>,
) -> Option<Option<&'a Value>>
    requires { ArePlacesIfAny value_name (first.now ∷ rest.now) places }
    ensures { option_map (λ o. option_map (λ r. data_of r.now) o) result ≡ find name.now (onto (map named_view (first.now ∷ rest.now)) []) }
{
    match last_named(name, first, rest, places) {
        Some(last) => Some(last.lent()),
        None => None,
    }
}

/// What the last of the name stands for.
fn found_bound<'a>(
    name: &Text,
    first: &'a BoundName,
    rest: &'a [BoundName],
    places: Option<&'a NameMap<usize>>,
) -> Option<Option<&'a Value>>
    requires { ArePlacesIfAny bound_name (first.now ∷ rest.now) places }
    ensures { option_map (λ o. option_map (λ r. data_of r.now) o) result ≡ find name.now (onto (map bound_view (first.now ∷ rest.now)) []) }
{
    match last_named(name, first, rest, places) {
        Some(last) => Some(last.member()),
        None => None,
    }
}

impl NamedValue {
    /// Its value, if it has one.
    fn lent(&self) -> Option<&Value>
        ensures { option_map (λ r. data_of r.now) result ≡ option_map data_of self.now.value }
    {
        self.value.as_ref()
    }
}

impl Named for NamedValue {
    ghost name_of = { value_name };

    /// Its name.
    fn name(&self) -> &Text {
        &self.name
    }
}

impl Named for BoundName {
    ghost name_of = { bound_name };

    /// Its name.
    fn name(&self) -> &Text {
        &self.name
    }
}

impl BoundName {
    /// The member at which it stands.
    pub fn member(&self) -> Option<&Value>
        ensures { option_map (λ r. data_of r.now) result ≡ nth self.now.set self.now.at }
    {
        self.set.members().get(self.at)
    }
}
