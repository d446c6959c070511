// The parts of a log, and the state before each.
ghost use Rattle.std.specs.Prelude.{◌≡◌, ◌≤◌, ◌<◌, ◌-◌, length, map, take, drop, IfOk};
ghost use Rattle.pgo_model.specs.Log.{StateAt};
ghost use Rattle.pgo_model.specs.LogView.{entry_view};
ghost use Rattle.pgo_check.specs.Placed.{ArePlaces};
ghost use Rattle.pgo_check_par.specs.Parts.{AreParts};

use pgo_base::log::Entry;
use pgo_base::name_map::NameMap;
use pgo_base::scope::State;
use pgo_check::lookup::places_of;
use pgo_check::states::after;
use std::alloc::{AllocError, Global};

/// The entries of a log at the places from `from` up to `to`, counted from 0, and the state before them.
#[derive(Drop)]
pub struct Part {
    pub start: State,
    pub from: usize,
    pub to: usize,
}

/// Where the part from here ends.
fn end_of(from: usize, len: usize, size: usize) -> usize
    requires { (from < len) × (0 < size) }
    ensures more { from < result }
    ensures within { result ≤ len }
{
    if len - from <= size { len } else { from + size }
}

/// The entries from here up to there.
pub fn between(entries: &[Entry], from: usize, to: usize) -> &[Entry]
    requires { (from ≤ to) × (to ≤ length entries.now) }
    ensures { result.now ≡ take (to - from) (drop from entries.now) }
{
    &entries[from..to]
}

/// The state behind all these entries.
fn state_behind(
    alloc: Global,
    places: &NameMap<usize>,
    before: State,
    entries: &[Entry],
) -> Result<Option<State>, AllocError>
    requires { ArePlaces before places.now }
    ensures { IfOk result (λ o. o ≡ StateAt before (map entry_view entries.now) (length entries.now)) }
{
    let mut state = before;
    for e in entries {
        match after(alloc, places, state, e)? {
            None => return Ok(None),
            Some(next) => state = next,
        }
    }
    Ok(Some(state))
}

/// The parts of a log, of this size, up to the first that has no state behind it. The state before each is made from the one
/// before it by the changes of the entries alone.
pub fn parts_of(
    alloc: Global,
    start: &State,
    entries: &[Entry],
    size: usize,
) -> Result<Vec<Part>, AllocError>
    requires { 0 < size }
    ensures { IfOk result (λ v. AreParts start.now (map entry_view entries.now) v.items) }
{
    let mut parts = Vec::new(alloc);
    let places = places_of(alloc, start)?;
    let mut before = start.copy(alloc)?;
    let mut from = 0;
    while from < entries.len() {
        let to = end_of(from, entries.len(), size);
        parts.push(Part {
            start: before.copy(alloc)?,
            from,
            to,
        })?;
        let behind = state_behind(alloc, &places, before, between(entries, from, to))?;
        from = to;
        match behind {
            None => return Ok(parts),
            Some(next) => before = next,
        }
    }
    Ok(parts)
}
