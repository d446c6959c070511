// Where an expansion stands in an action, and how high it makes the action.
ghost use Rattle.std.specs.Prelude.{◌≡◌, ◌+◌, suc, max, Option, Some, None};
ghost use Rattle.pgo_measure.specs.Heights.{capped, join};
ghost use Rattle.pgo_measure.specs.Spots.{shift};

use crate::heights::{joined, one_higher};

/// Where an expansion stands in an action: so many forms around it, and behind a conjunction of this height, if there is one.
#[derive(Clone, Copy)]
pub struct Spot {
    pub before: Option<u64>,
    pub depth: u64,
}

/// How many forms more stand around what stands in an item there.
pub fn shift_of(before: Option<u64>) -> u64
    ensures { result ≡ shift before }
{
    match before {
        None => 0,
        Some(_) => 1,
    }
}

/// The depth of what stands in a form there, up to the most that is told apart.
pub fn depth_inside(spot: Spot) -> u64
    ensures { result ≡ capped (suc (spot.depth + shift spot.before)) }
{
    one_higher(spot.depth.saturating_add(shift_of(spot.before)))
}

/// The height of all, up to the most that is told apart, with an item of this height there.
pub fn height_with(highest: u64, spot: Spot, height: u64) -> u64
    ensures { result ≡ capped (max highest (spot.depth + join spot.before height)) }
{
    joined(
        None,
        highest.max(spot.depth.saturating_add(joined(spot.before, height))),
    )
}
