// The words of choice of an attempt, and the choices that are made by them.
ghost use Rattle.std.specs.Prelude.{◌≤◌, vec_len, vec_capacity};
ghost use Rattle.std.specs.List.{All};
ghost use Rattle.pgo_resource.specs.Points.{IsPick};

use crate::points::{Point, Source};

mod leaves;

/// The words of choice of an attempt, the picks with which the leaf under way begins, and the choices that were made in it.
#[derive(Drop)]
pub struct Picks {
    source: Source,
    path: Vec<usize>,
    points: Vec<Point>,
    ghost has_room: { vec_len points ≤ vec_capacity path },
    ghost are_picks: { All IsPick points.items },
}
