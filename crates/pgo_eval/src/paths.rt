// The part of a function at a path.
ghost use Rattle.std.specs.Prelude.{◌≡◌, map, option_map};
ghost use Rattle.pgo_base.specs.View.{data_of};
ghost use Rattle.pgo_eval.specs.Paths.{part_on};

use pgo_base::value::Value;
use pgo_sets::lookup::at;

/// What is at a path: none where there is no function on the way, and none inside where an index isn't in a domain.
pub fn part_on<'a>(f: &'a Value, path: &[Value]) -> Option<Option<&'a Value>>
    ensures { option_map (λ o. option_map (λ r. data_of r.now) o) result ≡ part_on (map data_of path.now) (data_of f.now) }
{
    let mut part = f;
    for i in path {
        match part {
            Value::Fun(_) => {}
            _ => return None,
        }
        match at(part, i) {
            Some(next) => part = next,
            None => return Some(None),
        }
    }
    Some(Some(part))
}
