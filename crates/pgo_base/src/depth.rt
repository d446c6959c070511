// How deep a value nests, up to a limit.
ghost use Rattle.std.specs.Prelude.{◌<◌, ◌↔◌, IsTrue, map};
ghost use Rattle.pgo_base.specs.View.{data_of, pair_of};
ghost use Rattle.pgo_base.specs.PairsView.{all_pairs};
ghost use Rattle.pgo_base.specs.Size.{depth, members_size, graph_size};

use crate::extent::extent_of;
use crate::pairs::Pairs;
use crate::value::Value;

/// Whether a value nests deeper than the limit. Parts whose bound is within it aren't gone over.
#[cycle(deeper)]
pub fn is_deeper(value: &Value, limit: usize) -> bool
    ensures { IsTrue result ↔ limit < depth (data_of value.now) }
{
    if extent_of(value).is_within(limit) {
        return false;
    }
    if limit == 0 {
        return true;
    }
    match value {
        Value::Set(s) => is_some_deeper(s.members(), limit - 1),
        Value::Fun(f) => is_some_part_deeper(f.pairs(), limit - 1),
        _ => false,
    }
}

/// Whether some member nests deeper than the limit.
#[cycle(deeper)]
fn is_some_deeper(members: &[Value], limit: usize) -> bool
    ensures { IsTrue result ↔ limit < members_size (map data_of members.now) }
{
    for m in members {
        if is_deeper(m, limit) {
            return true;
        }
    }
    false
}

/// Whether some key or value nests deeper than the limit.
#[cycle(deeper)]
fn is_some_part_deeper(pairs: Pairs<'_>, limit: usize) -> bool
    ensures { IsTrue result ↔ limit < graph_size (map pair_of (all_pairs pairs.entry)) }
{
    for i in 0..pairs.len() {
        let p = pairs.at(i);
        if is_deeper(&p.0, limit) || is_deeper(&p.1, limit) {
            return true;
        }
    }
    false
}
