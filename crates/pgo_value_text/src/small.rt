// Whether a value has a part with too many members.
ghost use Rattle.std.specs.Prelude.{◌≡◌, map};
ghost use Rattle.pgo_base.specs.Data.{items, pairs};
ghost use Rattle.pgo_base.specs.PairsView.{all_pairs};
ghost use Rattle.pgo_base.specs.View.{data_of, pair_of};
ghost use Rattle.pgo_value_text.specs.IsValueText as spec;

use pgo_base::pairs::Pairs;
use pgo_base::value::Value;

/// The most members of a set or a function.
const MOST_MEMBERS: usize = 65_536;

/// Whether no set and no function in a value has too many members.
#[cycle(small)]
pub fn is_small(value: &Value) -> bool
    ensures { result ≡ spec.is_small (data_of value.now) }
{
    match value {
        Value::Set(s) => {
            let members = s.members();
            members.len() <= MOST_MEMBERS && are_small(members)
        }
        Value::Fun(f) => {
            let list = f.pairs();
            list.len() <= MOST_MEMBERS && all_small(list)
        }
        _ => true,
    }
}

#[cycle(small)]
fn are_small(members: &[Value]) -> bool
    ensures { result ≡ spec.are_small (items (map data_of members.now)) }
{
    for m in members {
        if !is_small(m) {
            return false;
        }
    }
    true
}

#[cycle(small)]
fn all_small(list: Pairs<'_>) -> bool
    ensures { result ≡ spec.all_small (pairs (map pair_of (all_pairs list.entry))) }
{
    for i in 0..list.len() {
        let p = list.at(i);
        if !is_small(&p.0) || !is_small(&p.1) {
            return false;
        }
    }
    true
}
