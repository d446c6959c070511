// A set, a function or a sequence of given parts, where that is a value.
ghost use Rattle.std.specs.Prelude.{◌≡◌, map, option_map};
ghost use Rattle.std.specs.List.Sorted.{IsStrictlySortedBy};
ghost use Rattle.pgo_base.specs.Data.{keys};
ghost use Rattle.pgo_base.specs.Order.{data_cmp};
ghost use Rattle.pgo_base.specs.View.{data_of, pair_of};
ghost use Rattle.pgo_model.specs.Operators as operators;
ghost use Rattle.pgo_sets.specs.Answers.{Answers};

use crate::errors::EvalStop;
use pgo_base::depth::is_deeper;
use pgo_base::value::{Fun, Set, Value};

/// The most members that a set may have, and the most keys that a function may have.
pub const MOST_MEMBERS: usize = 65_536;

/// The greatest depth of a value.
const MOST_DEPTH: usize = 2_048;

/// A value, where it may have so many members or keys.
fn few(count: usize, v: Value) -> Option<Value>
    ensures { option_map data_of result ≡ operators.if_few count (data_of v) }
{
    if count > MOST_MEMBERS {
        return None;
    }
    Some(v)
}

/// A set or a function with this many members or keys, where that is a value.
pub(crate) fn tested(count: usize, v: Value) -> Option<Value>
    ensures { option_map data_of result ≡ operators.built count (data_of v) }
{
    if is_deeper(&v, MOST_DEPTH) {
        return None;
    }
    few(count, v)
}

/// The same as an answer.
pub(crate) fn built(count: usize, v: Value) -> Result<Value, EvalStop>
    ensures { Answers result (operators.built count (data_of v)) }
{
    match tested(count, v) {
        Some(v) => Ok(v),
        None => Err(EvalStop::NoValue),
    }
}

/// The set of these members, in any order and repeated or not.
///
/// NoValue where it has more than 65,536 members or is deeper than 2,048.
pub fn set_of(members: Vec<Value>) -> Result<Value, EvalStop>
    ensures { Answers result (operators.set_from (map data_of members.items)) }
{
    let set = Set::from_members(members)?;
    built(set.len(), Value::Set(set))
}

/// The same, where the members are in order.
pub fn sorted_set(members: Vec<Value>) -> Result<Value, EvalStop>
    requires { IsStrictlySortedBy data_cmp (map data_of members.items) }
    ensures { Answers result (operators.set_from (map data_of members.items)) }
{
    let set = Set::from_sorted(members)?;
    built(set.len(), Value::Set(set))
}

/// The function of these pairs of a key and its value, in any order. Of several with one key the left one counts.
///
/// NoValue where it has more than 65,536 keys or is deeper than 2,048.
pub fn function_of(pairs: Vec<(Value, Value)>) -> Result<Value, EvalStop>
    ensures { Answers result (operators.function_from (map pair_of pairs.items)) }
{
    let function = Fun::from_pairs(pairs)?;
    built(function.len(), Value::Fun(function))
}

/// The same, where the pairs are in the order of the keys.
pub fn sorted_function(pairs: Vec<(Value, Value)>) -> Result<Value, EvalStop>
    requires { IsStrictlySortedBy data_cmp (keys (map pair_of pairs.items)) }
    ensures { Answers result (operators.function_from (map pair_of pairs.items)) }
{
    let function = Fun::from_sorted(pairs)?;
    built(function.len(), Value::Fun(function))
}
