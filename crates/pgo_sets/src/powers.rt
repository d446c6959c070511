// Sets of sets.
ghost use Rattle.std.specs.Prelude.{◌≡◌, ◌<◌, ◌^◌, length, map};
ghost use Rattle.pgo_base.specs.View.{data_of};
ghost use Rattle.pgo_model.specs.Operators as operators;
ghost use Rattle.pgo_sets.specs.Answers.{Answers};
ghost use Rattle.pgo_sets.specs.Chosen.{subset_at, powers};

use crate::build::set_of;
use crate::errors::EvalStop;
use pgo_base::value::{Set, Value};
use std::alloc::Global;

/// The most members of a set whose subsets are no more than 65,536.
const MOST_IN_POWER: usize = 16;

/// `SUBSET s`: the set of the subsets of s.
///
/// NoValue where s is no set or has more than 16 members; none is made then. Source: "Specifying Systems".
pub fn power(alloc: Global, s: &Value) -> Result<Value, EvalStop>
    ensures { Answers result (operators.power (data_of s.now)) }
{
    match s {
        Value::Set(set) => subsets(alloc, set),
        _ => Err(EvalStop::NoValue),
    }
}

/// The set of the subsets of a set.
fn subsets(alloc: Global, set: &Set) -> Result<Value, EvalStop>
    ensures { Answers result (powers set.now) }
{
    let members = set.members();
    if members.len() > MOST_IN_POWER {
        return Err(EvalStop::NoValue);
    }
    let count = count_subsets(members);
    let mut all = Vec::with_capacity(alloc, count)?;
    for number in 0..count {
        all.push(subset(alloc, members, count, number)?)?;
    }
    set_of(all)
}

/// How many sets of some of these members there are.
fn count_subsets(members: &[Value]) -> usize
    requires { length members.now < 17 }
    ensures { result ≡ 2 ^ length members.now }
{
    let mut count = 1;
    for _ in members {
        count *= 2;
    }
    count
}

/// The set of some of these members that has this number, of so many. Those with the first member come first.
fn subset(alloc: Global, members: &[Value], count: usize, number: usize) -> Result<Value, EvalStop>
    requires { count ≡ 2 ^ length members.now }
    ensures { Answers result (operators.set_from (subset_at number (map data_of members.now))) }
{
    let mut some = Vec::new(alloc);
    let mut half = count;
    let mut rest = number;
    for m in members {
        half /= 2;
        if rest < half {
            some.push(m.copy(alloc)?)?;
        } else {
            rest -= half;
        }
    }
    set_of(some)
}
