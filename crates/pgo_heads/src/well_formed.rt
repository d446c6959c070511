// What holds of every value in memory: integers have 64 bits, and members and keys stand in order, each once.
ghost use Rattle.std.specs.Prelude.{IsTrue, map};
ghost use Rattle.pgo_base.specs.Data.{items, pairs};
ghost use Rattle.pgo_base.specs.PairsView.{all_pairs};
ghost use Rattle.pgo_base.specs.View.{data_of, named_data, pair_of};
ghost use Rattle.pgo_model.specs.Operators.{fits_i64};
ghost use Rattle.pgo_model.specs.State.{AllValues};
ghost use Rattle.pgo_model.specs.Value.{IsValue, AreValues, ArePairs};

use pgo_base::pairs::Pairs;
use pgo_base::scope::State;
use pgo_base::text::Text;
use pgo_base::value::Value;

/// An integer in memory has 64 bits.
fn integer_fits(_z: i64)
    ensures { IsTrue (fits_i64 _z) }
{}

/// What is in memory is a value.
#[cycle(well_formed)]
fn value_is_well_formed(value: &Value)
    ensures { IsValue (data_of value.now) }
{
    match value {
        Value::Bool(_) => {}
        Value::Int(z) => integer_fits(*z),
        Value::Str(_) => {}
        Value::Model(_) => {}
        Value::Set(s) => members_are_well_formed(s.in_order()),
        Value::Fun(f) => pairs_are_well_formed(f.in_order()),
    }
}

/// Members are values.
#[cycle(well_formed)]
fn members_are_well_formed(members: &[Value])
    ensures { AreValues (items (map data_of members.now)) }
{
    for m in members {
        value_is_well_formed(m);
    }
}

/// Keys and what stands at them are values.
#[cycle(well_formed)]
fn pairs_are_well_formed(list: Pairs<'_>)
    ensures { ArePairs (pairs (map pair_of (all_pairs list.entry))) }
{
    for i in 0..list.len() {
        let p = list.at(i);
        value_is_well_formed(&p.0);
        value_is_well_formed(&p.1);
    }
}

/// What these variables have are values.
fn variables_are_well_formed(list: &[(Text, Value)])
    ensures { AllValues (map named_data list.now) }
{
    for p in list {
        value_is_well_formed(&p.1);
    }
}

/// What the variables of a state have are values.
pub fn state_is_well_formed(state: &State)
    ensures { AllValues state.now }
{
    variables_are_well_formed(state.as_slice());
}
