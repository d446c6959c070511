// What an expression comes to, before it is known whether its value is asked for or what it holds.
ghost use Rattle.std.specs.Prelude.{◌≡◌, Some, option_map, IfOk};
ghost use Rattle.pgo_base.specs.View.{data_of};
ghost use Rattle.pgo_model.specs.Val.{Sem, word_sem};
ghost use Rattle.pgo_eval.specs.HeldView.{held_data, evaluated_sem, sem_of};

use crate::answers::held_or_none;
use crate::held::Held;
use pgo_base::expr::Word;
use pgo_base::value::Value;
use pgo_sets::build::set_of;
use pgo_sets::function_sets::{
    functions, is_in_functions, is_in_product, is_in_records, product_of, records,
};
use pgo_sets::lookup::{is_in_power, is_in_range, member};
use pgo_sets::powers::power;
use pgo_sets::ranges::range;
use std::alloc::{AllocError, Global};

/// A value, or the parts of a set that is built only where its value is asked for.
#[derive(Drop)]
pub enum Evaluated<'a> {
    OfValue(Held<'a>),
    OfWord(Word),
    Subsets(Held<'a>),
    Range(Held<'a>, Held<'a>),
    Functions(Held<'a>, Held<'a>),
    Product(Vec<Value>),
    Records(Vec<(Value, Value)>),
}

impl<'a> Evaluated<'a> {
    /// The value, or none.
    pub fn into_held(self, alloc: Global) -> Result<Option<Held<'a>>, AllocError>
        ensures { IfOk result (λ o. option_map held_data o ≡ (evaluated_sem self.entry).value) }
    {
        match self {
            Evaluated::OfValue(v) => Ok(Some(v)),
            Evaluated::OfWord(w) => word_value(alloc, w),
            Evaluated::Subsets(s) => held_or_none(power(alloc, s.get())),
            Evaluated::Range(a, b) => held_or_none(range(alloc, a.get(), b.get())),
            Evaluated::Functions(a, b) => held_or_none(functions(alloc, a.get(), b.get())),
            Evaluated::Product(factors) => held_or_none(product_of(alloc, &factors)),
            Evaluated::Records(fields) => held_or_none(records(alloc, fields)),
        }
    }

    /// Whether it holds a value; no set is built.
    pub fn holds(self, alloc: Global, x: &Value) -> Result<Option<bool>, AllocError>
        ensures { IfOk result (λ o. o ≡ (evaluated_sem self.entry).holds (data_of x.now)) }
    {
        match self {
            Evaluated::OfValue(s) => Ok(member(x, s.get())),
            Evaluated::OfWord(w) => Ok(Some(word_holds(w, x))),
            Evaluated::Subsets(s) => Ok(is_in_power(x, s.get())),
            Evaluated::Range(a, b) => Ok(is_in_range(x, a.get(), b.get())),
            Evaluated::Functions(a, b) => Ok(is_in_functions(x, a.get(), b.get())),
            Evaluated::Product(factors) => is_in_product(alloc, x, &factors),
            Evaluated::Records(fields) => is_in_records(alloc, x, fields),
        }
    }
}

/// The value of what an expression comes to.
pub fn value_held<'a>(
    alloc: Global,
    v: Result<Option<Evaluated<'a>>, AllocError>,
) -> Result<Option<Held<'a>>, AllocError>
    ensures { (m : Sem) → IfOk v.entry (λ o. sem_of o ≡ m) → IfOk result (λ h. option_map held_data h ≡ m.value) }
{
    match v? {
        Some(v) => v.into_held(alloc),
        None => Ok(None),
    }
}

/// BOOLEAN is a set; Nat, Int and STRING have no value.
fn word_value<'a>(alloc: Global, w: Word) -> Result<Option<Held<'a>>, AllocError>
    ensures { IfOk result (λ o. option_map held_data o ≡ (word_sem w).value) }
{
    match w {
        Word::BooleanSet => {
            let both = vec![in alloc; Value::Bool(false), Value::Bool(true)]?;
            held_or_none(set_of(both))
        }
        _ => Ok(None),
    }
}

/// Whether a value is in the set that the word names.
fn word_holds(w: Word, x: &Value) -> bool
    ensures { Some result ≡ (word_sem w).holds (data_of x.now) }
{
    match (w, x) {
        (Word::BooleanSet, Value::Bool(_)) => true,
        (Word::Nat, Value::Int(n)) => *n >= 0,
        (Word::Int, Value::Int(_)) => true,
        (Word::StringSet, Value::Str(_)) => true,
        _ => false,
    }
}
