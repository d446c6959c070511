// A value that is lent or owned.
ghost use Rattle.std.specs.Prelude.{◌≡◌, option_map, IfOk};
ghost use Rattle.pgo_base.specs.View.{data_of};
ghost use Rattle.pgo_model.specs.Operators.{both, apply};
ghost use Rattle.pgo_eval.specs.HeldView.{held_data};

use pgo_base::value::Value;
use pgo_sets::lookup::at;
use std::alloc::{AllocError, Global};

/// A value: lent by a name in scope, a variable or a part of one, or else owned.
#[derive(Drop)]
pub enum Held<'a> {
    Lent(&'a Value),
    Own(Value),
}

impl<'a> Held<'a> {
    /// The value.
    pub fn get(&self) -> &Value
        ensures { data_of result.now ≡ held_data self.now }
    {
        match self {
            Held::Lent(v) => v,
            Held::Own(v) => v,
        }
    }

    /// The value itself, copied where it is lent.
    pub fn into_value(self, alloc: Global) -> Result<Value, AllocError>
        ensures { IfOk result (λ v. data_of v ≡ held_data self.entry) }
    {
        match self {
            Held::Lent(v) => v.copy(alloc),
            Held::Own(v) => Ok(v),
        }
    }
}

/// The value itself, where there is one, copied where it is lent.
pub fn owned(alloc: Global, held: Option<Held<'_>>) -> Result<Option<Value>, AllocError>
    ensures { IfOk result (λ o. option_map data_of o ≡ option_map held_data held.entry) }
{
    match held {
        Some(h) => Ok(Some(h.into_value(alloc)?)),
        None => Ok(None),
    }
}

/// A value that is owned, where there is one.
pub fn own<'a>(v: Option<Value>) -> Option<Held<'a>>
    ensures { option_map held_data result ≡ option_map data_of v }
{
    match v {
        Some(v) => Some(Held::Own(v)),
        None => None,
    }
}

/// The value, where there is one, without a copy.
pub fn lent<'b>(held: &'b Option<Held<'_>>) -> Option<&'b Value>
    ensures { option_map (λ r. data_of r.now) result ≡ option_map held_data held.now }
{
    match held {
        Some(h) => Some(h.get()),
        None => None,
    }
}

/// `f[i]`: lent where f is lent, else a copy of the one value.
pub fn part_at<'a>(
    alloc: Global,
    f: Option<Held<'a>>,
    i: Option<&Value>,
) -> Result<Option<Held<'a>>, AllocError>
    ensures { IfOk result (λ o. option_map held_data o ≡ both apply (option_map held_data f.entry) (option_map (λ r. data_of r.now) i.entry)) }
{
    let (Some(f), Some(i)) = (f, i) else {
        return Ok(None);
    };
    match f {
        Held::Lent(f) => Ok(at(f, i).map(Held::Lent)),
        Held::Own(f) => match at(&f, i) {
            Some(v) => Ok(Some(Held::Own(v.copy(alloc)?))),
            None => Ok(None),
        },
    }
}
