// A value that is changed part by part, in place.
ghost use Rattle.std.specs.Prelude.{◌≡◌, ◌∷◌, map, Some, option_map, IfOk};
ghost use Rattle.pgo_base.specs.Data.{function, pairs};
ghost use Rattle.pgo_base.specs.View.{data_of};
ghost use Rattle.pgo_model.specs.Operators as operators;

use crate::build::tested;
use crate::lookup::key_place;
use pgo_base::value::{Fun, Value};
use std::alloc::AllocError;
use std::marker::Model;

/// A value that is changed.
#[derive(Drop)]
pub struct Changed {
    content: Value,
}

impl Model for Changed {
    ghost use Rattle.pgo_base.specs.Data.{Data};
    ghost use Rattle.pgo_base.specs.Code.{coded_data};
    ghost use Rattle.pgo_base.specs.View.{data_of};

    ghost Value = { Data };

    ghost coded = { coded_data };

    ghost view = { λ c. data_of c.content };
}

impl Changed {
    /// This value.
    pub fn new(content: Value) -> Changed
        ensures { result ≡ data_of content }
    {
        Changed { content }
    }

    /// The value as it is now.
    pub fn get(&self) -> &Value
        ensures { data_of result.now ≡ self.now }
    {
        &self.content
    }

    /// The value, out of it.
    pub fn into_value(self) -> Value
        ensures { data_of result ≡ self }
    {
        self.content
    }

    /// The value with v at a path, as EXCEPT makes it: where an index isn't in a domain, nothing is changed. Each function on the
    /// way is changed in one step, and its pairs are copied where another value has them too; no other part is.
    ///
    /// None where there is no function on the way, one has more than 65,536 keys or becomes deeper than 2,048. Source:
    /// "Specifying Systems".
    pub fn put(self, path: &[Value], v: Value) -> Result<Option<Changed>, AllocError>
        ensures { IfOk result (λ o. o ≡ operators.put_at (map data_of path.now) (λ part. Some (data_of v)) (Some self)) }
    {
        let Changed { content } = self;
        match put_within(content, path, v)? {
            Some(content) => Ok(Some(Changed { content })),
            None => Ok(None),
        }
    }
}

/// The function with v at a path, where that is a value.
#[cycle(put)]
fn put_within(f: Value, path: &[Value], v: Value) -> Result<Option<Value>, AllocError>
    ensures { IfOk result (λ o. option_map data_of o ≡ operators.put_at (map data_of path.now) (λ part. Some (data_of v)) (Some (data_of f))) }
{
    let Some((i, rest)) = path.split_first() else {
        return Ok(Some(v));
    };
    match f {
        Value::Fun(f) => put_in(f, i, rest, v),
        _ => Ok(None),
    }
}

/// The same where there is a function, and a first index.
#[cycle(put)]
fn put_in(f: Fun, i: &Value, rest: &[Value], v: Value) -> Result<Option<Value>, AllocError>
    ensures { IfOk result (λ o. option_map data_of o ≡ operators.put_at (data_of i.now ∷ map data_of rest.now) (λ part. Some (data_of v)) (Some (function (pairs f)))) }
{
    let Some(place) = key_place(&f, i) else {
        return Ok(Some(Value::Fun(f)));
    };
    let (without, part) = f.replace_at(place, Value::Bool(false))?;
    match put_within(part, rest, v)? {
        Some(w) => {
            let (changed, _) = without.replace_at(place, w)?;
            Ok(if_value(changed))
        }
        None => Ok(None),
    }
}

/// This function, where it is a value.
fn if_value(f: Fun) -> Option<Value>
    ensures { option_map data_of result ≡ operators.function_of f }
{
    let count = f.len();
    tested(count, Value::Fun(f))
}
