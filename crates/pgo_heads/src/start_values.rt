// What a variable starts with.
ghost use Rattle.std.specs.Prelude.{◌≡◌, option_map, IfOk};
ghost use Rattle.pgo_base.specs.View.{data_of};
ghost use Rattle.pgo_bound.specs.Values as values;
ghost use Rattle.pgo_heads.specs.Views.{start_view};

use pgo_base::depth::is_deeper;
use pgo_base::text::Text;
use pgo_base::value::Value;
use std::alloc::{AllocError, Global};

/// What a variable starts with.
#[derive(Drop)]
pub enum Start {
    /// The expression has no value, or no set as its value.
    Missing,
    /// The set is empty.
    Empty,
    /// It begins with this value.
    Begins(Value),
}

/// `defaultInitValue`, which is a model value of that name.
pub fn default_value(alloc: Global) -> Result<Value, AllocError>
    ensures { IfOk result (λ v. data_of v ≡ values.beginning values.default_start) }
{
    Ok(Value::Model(Text::from_slice(alloc, b"defaultInitValue")?))
}

/// The start of a variable with `= e`.
pub fn start_of_value(value: Option<Value>) -> Start
    ensures { start_view result ≡ values.start_of_value (option_map data_of value) }
{
    match value {
        None => Start::Missing,
        Some(v) => Start::Begins(v),
    }
}

/// The value that a variable begins with, once more; `defaultInitValue` where there is none.
pub fn beginning(alloc: Global, start: &Start) -> Result<Value, AllocError>
    ensures { IfOk result (λ v. data_of v ≡ values.beginning (start_view start.now)) }
{
    match start {
        Start::Begins(v) => v.copy(alloc),
        _ => default_value(alloc),
    }
}

/// Whether there is no value, or one that is deeper than the limit.
pub fn is_unset(limit: usize, start: &Start) -> bool
    ensures { result ≡ values.is_unset limit (start_view start.now) }
{
    match start {
        Start::Missing => true,
        Start::Empty => false,
        Start::Begins(v) => is_deeper(v, limit),
    }
}
