// The texts of values, of resources and of expressions.
ghost use Rattle.std.specs.Prelude.{◌≡◌, ◌++◌, true, codes, option_map, IfOk};
ghost use Rattle.pgo_base.specs.View.{data_of};
ghost use Rattle.pgo_model.specs.Bundle as bundle;
ghost use Rattle.pgo_model.specs.ExprText.{expr_text};
ghost use Rattle.pgo_model.specs.ValueText as spec;

use pgo_base::expr::Sub;
use pgo_base::text::Text;
use pgo_base::value::Value;
use pgo_expr_write::write::write_body;
use pgo_value_text::write::write_value;
use std::alloc::{AllocError, Global};

/// The text of a value.
pub fn value_text(alloc: Global, value: &Value) -> Result<Text, AllocError>
    ensures { IfOk result (λ t. t ≡ spec.value_text (data_of value.now)) }
{
    match write_value(alloc, value) {
        Ok(text) => Ok(text),
        Err(_) => Err(AllocError),
    }
}

/// `x[index]`.
fn at_index(alloc: Global, variable: &Text, index: &Value) -> Result<Text, AllocError>
    ensures { IfOk result (λ t. t ≡ variable.now ++ codes "[" ++ spec.value_text (data_of index.now) ++ codes "]") }
{
    let value = value_text(alloc, index)?;
    let mut bytes = Vec::from_slice(alloc, variable.as_bytes())?;
    bytes.push(b'[')?;
    bytes.extend_from_slice(value.as_bytes())?;
    bytes.push(b']')?;
    Ok(Text::from_bytes(bytes)?)
}

/// The text of a resource: `x`, or `x[index]`.
pub fn indexed_text(
    alloc: Global,
    variable: &Text,
    index: &Option<Value>,
) -> Result<Text, AllocError>
    ensures { IfOk result (λ t. t ≡ bundle.indexed_text variable.now (option_map data_of index.now)) }
{
    match index {
        None => variable.copy(alloc),
        Some(index) => at_index(alloc, variable, index),
    }
}

/// The text of an expression that is a body.
pub fn body_text(alloc: Global, e: &Sub) -> Result<Text, AllocError>
    ensures { IfOk result (λ t. t ≡ expr_text true e.now) }
{
    match write_body(alloc, e.get()) {
        Ok(body) => Ok(body),
        Err(_) => Err(AllocError),
    }
}
