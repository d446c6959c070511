// The operators on integers of 64 bits.
ghost use Rattle.std.specs.Prelude.{◌≡◌, ◌-ℤ◌, ◌+ℤ◌, ◌*ℤ◌, pos, not, int_lt, Option, Some, option_map};
ghost use Rattle.pgo_base.specs.Data.{boolean, integer};
ghost use Rattle.pgo_base.specs.View.{data_of};
ghost use Rattle.pgo_model.specs.Operators.{in_64, on_integers, divide, modulo};

use pgo_base::value::Value;

/// `-x`: none where it doesn't fit.
pub fn negative(x: &Value) -> Option<Value>
    ensures { option_map data_of result ≡ on_integers (λ y z. in_64 (y -ℤ z)) (integer (pos 0)) (data_of x.now) }
{
    match x {
        Value::Int(x) => 0i64.checked_sub(*x).map(Value::Int),
        _ => None,
    }
}

/// `x + y`: none where it doesn't fit.
pub fn sum(x: &Value, y: &Value) -> Option<Value>
    ensures { option_map data_of result ≡ on_integers (λ y z. in_64 (y +ℤ z)) (data_of x.now) (data_of y.now) }
{
    match (x, y) {
        (Value::Int(x), Value::Int(y)) => x.checked_add(*y).map(Value::Int),
        _ => None,
    }
}

/// `x - y`: none where it doesn't fit.
pub fn difference(x: &Value, y: &Value) -> Option<Value>
    ensures { option_map data_of result ≡ on_integers (λ y z. in_64 (y -ℤ z)) (data_of x.now) (data_of y.now) }
{
    match (x, y) {
        (Value::Int(x), Value::Int(y)) => x.checked_sub(*y).map(Value::Int),
        _ => None,
    }
}

/// `x * y`: none where it doesn't fit.
pub fn product(x: &Value, y: &Value) -> Option<Value>
    ensures { option_map data_of result ≡ on_integers (λ y z. in_64 (y *ℤ z)) (data_of x.now) (data_of y.now) }
{
    match (x, y) {
        (Value::Int(x), Value::Int(y)) => x.checked_mul(*y).map(Value::Int),
        _ => None,
    }
}

/// `x \div y`: the quotient rounded down, none where y is less than 1.
pub fn quotient(x: &Value, y: &Value) -> Option<Value>
    ensures { option_map data_of result ≡ divide (data_of x.now) (data_of y.now) }
{
    match (x, y) {
        (Value::Int(x), Value::Int(y)) => {
            if *y < 1 {
                None
            } else {
                Some(Value::Int(x.div_euclid(*y)))
            }
        }
        _ => None,
    }
}

/// `x % y`: the remainder, which is not negative, none where y is less than 1.
pub fn remainder(x: &Value, y: &Value) -> Option<Value>
    ensures { option_map data_of result ≡ modulo (data_of x.now) (data_of y.now) }
{
    match (x, y) {
        (Value::Int(x), Value::Int(y)) => {
            if *y < 1 {
                None
            } else {
                Some(Value::Int(x.rem_euclid(*y)))
            }
        }
        _ => None,
    }
}

/// `x < y`.
pub fn less(x: &Value, y: &Value) -> Option<Value>
    ensures { option_map data_of result ≡ on_integers (λ y z. Some (boolean (int_lt y z))) (data_of x.now) (data_of y.now) }
{
    match (x, y) {
        (Value::Int(x), Value::Int(y)) => Some(Value::Bool(*x < *y)),
        _ => None,
    }
}

/// `x <= y`.
pub fn at_most(x: &Value, y: &Value) -> Option<Value>
    ensures { option_map data_of result ≡ on_integers (λ y z. Some (boolean (not (int_lt z y)))) (data_of x.now) (data_of y.now) }
{
    match (x, y) {
        (Value::Int(x), Value::Int(y)) => Some(Value::Bool(*x <= *y)),
        _ => None,
    }
}
