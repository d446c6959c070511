// Operands that an operator takes apart.
use pgo_base::results::both;
use pgo_base::value::Value;
use pgo_sets::errors::EvalStop;
use std::alloc::{AllocError, Global};

/// The values of a sequence, in order; of another value none.
pub fn elements(alloc: Global, v: &Value) -> Result<Vec<Value>, AllocError> {
    let mut list = Vec::new(alloc);
    if let Value::Fun(f) = v {
        let pairs = f.pairs();
        for i in 0..pairs.len() {
            let pair = pairs.at(i);
            list.push(pair.1.copy(alloc)?)?;
        }
    }
    Ok(list)
}

/// The keys of a function with their values; of another value none.
pub fn fields(alloc: Global, v: &Value) -> Result<Vec<(Value, Value)>, AllocError> {
    let mut list = Vec::new(alloc);
    if let Value::Fun(f) = v {
        let pairs = f.pairs();
        for i in 0..pairs.len() {
            let pair = pairs.at(i);
            list.push(both(pair.0.copy(alloc), pair.1.copy(alloc))?)?;
        }
    }
    Ok(list)
}

/// The pairs of a sequence of sequences of two values, in its order.
pub fn pairs(alloc: Global, v: &Value) -> Result<Vec<(Value, Value)>, AllocError> {
    let mut list = Vec::new(alloc);
    if let Value::Fun(f) = v {
        let pairs = f.pairs();
        for i in 0..pairs.len() {
            if let Value::Fun(two) = &pairs.at(i).1 {
                let two = two.pairs();
                if two.len() == 2 {
                    list.push(both(two.at(0).1.copy(alloc), two.at(1).1.copy(alloc))?)?;
                }
            }
        }
    }
    Ok(list)
}

/// A truth as a value, where there is one.
pub fn truth(p: Option<bool>) -> Result<Value, EvalStop> {
    match p {
        Some(p) => Ok(Value::Bool(p)),
        None => Err(EvalStop::NoValue),
    }
}

/// A copy of a value, where there is one.
pub fn copied(alloc: Global, v: Option<&Value>) -> Result<Value, EvalStop> {
    match v {
        Some(v) => Ok(v.copy(alloc)?),
        None => Err(EvalStop::NoValue),
    }
}
