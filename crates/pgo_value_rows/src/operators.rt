// The operators on sets, functions and sequences, called with values.
mod calls;
pub mod operands;

use crate::answers::{given, value, wanted};
use crate::operators::calls::called;
use pgo_base::value::Value;
use pgo_sets::errors::EvalStop;
use pgo_sheet::answers::unless_same;
use pgo_sheet::sheet::Subject;
use std::alloc::{AllocError, Global};

/// The operands, of which each stays until a line changes it, and the operator that the row calls.
#[derive(Drop)]
pub struct Operators {
    alloc: Global,
    x: Value,
    y: Value,
    z: Value,
    operator: String,
}

impl Operators {
    pub fn new(alloc: Global) -> Operators {
        Operators {
            alloc,
            x: Value::Bool(false),
            y: Value::Bool(false),
            z: Value::Bool(false),
            operator: String::new(alloc),
        }
    }

    /// What the operator gives; none where there is no such operator.
    fn answer(&self) -> Option<Result<Value, EvalStop>> {
        called(
            self.alloc,
            self.operator.as_str(),
            &self.x,
            &self.y,
            &self.z,
        )
    }

    fn put(&mut self, place: &str, v: Value) -> bool {
        match place {
            "x" => self.x = v,
            "y" => self.y = v,
            "z" => self.z = v,
            _ => return false,
        }
        true
    }

    /// The answer becomes an operand.
    fn keep(&mut self, place: &str) -> Result<bool, AllocError> {
        match self.answer() {
            Some(Ok(v)) => Ok(self.put(place, v)),
            _ => Ok(false),
        }
    }
}

impl Subject for Operators {
    fn take(&mut self, key: &str, text: &str) -> Result<bool, AllocError> {
        match key {
            "call" => {
                self.operator = String::from_str(self.alloc, text)?;
                Ok(true)
            }
            "keep" => self.keep(text),
            _ => match value(self.alloc, text)? {
                Some(v) => Ok(self.put(key, v)),
                None => Ok(false),
            },
        }
    }

    fn end(&mut self, text: &str) -> Result<Option<String>, AllocError> {
        let answer = match self.answer() {
            Some(answer) => given(self.alloc, answer)?,
            None => String::from_str(self.alloc, "no such operator")?,
        };
        let wanted = wanted(self.alloc, text)?;
        Ok(unless_same(answer, wanted.as_str()))
    }
}
