// What the expressions of a sheet see: definitions, names, a state and a next state.
use crate::answers::{name, value};
use pgo_base::bindings::{Bindings, NamedValue};
use pgo_base::expr::{Expr, Names, Sub};
use pgo_base::module::{Defined, Defs};
use pgo_base::results::both;
use pgo_base::scope::{Around, Env, State};
use pgo_base::value::Value;
use pgo_eval::eval::eval;
use pgo_expr_read::reader::read_expr;
use pgo_sets::errors::EvalStop;
use pgo_sheet::sheet::halves;
use std::alloc::{AllocError, Global};
use std::mem;

/// The greatest height of an expression.
pub const HEIGHT: u32 = 600;

/// What the lines so far have given. There is no next state before a line gives it a variable.
#[derive(Drop)]
pub struct Scene {
    alloc: Global,
    definitions: Defs,
    names: Vec<NamedValue>,
    state: State,
    next: Option<State>,
}

impl Scene {
    /// Nothing.
    pub fn new(alloc: Global) -> Scene {
        Scene {
            alloc,
            definitions: Defs::new(alloc),
            names: Vec::new(alloc),
            state: State::from_vec(Vec::new(alloc)),
            next: None,
        }
    }

    /// Takes a line; false: there is no such key, or its text isn't read.
    pub fn take(&mut self, key: &str, text: &str) -> Result<bool, AllocError> {
        let (x, text) = halves(text);
        match key {
            "def" => self.define(x, text),
            "defs" => self.define_often(x, text),
            "name" => self.add_name(x, text),
            "constant" | "now" | "next" => match value(self.alloc, text)? {
                Some(v) => self.take_value(key, x, v),
                None => Ok(false),
            },
            _ => Ok(false),
        }
    }

    fn take_value(&mut self, key: &str, x: &str, value: Value) -> Result<bool, AllocError> {
        let name = name(self.alloc, x)?;
        match key {
            "constant" => self.definitions.push(Defined::Given { name, value })?,
            "now" => {
                let state = State::from_vec(Vec::new(self.alloc));
                let mut list = mem::replace(&mut self.state, state).into_vec();
                list.push((name, value))?;
                self.state = State::from_vec(list);
            }
            _ => {
                let mut list = match self.next.take() {
                    Some(state) => state.into_vec(),
                    None => Vec::new(self.alloc),
                };
                list.push((name, value))?;
                self.next = Some(State::from_vec(list));
            }
        }
        Ok(true)
    }

    /// A name with its value; without a text it has none.
    fn add_name(&mut self, x: &str, text: &str) -> Result<bool, AllocError> {
        let (name, value) = both(name(self.alloc, x), value(self.alloc, text))?;
        let is_good = value.is_some() || text.is_empty();
        self.names.push(NamedValue { name, value })?;
        Ok(is_good)
    }

    fn define(&mut self, head: &str, body: &str) -> Result<bool, AllocError> {
        match definition(self.alloc, head, body)? {
            Some(defined) => {
                self.definitions.push(defined)?;
                Ok(true)
            }
            None => Ok(false),
        }
    }

    /// One definition so many times.
    fn define_often(&mut self, number: &str, text: &str) -> Result<bool, AllocError> {
        let (head, body) = halves(text);
        let Ok(count) = number.parse::<u16>() else {
            return Ok(false);
        };
        for _ in 0..count {
            if !self.define(head, body)? {
                return Ok(false);
            }
        }
        Ok(true)
    }

    /// What an expression gives.
    pub fn value_of(&self, e: &Expr) -> Result<Value, EvalStop> {
        let outer = Bindings::new();
        let names = Bindings::with_values(self.names.as_slice(), &outer);
        let env = Env {
            names: &names,
            around: Around::new(&self.state, self.next.as_ref(), &[]),
        };
        eval(self.alloc, &self.definitions, e, &env)
    }
}

/// A definition: its name, with parameters in parentheses or none, and its body; none where this is no expression.
fn definition(alloc: Global, head: &str, body: &str) -> Result<Option<Defined>, AllocError> {
    let (x, params) = match head.split_once('(') {
        Some((x, params)) => (x, params),
        None => (head, ""),
    };
    match read_expr(alloc, body.as_bytes(), HEIGHT) {
        Ok(body) => {
            let names = both(name(alloc, x), parameters(alloc, params));
            let ((name, params), body) = both(names, Sub::new(alloc, body))?;
            Ok(Some(Defined::Means { name, params, body }))
        }
        Err(_) => Ok(None),
    }
}

/// The names before each comma or parenthesis.
fn parameters(alloc: Global, text: &str) -> Result<Names, AllocError> {
    let mut list = Vec::new(alloc);
    for param in text.split([',', ')']) {
        if !param.is_empty() {
            list.push(name(alloc, param)?)?;
        }
    }
    Ok(Names::from_vec(list))
}
