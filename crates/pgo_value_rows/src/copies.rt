// Copies of statements and values that are as long or as deep as they may be.
use crate::answers::given;
use pgo_base::compare::compare;
use pgo_base::expr::{Expr, Sub};
use pgo_base::results::both;
use pgo_base::value::Value;
use pgo_sets::build::set_of;
use pgo_sets::errors::EvalStop;
use pgo_sheet::answers::unless_same;
use pgo_sheet::sheet::Subject;
use pgo_syntax::statement::{Block, Branches, Nested, Stmt};
use std::alloc::{AllocError, Global};

/// What the last line's copy is.
#[derive(Drop)]
pub struct Copies {
    alloc: Global,
    answer: String,
}

impl Copies {
    pub fn new(alloc: Global) -> Copies {
        Copies {
            alloc,
            answer: String::new(alloc),
        }
    }
}

impl Subject for Copies {
    fn take(&mut self, key: &str, text: &str) -> Result<bool, AllocError> {
        let Ok(count) = text.parse::<u32>() else {
            return Ok(false);
        };
        self.answer = match key {
            "branches" => shape_of_copy(self.alloc, chain(self.alloc, count))?,
            "blocks" => shape_of_copy(self.alloc, blocks(self.alloc, count))?,
            "sets" => given(self.alloc, is_set_copied(self.alloc, count))?,
            _ => return Ok(false),
        };
        Ok(true)
    }

    fn end(&mut self, wanted: &str) -> Result<Option<String>, AllocError> {
        let answer = self.answer.clone()?;
        Ok(unless_same(answer, wanted))
    }
}

/// An `if` with so many branches.
fn chain(alloc: Global, count: u32) -> Result<Stmt, AllocError> {
    let mut branches = Branches::new(alloc);
    for place in 0..count {
        let condition = Sub::new(alloc, Expr::Truth(true));
        let (condition, nested) = both(condition, Nested::new(alloc, Stmt::Skip(place)))?;
        branches.push(place, condition, nested)?;
    }
    Ok(Stmt::If(0, branches))
}

/// `skip` in so many blocks, which stand at the places from 0 on.
fn blocks(alloc: Global, count: u32) -> Result<Stmt, AllocError> {
    let mut inner = Stmt::Skip(0);
    for place in 0..count {
        let mut block = Block::new(alloc);
        block.push(None, Nested::new(alloc, inner)?)?;
        inner = Stmt::Block(place, block);
    }
    Ok(inner)
}

/// What the copy of a statement is: the branches of an `if`, or the place of another.
fn shape_of_copy(alloc: Global, whole: Result<Stmt, AllocError>) -> Result<String, AllocError> {
    let copy = whole?.copy(alloc)?;
    shape_of(alloc, &copy)
}

fn shape_of(alloc: Global, s: &Stmt) -> Result<String, AllocError> {
    match s {
        Stmt::If(_, branches) => format!(in alloc; "{} branches", branches.as_slice().len()),
        _ => format!(in alloc; "at {}", s.place()),
    }
}

/// The set of the set of .. of the empty set, this deep.
fn nested(alloc: Global, depth: u32) -> Result<Value, EvalStop> {
    let mut v = set_of(Vec::new(alloc))?;
    for _ in 1..depth {
        v = set_of(vec![in alloc; v]?)?;
    }
    Ok(v)
}

/// Whether its copy is the same as another that is made so.
fn is_set_copied(alloc: Global, depth: u32) -> Result<Value, EvalStop> {
    let copy = nested(alloc, depth)?.copy(alloc)?;
    let other = nested(alloc, depth)?;
    Ok(Value::Bool(compare(&copy, &other).is_eq()))
}
