// Copies of statements. Each call goes down to the depth of the nesting; lists are walked by loops.
ghost use Rattle.std.specs.Prelude.{◌≡◌, IfOk};
ghost use Rattle.pgo_syntax.specs.StatementView.{statement};

use crate::name::copy_optional;
use crate::statement::{Alternatives, Block, Branch, Branches, Labeled, Nested, Stmt};
use pgo_base::items::Copied;
use pgo_base::results::both;
use std::alloc::{AllocError, Global};

impl Stmt {
    /// The same statement once more, with its places.
    #[cycle(copy)]
    pub fn copy(&self, alloc: Global) -> Result<Stmt, AllocError>
        ensures { IfOk result (λ s. statement s ≡ statement self.now) }
    {
        match self {
            Stmt::Skip(place) => Ok(Stmt::Skip(*place)),
            Stmt::Assign(place, list) => Ok(Stmt::Assign(*place, list.copy(alloc)?)),
            Stmt::If(place, list) => Ok(Stmt::If(*place, list.copy(alloc)?)),
            Stmt::IfElse(place, list, s) => {
                let (list, s) = both(list.copy(alloc), s.copy(alloc))?;
                Ok(Stmt::IfElse(*place, list, s))
            }
            Stmt::While(place, e, s) => {
                let (e, s) = both(e.copy(alloc), s.copy(alloc))?;
                Ok(Stmt::While(*place, e, s))
            }
            Stmt::Either(place, list) => Ok(Stmt::Either(*place, list.copy(alloc)?)),
            Stmt::Await(place, e) => Ok(Stmt::Await(*place, e.copy(alloc)?)),
            Stmt::With(place, names, s) => {
                let (names, s) = both(names.copy(alloc), s.copy(alloc))?;
                Ok(Stmt::With(*place, names, s))
            }
            Stmt::Print(place, e) => Ok(Stmt::Print(*place, e.copy(alloc)?)),
            Stmt::Assert(place, e) => Ok(Stmt::Assert(*place, e.copy(alloc)?)),
            Stmt::Goto(place, label) => Ok(Stmt::Goto(*place, label.copy(alloc)?)),
            Stmt::Call(place, name, list) => {
                let (name, list) = both(name.copy(alloc), list.copy(alloc))?;
                Ok(Stmt::Call(*place, name, list))
            }
            Stmt::Yield(place, e) => Ok(Stmt::Yield(*place, e.copy(alloc)?)),
            Stmt::Block(place, block) => Ok(Stmt::Block(*place, block.copy(alloc)?)),
        }
    }
}

impl Nested {
    /// The same statement once more.
    #[cycle(copy)]
    pub fn copy(&self, alloc: Global) -> Result<Nested, AllocError>
        ensures { IfOk result (λ s. s ≡ self.now) }
    {
        Nested::new(alloc, self.inner.copy(alloc)?)
    }
}

impl Alternatives {
    /// The same statements once more.
    #[cycle(copy)]
    pub fn copy(&self, alloc: Global) -> Result<Alternatives, AllocError>
        ensures { IfOk result (λ list. list ≡ self.now) }
    {
        let mut list = Vec::with_capacity(alloc, self.list.len())?;
        for item in &self.list {
            list.push(item.copy(alloc)?)?;
        }
        Ok(Alternatives { list })
    }
}

impl Block {
    /// The same statements once more, with their labels.
    #[cycle(copy)]
    pub fn copy(&self, alloc: Global) -> Result<Block, AllocError>
        ensures { IfOk result (λ list. list ≡ self.now) }
    {
        let mut list = Vec::with_capacity(alloc, self.list.len())?;
        for item in &self.list {
            let label = copy_optional(alloc, &item.label);
            let (label, statement) = both(label, item.statement.copy(alloc))?;
            list.push(Labeled { label, statement })?;
        }
        Ok(Block { list })
    }
}

impl Branches {
    /// The same branches once more.
    #[cycle(copy)]
    pub fn copy(&self, alloc: Global) -> Result<Branches, AllocError>
        ensures { IfOk result (λ list. list ≡ self.now) }
    {
        let mut list = Vec::with_capacity(alloc, self.list.len())?;
        for item in &self.list {
            let condition = item.condition.copy(alloc);
            let (condition, statement) = both(condition, item.statement.copy(alloc))?;
            list.push(Branch {
                place: item.place,
                condition,
                statement,
            })?;
        }
        Ok(Branches { list })
    }
}
