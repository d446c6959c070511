// Statements, blocks and what stands in them.
ghost use Rattle.std.specs.Prelude.{◌≡◌, [], ◌∷◌, ◌++◌, map, IfOk};
ghost use Rattle.pgo_syntax.specs.Statement.{place_of};
ghost use Rattle.pgo_syntax.specs.StatementView.{statement, labeled_pair, branch_parts};

mod copies;

use crate::assignment::Assignments;
use crate::binding::WithNames;
use crate::name::PlacedName;
use pgo_base::expr::{Exprs, Sub};
use std::alloc::{AllocError, Global};
use std::marker::Model;

/// A statement: one variant for each form, with its place, the offset of its first byte in the text.
///
/// `when e` is `Await` too. The names of an expression keep no places of their own: an expression stands in a statement
/// or a declaration that has one, and a walk from left to right meets its names in the order of the text.
///
/// Source: the PlusCal manual; `yield` is the Modular PlusCal paper's.
#[cycle(statement)]
pub enum Stmt {
    /// `skip`
    Skip(u32),
    /// `left := e || left := e`, one assignment or more
    Assign(u32, Assignments),
    /// `if (e) s`, and `if (e) s else if (f) t ..` without a last `else`
    If(u32, Branches),
    /// the same with a last `else s`, where s is no `if`
    IfElse(u32, Branches, Nested),
    /// `while (e) s`
    While(u32, Sub, Nested),
    /// `either s or s ..`, two or more
    Either(u32, Alternatives),
    /// `await e` or `when e`
    Await(u32, Sub),
    /// `with (v = e, w \in S) s`
    With(u32, WithNames, Nested),
    /// `print e`
    Print(u32, Sub),
    /// `assert e`
    Assert(u32, Sub),
    /// `goto l`
    Goto(u32, PlacedName),
    /// a macro's call, `m(e, f)`
    Call(u32, PlacedName, Exprs),
    /// `yield e`, which stands in mapping macros alone
    Yield(u32, Sub),
    /// `{ .. }`
    Block(u32, Block),
}

impl Drop for Stmt {
    #[cycle(drop_statement)]
    fn drop(self) {
        match self {
            Stmt::Skip(_) => {}
            Stmt::Assign(_, b) => {}
            Stmt::If(_, b) => {}
            Stmt::IfElse(_, b, c) => {}
            Stmt::While(_, b, c) => {}
            Stmt::Either(_, b) => {}
            Stmt::Await(_, b) => {}
            Stmt::With(_, b, c) => {}
            Stmt::Print(_, b) => {}
            Stmt::Assert(_, b) => {}
            Stmt::Goto(_, b) => {}
            Stmt::Call(_, b, c) => {}
            Stmt::Yield(_, b) => {}
            Stmt::Block(_, b) => {}
        }
    }
}

/// A statement in another one.
#[cycle(statement)]
pub struct Nested {
    inner: Box<Stmt>,
}

impl Drop for Nested {
    #[cycle(drop_statement)]
    fn drop(self) {
        let Nested { inner } = self;
    }
}

impl Model for Nested {
    ghost use Rattle.pgo_syntax.specs.Statement.{Statement};
    ghost use Rattle.pgo_syntax.specs.StatementCode.{coded_statement};

    ghost Value = { Statement };

    ghost coded = { coded_statement };

    ghost use Rattle.pgo_syntax.specs.StatementView.{statement};
    ghost use Rattle.pgo_syntax.specs.StatementSize.{height};

    ghost view = { λ n. statement n.inner.value };

    ghost size = { height };

    ghost use Rattle.pgo_syntax.specs.StatementFalls.{nested_falls};

    ghost size_decreases = { λ n h. nested_falls n.inner.value };
}

/// The statements of an `either`, in order.
#[cycle(statement)]
pub struct Alternatives {
    list: Vec<Stmt>,
}

impl Drop for Alternatives {
    #[cycle(drop_statement)]
    fn drop(self) {
        let Alternatives { list } = self;
    }
}

impl Model for Alternatives {
    ghost use Rattle.std.specs.Prelude.{List, map};
    ghost use Rattle.pgo_syntax.specs.Statement.{Statement};
    ghost use Rattle.pgo_syntax.specs.StatementCode.{coded_statements};

    ghost Value = { List Statement };

    ghost coded = { coded_statements };

    ghost use Rattle.pgo_syntax.specs.Statement.{statements};
    ghost use Rattle.pgo_syntax.specs.StatementView.{statement};
    ghost use Rattle.pgo_syntax.specs.StatementSize.{statements_height};

    ghost view = { λ a. map statement a.list.items };

    ghost size = { λ ss. statements_height (statements ss) };

    ghost use Rattle.pgo_syntax.specs.StatementFalls.{statements_fall};

    ghost size_decreases = { λ a h. statements_fall a.list.items };
}

/// A statement of a block, with its label if it has one. A label's `+` or `-` is dropped.
#[cycle(statement)]
pub struct Labeled {
    pub label: Option<PlacedName>,
    pub statement: Stmt,
}

impl Drop for Labeled {
    #[cycle(drop_statement)]
    fn drop(self) {
        let Labeled { label, statement } = self;
    }
}

/// The statements of a block, in order.
#[cycle(statement)]
pub struct Block {
    list: Vec<Labeled>,
}

impl Drop for Block {
    #[cycle(drop_statement)]
    fn drop(self) {
        let Block { list } = self;
    }
}

impl Model for Block {
    ghost use Rattle.std.specs.Prelude.{List, Option, map};
    ghost use Rattle.pgo_syntax.specs.declared.name.PlacedName.{PlacedName};
    ghost use Rattle.pgo_syntax.specs.Statement.{Statement};
    ghost use Rattle.pgo_syntax.specs.StatementCode.{coded_block};

    ghost Value = { List (Option PlacedName × Statement) };

    ghost coded = { coded_block };

    ghost use Rattle.pgo_syntax.specs.Statement.{labeled};
    ghost use Rattle.pgo_syntax.specs.StatementView.{labeled_pair};
    ghost use Rattle.pgo_syntax.specs.StatementSize.{labeled_height};

    ghost view = { λ b. map labeled_pair b.list.items };

    ghost size = { λ ls. labeled_height (labeled ls) };

    ghost use Rattle.pgo_syntax.specs.StatementFalls.{labeled_fall};

    ghost size_decreases = { λ b h. labeled_fall b.list.items };
}

/// An `if`, or an `if` that is the `else` of another: its place, its condition, and the statement where that is TRUE.
#[cycle(statement)]
pub struct Branch {
    pub place: u32,
    pub condition: Sub,
    pub statement: Stmt,
}

impl Drop for Branch {
    #[cycle(drop_statement)]
    fn drop(self) {
        let Branch {
            place,
            condition,
            statement,
        } = self;
    }
}

/// The branches of an `if`, one or more, in order. A chain of `else if` may be long, so that it is a list.
#[cycle(statement)]
pub struct Branches {
    list: Vec<Branch>,
}

impl Drop for Branches {
    #[cycle(drop_statement)]
    fn drop(self) {
        let Branches { list } = self;
    }
}

impl Model for Branches {
    ghost use Rattle.std.specs.Prelude.{List, ℕ, map};
    ghost use Rattle.pgo_base.specs.Tree.{Tree};
    ghost use Rattle.pgo_syntax.specs.Statement.{Statement};
    ghost use Rattle.pgo_syntax.specs.StatementCode.{coded_branches};

    ghost Value = { List (ℕ × (Tree × Statement)) };

    ghost coded = { coded_branches };

    ghost use Rattle.pgo_syntax.specs.Statement.{guarded};
    ghost use Rattle.pgo_syntax.specs.StatementView.{branch_parts};
    ghost use Rattle.pgo_syntax.specs.StatementSize.{guarded_height};

    ghost view = { λ b. map branch_parts b.list.items };

    ghost size = { λ bs. guarded_height (guarded bs) };

    ghost use Rattle.pgo_syntax.specs.StatementFalls.{guarded_fall};

    ghost size_decreases = { λ b h. guarded_fall b.list.items };
}

impl Stmt {
    /// Where it stands: the offset of its first byte in the text.
    pub fn place(&self) -> u32
        ensures { result ≡ place_of (statement self.now) }
    {
        match self {
            Stmt::Skip(place)
            | Stmt::Assign(place, _)
            | Stmt::If(place, _)
            | Stmt::IfElse(place, _, _)
            | Stmt::While(place, _, _)
            | Stmt::Either(place, _)
            | Stmt::Await(place, _)
            | Stmt::With(place, _, _)
            | Stmt::Print(place, _)
            | Stmt::Assert(place, _)
            | Stmt::Goto(place, _)
            | Stmt::Call(place, _, _)
            | Stmt::Yield(place, _)
            | Stmt::Block(place, _) => *place,
        }
    }
}

impl Nested {
    /// This statement, in a box.
    pub fn new(alloc: Global, form: Stmt) -> Result<Nested, AllocError>
        ensures { IfOk result (λ n. n ≡ statement form) }
    {
        Ok(Nested {
            inner: Box::new(alloc, form)?,
        })
    }

    /// The statement.
    pub fn get(&self) -> &Stmt
        ensures { statement result.now ≡ self.now }
    {
        &self.inner
    }

    /// The statement, out of its box.
    pub fn into_statement(self) -> Stmt
        ensures { statement result ≡ self }
    {
        let Nested { inner } = self;
        Box::into_inner(inner)
    }
}

impl Alternatives {
    /// No statement.
    pub fn new(alloc: Global) -> Alternatives
        ensures { result ≡ [] }
    {
        Alternatives {
            list: Vec::new(alloc),
        }
    }

    /// One statement more, at the end.
    pub fn push(&mut self, nested: Nested) -> Result<(), AllocError>
        ensures { IfOk result (λ _. self.new ≡ self.old ++ nested ∷ []) }
    {
        self.list.push(nested.into_statement())?;
        Ok(())
    }

    /// The statements as a slice.
    pub fn as_slice(&self) -> &[Stmt]
        ensures { map statement result.now ≡ self.now }
    {
        self.list.as_slice()
    }

    /// These statements.
    pub fn from_vec(list: Vec<Stmt>) -> Alternatives
        ensures { result ≡ map statement list.items }
    {
        Alternatives { list }
    }

    /// The statements, out of the list.
    pub fn into_vec(self) -> Vec<Stmt>
        ensures { map statement result.items ≡ self }
    {
        let Alternatives { list } = self;
        list
    }
}

impl Block {
    /// No statement.
    pub fn new(alloc: Global) -> Block
        ensures { result ≡ [] }
    {
        Block {
            list: Vec::new(alloc),
        }
    }

    /// One statement more, at the end, with its label.
    pub fn push(&mut self, label: Option<PlacedName>, nested: Nested) -> Result<(), AllocError>
        ensures { IfOk result (λ _. self.new ≡ self.old ++ (label, nested) ∷ []) }
    {
        let statement = nested.into_statement();
        self.list.push(Labeled { label, statement })?;
        Ok(())
    }

    /// The statements as a slice.
    pub fn as_slice(&self) -> &[Labeled]
        ensures { map labeled_pair result.now ≡ self.now }
    {
        self.list.as_slice()
    }

    /// These statements.
    pub fn from_vec(list: Vec<Labeled>) -> Block
        ensures { result ≡ map labeled_pair list.items }
    {
        Block { list }
    }

    /// The statements, out of the block.
    pub fn into_vec(self) -> Vec<Labeled>
        ensures { map labeled_pair result.items ≡ self }
    {
        let Block { list } = self;
        list
    }
}

impl Branches {
    /// No branch.
    pub fn new(alloc: Global) -> Branches
        ensures { result ≡ [] }
    {
        Branches {
            list: Vec::new(alloc),
        }
    }

    /// One branch more, at the end.
    pub fn push(&mut self, place: u32, condition: Sub, nested: Nested) -> Result<(), AllocError>
        ensures { IfOk result (λ _. self.new ≡ self.old ++ (place, (condition, nested)) ∷ []) }
    {
        let statement = nested.into_statement();
        self.list.push(Branch {
            place,
            condition,
            statement,
        })?;
        Ok(())
    }

    /// The branches as a slice.
    pub fn as_slice(&self) -> &[Branch]
        ensures { map branch_parts result.now ≡ self.now }
    {
        self.list.as_slice()
    }

    /// These branches.
    pub fn from_vec(list: Vec<Branch>) -> Branches
        ensures { result ≡ map branch_parts list.items }
    {
        Branches { list }
    }

    /// The branches, out of the list.
    pub fn into_vec(self) -> Vec<Branch>
        ensures { map branch_parts result.items ≡ self }
    {
        let Branches { list } = self;
        list
    }
}
