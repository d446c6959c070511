// Statements that hold several others.
ghost use Rattle.std.specs.Prelude.{◌≡◌, [], ◌∷◌, Some};
ghost use Rattle.pgo_mpcal_read.specs.Nests.{Nests};
ghost use Rattle.pgo_expr_read.specs.Steps as steps;
ghost use Rattle.pgo_expr_read.specs.Steps.{Reads};
ghost use Rattle.pgo_mpcal_read.specs.Reading.{Passes};
ghost use Rattle.pgo_mpcal_read.specs.ReadingSpec.{Updates};
ghost use Rattle.pgo_mpcal_read.specs.ReadingStatements as spec;
ghost use Rattle.pgo_mpcal_read.specs.Signs.{sees};

use crate::cursor::Cursor;
use crate::depths::MacroDepths;
use crate::statements::Statements;
use crate::with_depth::{WithDepth, push_branch, push_row, push_statement};
use pgo_base::expr::{Infix, Sub};
use pgo_lexer::errors::TextStop;
use pgo_lexer::symbol::{Bracket, Keyword, Symbol};
use pgo_lexer::token::Lexeme;
use pgo_syntax::name::PlacedName;
use pgo_syntax::statement::{Alternatives, Block, Branches, Nested, Stmt};
use std::alloc::Global;

/// Whether an `else` and an `if` are next.
fn sees_else_if(cursor: &Cursor<'_>) -> bool
    ensures { result ≡ spec.sees_else_if cursor.now }
{
    cursor.sees(Symbol::Keyword(Keyword::Else)) && cursor.sees_second(Symbol::Keyword(Keyword::If))
}

/// Goes past a label's `+` or `-`, if there is one.
#[tactic(auto, unfolding(crate::specs::ReadingStatements::fairness))]
fn fairness(cursor: &mut Cursor<'_>)
    ensures { cursor.new ≡ spec.fairness cursor.old }
{
    if cursor.sees(Symbol::Infix(Infix::Add)) || cursor.sees(Symbol::Infix(Infix::Subtract)) {
        cursor.skip();
    }
}

/// A label, where one is next.
#[tactic(auto, unfolding(crate::specs::ReadingStatements::optional_label, crate::specs::ReadingStatements::label))]
fn optional_label(alloc: Global, cursor: &mut Cursor<'_>) -> Result<Option<PlacedName>, TextStop>
    ensures { Reads (spec.optional_label cursor.old) result cursor.new }
{
    if !cursor.sees_name() || !cursor.sees_second(Symbol::Colon) {
        return Ok(None);
    }
    let name = cursor.name(alloc)?;
    cursor.expect(Symbol::Colon)?;
    fairness(cursor);
    Ok(Some(name))
}

/// Goes past what stands between a statement of a block, which was read from `before` on, and the next one.
#[tactic(auto, unfolding(crate::specs::ReadingStatements::row_ended))]
fn end_row(cursor: &mut Cursor<'_>, before: &[Lexeme]) -> Result<(), TextStop>
    ensures { Passes (spec.row_ended before.now cursor.old) result cursor.new }
{
    if cursor.sees(Symbol::Close(Bracket::Curly)) {
        Ok(())
    } else {
        cursor.end(before)
    }
}

impl<
    'k,
    F: Fn(Global, &MacroDepths, &mut Cursor<'_>, u32) -> Result<WithDepth<Nested>, TextStop>,
> Statements<'k, F> {
    /// `if (e) s`, with its place.
    #[tactic(auto, unfolding(crate::specs::ReadingStatements::branch))]
    fn branch(&self, cursor: &mut Cursor<'_>) -> Result<WithDepth<(u32, (Sub, Nested))>, TextStop>
        requires { Nests self.now.below (F.pre self.now.statement) (F.post self.now.statement) }
        ensures { Reads (spec.branch self.now.macros.now self.now.limit (spec.statement self.now.macros.now self.now.below) cursor.old) result cursor.new }
    {
        let place = cursor.mark(Symbol::Keyword(Keyword::If))?;
        cursor.expect(Symbol::Open(Bracket::Round))?;
        let condition = cursor.expression(self.alloc)?;
        cursor.expect(Symbol::Close(Bracket::Round))?;
        let s = self.inner(cursor)?;
        let depth = s.depth;
        let part = (place, (condition, s.part));
        Ok(WithDepth { depth, part })
    }

    /// `else` and one branch more.
    #[tactic(auto, unfolding(crate::specs::ReadingStatements::one_more_branch))]
    fn more_branches(
        &self,
        cursor: &mut Cursor<'_>,
        all: &mut WithDepth<Branches>,
    ) -> Result<(), TextStop>
        requires { Nests self.now.below (F.pre self.now.statement) (F.post self.now.statement) }
        ensures { Updates (spec.one_more_branch self.now.macros.now self.now.limit (spec.statement self.now.macros.now self.now.below) all.old cursor.old) result all.new cursor.new }
    {
        cursor.expect(Symbol::Keyword(Keyword::Else))?;
        let b = self.branch(cursor)?;
        push_branch(all, b)?;
        Ok(())
    }

    /// Further branches, as far as they go.
    fn branches_behind(
        &self,
        cursor: &mut Cursor<'_>,
        first: WithDepth<Branches>,
    ) -> Result<WithDepth<Branches>, TextStop>
        requires { Nests self.now.below (F.pre self.now.statement) (F.post self.now.statement) }
        ensures { Reads (steps.all_folded spec.sees_else_if (spec.one_more_branch self.now.macros.now self.now.limit (spec.statement self.now.macros.now self.now.below)) first cursor.old) result cursor.new }
    {
        let mut all = first;
        for _turn in 0..cursor.left() {
            if !sees_else_if(cursor) {
                return Ok(all);
            }
            self.more_branches(cursor, &mut all)?;
        }
        Ok(all)
    }

    /// The statement behind the last `else`.
    #[tactic(auto, unfolding(crate::specs::ReadingStatements::last_else))]
    fn last_else(
        &self,
        cursor: &mut Cursor<'_>,
        place: u32,
        branches: WithDepth<Branches>,
    ) -> Result<WithDepth<Nested>, TextStop>
        requires { Nests self.now.below (F.pre self.now.statement) (F.post self.now.statement) }
        ensures { Reads (spec.last_else self.now.macros.now self.now.limit (spec.statement self.now.macros.now self.now.below) place branches cursor.old) result cursor.new }
    {
        let s = self.inner(cursor)?;
        let depth = branches.depth.max(s.depth);
        self.node(cursor, depth, Stmt::IfElse(place, branches.part, s.part))
    }

    /// `if`, with all that is its `else`.
    #[tactic(auto, unfolding(crate::specs::ReadingStatements::if_form))]
    pub fn if_form(&self, cursor: &mut Cursor<'_>) -> Result<WithDepth<Nested>, TextStop>
        requires { Nests self.now.below (F.pre self.now.statement) (F.post self.now.statement) }
        ensures { Reads (spec.if_form self.now.macros.now self.now.limit (spec.statement self.now.macros.now self.now.below) cursor.old) result cursor.new }
    {
        let first = self.branch(cursor)?;
        let place = first.part.0;
        let one = one_branch(self.alloc, first)?;
        let all = self.branches_behind(cursor, one)?;
        if cursor.eat(Symbol::Keyword(Keyword::Else)) {
            return self.last_else(cursor, place, all);
        }
        self.node(cursor, all.depth, Stmt::If(place, all.part))
    }

    /// `or` and one statement more.
    #[tactic(auto, unfolding(crate::specs::ReadingStatements::one_more_or))]
    fn more_alternatives(
        &self,
        cursor: &mut Cursor<'_>,
        all: &mut WithDepth<Alternatives>,
    ) -> Result<(), TextStop>
        requires { Nests self.now.below (F.pre self.now.statement) (F.post self.now.statement) }
        ensures { Updates (spec.one_more_or self.now.macros.now self.now.limit (spec.statement self.now.macros.now self.now.below) all.old cursor.old) result all.new cursor.new }
    {
        cursor.expect(Symbol::Keyword(Keyword::Or))?;
        let s = self.inner(cursor)?;
        push_statement(all, s)?;
        Ok(())
    }

    /// Further ones, as far as they go.
    fn alternatives_behind(
        &self,
        cursor: &mut Cursor<'_>,
        first: WithDepth<Alternatives>,
    ) -> Result<WithDepth<Alternatives>, TextStop>
        requires { Nests self.now.below (F.pre self.now.statement) (F.post self.now.statement) }
        ensures { Reads (steps.all_folded (sees (Symbol.Keyword Keyword.Or)) (spec.one_more_or self.now.macros.now self.now.limit (spec.statement self.now.macros.now self.now.below)) first cursor.old) result cursor.new }
    {
        let mut all = first;
        for _turn in 0..cursor.left() {
            if !cursor.sees(Symbol::Keyword(Keyword::Or)) {
                return Ok(all);
            }
            self.more_alternatives(cursor, &mut all)?;
        }
        Ok(all)
    }

    /// `either s or s ..`, two statements or more.
    #[tactic(auto, unfolding(crate::specs::ReadingStatements::either_form))]
    pub fn either_form(&self, cursor: &mut Cursor<'_>) -> Result<WithDepth<Nested>, TextStop>
        requires { Nests self.now.below (F.pre self.now.statement) (F.post self.now.statement) }
        ensures { Reads (spec.either_form self.now.macros.now self.now.limit (spec.statement self.now.macros.now self.now.below) cursor.old) result cursor.new }
    {
        let place = cursor.mark(Symbol::Keyword(Keyword::Either))?;
        let first = self.inner(cursor)?;
        let mut two = one_statement(self.alloc, first)?;
        self.more_alternatives(cursor, &mut two)?;
        let all = self.alternatives_behind(cursor, two)?;
        self.node(cursor, all.depth, Stmt::Either(place, all.part))
    }

    /// A statement with its label, if it has one.
    #[tactic(auto, unfolding(crate::specs::ReadingStatements::labeled_statement))]
    fn labeled_statement(
        &self,
        cursor: &mut Cursor<'_>,
    ) -> Result<WithDepth<(Option<PlacedName>, Nested)>, TextStop>
        requires { Nests self.now.below (F.pre self.now.statement) (F.post self.now.statement) }
        ensures { Reads (spec.labeled_statement self.now.macros.now self.now.limit (spec.statement self.now.macros.now self.now.below) cursor.old) result cursor.new }
    {
        let label = optional_label(self.alloc, cursor)?;
        let s = self.inner(cursor)?;
        let depth = s.depth;
        let part = (label, s.part);
        Ok(WithDepth { depth, part })
    }

    /// One statement of a block more.
    #[tactic(auto, unfolding(crate::specs::ReadingStatements::one_more_row))]
    fn more_rows(&self, cursor: &mut Cursor<'_>, all: &mut WithDepth<Block>) -> Result<(), TextStop>
        requires { Nests self.now.below (F.pre self.now.statement) (F.post self.now.statement) }
        ensures { Updates (spec.one_more_row self.now.macros.now self.now.limit (spec.statement self.now.macros.now self.now.below) all.old cursor.old) result all.new cursor.new }
    {
        let before = cursor.rest();
        let r = self.labeled_statement(cursor)?;
        end_row(cursor, before)?;
        push_row(all, r)?;
        Ok(())
    }

    /// The statements of a block up to its `}`.
    fn all_rows(&self, cursor: &mut Cursor<'_>) -> Result<WithDepth<Block>, TextStop>
        requires { Nests self.now.below (F.pre self.now.statement) (F.post self.now.statement) }
        ensures { Reads (steps.all_folded spec.goes_on (spec.one_more_row self.now.macros.now self.now.limit (spec.statement self.now.macros.now self.now.below)) (spec.with_depth 0 []) cursor.old) result cursor.new }
    {
        let part = Block::new(self.alloc);
        let mut all = WithDepth { depth: 0, part };
        for _turn in 0..cursor.left() {
            if cursor.sees(Symbol::Close(Bracket::Curly)) {
                return Ok(all);
            }
            self.more_rows(cursor, &mut all)?;
        }
        Ok(all)
    }

    /// The statements of a block and its `}`.
    #[tactic(auto, unfolding(crate::specs::ReadingStatements::rows))]
    fn rows(&self, cursor: &mut Cursor<'_>) -> Result<WithDepth<Block>, TextStop>
        requires { Nests self.now.below (F.pre self.now.statement) (F.post self.now.statement) }
        ensures { Reads (spec.rows self.now.macros.now self.now.limit (spec.statement self.now.macros.now self.now.below) cursor.old) result cursor.new }
    {
        let all = self.all_rows(cursor)?;
        cursor.expect(Symbol::Close(Bracket::Curly))?;
        Ok(all)
    }

    /// A block.
    #[tactic(auto, unfolding(crate::specs::ReadingStatements::block_form))]
    pub fn block_form(&self, cursor: &mut Cursor<'_>) -> Result<WithDepth<Nested>, TextStop>
        requires { Nests self.now.below (F.pre self.now.statement) (F.post self.now.statement) }
        ensures { Reads (spec.block_form self.now.macros.now self.now.limit (spec.statement self.now.macros.now self.now.below) cursor.old) result cursor.new }
    {
        let place = cursor.mark(Symbol::Open(Bracket::Curly))?;
        let all = self.rows(cursor)?;
        self.node(cursor, all.depth, Stmt::Block(place, all.part))
    }

    /// The block of a unit.
    #[tactic(auto, unfolding(crate::specs::ReadingStatements::body))]
    pub fn body(&self, cursor: &mut Cursor<'_>) -> Result<WithDepth<Block>, TextStop>
        requires { Nests self.now.below (F.pre self.now.statement) (F.post self.now.statement) }
        ensures { Reads (spec.body self.now.macros.now self.now.limit (spec.statement self.now.macros.now self.now.below) cursor.old) result cursor.new }
    {
        cursor.expect(Symbol::Open(Bracket::Curly))?;
        self.rows(cursor)
    }
}

/// One branch.
fn one_branch(
    alloc: Global,
    first: WithDepth<(u32, (Sub, Nested))>,
) -> Result<WithDepth<Branches>, TextStop>
    ensures { steps.Makes (Some (spec.with_depth first.depth (first.part ∷ []))) result }
{
    let mut list = Branches::new(alloc);
    let (place, (condition, nested)) = first.part;
    list.push(place, condition, nested)?;
    let depth = first.depth;
    Ok(WithDepth { depth, part: list })
}

/// One statement.
fn one_statement(
    alloc: Global,
    first: WithDepth<Nested>,
) -> Result<WithDepth<Alternatives>, TextStop>
    ensures { steps.Makes (Some (spec.with_depth first.depth (first.part ∷ []))) result }
{
    let mut list = Alternatives::new(alloc);
    list.push(first.part)?;
    let depth = first.depth;
    Ok(WithDepth { depth, part: list })
}
