// Statements.
ghost use Rattle.std.specs.Prelude.{◌≡◌, []};
ghost use Rattle.pgo_syntax.specs.StatementView.{statement};
ghost use Rattle.pgo_mpcal_read.specs.Nests.{Nests};
ghost use Rattle.pgo_expr_read.specs.Steps.{Reads};
ghost use Rattle.pgo_mpcal_read.specs.ReadingStatements as spec;

use crate::cursor::Cursor;
use crate::depths::{MacroDepths, depth_of};
use crate::item::items;
use crate::lookahead::StatementForm;
use crate::names::expressions_in_brackets;
use crate::with_depth::WithDepth;
use pgo_base::expr::Sub;
use pgo_lexer::errors::TextStop;
use pgo_lexer::symbol::{Bracket, Keyword, Symbol};
use pgo_syntax::assignment::Assignments;
use pgo_syntax::statement::{Nested, Stmt};
use std::alloc::Global;

/// The rules that hold statements take the reader of those as a parameter, so that each is proved by itself.
#[derive(Clone, Copy)]
pub struct Statements<'k, F> {
    pub alloc: Global,
    /// The macros before.
    pub macros: &'k MacroDepths,
    /// The greatest depth of a statement.
    pub limit: u32,
    /// The greatest depth of the statements in it.
    pub below: u32,
    pub statement: F,
}

impl<
    'k,
    F: Fn(Global, &MacroDepths, &mut Cursor<'_>, u32) -> Result<WithDepth<Nested>, TextStop>,
> Statements<'k, F> {
    /// A statement in this one.
    pub fn inner(&self, cursor: &mut Cursor<'_>) -> Result<WithDepth<Nested>, TextStop>
        requires { Nests self.now.below (F.pre self.now.statement) (F.post self.now.statement) }
        ensures { Reads (spec.statement self.now.macros.now self.now.below cursor.old) result cursor.new }
    {
        (self.statement)(self.alloc, self.macros, cursor, self.below)
    }

    /// A statement above others of at most this depth.
    #[tactic(auto, unfolding(crate::specs::ReadingStatements::node))]
    pub fn node(
        &self,
        cursor: &Cursor<'_>,
        depth: u32,
        made: Stmt,
    ) -> Result<WithDepth<Nested>, TextStop>
        ensures { Reads (spec.node self.now.macros.now self.now.limit (spec.statement self.now.macros.now self.now.below) depth (statement made) cursor.now) result cursor.now }
    {
        if depth >= self.limit {
            return Err(cursor.refuse());
        }
        let part = Nested::new(self.alloc, made)?;
        let depth = depth + 1;
        Ok(WithDepth { depth, part })
    }

    /// `skip`.
    #[tactic(auto, unfolding(crate::specs::ReadingStatements::skip_form))]
    fn skip_form(&self, cursor: &mut Cursor<'_>) -> Result<WithDepth<Nested>, TextStop>
        ensures { Reads (spec.skip_form self.now.macros.now self.now.limit (spec.statement self.now.macros.now self.now.below) cursor.old) result cursor.new }
    {
        let place = cursor.mark(Symbol::Keyword(Keyword::Skip))?;
        self.node(cursor, 0, Stmt::Skip(place))
    }

    /// `await e`, `when e`, `print e`, `assert e` or `yield e`.
    #[tactic(auto, unfolding(crate::specs::ReadingStatements::one_expression))]
    fn one_expression(
        &self,
        cursor: &mut Cursor<'_>,
        keyword: Keyword,
    ) -> Result<WithDepth<Nested>, TextStop>
        ensures { Reads (spec.one_expression self.now.macros.now self.now.limit (spec.statement self.now.macros.now self.now.below) keyword cursor.old) result cursor.new }
    {
        let place = cursor.mark(Symbol::Keyword(keyword))?;
        let e = cursor.expression(self.alloc)?;
        self.node(cursor, 0, said(keyword, place, e))
    }

    /// `goto l`.
    #[tactic(auto, unfolding(crate::specs::ReadingStatements::goto_form))]
    fn goto_form(&self, cursor: &mut Cursor<'_>) -> Result<WithDepth<Nested>, TextStop>
        ensures { Reads (spec.goto_form self.now.macros.now self.now.limit (spec.statement self.now.macros.now self.now.below) cursor.old) result cursor.new }
    {
        let place = cursor.mark(Symbol::Keyword(Keyword::Goto))?;
        let label = cursor.name(self.alloc)?;
        self.node(cursor, 0, Stmt::Goto(place, label))
    }

    /// Assignments. The place is that of the first name.
    #[tactic(auto, unfolding(crate::specs::ReadingStatements::assign_form))]
    fn assign_form(&self, cursor: &mut Cursor<'_>) -> Result<WithDepth<Nested>, TextStop>
        ensures { Reads (spec.assign_form self.now.macros.now self.now.limit (spec.statement self.now.macros.now self.now.below) cursor.old) result cursor.new }
    {
        let all: Assignments = items(self.alloc, cursor, Symbol::Bars)?;
        let place = match all.as_slice() {
            [] => return Err(cursor.refuse()),
            [first, ..] => first.left.name.place,
        };
        self.node(cursor, 0, Stmt::Assign(place, all))
    }

    /// A macro's call.
    #[tactic(auto, unfolding(crate::specs::ReadingStatements::call_form, crate::specs::ReadingStatements::node))]
    fn call_form(&self, cursor: &mut Cursor<'_>) -> Result<WithDepth<Nested>, TextStop>
        ensures { Reads (spec.call_form self.now.macros.now self.now.limit (spec.statement self.now.macros.now self.now.below) cursor.old) result cursor.new }
    {
        let first = cursor.refuse();
        let name = cursor.name(self.alloc)?;
        let arguments = expressions_in_brackets(self.alloc, cursor)?;
        let depth = depth_of(self.macros, &name.name);
        if depth >= self.limit {
            return Err(first);
        }
        let place = name.place;
        self.node(cursor, depth, Stmt::Call(place, name, arguments))
    }

    /// `while (e) s`.
    #[tactic(auto, unfolding(crate::specs::ReadingStatements::while_form))]
    fn while_form(&self, cursor: &mut Cursor<'_>) -> Result<WithDepth<Nested>, TextStop>
        requires { Nests self.now.below (F.pre self.now.statement) (F.post self.now.statement) }
        ensures { Reads (spec.while_form self.now.macros.now self.now.limit (spec.statement self.now.macros.now self.now.below) cursor.old) result cursor.new }
    {
        let place = cursor.mark(Symbol::Keyword(Keyword::While))?;
        cursor.expect(Symbol::Open(Bracket::Round))?;
        let condition = cursor.expression(self.alloc)?;
        cursor.expect(Symbol::Close(Bracket::Round))?;
        let body = self.inner(cursor)?;
        self.node(cursor, body.depth, Stmt::While(place, condition, body.part))
    }

    /// `with (v = e, w \in S) s`.
    #[tactic(auto, unfolding(crate::specs::ReadingStatements::with_form))]
    fn with_form(&self, cursor: &mut Cursor<'_>) -> Result<WithDepth<Nested>, TextStop>
        requires { Nests self.now.below (F.pre self.now.statement) (F.post self.now.statement) }
        ensures { Reads (spec.with_form self.now.macros.now self.now.limit (spec.statement self.now.macros.now self.now.below) cursor.old) result cursor.new }
    {
        let place = cursor.mark(Symbol::Keyword(Keyword::With))?;
        cursor.expect(Symbol::Open(Bracket::Round))?;
        let names = items(self.alloc, cursor, Symbol::Comma)?;
        cursor.expect(Symbol::Close(Bracket::Round))?;
        let body = self.inner(cursor)?;
        self.node(cursor, body.depth, Stmt::With(place, names, body.part))
    }

    /// A statement that begins with this word.
    fn keyword_form(
        &self,
        cursor: &mut Cursor<'_>,
        keyword: Keyword,
    ) -> Result<WithDepth<Nested>, TextStop>
        requires { Nests self.now.below (F.pre self.now.statement) (F.post self.now.statement) }
        ensures { Reads (spec.keyword_form self.now.macros.now self.now.limit (spec.statement self.now.macros.now self.now.below) keyword cursor.old) result cursor.new }
    {
        match keyword {
            Keyword::Skip => self.skip_form(cursor),
            Keyword::If => self.if_form(cursor),
            Keyword::While => self.while_form(cursor),
            Keyword::Either => self.either_form(cursor),
            Keyword::With => self.with_form(cursor),
            Keyword::Goto => self.goto_form(cursor),
            Keyword::Await | Keyword::When | Keyword::Print | Keyword::Assert | Keyword::Yield =>
                self.one_expression(cursor, keyword),
            _ => Err(cursor.refuse()),
        }
    }

    /// A statement that doesn't stand in another one.
    #[tactic(auto, unfolding(crate::specs::ReadingStatements::any_form))]
    pub fn any_form(&self, cursor: &mut Cursor<'_>) -> Result<WithDepth<Nested>, TextStop>
        requires { Nests self.now.below (F.pre self.now.statement) (F.post self.now.statement) }
        ensures { Reads (spec.any_form self.now.macros.now self.now.limit (spec.statement self.now.macros.now self.now.below) cursor.old) result cursor.new }
    {
        match cursor.statement_form() {
            StatementForm::Assign => self.assign_form(cursor),
            StatementForm::Call => self.call_form(cursor),
            StatementForm::Block => self.block_form(cursor),
            StatementForm::Keyword(keyword) => self.keyword_form(cursor, keyword),
            StatementForm::None => Err(cursor.refuse()),
        }
    }
}

/// What this word and an expression make; `await` and `when` are one.
fn said(keyword: Keyword, place: u32, e: Sub) -> Stmt
    ensures { statement result ≡ spec.said keyword place e }
{
    match keyword {
        Keyword::Print => Stmt::Print(place, e),
        Keyword::Assert => Stmt::Assert(place, e),
        Keyword::Yield => Stmt::Yield(place, e),
        _ => Stmt::Await(place, e),
    }
}

/// A statement of at most this depth, where these are the macros before it.
pub fn statement(
    alloc: Global,
    macros: &MacroDepths,
    cursor: &mut Cursor<'_>,
    limit: u32,
) -> Result<WithDepth<Nested>, TextStop>
    ensures { Reads (spec.statement macros.now limit cursor.old) result cursor.new }
{
    if limit == 0 {
        return Err(cursor.refuse());
    }
    Statements {
        alloc,
        macros,
        limit,
        below: limit - 1,
        statement,
    }
    .any_form(cursor)
}
