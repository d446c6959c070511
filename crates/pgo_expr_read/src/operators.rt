// Operators, and what opens without a node.
ghost use Rattle.std.specs.Prelude.{◌≡◌, [], length};
ghost use Rattle.pgo_expr_read.specs.Lookahead as look;
ghost use Rattle.pgo_expr_read.specs.Nests.{Nests};
ghost use Rattle.pgo_expr_read.specs.Reading as spec;
ghost use Rattle.pgo_expr_read.specs.Reading.{Reads, Makes};

use crate::ast::{applied, infix_of};
use crate::cursor::Cursor;
use crate::grammar::Grammar;
use crate::lists::{Between, goes, pass};
use crate::lookahead::{Next, Opener, PrimaryForm};
use crate::read::{Ending, Read, closed, left_height};
use crate::stack::Openers;
use crate::table::{Form, Operator, form_low, prefix_least, right_least, row, takes_left};
use pgo_base::expr::{Expr, Exprs, Infix, Sub};
use pgo_lexer::errors::TextStop;
use pgo_lexer::symbol::{Bracket, Junction, Symbol};
use std::alloc::Global;

fn is_closed(ending: Ending) -> bool
    ensures { result ≡ spec.is_closed ending }
{
    match ending {
        Ending::Closed => true,
        _ => false,
    }
}

/// Whether what was read is the left operand of this operator, which is of the level or above.
#[tactic(auto, unfolding(crate::specs::Reading::goes_on, crate::specs::Table::low))]
fn goes_on(least: u8, left: &Read<Sub>, op: Operator) -> bool
    ensures { result ≡ spec.goes_on least left.now op }
{
    is_closed(left.ending) && least <= row(op).least && takes_left(op, left.form)
}

/// Whether an index or a field may stand behind it.
#[tactic(auto, unfolding(crate::specs::Reading::ends_closed))]
fn ends_closed(left: &Read<Sub>) -> bool
    ensures { result ≡ spec.ends_closed left.now }
{
    is_closed(left.ending) && form_low(left.form) > 31
}

/// The height of an index: more than one expression make a tuple.
#[tactic(auto, unfolding(crate::specs::Reading::index_height))]
fn index_height(cursor: &Cursor<'_>, limit: u32, all: &Read<Exprs>) -> Result<u32, TextStop>
    ensures { Makes (spec.index_height limit all.now) result }
{
    if all.tree.len() == 1 {
        Ok(all.height)
    } else if all.height < limit {
        Ok(all.height + 1)
    } else {
        Err(cursor.refuse())
    }
}

/// The parentheses and junction lists that open here.
fn openers(alloc: Global, cursor: &mut Cursor<'_>) -> Result<Openers, TextStop>
    ensures { Reads (spec.openers (length cursor.old) [] cursor.old) result cursor.new }
{
    let mut all = Openers::new(alloc);
    for _turn in 0..cursor.left() {
        match cursor.opens() {
            None => return Ok(all),
            Some(opener) => {
                cursor.skip();
                all.push(opener)?;
            }
        }
    }
    Ok(all)
}

impl<F: Fn(Global, &mut Cursor<'_>, u32, u8) -> Result<Read<Sub>, TextStop>> Grammar<F> {
    /// The right operand of this operator.
    #[tactic(auto, unfolding(crate::specs::Reading::right))]
    pub fn right(&self, cursor: &mut Cursor<'_>, op: Operator) -> Result<Read<Sub>, TextStop>
        requires { Nests self.now.below (F.pre self.now.expr) (F.post self.now.expr) }
        ensures { Reads (spec.right self.now.limit (spec.expr self.now.below) op cursor.old) result cursor.new }
    {
        match op {
            Operator::Infix(Infix::In) => self.range(cursor, right_least(op)),
            _ => self.expr(cursor, right_least(op)),
        }
    }

    /// The operator with its right operand.
    #[tactic(auto, unfolding(crate::specs::Reading::operation))]
    pub fn operation(
        &self,
        cursor: &mut Cursor<'_>,
        left: Read<Sub>,
        op: Operator,
    ) -> Result<Read<Sub>, TextStop>
        requires { Nests self.now.below (F.pre self.now.expr) (F.post self.now.expr) }
        ensures { Reads (spec.operation self.now.limit (spec.expr self.now.below) left op cursor.old) result cursor.new }
    {
        cursor.skip();
        let r = self.right(cursor, op)?;
        let height = left_height(op, left.form, left.height).max(r.height);
        let made = applied(self.alloc, op, left.form, left.tree, r.tree)?;
        self.raised(cursor, Form::Operation(op), r.ending, height, made)
    }

    /// An index.
    #[tactic(auto, unfolding(crate::specs::Reading::indexed))]
    pub fn indexed(&self, cursor: &mut Cursor<'_>, left: Read<Sub>) -> Result<Read<Sub>, TextStop>
        requires { Nests self.now.below (F.pre self.now.expr) (F.post self.now.expr) }
        ensures { Reads (spec.indexed self.now.limit (spec.expr self.now.below) left cursor.old) result cursor.new }
    {
        cursor.skip();
        let all = self.trees(cursor)?;
        cursor.expect(Symbol::Close(Bracket::Square))?;
        let below = index_height(cursor, self.limit, &all)?;
        let height = left.height.max(below);
        self.node(
            cursor,
            Ending::Closed,
            height,
            Expr::Index(left.tree, all.tree),
        )
    }

    /// A field.
    #[tactic(auto, unfolding(crate::specs::Reading::selected))]
    pub fn selected(&self, cursor: &mut Cursor<'_>, left: Read<Sub>) -> Result<Read<Sub>, TextStop>
        requires { Nests self.now.below (F.pre self.now.expr) (F.post self.now.expr) }
        ensures { Reads (spec.selected self.now.limit (spec.expr self.now.below) left cursor.old) result cursor.new }
    {
        cursor.skip();
        let name = cursor.name(self.alloc)?;
        self.node(
            cursor,
            Ending::Closed,
            left.height,
            Expr::Field(left.tree, name),
        )
    }

    /// What goes on behind the operand on the left, and whether anything does.
    #[tactic(auto, unfolding(crate::specs::Reading::turn))]
    pub fn turn(
        &self,
        cursor: &mut Cursor<'_>,
        least: u8,
        left: Read<Sub>,
    ) -> Result<(Read<Sub>, bool), TextStop>
        requires { Nests self.now.below (F.pre self.now.expr) (F.post self.now.expr) }
        ensures { Reads (spec.turn self.now.limit (spec.expr self.now.below) least left cursor.old) result cursor.new }
    {
        match cursor.after() {
            Next::Operator(op) => {
                if goes_on(least, &left, op) {
                    Ok((self.operation(cursor, left, op)?, true))
                } else {
                    Ok((left, false))
                }
            }
            Next::Index => {
                if ends_closed(&left) {
                    Ok((self.indexed(cursor, left)?, true))
                } else {
                    Ok((left, false))
                }
            }
            Next::Field => {
                if ends_closed(&left) {
                    Ok((self.selected(cursor, left)?, true))
                } else {
                    Ok((left, false))
                }
            }
            Next::Arm | Next::Tight | Next::End => Ok((left, false)),
        }
    }

    /// All that goes on behind the operand on the left.
    pub fn more(
        &self,
        cursor: &mut Cursor<'_>,
        least: u8,
        first: Read<Sub>,
    ) -> Result<Read<Sub>, TextStop>
        requires { Nests self.now.below (F.pre self.now.expr) (F.post self.now.expr) }
        ensures { Reads (spec.all_more self.now.limit (spec.expr self.now.below) least first cursor.old) result cursor.new }
    {
        let mut left = first;
        for _turn in 0..cursor.left() {
            let (next, goes_on) = self.turn(cursor, least, left)?;
            left = next;
            if !goes_on {
                return Ok(left);
            }
        }
        Ok(left)
    }

    /// One more item of a junction list.
    #[tactic(auto, unfolding(crate::specs::Reading::one_more_joined, crate::specs::Reading::joins))]
    pub fn more_joined(
        &self,
        cursor: &mut Cursor<'_>,
        op: Junction,
        all: Read<Sub>,
    ) -> Result<Read<Sub>, TextStop>
        requires { Nests self.now.below (F.pre self.now.expr) (F.post self.now.expr) }
        ensures { Reads (spec.one_more_joined self.now.limit (spec.expr self.now.below) op all cursor.old) result cursor.new }
    {
        pass(cursor, Between::ListNext)?;
        let r = self.expr(cursor, 0)?;
        let height = all.height.max(r.height);
        self.node(
            cursor,
            Ending::Closed,
            height,
            Expr::Infix(infix_of(op), all.tree, r.tree),
        )
    }

    /// Further items of a junction list, joined from the left.
    pub fn joined_behind(
        &self,
        cursor: &mut Cursor<'_>,
        op: Junction,
        first: Read<Sub>,
    ) -> Result<Read<Sub>, TextStop>
        requires { Nests self.now.below (F.pre self.now.expr) (F.post self.now.expr) }
        ensures { Reads (spec.all_folded look.sees_list_next (spec.one_more_joined self.now.limit (spec.expr self.now.below) op) first cursor.old) result cursor.new }
    {
        let mut all = first;
        for _turn in 0..cursor.left() {
            if !goes(cursor, Between::ListNext) {
                return Ok(all);
            }
            all = self.more_joined(cursor, op, all)?;
        }
        Ok(all)
    }

    /// The rest of what was opened, behind the beginning of its first expression.
    #[tactic(auto, unfolding(crate::specs::Reading::close))]
    pub fn close(
        &self,
        cursor: &mut Cursor<'_>,
        opener: Opener,
        first: Read<Sub>,
    ) -> Result<Read<Sub>, TextStop>
        requires { Nests self.now.below (F.pre self.now.expr) (F.post self.now.expr) }
        ensures { Reads (spec.close self.now.limit (spec.expr self.now.below) opener first cursor.old) result cursor.new }
    {
        let s = self.more(cursor, 0, first)?;
        match opener {
            Opener::Round => {
                cursor.expect(Symbol::Close(Bracket::Round))?;
                Ok(closed(s))
            }
            Opener::List(op) => {
                let all = self.joined_behind(cursor, op, closed(s))?;
                cursor.list_close()?;
                Ok(all)
            }
        }
    }

    /// The rest of all that was opened, the innermost first.
    pub fn closes(
        &self,
        cursor: &mut Cursor<'_>,
        openers: Openers,
        first: Read<Sub>,
    ) -> Result<Read<Sub>, TextStop>
        requires { Nests self.now.below (F.pre self.now.expr) (F.post self.now.expr) }
        ensures { Reads (spec.closes self.now.limit (spec.expr self.now.below) openers first cursor.old) result cursor.new }
    {
        let mut left = first;
        let mut open = openers;
        for _turn in 0..open.len() {
            match open.pop() {
                None => return Ok(left),
                Some(opener) => {
                    left = self.close(cursor, opener, left)?;
                }
            }
        }
        Ok(left)
    }

    /// An expression of a form at this level or above.
    #[tactic(auto, unfolding(crate::specs::Reading::level))]
    pub fn level(&self, cursor: &mut Cursor<'_>, least: u8) -> Result<Read<Sub>, TextStop>
        requires { Nests self.now.below (F.pre self.now.expr) (F.post self.now.expr) }
        ensures { Reads (spec.level self.now.limit (spec.expr self.now.below) least cursor.old) result cursor.new }
    {
        let stop = cursor.refuse();
        // A prefix operator is refused by its own level, before its operand is read.
        if let PrimaryForm::Prefix(op) = cursor.begin() {
            if prefix_least(op) < least {
                return Err(stop);
            }
        }
        let openers = openers(self.alloc, cursor)?;
        let first = self.primary(cursor)?;
        let r = self.closes(cursor, openers, first)?;
        if least <= form_low(r.form) {
            self.more(cursor, least, r)
        } else {
            Err(stop)
        }
    }
}
