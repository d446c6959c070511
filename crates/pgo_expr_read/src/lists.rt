// The lists of the grammar.
ghost use Rattle.std.specs.Prelude.{◌≡◌, ℕ, [], ◌∷◌, ◌++◌, IfOk};
ghost use Rattle.pgo_expr_read.specs.Kinds as kind;
ghost use Rattle.pgo_expr_read.specs.Lookahead as look;
ghost use Rattle.pgo_expr_read.specs.declared.read.Read.{Read};
ghost use Rattle.pgo_lexer.specs.declared.symbol.Symbol.TheVariants as sign;
ghost use Rattle.pgo_expr_read.specs.Nests.{Nests};
ghost use Rattle.pgo_expr_read.specs.Reading as spec;
ghost use Rattle.pgo_expr_read.specs.Reading.{Reads, Parser};

use crate::cursor::Cursor;
use crate::grammar::Grammar;
use crate::read::{Ending, Read, part};
use pgo_base::expr::{Arms, Binders, Expr, Exprs, Infix, Named, Names, Sub, Updates};
use pgo_base::text::Text;
use pgo_lexer::errors::TextStop;
use pgo_lexer::symbol::{Bracket, Symbol};
use std::alloc::{AllocError, Global};

/// One name more, behind a comma.
#[tactic(auto, unfolding(crate::specs::Reading::one_more_name))]
fn more_names(alloc: Global, cursor: &mut Cursor<'_>, all: Names) -> Result<Names, TextStop>
    ensures { Reads (spec.one_more_name all cursor.old) result cursor.new }
{
    cursor.expect(Symbol::Comma)?;
    let name = cursor.name(alloc)?;
    let mut names = all;
    names.push(name)?;
    Ok(names)
}

/// Names behind commas, as far as they go.
fn names_behind(alloc: Global, cursor: &mut Cursor<'_>, first: Names) -> Result<Names, TextStop>
    ensures { Reads (spec.all_folded (look.sees sign.Comma) spec.one_more_name first cursor.old) result cursor.new }
{
    let mut all = first;
    for _turn in 0..cursor.left() {
        if !cursor.sees(Symbol::Comma) {
            return Ok(all);
        }
        all = more_names(alloc, cursor, all)?;
    }
    Ok(all)
}

/// Names with commas between them.
#[tactic(auto, unfolding(crate::specs::Reading::names))]
pub fn names(alloc: Global, cursor: &mut Cursor<'_>) -> Result<Names, TextStop>
    ensures { Reads (spec.names cursor.old) result cursor.new }
{
    let name = cursor.name(alloc)?;
    let mut first = Names::new(alloc);
    first.push(name)?;
    names_behind(alloc, cursor, first)
}

/// Whether it ends in a CASE.
pub fn is_case(ending: Ending) -> bool
    ensures { result ≡ kind.is_case ending }
{
    match ending {
        Ending::Case => true,
        _ => false,
    }
}

/// What stands between the items of a list, or else what a further item begins with.
#[derive(Clone, Copy)]
pub enum Between {
    Comma,
    /// `[]`, unless OTHER follows. None stands behind an item that ends in a CASE.
    Arm,
    /// The mark between the items of a junction list.
    ListNext,
    /// A name.
    Name,
    /// `[` or `.`.
    Step,
}

/// Whether another item follows.
pub fn goes(cursor: &Cursor<'_>, between: Between) -> bool
    ensures { result ≡ spec.goes_at between cursor.now }
{
    match between {
        Between::Comma => cursor.sees(Symbol::Comma),
        Between::Arm => cursor.sees_arm(),
        Between::ListNext => cursor.sees_list_next(),
        Between::Name => cursor.sees_name(),
        Between::Step => cursor.sees(Symbol::Open(Bracket::Square)) || cursor.sees(Symbol::Dot),
    }
}

/// Whether another item may stand behind one that ends so.
fn follows(between: Between, ending: Ending) -> bool
    ensures { result ≡ kind.follows between ending }
{
    match between {
        Between::Arm => !is_case(ending),
        _ => true,
    }
}

/// Goes past what stands between two items.
pub fn pass(cursor: &mut Cursor<'_>, between: Between) -> Result<(), TextStop>
    ensures { Reads (spec.pass_at between cursor.old) result cursor.new }
{
    match between {
        Between::Comma => cursor.expect(Symbol::Comma),
        Between::Arm => cursor.expect(Symbol::Box),
        Between::ListNext => cursor.list_next(),
        Between::Name | Between::Step => Ok(()),
    }
}

/// The items of a list.
pub trait Item {
    /// What one is.
    type One: Drop;

    type List: Drop;

    ghost reading: { Self → ℕ → ℕ → Parser (Read Self.One) };

    ghost join: { Self.List → Self.One → Self.List };

    /// Reads one.
    fn read<F: Fn(Global, &mut Cursor<'_>, u32, u8) -> Result<Read<Sub>, TextStop>>(
        &self,
        grammar: &Grammar<F>,
        cursor: &mut Cursor<'_>,
    ) -> Result<Read<Self::One>, TextStop>
        requires { Nests grammar.now.below (F.pre grammar.now.expr) (F.post grammar.now.expr) }
        ensures { Reads (reading self.now grammar.now.limit grammar.now.below cursor.old) result cursor.new };

    /// Puts one behind the others.
    fn push(list: &mut Self::List, one: Self::One) -> Result<(), AllocError>
        ensures { IfOk result (λ _. list.new ≡ join list.old one) };
}

/// An expression.
pub struct OneExpr;

impl Item for OneExpr {
    type One = Sub;

    type List = Exprs;

    ghost reading = { λ v limit below. spec.expr below 0 };

    ghost join = { λ xs x. xs ++ x ∷ [] };

    fn read<F: Fn(Global, &mut Cursor<'_>, u32, u8) -> Result<Read<Sub>, TextStop>>(
        &self,
        grammar: &Grammar<F>,
        cursor: &mut Cursor<'_>,
    ) -> Result<Read<Sub>, TextStop> {
        grammar.expr(cursor, 0)
    }

    fn push(list: &mut Exprs, one: Sub) -> Result<(), AllocError> {
        list.push(one)
    }
}

/// Names and the set that they are bound over.
pub struct OneBinder;

impl Item for OneBinder {
    type One = (Names, Sub);

    type List = Binders;

    ghost reading = { λ v limit below. spec.binder limit (spec.expr below) };

    ghost join = { λ xs x. xs ++ x ∷ [] };

    #[tactic(auto, unfolding(crate::specs::Reading::binder))]
    fn read<F: Fn(Global, &mut Cursor<'_>, u32, u8) -> Result<Read<Sub>, TextStop>>(
        &self,
        grammar: &Grammar<F>,
        cursor: &mut Cursor<'_>,
    ) -> Result<Read<(Names, Sub)>, TextStop> {
        let names = names(grammar.alloc, cursor)?;
        cursor.expect(Symbol::Infix(Infix::In))?;
        let set = grammar.range(cursor, 0)?;
        Ok(part(Ending::Closed, set.height, (names, set.tree)))
    }

    fn push(list: &mut Binders, one: (Names, Sub)) -> Result<(), AllocError> {
        let (names, set) = one;
        list.push(names, set)
    }
}

/// A name with an expression behind this sign.
pub struct OneField(pub Symbol);

impl Item for OneField {
    type One = (Text, Sub);

    type List = Named;

    ghost reading = { λ v limit below. spec.field limit (spec.expr below) v.0 };

    ghost join = { λ xs x. xs ++ x ∷ [] };

    #[tactic(auto, unfolding(crate::specs::Reading::field))]
    fn read<F: Fn(Global, &mut Cursor<'_>, u32, u8) -> Result<Read<Sub>, TextStop>>(
        &self,
        grammar: &Grammar<F>,
        cursor: &mut Cursor<'_>,
    ) -> Result<Read<(Text, Sub)>, TextStop> {
        let name = cursor.name(grammar.alloc)?;
        cursor.expect(self.0)?;
        let a = grammar.expr(cursor, 0)?;
        Ok(part(a.ending, a.height, (name, a.tree)))
    }

    fn push(list: &mut Named, one: (Text, Sub)) -> Result<(), AllocError> {
        let (name, a) = one;
        list.push(name, a)
    }
}

/// An arm of a CASE.
pub struct OneArm;

impl Item for OneArm {
    type One = (Sub, Sub);

    type List = Arms;

    ghost reading = { λ v limit below. spec.arm limit (spec.expr below) };

    ghost join = { λ xs x. xs ++ x ∷ [] };

    #[tactic(auto, unfolding(crate::specs::Reading::arm))]
    fn read<F: Fn(Global, &mut Cursor<'_>, u32, u8) -> Result<Read<Sub>, TextStop>>(
        &self,
        grammar: &Grammar<F>,
        cursor: &mut Cursor<'_>,
    ) -> Result<Read<(Sub, Sub)>, TextStop> {
        let guard = grammar.expr(cursor, 0)?;
        cursor.expect(Symbol::Arrow)?;
        let a = grammar.expr(cursor, 0)?;
        let height = guard.height.max(a.height);
        Ok(part(a.ending, height, (guard.tree, a.tree)))
    }

    fn push(list: &mut Arms, one: (Sub, Sub)) -> Result<(), AllocError> {
        let (guard, a) = one;
        list.push(guard, a)
    }
}

/// A step of a path of EXCEPT: an index, or a field.
pub struct OneStep;

impl Item for OneStep {
    type One = Sub;

    type List = Exprs;

    ghost reading = { λ v limit below. spec.step limit (spec.expr below) };

    ghost join = { λ xs x. xs ++ x ∷ [] };

    #[tactic(auto, unfolding(crate::specs::Reading::step))]
    fn read<F: Fn(Global, &mut Cursor<'_>, u32, u8) -> Result<Read<Sub>, TextStop>>(
        &self,
        grammar: &Grammar<F>,
        cursor: &mut Cursor<'_>,
    ) -> Result<Read<Sub>, TextStop> {
        if cursor.eat(Symbol::Dot) {
            grammar.field_step(cursor)
        } else {
            grammar.index_step(cursor)
        }
    }

    fn push(list: &mut Exprs, one: Sub) -> Result<(), AllocError> {
        list.push(one)
    }
}

/// An update of EXCEPT.
pub struct OneUpdate;

impl Item for OneUpdate {
    type One = (Exprs, Sub);

    type List = Updates;

    ghost reading = { λ v limit below. spec.update limit (spec.expr below) };

    ghost join = { λ xs x. xs ++ x ∷ [] };

    #[tactic(auto, unfolding(crate::specs::Reading::update))]
    fn read<F: Fn(Global, &mut Cursor<'_>, u32, u8) -> Result<Read<Sub>, TextStop>>(
        &self,
        grammar: &Grammar<F>,
        cursor: &mut Cursor<'_>,
    ) -> Result<Read<(Exprs, Sub)>, TextStop> {
        cursor.expect(Symbol::Bang)?;
        let path = grammar.path(cursor)?;
        cursor.expect(Symbol::Infix(Infix::Equal))?;
        let a = grammar.expr(cursor, 0)?;
        let height = path.height.max(a.height);
        Ok(part(a.ending, height, (path.tree, a.tree)))
    }

    fn push(list: &mut Updates, one: (Exprs, Sub)) -> Result<(), AllocError> {
        let (path, a) = one;
        list.push(path, a)
    }
}

/// One item behind the others of a list.
pub fn pushed<I: Item>(all: Read<I::List>, one: Read<I::One>) -> Result<Read<I::List>, AllocError>
    ensures { IfOk result (λ new. new ≡ spec.added I.join all one) }
{
    let height = all.height.max(one.height);
    let mut list = all.tree;
    I::push(&mut list, one.tree)?;
    Ok(part(one.ending, height, list))
}

impl<F: Fn(Global, &mut Cursor<'_>, u32, u8) -> Result<Read<Sub>, TextStop>> Grammar<F> {
    /// One more item of a list.
    #[tactic(auto, unfolding(crate::specs::Reading::more_at))]
    fn one_more<I: Item>(
        &self,
        cursor: &mut Cursor<'_>,
        item: &I,
        between: Between,
        all: Read<I::List>,
    ) -> Result<Read<I::List>, TextStop>
        requires { Nests self.now.below (F.pre self.now.expr) (F.post self.now.expr) }
        ensures { Reads (spec.more_at I.join (λ o. kind.follows between o) (spec.pass_at between) (I.reading item.now self.now.limit self.now.below) all cursor.old) result cursor.new }
    {
        if !follows(between, all.ending) {
            return Err(cursor.refuse());
        }
        pass(cursor, between)?;
        let one = item.read(self, cursor)?;
        Ok(pushed::<I>(all, one)?)
    }

    /// Further items of a list, as far as they go.
    pub fn behind<I: Item>(
        &self,
        cursor: &mut Cursor<'_>,
        item: &I,
        between: Between,
        first: Read<I::List>,
    ) -> Result<Read<I::List>, TextStop>
        requires { Nests self.now.below (F.pre self.now.expr) (F.post self.now.expr) }
        ensures { Reads (spec.all_folded (spec.goes_at between) (spec.more_at I.join (λ o. kind.follows between o) (spec.pass_at between) (I.reading item.now self.now.limit self.now.below)) first cursor.old) result cursor.new }
    {
        let mut all = first;
        for _turn in 0..cursor.left() {
            if !goes(cursor, between) {
                return Ok(all);
            }
            all = self.one_more(cursor, item, between, all)?;
        }
        Ok(all)
    }

    /// A list of one item or more.
    #[tactic(auto, unfolding(crate::specs::Reading::listed_at))]
    pub fn items<I: Item>(
        &self,
        cursor: &mut Cursor<'_>,
        item: &I,
        between: Between,
        none: I::List,
    ) -> Result<Read<I::List>, TextStop>
        requires { Nests self.now.below (F.pre self.now.expr) (F.post self.now.expr) }
        ensures { Reads (spec.listed_at I.join none (spec.goes_at between) (λ o. kind.follows between o) (spec.pass_at between) (I.reading item.now self.now.limit self.now.below) cursor.old) result cursor.new }
    {
        let first = item.read(self, cursor)?;
        let all = pushed::<I>(part(Ending::Closed, 0, none), first)?;
        self.behind(cursor, item, between, all)
    }

    /// Expressions with commas between them.
    pub fn trees(&self, cursor: &mut Cursor<'_>) -> Result<Read<Exprs>, TextStop>
        requires { Nests self.now.below (F.pre self.now.expr) (F.post self.now.expr) }
        ensures { Reads (spec.items self.now.limit (spec.expr self.now.below) kind.tree cursor.old) result cursor.new }
    {
        self.items(cursor, &OneExpr, Between::Comma, Exprs::new(self.alloc))
    }

    /// The first of some expressions, and those behind it, each behind a comma.
    pub fn trees_behind(
        &self,
        cursor: &mut Cursor<'_>,
        first: Read<Sub>,
    ) -> Result<Read<Exprs>, TextStop>
        requires { Nests self.now.below (F.pre self.now.expr) (F.post self.now.expr) }
        ensures { Reads (spec.behind kind.tree (spec.expr self.now.below 0) (spec.one_of first) cursor.old) result cursor.new }
    {
        let none = part(Ending::Closed, 0, Exprs::new(self.alloc));
        let one = pushed::<OneExpr>(none, first)?;
        self.behind(cursor, &OneExpr, Between::Comma, one)
    }

    /// Binders with commas between them.
    pub fn binders(&self, cursor: &mut Cursor<'_>) -> Result<Read<Binders>, TextStop>
        requires { Nests self.now.below (F.pre self.now.expr) (F.post self.now.expr) }
        ensures { Reads (spec.items self.now.limit (spec.expr self.now.below) kind.binder cursor.old) result cursor.new }
    {
        self.items(cursor, &OneBinder, Between::Comma, Binders::new(self.alloc))
    }

    /// The definitions of a LET.
    pub fn definitions(&self, cursor: &mut Cursor<'_>) -> Result<Read<Named>, TextStop>
        requires { Nests self.now.below (F.pre self.now.expr) (F.post self.now.expr) }
        ensures { Reads (spec.items self.now.limit (spec.expr self.now.below) kind.definition cursor.old) result cursor.new }
    {
        self.items(
            cursor,
            &OneField(Symbol::Defines),
            Between::Name,
            Named::new(self.alloc),
        )
    }

    /// The guarded arms of a CASE; none stands behind one that ends in a CASE.
    pub fn arms(&self, cursor: &mut Cursor<'_>) -> Result<Read<Arms>, TextStop>
        requires { Nests self.now.below (F.pre self.now.expr) (F.post self.now.expr) }
        ensures { Reads (spec.items self.now.limit (spec.expr self.now.below) kind.arm cursor.old) result cursor.new }
    {
        self.items(cursor, &OneArm, Between::Arm, Arms::new(self.alloc))
    }

    /// A field, which is the index that is a string of its name.
    #[tactic(auto, unfolding(crate::specs::Reading::field_step))]
    fn field_step(&self, cursor: &mut Cursor<'_>) -> Result<Read<Sub>, TextStop>
        ensures { Reads (spec.field_step self.now.limit (spec.expr self.now.below) cursor.old) result cursor.new }
    {
        let name = cursor.name(self.alloc)?;
        let tree = Sub::new(self.alloc, Expr::Text(name))?;
        Ok(part(Ending::Closed, 1, tree))
    }

    /// Several indices are the index that is their tuple.
    #[tactic(auto, unfolding(crate::specs::Reading::tuple_step))]
    fn tuple_step(&self, cursor: &mut Cursor<'_>, first: Read<Sub>) -> Result<Read<Sub>, TextStop>
        requires { Nests self.now.below (F.pre self.now.expr) (F.post self.now.expr) }
        ensures { Reads (spec.tuple_step self.now.limit (spec.expr self.now.below) first cursor.old) result cursor.new }
    {
        let all = self.trees_behind(cursor, first)?;
        cursor.expect(Symbol::Close(Bracket::Square))?;
        self.node(cursor, Ending::Closed, all.height, Expr::Tuple(all.tree))
    }

    /// An index, or several.
    #[tactic(auto, unfolding(crate::specs::Reading::index_step, crate::specs::Reading::one_step))]
    fn index_step(&self, cursor: &mut Cursor<'_>) -> Result<Read<Sub>, TextStop>
        requires { Nests self.now.below (F.pre self.now.expr) (F.post self.now.expr) }
        ensures { Reads (spec.index_step self.now.limit (spec.expr self.now.below) cursor.old) result cursor.new }
    {
        cursor.expect(Symbol::Open(Bracket::Square))?;
        let a = self.expr(cursor, 0)?;
        if cursor.sees(Symbol::Comma) {
            return self.tuple_step(cursor, a);
        }
        cursor.expect(Symbol::Close(Bracket::Square))?;
        Ok(part(Ending::Closed, a.height, a.tree))
    }

    /// The path of an update.
    pub fn path(&self, cursor: &mut Cursor<'_>) -> Result<Read<Exprs>, TextStop>
        requires { Nests self.now.below (F.pre self.now.expr) (F.post self.now.expr) }
        ensures { Reads (spec.items self.now.limit (spec.expr self.now.below) kind.step cursor.old) result cursor.new }
    {
        self.items(cursor, &OneStep, Between::Step, Exprs::new(self.alloc))
    }

    /// Updates with commas between them.
    pub fn updates(&self, cursor: &mut Cursor<'_>) -> Result<Read<Updates>, TextStop>
        requires { Nests self.now.below (F.pre self.now.expr) (F.post self.now.expr) }
        ensures { Reads (spec.items self.now.limit (spec.expr self.now.below) kind.update cursor.old) result cursor.new }
    {
        self.items(cursor, &OneUpdate, Between::Comma, Updates::new(self.alloc))
    }
}
