// The forms of expressions.
ghost use Rattle.std.specs.Prelude.{◌≡◌};
ghost use Rattle.pgo_base.specs.Tree as e;
ghost use Rattle.pgo_base.specs.ExprView.{tree};
ghost use Rattle.pgo_expr_read.specs.Spells.{opened};
ghost use Rattle.pgo_expr_read.specs.Nests.{Nests};
ghost use Rattle.pgo_expr_read.specs.Reading as spec;
ghost use Rattle.pgo_expr_read.specs.Reading.{Reads};

use crate::cursor::Cursor;
use crate::lists::{Between, OneField, is_case, names};
use crate::lookahead::{PrimaryForm, Square};
use crate::read::{Ending, Read};
use crate::table::{Form, prefix_least};
use pgo_base::expr::{Arms, Expr, Exprs, Infix, Named, Prefix, Quantifier, Sub, Word};
use pgo_base::text::Text;
use pgo_lexer::errors::TextStop;
use pgo_lexer::symbol::{Bracket, Symbol};
use std::alloc::Global;

/// The rules that hold expressions take the reader of those as a parameter, so that each is proved by itself.
#[derive(Clone, Copy)]
pub struct Grammar<F> {
    pub alloc: Global,
    /// The greatest height of an expression.
    pub limit: u32,
    /// The greatest height of its subexpressions.
    pub below: u32,
    pub expr: F,
}

/// How an open form ends whose last expression ends so.
fn opened(ending: Ending) -> Ending
    ensures { result ≡ opened ending }
{
    match ending {
        Ending::Case => Ending::Case,
        _ => Ending::Open,
    }
}

impl<F: Fn(Global, &mut Cursor<'_>, u32, u8) -> Result<Read<Sub>, TextStop>> Grammar<F> {
    /// A subexpression of a form at this level or above.
    pub fn expr(&self, cursor: &mut Cursor<'_>, least: u8) -> Result<Read<Sub>, TextStop>
        requires { Nests self.now.below (F.pre self.now.expr) (F.post self.now.expr) }
        ensures { Reads (spec.expr self.now.below least cursor.old) result cursor.new }
    {
        (self.expr)(self.alloc, cursor, self.below, least)
    }

    /// An expression of this form above others of at most this height.
    #[tactic(auto, unfolding(crate::specs::Reading::raised))]
    pub fn raised(
        &self,
        cursor: &Cursor<'_>,
        form: Form,
        ending: Ending,
        height: u32,
        expr: Expr,
    ) -> Result<Read<Sub>, TextStop>
        ensures { Reads (spec.give_at (spec.raised self.now.limit form ending height (tree expr)) cursor.now) result cursor.now }
    {
        let tree = Sub::new(self.alloc, expr)?;
        if height >= self.limit {
            return Err(cursor.refuse());
        }
        Ok(Read {
            form,
            ending,
            height: height + 1,
            tree,
        })
    }

    /// The same outside operators.
    pub fn node(
        &self,
        cursor: &Cursor<'_>,
        ending: Ending,
        height: u32,
        expr: Expr,
    ) -> Result<Read<Sub>, TextStop>
        ensures { Reads (spec.node self.now.limit (spec.expr self.now.below) ending height (tree expr) cursor.now) result cursor.now }
    {
        self.raised(cursor, Form::Closed, ending, height, expr)
    }

    /// An expression without subexpressions.
    #[tactic(auto, unfolding(crate::specs::Reading::leaf))]
    pub fn leaf(&self, cursor: &Cursor<'_>, expr: Expr) -> Result<Read<Sub>, TextStop>
        ensures { Reads (spec.leaf self.now.limit (spec.expr self.now.below) (tree expr) cursor.now) result cursor.now }
    {
        self.node(cursor, Ending::Closed, 0, expr)
    }

    /// A set at the right of `\in`.
    #[tactic(auto, unfolding(crate::specs::Reading::range))]
    pub fn range(&self, cursor: &mut Cursor<'_>, least: u8) -> Result<Read<Sub>, TextStop>
        requires { Nests self.now.below (F.pre self.now.expr) (F.post self.now.expr) }
        ensures { Reads (spec.range self.now.limit (spec.expr self.now.below) least cursor.old) result cursor.new }
    {
        match cursor.endless() {
            Some(word) => {
                cursor.skip();
                self.leaf(cursor, Expr::Word(word))
            }
            None => self.expr(cursor, least),
        }
    }

    /// The operand of a prefix operator.
    #[tactic(auto, unfolding(crate::specs::Reading::prefixed))]
    pub fn prefixed(&self, cursor: &mut Cursor<'_>, op: Prefix) -> Result<Read<Sub>, TextStop>
        requires { Nests self.now.below (F.pre self.now.expr) (F.post self.now.expr) }
        ensures { Reads (spec.prefixed self.now.limit (spec.expr self.now.below) op cursor.old) result cursor.new }
    {
        cursor.skip();
        let r = self.expr(cursor, prefix_least(op))?;
        self.raised(
            cursor,
            Form::Prefix(op),
            r.ending,
            r.height,
            Expr::Prefix(op, r.tree),
        )
    }

    /// The arguments of an operator of this name.
    #[tactic(auto, unfolding(crate::specs::Reading::call))]
    pub fn call(&self, cursor: &mut Cursor<'_>, name: Text) -> Result<Read<Sub>, TextStop>
        requires { Nests self.now.below (F.pre self.now.expr) (F.post self.now.expr) }
        ensures { Reads (spec.call self.now.limit (spec.expr self.now.below) name cursor.old) result cursor.new }
    {
        let all = self.trees(cursor)?;
        cursor.expect(Symbol::Close(Bracket::Round))?;
        self.node(
            cursor,
            Ending::Closed,
            all.height,
            Expr::Call(name, all.tree),
        )
    }

    /// A name, alone, primed or with arguments.
    #[tactic(auto, unfolding(crate::specs::Reading::named_form, crate::specs::Reading::plain_name))]
    pub fn named_form(&self, cursor: &mut Cursor<'_>) -> Result<Read<Sub>, TextStop>
        requires { Nests self.now.below (F.pre self.now.expr) (F.post self.now.expr) }
        ensures { Reads (spec.named_form self.now.limit (spec.expr self.now.below) cursor.old) result cursor.new }
    {
        let name = cursor.name(self.alloc)?;
        if cursor.eat(Symbol::Open(Bracket::Round)) {
            return self.call(cursor, name);
        }
        if cursor.eat(Symbol::Prime) {
            return self.leaf(cursor, Expr::Primed(name));
        }
        self.leaf(cursor, Expr::Name(name))
    }

    /// What stands in `<< >>`.
    #[tactic(auto, unfolding(crate::specs::Reading::tuple, crate::specs::Reading::some_tuple))]
    pub fn tuple(&self, cursor: &mut Cursor<'_>) -> Result<Read<Sub>, TextStop>
        requires { Nests self.now.below (F.pre self.now.expr) (F.post self.now.expr) }
        ensures { Reads (spec.tuple self.now.limit (spec.expr self.now.below) cursor.old) result cursor.new }
    {
        cursor.skip();
        if cursor.eat(Symbol::Close(Bracket::Angle)) {
            return self.leaf(cursor, Expr::Tuple(Exprs::new(self.alloc)));
        }
        let all = self.trees(cursor)?;
        cursor.expect(Symbol::Close(Bracket::Angle))?;
        self.node(cursor, Ending::Closed, all.height, Expr::Tuple(all.tree))
    }

    /// The members of a set with a property.
    #[tactic(auto, unfolding(crate::specs::Reading::filter))]
    pub fn filter(&self, cursor: &mut Cursor<'_>) -> Result<Read<Sub>, TextStop>
        requires { Nests self.now.below (F.pre self.now.expr) (F.post self.now.expr) }
        ensures { Reads (spec.filter self.now.limit (spec.expr self.now.below) cursor.old) result cursor.new }
    {
        let name = cursor.name(self.alloc)?;
        cursor.expect(Symbol::Infix(Infix::In))?;
        let set = self.range(cursor, 0)?;
        cursor.expect(Symbol::Colon)?;
        let p = self.expr(cursor, 0)?;
        cursor.expect(Symbol::Close(Bracket::Curly))?;
        let height = set.height.max(p.height);
        self.node(
            cursor,
            Ending::Closed,
            height,
            Expr::Filter(name, set.tree, p.tree),
        )
    }

    /// The values of an expression over a set, behind the `:`.
    #[tactic(auto, unfolding(crate::specs::Reading::image))]
    pub fn image(&self, cursor: &mut Cursor<'_>, b: Read<Sub>) -> Result<Read<Sub>, TextStop>
        requires { Nests self.now.below (F.pre self.now.expr) (F.post self.now.expr) }
        ensures { Reads (spec.image self.now.limit (spec.expr self.now.below) b cursor.old) result cursor.new }
    {
        let name = cursor.name(self.alloc)?;
        cursor.expect(Symbol::Infix(Infix::In))?;
        let set = self.range(cursor, 0)?;
        cursor.expect(Symbol::Close(Bracket::Curly))?;
        let height = b.height.max(set.height);
        self.node(
            cursor,
            Ending::Closed,
            height,
            Expr::Image(b.tree, name, set.tree),
        )
    }

    /// The members of a set, behind the first.
    #[tactic(auto, unfolding(crate::specs::Reading::members))]
    pub fn members(&self, cursor: &mut Cursor<'_>, first: Read<Sub>) -> Result<Read<Sub>, TextStop>
        requires { Nests self.now.below (F.pre self.now.expr) (F.post self.now.expr) }
        ensures { Reads (spec.members self.now.limit (spec.expr self.now.below) first cursor.old) result cursor.new }
    {
        let all = self.trees_behind(cursor, first)?;
        cursor.expect(Symbol::Close(Bracket::Curly))?;
        self.node(cursor, Ending::Closed, all.height, Expr::SetOf(all.tree))
    }

    /// What stands in `{ }` and doesn't begin with a name and `\in`.
    #[tactic(auto, unfolding(crate::specs::Reading::other_set))]
    pub fn other_set(&self, cursor: &mut Cursor<'_>) -> Result<Read<Sub>, TextStop>
        requires { Nests self.now.below (F.pre self.now.expr) (F.post self.now.expr) }
        ensures { Reads (spec.other_set self.now.limit (spec.expr self.now.below) cursor.old) result cursor.new }
    {
        let first = self.expr(cursor, 0)?;
        if cursor.eat(Symbol::Colon) {
            self.image(cursor, first)
        } else {
            self.members(cursor, first)
        }
    }

    /// What stands in `{ }`.
    #[tactic(auto, unfolding(crate::specs::Reading::set, crate::specs::Reading::some_set))]
    pub fn set(&self, cursor: &mut Cursor<'_>) -> Result<Read<Sub>, TextStop>
        requires { Nests self.now.below (F.pre self.now.expr) (F.post self.now.expr) }
        ensures { Reads (spec.set self.now.limit (spec.expr self.now.below) cursor.old) result cursor.new }
    {
        cursor.skip();
        if cursor.eat(Symbol::Close(Bracket::Curly)) {
            return self.leaf(cursor, Expr::SetOf(Exprs::new(self.alloc)));
        }
        if cursor.begins_binder() {
            self.filter(cursor)
        } else {
            self.other_set(cursor)
        }
    }

    /// A function by its values.
    #[tactic(auto, unfolding(crate::specs::Reading::fun_of))]
    pub fn fun_of(&self, cursor: &mut Cursor<'_>) -> Result<Read<Sub>, TextStop>
        requires { Nests self.now.below (F.pre self.now.expr) (F.post self.now.expr) }
        ensures { Reads (spec.fun_of self.now.limit (spec.expr self.now.below) cursor.old) result cursor.new }
    {
        let binders = self.binders(cursor)?;
        cursor.expect(Symbol::MapsTo)?;
        let a = self.expr(cursor, 0)?;
        cursor.expect(Symbol::Close(Bracket::Square))?;
        let height = binders.height.max(a.height);
        self.node(
            cursor,
            Ending::Closed,
            height,
            Expr::FunOf(binders.tree, a.tree),
        )
    }

    /// A record.
    #[tactic(auto, unfolding(crate::specs::Reading::record_of))]
    pub fn record_of(&self, cursor: &mut Cursor<'_>) -> Result<Read<Sub>, TextStop>
        requires { Nests self.now.below (F.pre self.now.expr) (F.post self.now.expr) }
        ensures { Reads (spec.record_of self.now.limit (spec.expr self.now.below) cursor.old) result cursor.new }
    {
        let all = self.items(
            cursor,
            &OneField(Symbol::MapsTo),
            Between::Comma,
            Named::new(self.alloc),
        )?;
        cursor.expect(Symbol::Close(Bracket::Square))?;
        self.node(cursor, Ending::Closed, all.height, Expr::Record(all.tree))
    }

    /// A set of records.
    #[tactic(auto, unfolding(crate::specs::Reading::record_set))]
    pub fn record_set(&self, cursor: &mut Cursor<'_>) -> Result<Read<Sub>, TextStop>
        requires { Nests self.now.below (F.pre self.now.expr) (F.post self.now.expr) }
        ensures { Reads (spec.record_set self.now.limit (spec.expr self.now.below) cursor.old) result cursor.new }
    {
        let all = self.items(
            cursor,
            &OneField(Symbol::Colon),
            Between::Comma,
            Named::new(self.alloc),
        )?;
        cursor.expect(Symbol::Close(Bracket::Square))?;
        self.node(
            cursor,
            Ending::Closed,
            all.height,
            Expr::RecordSet(all.tree),
        )
    }

    /// A set of functions, behind their domain.
    #[tactic(auto, unfolding(crate::specs::Reading::fun_set))]
    pub fn fun_set(&self, cursor: &mut Cursor<'_>, a: Read<Sub>) -> Result<Read<Sub>, TextStop>
        requires { Nests self.now.below (F.pre self.now.expr) (F.post self.now.expr) }
        ensures { Reads (spec.fun_set self.now.limit (spec.expr self.now.below) a cursor.old) result cursor.new }
    {
        cursor.expect(Symbol::Arrow)?;
        let b = self.expr(cursor, 0)?;
        cursor.expect(Symbol::Close(Bracket::Square))?;
        let height = a.height.max(b.height);
        self.node(cursor, Ending::Closed, height, Expr::FunSet(a.tree, b.tree))
    }

    /// The updates of EXCEPT.
    #[tactic(auto, unfolding(crate::specs::Reading::except))]
    pub fn except(&self, cursor: &mut Cursor<'_>, a: Read<Sub>) -> Result<Read<Sub>, TextStop>
        requires { Nests self.now.below (F.pre self.now.expr) (F.post self.now.expr) }
        ensures { Reads (spec.except self.now.limit (spec.expr self.now.below) a cursor.old) result cursor.new }
    {
        let updates = self.updates(cursor)?;
        cursor.expect(Symbol::Close(Bracket::Square))?;
        let height = a.height.max(updates.height);
        self.node(
            cursor,
            Ending::Closed,
            height,
            Expr::Except(a.tree, updates.tree),
        )
    }

    /// A set of functions, or EXCEPT.
    #[tactic(auto, unfolding(crate::specs::Reading::other_square))]
    pub fn other_square(&self, cursor: &mut Cursor<'_>) -> Result<Read<Sub>, TextStop>
        requires { Nests self.now.below (F.pre self.now.expr) (F.post self.now.expr) }
        ensures { Reads (spec.other_square self.now.limit (spec.expr self.now.below) cursor.old) result cursor.new }
    {
        let a = self.expr(cursor, 0)?;
        if cursor.eat(Symbol::Except) {
            self.except(cursor, a)
        } else {
            self.fun_set(cursor, a)
        }
    }

    /// What stands in `[ ]`.
    #[tactic(auto, unfolding(crate::specs::Reading::square_form))]
    pub fn square_form(&self, cursor: &mut Cursor<'_>) -> Result<Read<Sub>, TextStop>
        requires { Nests self.now.below (F.pre self.now.expr) (F.post self.now.expr) }
        ensures { Reads (spec.square_form self.now.limit (spec.expr self.now.below) cursor.old) result cursor.new }
    {
        cursor.skip();
        match cursor.form_of_square() {
            Square::Record => self.record_of(cursor),
            Square::RecordSet => self.record_set(cursor),
            Square::Function => self.fun_of(cursor),
            Square::Other => self.other_square(cursor),
        }
    }

    /// The binders and the body of a quantifier.
    #[tactic(auto, unfolding(crate::specs::Reading::quantified))]
    pub fn quantified(
        &self,
        cursor: &mut Cursor<'_>,
        quantifier: Quantifier,
    ) -> Result<Read<Sub>, TextStop>
        requires { Nests self.now.below (F.pre self.now.expr) (F.post self.now.expr) }
        ensures { Reads (spec.quantified self.now.limit (spec.expr self.now.below) quantifier cursor.old) result cursor.new }
    {
        cursor.skip();
        let binders = self.binders(cursor)?;
        cursor.expect(Symbol::Colon)?;
        let p = self.expr(cursor, 0)?;
        let height = binders.height.max(p.height);
        self.node(
            cursor,
            opened(p.ending),
            height,
            Expr::Quantified(quantifier, binders.tree, p.tree),
        )
    }

    /// The rest of a CHOOSE.
    #[tactic(auto, unfolding(crate::specs::Reading::choose))]
    pub fn choose(&self, cursor: &mut Cursor<'_>) -> Result<Read<Sub>, TextStop>
        requires { Nests self.now.below (F.pre self.now.expr) (F.post self.now.expr) }
        ensures { Reads (spec.choose self.now.limit (spec.expr self.now.below) cursor.old) result cursor.new }
    {
        cursor.skip();
        let name = cursor.name(self.alloc)?;
        cursor.expect(Symbol::Infix(Infix::In))?;
        let set = self.range(cursor, 0)?;
        cursor.expect(Symbol::Colon)?;
        let p = self.expr(cursor, 0)?;
        let height = set.height.max(p.height);
        self.node(
            cursor,
            opened(p.ending),
            height,
            Expr::Choose(name, set.tree, p.tree),
        )
    }

    /// The rest of an IF.
    #[tactic(auto, unfolding(crate::specs::Reading::cond_of))]
    pub fn cond_of(&self, cursor: &mut Cursor<'_>) -> Result<Read<Sub>, TextStop>
        requires { Nests self.now.below (F.pre self.now.expr) (F.post self.now.expr) }
        ensures { Reads (spec.cond_of self.now.limit (spec.expr self.now.below) cursor.old) result cursor.new }
    {
        cursor.skip();
        let a = self.expr(cursor, 0)?;
        cursor.expect(Symbol::Then)?;
        let b = self.expr(cursor, 0)?;
        cursor.expect(Symbol::Else)?;
        let c = self.expr(cursor, 0)?;
        let height = a.height.max(b.height.max(c.height));
        self.node(
            cursor,
            opened(c.ending),
            height,
            Expr::If(a.tree, b.tree, c.tree),
        )
    }

    /// The last arm of a CASE, behind its `[]`.
    #[tactic(auto, unfolding(crate::specs::Reading::last_arm))]
    pub fn last_arm(&self, cursor: &mut Cursor<'_>, arms: Read<Arms>) -> Result<Read<Sub>, TextStop>
        requires { Nests self.now.below (F.pre self.now.expr) (F.post self.now.expr) }
        ensures { Reads (spec.last_arm self.now.limit (spec.expr self.now.below) arms cursor.old) result cursor.new }
    {
        cursor.expect(Symbol::Other)?;
        cursor.expect(Symbol::Arrow)?;
        let a = self.expr(cursor, 0)?;
        let height = arms.height.max(a.height);
        self.node(
            cursor,
            Ending::Case,
            height,
            Expr::CaseOther(arms.tree, a.tree),
        )
    }

    /// The arms of a CASE. Behind an arm that ends in a CASE no `[]` stands.
    #[tactic(auto, unfolding(crate::specs::Reading::case_form, crate::specs::Reading::case_other))]
    pub fn case_form(&self, cursor: &mut Cursor<'_>) -> Result<Read<Sub>, TextStop>
        requires { Nests self.now.below (F.pre self.now.expr) (F.post self.now.expr) }
        ensures { Reads (spec.case_form self.now.limit (spec.expr self.now.below) cursor.old) result cursor.new }
    {
        cursor.skip();
        let arms = self.arms(cursor)?;
        let stop = cursor.refuse();
        if cursor.eat(Symbol::Box) {
            if is_case(arms.ending) {
                return Err(stop);
            }
            return self.last_arm(cursor, arms);
        }
        self.node(cursor, Ending::Case, arms.height, Expr::Case(arms.tree))
    }

    /// The definitions of a LET and what they are for.
    #[tactic(auto, unfolding(crate::specs::Reading::let_in))]
    pub fn let_in(&self, cursor: &mut Cursor<'_>) -> Result<Read<Sub>, TextStop>
        requires { Nests self.now.below (F.pre self.now.expr) (F.post self.now.expr) }
        ensures { Reads (spec.let_in self.now.limit (spec.expr self.now.below) cursor.old) result cursor.new }
    {
        cursor.skip();
        let definitions = self.definitions(cursor)?;
        cursor.expect(Symbol::LetIn)?;
        let a = self.expr(cursor, 0)?;
        let height = definitions.height.max(a.height);
        self.node(
            cursor,
            opened(a.ending),
            height,
            Expr::Let(definitions.tree, a.tree),
        )
    }

    /// The names that stay unchanged.
    #[tactic(auto, unfolding(crate::specs::Reading::unchanged))]
    pub fn unchanged(&self, cursor: &mut Cursor<'_>) -> Result<Read<Sub>, TextStop>
        requires { Nests self.now.below (F.pre self.now.expr) (F.post self.now.expr) }
        ensures { Reads (spec.unchanged self.now.limit (spec.expr self.now.below) cursor.old) result cursor.new }
    {
        cursor.skip();
        cursor.expect(Symbol::Open(Bracket::Angle))?;
        let names = names(self.alloc, cursor)?;
        cursor.expect(Symbol::Close(Bracket::Angle))?;
        self.leaf(cursor, Expr::Unchanged(names))
    }

    /// The leaf that the next token is.
    #[tactic(auto, unfolding(crate::specs::Reading::leaf_at))]
    pub fn leaf_at(&self, cursor: &mut Cursor<'_>, expr: Expr) -> Result<Read<Sub>, TextStop>
        ensures { Reads (spec.leaf_at self.now.limit (spec.expr self.now.below) (tree expr) cursor.old) result cursor.new }
    {
        cursor.skip();
        self.leaf(cursor, expr)
    }

    /// The name that the next token stands for.
    fn name_at(&self, cursor: &mut Cursor<'_>, name: &[u8]) -> Result<Read<Sub>, TextStop>
        ensures { Reads (spec.leaf_at self.now.limit (spec.expr self.now.below) (e.name name.now) cursor.old) result cursor.new }
    {
        let name = Text::from_slice(self.alloc, name)?;
        self.leaf_at(cursor, Expr::Name(name))
    }

    /// A string.
    #[tactic(auto, unfolding(crate::specs::Reading::text_form))]
    pub fn text_form(&self, cursor: &mut Cursor<'_>) -> Result<Read<Sub>, TextStop>
        ensures { Reads (spec.text_form self.now.limit (spec.expr self.now.below) cursor.old) result cursor.new }
    {
        let text = cursor.text(self.alloc)?;
        self.leaf(cursor, Expr::Text(text))
    }

    /// An expression that begins with none of what opens without a node, without what goes on behind it.
    #[tactic(auto, unfolding(crate::specs::Reading::primary))]
    pub fn primary(&self, cursor: &mut Cursor<'_>) -> Result<Read<Sub>, TextStop>
        requires { Nests self.now.below (F.pre self.now.expr) (F.post self.now.expr) }
        ensures { Reads (spec.primary self.now.limit (spec.expr self.now.below) cursor.old) result cursor.new }
    {
        match cursor.begin() {
            PrimaryForm::Name => self.named_form(cursor),
            PrimaryForm::Number(number) => self.leaf_at(cursor, Expr::Number(number)),
            PrimaryForm::Text => self.text_form(cursor),
            PrimaryForm::Truth(truth) => self.leaf_at(cursor, Expr::Truth(truth)),
            PrimaryForm::At => self.leaf_at(cursor, Expr::At),
            PrimaryForm::Boolean => self.leaf_at(cursor, Expr::Word(Word::BooleanSet)),
            PrimaryForm::Prefix(op) => self.prefixed(cursor, op),
            PrimaryForm::Tuple => self.tuple(cursor),
            PrimaryForm::Set => self.set(cursor),
            PrimaryForm::Square => self.square_form(cursor),
            PrimaryForm::Quantifier(quantifier) => self.quantified(cursor, quantifier),
            PrimaryForm::Choose => self.choose(cursor),
            PrimaryForm::If => self.cond_of(cursor),
            PrimaryForm::Case => self.case_form(cursor),
            PrimaryForm::Let => self.let_in(cursor),
            PrimaryForm::Unchanged => self.unchanged(cursor),
            PrimaryForm::Variable => self.name_at(cursor, b"$variable"),
            PrimaryForm::Value => self.name_at(cursor, b"$value"),
            PrimaryForm::None => Err(cursor.refuse()),
        }
    }
}
