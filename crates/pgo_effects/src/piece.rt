// One level of code: effects in a row, and what comes last.
use crate::change::Change;
use crate::todo::Todo;
use pgo_base::expr::Expr;
use pgo_base::text::Text;
use pgo_rewrite::mapped::Mapped;

/// What is done before what comes last. `name` and `value` stand for a value in all that follows; `base` is the base of the name
/// that the expansion gives it.
#[derive(Drop)]
pub enum Effect<'a> {
    /// the name stands for the value of the expression
    Let {
        base: Text,
        name: Text,
        value: Expr,
    },
    /// the name stands for some member of the set
    Pick {
        base: Text,
        name: Text,
        set: Expr,
    },
    /// `value` stands for what a read of the mapped parameter gives, or of its element at what `index` stands for
    Read {
        value: Text,
        mapped: Mapped<'a>,
        index: Option<Text>,
    },
}

/// What comes last.
#[derive(Drop)]
pub enum Last<'a> {
    Empty,
    Skip,
    Change(Change<'a>),
    Await(Expr),
    Assert(Expr),
    Print(Expr),
    /// the block ends with the value of the expression
    Yield(Expr),
    /// the section ends at this written label
    Goto(Text),
    If(Expr, Todo<'a>, Todo<'a>),
    Either(Vec<Todo<'a>>),
    /// the first, and then the second
    Then(Todo<'a>, Todo<'a>),
    /// one after the other
    Row(Vec<Todo<'a>>),
    /// it goes on with this
    Code(Todo<'a>),
}

/// One level of code.
#[derive(Drop)]
pub struct Piece<'a> {
    pub effects: Vec<Effect<'a>>,
    pub last: Last<'a>,
}
