// What a label becomes: statements in a row, and a branch point or the end behind them.
ghost use Rattle.std.specs.Prelude.{◌≡◌};
ghost use Rattle.pgo_pluscal.specs.PartView.{around, ending_of};

use pgo_base::expr::Expr;
use pgo_base::text::Text;
use std::marker::Model;

/// A statement behind which one path goes on. Expressions are in written names: a global `g`, a local or value parameter
/// `P_v[self]`, and the names that are bound above.
///
/// Source: the PlusCal manual; which statements a label becomes is this project's choice.
#[derive(Drop)]
pub enum Step {
    /// `with (x = e)`, and what follows is its part
    With(Text, Expr),
    /// `with (x \in e)`, and what follows is its part
    In(Text, Expr),
    /// `skip`, or a macro's call, that is walked on the way
    Skip,
    /// `await e`
    Await(Expr),
    /// `assert e`
    Assert(Expr),
    /// `print e`
    Print(Expr),
}

/// How a row of statements ends.
///
/// Source: this project's choice.
#[cycle(part)]
#[derive(Drop)]
pub enum Ending {
    /// `if (e) a else b`
    If(Expr, Box<Part>, Box<Part>),
    /// `either`, with its arms in order
    Either(Vec<Part>),
    /// Each variable that is changed, by its written name, with the name that has its new value, in the order of the
    /// variables; and the label that comes next, or `Done`.
    End(Vec<(Text, Text)>, Text),
}

/// What a label becomes, or what follows at a branch point: a row of statements and how it ends. Contracts see it as an
/// `Expansion`.
#[cycle(part)]
#[derive(Drop)]
pub struct Part {
    steps: Vec<Step>,
    ending: Ending,
}

impl Model for Part {
    ghost use Rattle.pgo_sections.specs.Expansion.{Expansion};
    ghost use Rattle.pgo_pluscal.specs.PartCode.{coded_expansion};

    ghost Value = { Expansion };

    ghost coded = { coded_expansion };

    ghost use Rattle.pgo_pluscal.specs.PartView.{around, ending_of};
    ghost use Rattle.pgo_pluscal.specs.PartSize.{depth};

    ghost view = { λ p. around p.steps.items (ending_of p.ending) };

    ghost size = { depth };

    ghost use Rattle.pgo_pluscal.specs.PartFalls.{part_falls};

    ghost size_decreases = { λ p h. part_falls p.steps.items p.ending };
}

/// A part's row of statements, and how it ends.
#[derive(Clone, Copy)]
pub struct Opened<'a> {
    pub steps: &'a [Step],
    pub ending: &'a Ending,
}

impl Part {
    /// These statements in a row, and this ending behind them.
    pub fn new(steps: Vec<Step>, ending: Ending) -> Part
        ensures { result ≡ around steps.items (ending_of ending) }
    {
        Part { steps, ending }
    }

    /// The row of statements, and how it ends.
    pub fn open(&self) -> Opened<'_>
        ensures { around result.steps.now (ending_of result.ending.now) ≡ self.now }
    {
        Opened {
            steps: self.steps.as_slice(),
            ending: &self.ending,
        }
    }
}
