// The tree itself.
ghost use Rattle.std.specs.Prelude.{◌≡◌, map, IfOk};
ghost use Rattle.pgo_pluscal.specs.PartView.{around, before, ending_of, expansions};
ghost use Rattle.pgo_sections.specs.Expansion.{Either, Expansion, If};
ghost use Rattle.pgo_walk.specs.Emitted.{left_in, moved};
ghost use Rattle.pgo_walk.specs.Ended.{ended};

use crate::event::{Event, Move};
use crate::frames::State;
use crate::turn::turn;
use pgo_base::expr::Sub;
use pgo_base::results::both;
use pgo_base::text::Text;
use pgo_pluscal::part::{Ending, Part, Step};
use std::alloc::{AllocError, Global};

/// The statement.
fn step_of(m: Move) -> Step
    ensures { (x : Expansion) → before result x ≡ moved m x }
{
    match m {
        Move::With(x, e) => Step::With(x, e.into_expr()),
        Move::In(x, e) => Step::In(x, e.into_expr()),
        Move::Skip => Step::Skip,
        Move::Await(e) => Step::Await(e.into_expr()),
        Move::Assert(e) => Step::Assert(e.into_expr()),
        Move::Print(e) => Step::Print(e.into_expr()),
    }
}

/// What ends statements in a row.
#[derive(Drop)]
pub(crate) enum RowEnd<'a, 'i> {
    /// a test: where it is TRUE the state goes on, and else this one does
    If(Sub, State<'a, 'i>),
    /// `either` with these arms
    Either(Vec<State<'a, 'i>>),
    /// the changes of an end, and the label that comes next
    End(Vec<(Text, Text)>, Text),
}

/// Adds the statements that come first, and gives what ends them.
fn row<'a, 'i>(
    alloc: Global,
    variables: &[Text],
    state: &mut State<'a, 'i>,
    steps: &mut Vec<Step>,
) -> Result<RowEnd<'a, 'i>, AllocError>
    ensures { IfOk result (λ t. around steps.old.items (left_in variables.now state.old) ≡ around steps.new.items (ended variables.now t (left_in variables.now state.new))) }
{
    for _ in 0..u64::MAX {
        match turn(alloc, variables, state)? {
            Event::Quiet => {}
            Event::Step(m) => steps.push(step_of(m))?,
            Event::If(test, other) => return Ok(RowEnd::If(test, other)),
            Event::Either(arms) => return Ok(RowEnd::Either(arms)),
            Event::End(changes, label) => return Ok(RowEnd::End(changes, label)),
        }
    }
    Err(AllocError)
}

/// A part in a place of its own.
fn boxed(alloc: Global, part: Result<Part, AllocError>) -> Result<Box<Part>, AllocError>
    ensures { (x : Expansion) → IfOk part (λ p. p ≡ x) → IfOk result (λ b. b.value ≡ x) }
{
    Ok(Box::new(alloc, part?)?)
}

/// The ending at a test, with the parts of its branches.
fn if_ending(
    test: Sub,
    a: Result<Box<Part>, AllocError>,
    b: Result<Box<Part>, AllocError>,
) -> Result<Ending, AllocError>
    ensures { (x y : Expansion) → IfOk a (λ p. p.value ≡ x) → IfOk b (λ p. p.value ≡ y) → IfOk result (λ e. ending_of e ≡ If test x y) }
{
    let (a, b) = both(a, b)?;
    Ok(Ending::If(test.into_expr(), a, b))
}

/// Statements in a row, and the ending behind them.
fn whole(steps: Vec<Step>, ending: Result<Ending, AllocError>) -> Result<Part, AllocError>
    ensures { (x : Expansion) → IfOk ending (λ e. ending_of e ≡ x) → IfOk result (λ p. p ≡ around steps.items x) }
{
    Ok(Part::new(steps, ending?))
}

/// The ending at a choice.
#[cycle(make)]
fn make_either(
    alloc: Global,
    variables: &[Text],
    arms: Vec<State<'_, '_>>,
) -> Result<Ending, AllocError>
    ensures { IfOk result (λ e. ending_of e ≡ Either (expansions (map (left_in variables.now) arms.entry.items))) }
{
    let mut parts = Vec::new(alloc);
    for arm in arms {
        parts.push(make(alloc, variables, arm)?)?;
    }
    Ok(Ending::Either(parts))
}

/// The ending at a branch point or an end; the state is what is left behind it.
#[cycle(make)]
fn make_ending<'a, 'i>(
    alloc: Global,
    variables: &[Text],
    end: RowEnd<'a, 'i>,
    state: State<'a, 'i>,
) -> Result<Ending, AllocError>
    ensures { IfOk result (λ e. ending_of e ≡ ended variables.now end.entry (left_in variables.now state.entry)) }
{
    match end {
        RowEnd::If(test, other) => {
            let a = boxed(alloc, make(alloc, variables, state));
            let b = boxed(alloc, make(alloc, variables, other));
            if_ending(test, a, b)
        }
        RowEnd::Either(arms) => make_either(alloc, variables, arms),
        RowEnd::End(changes, label) => Ok(Ending::End(changes, label)),
    }
}

/// The tree of what is still to be done. It recurses to the branch points that stand in one another.
#[cycle(make)]
pub fn make(alloc: Global, variables: &[Text], state: State<'_, '_>) -> Result<Part, AllocError>
    ensures { IfOk result (λ p. p ≡ left_in variables.now state.entry) }
{
    let mut state = state;
    let mut steps = Vec::new(alloc);
    let end = row(alloc, variables, &mut state, &mut steps)?;
    whole(steps, make_ending(alloc, variables, end, state))
}
