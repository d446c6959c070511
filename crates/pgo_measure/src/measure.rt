// How many nodes a section's expansion has, and how high it is in the module, without making it.
ghost use Rattle.std.specs.Prelude.{◌≡◌, ◌+◌, ◌∷◌, if◌then◌else◌, ℕ, suc, max, List, Option, Some, map, option_map, IfOk};
ghost use Rattle.pgo_base.specs.Lookup.{Name};
ghost use Rattle.pgo_pluscal.specs.PartView.{expansions};
ghost use Rattle.pgo_sections.specs.Expansion.{Either, End, If};
ghost use Rattle.pgo_sections.specs.Nodes.{changes_nodes, nodes};
ghost use Rattle.pgo_sizes.specs.Left.{left_after};
ghost use Rattle.pgo_walk.specs.Emitted.{emitted, left_in, moved};
ghost use Rattle.pgo_measure.specs.Heights.{capped, end_height, label_height};
ghost use Rattle.pgo_measure.specs.Measured.{Part, measured};
ghost use Rattle.pgo_measure.specs.Spots.{shift};
ghost use Rattle.pgo_measure.specs.Pendings.{behind_tally, part};
ghost use Rattle.pgo_measure.specs.PendingView.{behind_size, parts, pending_part};

use crate::heights::{height_of_end, joined};
use crate::looked::{behind_move, beside};
use crate::spot::{Spot, height_with, shift_of};
use crate::tally::{Tally, spend};
use crate::wide::is_too_wide;
use pgo_base::expr::Sub;
use pgo_base::text::Text;
use pgo_walk::event::{Event, Move};
use pgo_walk::frames::State;
use pgo_walk::stack::Stack;
use pgo_walk::turn::turn;
use std::alloc::{AllocError, Global};

/// What is still to be looked at: the state, and where its expansion stands.
#[derive(Drop)]
pub struct Pending<'a, 'i> {
    pub state: State<'a, 'i>,
    pub spot: Spot,
}

/// What is left of the limit on nodes, and the height of the action, up to the most that is told apart.
#[derive(Clone, Copy)]
pub struct Size {
    pub left: u64,
    pub height: u64,
}

/// The state is still to be looked at; nothing is where the limit is passed.
fn go_on<'a, 'i>(
    pending: &mut Stack<Pending<'a, 'i>>,
    state: State<'a, 'i>,
    next: Option<Tally>,
) -> Result<Option<Size>, AllocError>
    ensures { IfOk result (λ o. (vs gs : List Name) → behind_tally vs gs next (λ t. part t.spot (left_in vs state.entry) ∷ parts vs pending.old) ≡ behind_size vs gs o (parts vs pending.new)) }
{
    match next {
        None => Ok(None),
        Some(tally) => {
            pending.push(Pending {
                state,
                spot: tally.spot,
            })?;
            Ok(Some(Size {
                left: tally.left,
                height: tally.height,
            }))
        }
    }
}

/// Both branches of a test are still to be looked at; nothing is where the limit is passed.
fn branch_on<'a, 'i>(
    pending: &mut Stack<Pending<'a, 'i>>,
    a: State<'a, 'i>,
    b: State<'a, 'i>,
    next: Option<Tally>,
) -> Result<Option<Size>, AllocError>
    ensures { IfOk result (λ o. (vs gs : List Name) → behind_tally vs gs next (λ t. part t.spot (left_in vs a.entry) ∷ part t.spot (left_in vs b.entry) ∷ parts vs pending.old) ≡ behind_size vs gs o (parts vs pending.new)) }
{
    match next {
        None => Ok(None),
        Some(tally) => {
            pending.push(Pending {
                state: b,
                spot: tally.spot,
            })?;
            go_on(pending, a, next)
        }
    }
}

/// What is left behind the assignments of an end.
fn spend_changes(left: u64, changes: &[(Text, Text)]) -> Option<u64>
    ensures { result ≡ left_after left (changes_nodes changes.now) }
{
    let mut now = left;
    for _change in changes {
        match spend(now, 2) {
            None => return None,
            Some(behind) => now = behind,
        }
    }
    Some(now)
}

/// What is left behind an end: its assignments and its jump.
fn spend_end(left: u64, changes: &[(Text, Text)]) -> Option<u64>
    ensures { result ≡ left_after left (suc (changes_nodes changes.now)) }
{
    match spend(left, 1) {
        None => None,
        Some(behind) => spend_changes(behind, changes),
    }
}

/// The height of all with an end there.
fn height_at_end(
    alloc: Global,
    variables: &[Text],
    globals: &[Text],
    tally: Tally,
    changes: &[(Text, Text)],
) -> Result<u64, AllocError>
    ensures { IfOk result (λ h. h ≡ capped (max tally.height (tally.spot.depth + capped (end_height globals.now variables.now tally.spot.before changes.now)))) }
{
    let end = height_of_end(alloc, variables, globals, changes, tally.spot.before)?;
    let outside = Spot {
        before: None,
        depth: tally.spot.depth,
    };
    Ok(height_with(tally.height, outside, end))
}

/// Behind an end.
fn end_on(
    alloc: Global,
    variables: &[Text],
    globals: &[Text],
    tally: Tally,
    changes: &[(Text, Text)],
) -> Result<Option<Size>, AllocError>
    ensures { IfOk result (λ o. (label : Name) (ps : List Part) → measured variables.now globals.now tally.left tally.height (part tally.spot (End changes.now label) ∷ ps) ≡ behind_size variables.now globals.now o ps) }
{
    match spend_end(tally.left, changes) {
        None => Ok(None),
        Some(left) => Ok(Some(Size {
            left,
            height: height_at_end(alloc, variables, globals, tally, changes)?,
        })),
    }
}

/// The depth of an arm behind which so many arms stand: it is in one form of the disjunction for each of them, and one more if it is
/// not the first.
fn arm_depth(spot: Spot, first: bool, behind: usize) -> u64
    ensures { result ≡ capped (spot.depth + shift spot.before + behind + (if first then 0 else 1)) }
{
    let depth = spot
        .depth
        .saturating_add(shift_of(spot.before))
        .saturating_add(behind as u64);
    joined(None, depth.saturating_add(if first { 0 } else { 1 }))
}

/// The arms of a choice are still to be looked at: arm i of n stands in n - i forms of the disjunction, and the first in n - 1.
fn arms_on<'a, 'i>(
    pending: &mut Stack<Pending<'a, 'i>>,
    arms: Vec<State<'a, 'i>>,
    tally: Tally,
) -> Result<Option<Size>, AllocError>
    ensures { IfOk result (λ o. (vs gs : List Name) → measured vs gs tally.left tally.height (part tally.spot (Either (expansions (map (left_in vs) arms.entry.items))) ∷ parts vs pending.old) ≡ behind_size vs gs o (parts vs pending.new)) }
{
    let Some(left) = spend(tally.left, 1) else {
        return Ok(None);
    };
    let none = arms.is_empty();
    let height = height_with(tally.height, tally.spot, if none { 1 } else { 0 });
    let mut behind = arms.len();
    let mut first = true;
    for state in arms {
        behind = behind.saturating_sub(1);
        let depth = arm_depth(tally.spot, first, behind);
        pending.push(Pending {
            state,
            spot: Spot {
                before: None,
                depth,
            },
        })?;
        first = false;
    }
    Ok(Some(Size { left, height }))
}

/// Behind a statement of which the state goes on.
fn step_on<'a, 'i>(
    alloc: Global,
    pending: &mut Stack<Pending<'a, 'i>>,
    state: State<'a, 'i>,
    tally: Tally,
    m: &Move,
) -> Result<Option<Size>, AllocError>
    ensures { IfOk result (λ o. (vs gs : List Name) → measured vs gs tally.left tally.height (part tally.spot (moved m.now (left_in vs state.entry)) ∷ parts vs pending.old) ≡ behind_size vs gs o (parts vs pending.new)) }
{
    let next = behind_move(alloc, tally, m)?;
    go_on(pending, state, next)
}

/// Behind a test.
fn test_on<'a, 'i>(
    alloc: Global,
    pending: &mut Stack<Pending<'a, 'i>>,
    a: State<'a, 'i>,
    b: State<'a, 'i>,
    tally: Tally,
    e: &Sub,
) -> Result<Option<Size>, AllocError>
    ensures { IfOk result (λ o. (vs gs : List Name) → measured vs gs tally.left tally.height (part tally.spot (If e.now (left_in vs a.entry) (left_in vs b.entry)) ∷ parts vs pending.old) ≡ behind_size vs gs o (parts vs pending.new)) }
{
    let next = beside(alloc, tally, e)?;
    branch_on(pending, a, b, next)
}

/// Behind what a turn gives; the state is what is left behind that.
fn event_on<'a, 'i>(
    alloc: Global,
    variables: &[Text],
    globals: &[Text],
    pending: &mut Stack<Pending<'a, 'i>>,
    tally: Tally,
    event: Event<'a, 'i>,
    state: State<'a, 'i>,
) -> Result<Option<Size>, AllocError>
    ensures { IfOk result (λ o. measured variables.now globals.now tally.left tally.height (part tally.spot (emitted variables.now event.entry (left_in variables.now state.entry)) ∷ parts variables.now pending.old) ≡ behind_size variables.now globals.now o (parts variables.now pending.new)) }
{
    match event {
        Event::Quiet => go_on(pending, state, Some(tally)),
        Event::Step(m) => step_on(alloc, pending, state, tally, &m),
        Event::If(e, other) => test_on(alloc, pending, state, other, tally, &e),
        Event::Either(arms) => arms_on(pending, arms, tally),
        Event::End(changes, _) => end_on(alloc, variables, globals, tally, changes.as_slice()),
    }
}

/// Behind a turn.
fn turn_on<'a, 'i>(
    alloc: Global,
    variables: &[Text],
    globals: &[Text],
    pending: &mut Stack<Pending<'a, 'i>>,
    size: Size,
    at: Pending<'a, 'i>,
) -> Result<Option<Size>, AllocError>
    ensures { IfOk result (λ o. measured variables.now globals.now size.left size.height (pending_part variables.now at.entry ∷ parts variables.now pending.old) ≡ behind_size variables.now globals.now o (parts variables.now pending.new)) }
{
    let tally = Tally {
        left: size.left,
        height: size.height,
        spot: at.spot,
    };
    let mut state = at.state;
    let event = turn(alloc, variables, &mut state)?;
    event_on(alloc, variables, globals, pending, tally, event, state)
}

/// Behind a turn; nothing where the code that comes first has more nodes than are left, of which no expression is made then.
fn advance<'a, 'i>(
    alloc: Global,
    variables: &[Text],
    globals: &[Text],
    pending: &mut Stack<Pending<'a, 'i>>,
    size: Size,
    at: Pending<'a, 'i>,
) -> Result<Option<Size>, AllocError>
    ensures { IfOk result (λ o. measured variables.now globals.now size.left size.height (pending_part variables.now at.entry ∷ parts variables.now pending.old) ≡ behind_size variables.now globals.now o (parts variables.now pending.new)) }
{
    if is_too_wide(alloc, &at.state, size.left)? {
        return Ok(None);
    }
    turn_on(alloc, variables, globals, pending, size, at)
}

/// What is left of the limit behind the nodes of a section's expansion, and the height of its action, up to the most that is told
/// apart; nothing where the nodes pass the limit.
///
/// Err where there is no memory, and where more than 2^64 - 1 names are bound.
pub fn measure(
    alloc: Global,
    variables: &[Text],
    globals: &[Text],
    state: State<'_, '_>,
    left: u64,
) -> Result<Option<Size>, AllocError>
    ensures { IfOk result (λ o. option_map {U = ℕ × ℕ} (λ s. (s.left, s.height)) o ≡ option_map {U = ℕ × ℕ} (λ l. (l, capped (label_height variables.now globals.now (left_in variables.now state.entry)))) (left_after left (nodes (left_in variables.now state.entry)))) }
{
    let mut pending = Stack::new(alloc);
    pending.push(Pending {
        state,
        spot: Spot {
            before: Some(3),
            depth: 0,
        },
    })?;
    let mut size = Size { left, height: 0 };
    for _ in 0..u64::MAX {
        let Some(at) = pending.pop() else {
            return Ok(Some(Size {
                left: size.left,
                height: joined(None, size.height),
            }));
        };
        let Some(next) = advance(alloc, variables, globals, &mut pending, size, at)? else {
            return Ok(None);
        };
        size = next;
    }
    Err(AllocError)
}
