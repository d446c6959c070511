// An attempt, which tries the choices of its section one after another.
ghost use Rattle.std.specs.Prelude.{◌≡◌, if◌then◌else◌, true, [], IfOk, OnOk};
ghost use Rattle.pgo_workers.specs.Walk.{settled, goes_back};
ghost use Rattle.pgo_resource.specs.Picked.{attempt_words, words_of, points_of};
ghost use Rattle.pgo_resource.specs.declared.sections.NextEvent.TheVariants.{Note as NoteEvent};
ghost use Rattle.pgo_places.specs.FirstStands.{start_of};
ghost use Rattle.pgo_places.specs.LeafEvents.{points_at, LeafTells, Kept};
ghost use Rattle.pgo_places.specs.PlaceView.{stand_view};
ghost use Rattle.pgo_places.specs.PlaceWalk.{leaf_in, leaf_from, walk_in};
ghost use Rattle.pgo_places.specs.Turned.{Turns, IsFewer, is_blocked};

use crate::place::{Finish, Place, at, next_event};
use crate::stand::Stand;
use crate::start::{count_in, start_values};
use pgo_base::scope::State;
use pgo_code::program::{Code, Program};
use pgo_resource::sections::NextEvent;
use pgo_syntax::records::NoteKind;
use std::alloc::{AllocError, Global};

/// The place in the leaf under way, and what the next leaves want.
#[derive(Drop)]
pub struct Attempt {
    pub place: Place,
    /// the own components at the start
    pub start: State,
    /// how many leaves may be tried behind this one
    pub left: u32,
}

/// The stand is that at the start of the section, with the words of its picks.
fn stand_again(
    alloc: Global,
    code: &Code<'_>,
    start: &State,
    stand: &mut Stand,
) -> Result<(), AllocError>
    requires { points_of stand.old.picks ≡ [] }
    ensures { IfOk result (λ _. stand_view stand.new ≡ start_of code.now start.now (attempt_words stand.old.picks) (words_of stand.old.picks)) }
{
    stand.variables = start_values(alloc, &code.variables, start)?;
    stand.own = start.copy(alloc)?;
    stand.done = 0;
    stand.value = None;
    stand.env = Vec::new(alloc);
    stand.too_deep = Vec::new(alloc);
    stand.prints = Vec::new(alloc);
    Ok(())
}

/// The place is the start of the section, with the words of its picks.
fn begin_again(
    alloc: Global,
    program: &Program<'_>,
    place: &mut Place,
    start: &State,
) -> Result<(), AllocError>
    requires { points_of place.old.stand.picks ≡ [] }
    ensures leaf { IfOk result (λ _. leaf_in program.now place.new ≡ leaf_from program.now place.old start.now (words_of place.old.stand.picks)) }
    ensures kept { OnOk result (Kept place.old place.new) }
{
    let Some(code) = at(&program.codes, place.instance) else {
        place.stopped = Some(Finish::Noted(NoteKind::NoValue));
        return Ok(());
    };
    stand_again(alloc, code, start, &mut place.stand)?;
    place.position = 0;
    place.left = count_in(program, place.instance, place.section);
    place.stopped = None;
    Ok(())
}

/// Whether a note of this kind says that the section is blocked.
fn is_blocked_kind(kind: NoteKind) -> bool
    ensures { result ≡ is_blocked (NoteEvent kind) }
{
    match kind {
        NoteKind::Blocked => true,
        NoteKind::NoValue => false,
        NoteKind::AssertFails => false,
        NoteKind::Many => false,
    }
}

/// Whether the event is such a note.
fn is_blocked(event: NextEvent) -> bool
    ensures { result ≡ is_blocked event }
{
    match event {
        NextEvent::Access(_) => false,
        NextEvent::Commit => false,
        NextEvent::Note(kind) => is_blocked_kind(kind),
    }
}

/// Where a leaf leads that has come to this event: none where it is blocked and the next leaf begins; else whether contents are to be put
/// back, as they are where there are too many leaves.
fn turn(
    alloc: Global,
    program: &Program<'_>,
    attempt: &mut Attempt,
    event: NextEvent,
) -> Result<Option<bool>, AllocError>
    requires { LeafTells (points_at attempt.old.place) (leaf_in program.now attempt.old.place) event }
    ensures turns { IfOk result (λ o. Turns o (walk_in program.now attempt.old) (walk_in program.now attempt.new)) }
    ensures fewer { IfOk result (λ o. IsFewer o attempt.old.left attempt.new.left) }
{
    if !is_blocked(event) {
        return Ok(Some(false));
    }
    if !attempt.place.stand.picks.next_leaf() {
        return Ok(Some(false));
    }
    if attempt.left == 0 {
        attempt.place.stopped = Some(Finish::Noted(NoteKind::Many));
        return Ok(Some(true));
    }
    begin_again(alloc, program, &mut attempt.place, &attempt.start)?;
    attempt.left -= 1;
    Ok(None)
}

/// Runs on to the next event of the leaf, and where that leads.
fn tried(
    alloc: Global,
    program: &Program<'_>,
    attempt: &mut Attempt,
) -> Result<Option<bool>, AllocError>
    ensures turns { IfOk result (λ o. Turns o (walk_in program.now attempt.old) (walk_in program.now attempt.new)) }
    ensures fewer { IfOk result (λ o. IsFewer o attempt.old.left attempt.new.left) }
{
    let event = next_event(alloc, program, &mut attempt.place)?;
    turn(alloc, program, attempt, event)
}

/// Whether one of both is so.
fn either(a: bool, b: bool) -> bool
    ensures { result ≡ (if a then true else b) }
{
    a || b
}

/// Runs on to the next event, over all leaves that are blocked: true where there is one.
pub fn settle(
    alloc: Global,
    program: &Program<'_>,
    attempt: &mut Attempt,
) -> Result<bool, AllocError>
    ensures walk { IfOk result (λ b. walk_in program.now attempt.new ≡ settled (walk_in program.now attempt.old)) }
    ensures back { IfOk result (λ b. b ≡ goes_back (walk_in program.now attempt.old)) }
{
    let mut back = false;
    loop {
        if let Some(last) = tried(alloc, program, attempt)? {
            return Ok(either(back, last));
        }
        back = true;
    }
}
