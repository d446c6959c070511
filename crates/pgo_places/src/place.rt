// A place in a section: what is left there, and the next event.
ghost use Rattle.std.specs.Prelude.{◌≡◌, ◌<◌, ◌-◌, ℕ, suc, List, ◌∷◌, [], drop, length, map, option_map, Option, Some, None, OnOk, IfOk, IfSome, MatchOption};
ghost use Rattle.pgo_model.specs.Machine.{nth};
ghost use Rattle.pgo_accesses.specs.Accesses.{Attempt, no_value};
ghost use Rattle.pgo_code.specs.Steps.{Step};
ghost use Rattle.pgo_code.specs.declared.program.Program.{Program as ProgramView};
ghost use Rattle.pgo_code.specs.See.{step_of};
ghost use Rattle.pgo_places.specs.Flows.{flow_walk, label_of, IsTouchOf};
ghost use Rattle.pgo_places.specs.LeafEvents.{points_at, LeafTells, Kept};
ghost use Rattle.pgo_places.specs.Ready.{IsReady};
ghost use Rattle.pgo_places.specs.PlaceWalk.{core_walk, instructions_in, stop_walk, leaf_in, steps_at};
ghost use Rattle.pgo_places.specs.PlaceView.{stand_view, fixed_view, attempt_view};
ghost use Rattle.pgo_places.specs.declared.place.Place.{Place as PlaceInMemory};
ghost use Rattle.pgo_resource.specs.declared.sections.NextEvent.TheVariants.{Access as AccessEvent};
ghost use Rattle.pgo_places.specs.Stands.{Fixed as FixedView, Stand as StandView, limited};
ghost use Rattle.pgo_places.specs.Turns.{IsFewer, IsMoved, turns_at};

use crate::access::access;
use crate::evaluated::Frame;
use crate::flow::{Access, Flow};
use crate::run::run;
use crate::stand::{Fixed, Stand};
use pgo_base::text::Text;
use pgo_code::instruction::Instruction;
use pgo_code::program::{Code, Program};
use pgo_resource::sections::NextEvent;
use pgo_syntax::records::NoteKind;
use std::alloc::{AllocError, Global};
use std::sync::Arc;

/// How a section has come to its end: at a written label, or in a note.
#[derive(Drop)]
pub enum Finish {
    Ended(Text),
    Noted(NoteKind),
}

/// A place in a section.
#[derive(Drop)]
pub struct Place {
    pub instance: usize,
    pub section: usize,
    /// the number of the instruction in the section, from 0
    pub position: usize,
    /// how many instructions may still be run
    pub left: usize,
    pub stopped: Option<Finish>,
    /// the same for all attempts of the instance
    pub fixed: Arc<Fixed>,
    pub stand: Stand,
}

/// What stands at a place of a list.
pub fn at<'x, T>(list: &'x [T], n: usize) -> Option<&'x T>
    ensures { option_map (λ r. r.now) result ≡ nth list.entry.now n }
{
    if n < list.len() { Some(&list[n]) } else { None }
}

/// The instructions of a section, if there is such a section.
pub fn instructions<'x, 'a>(
    codes: &'x [Code<'a>],
    instance: usize,
    section: usize,
) -> Option<&'x [Instruction<'a>]>
    ensures { MatchOption result (instructions_in codes.entry.now instance section ≡ []) (λ r. r.now ≡ instructions_in codes.entry.now instance section) }
{
    let Some(code) = at(codes, instance) else {
        return None;
    };
    match at(code.sections.as_slice(), section) {
        Some(s) => Some(s.instructions.as_slice()),
        None => None,
    }
}

/// The place behind an instruction and so many more, at most at the end.
fn past(position: usize, over: usize, count: usize) -> usize
    requires { position < count }
    ensures { (xs : List Step) → length xs ≡ count → drop result xs ≡ drop over (drop (suc position) xs) }
{
    let left = count - position - 1;
    if over >= left {
        count
    } else {
        position + 1 + over
    }
}

/// The written label at which the instruction ends the section.
fn label(alloc: Global, instruction: &Instruction<'_>) -> Result<Text, AllocError>
    ensures { IfOk result (λ l. l ≡ label_of (step_of instruction.now)) }
{
    match instruction {
        Instruction::End(l) => l.copy(alloc),
        _ => Ok(Text::new(alloc)),
    }
}

/// Where a place goes on behind one of its instructions, of so many.
fn advance(place: &mut Place, over: usize, count: usize)
    requires within { place.old.position < count }
    requires more { 0 < place.old.left }
    ensures place { place.new ≡ record place.old { position = place.new.position; left = place.old.left - 1 } }
    ensures position { (xs : List Step) → length xs ≡ count → drop place.new.position xs ≡ drop over (drop (suc place.old.position) xs) }
{
    place.position = past(place.position, over, count);
    place.left -= 1;
}

/// Goes on where the flow says, behind an instruction of so many. None where it is no event.
pub fn moved(
    alloc: Global,
    place: &mut Place,
    instruction: &Instruction<'_>,
    count: usize,
    flow: Flow,
) -> Result<Option<NextEvent>, AllocError>
    requires within { place.old.position < count }
    requires more { 0 < place.old.left }
    requires runs { place.old.stopped ≡ None }
    ensures frame { place.new.instance ≡ place.old.instance }
    ensures section { place.new.section ≡ place.old.section }
    ensures fixed { place.new.fixed ≡ place.old.fixed }
    ensures stand { place.new.stand ≡ place.old.stand }
    ensures moved { IfOk result (λ o. IsMoved flow o place.old.left place.new.left) }
    ensures walk { IfOk result (λ _. (a : Attempt) (k : FixedView) (xs : List Step) (n : ℕ) (is : List Step) → length xs ≡ count → place.old.left ≡ suc n → drop place.old.position xs ≡ step_of instruction.now ∷ is → core_walk a k xs place.new ≡ flow_walk a k n (step_of instruction.now) is flow (stand_view place.old.stand)) }
    ensures tells { IfOk result (λ o. IfSome o (λ e. (a : Attempt) (k : FixedView) (xs : List Step) (m : ℕ) → LeafTells (points_at place.new) (limited m (core_walk a k xs place.new)) e)) }
    ensures ready { IfOk result (λ o. IfSome o (λ e. (p : ProgramView) → IsReady p place.new e)) }
{
    match flow {
        Flow::On => advance(place, 0, count),
        Flow::Over(over) => advance(place, over, count),
        Flow::Again => {}
        Flow::Ended => {
            place.stopped = Some(Finish::Ended(label(alloc, instruction)?));
            return Ok(Some(NextEvent::Commit));
        }
        Flow::Noted(kind) => {
            place.stopped = Some(Finish::Noted(kind));
            return Ok(Some(NextEvent::Note(kind)));
        }
    }
    Ok(None)
}

/// Where the access is of one of so many resources, it is the next event; else there is no value.
fn reached(place: &mut Place, resource: u32, resources: usize) -> NextEvent
    ensures frame { place.new ≡ record place.old { stopped = place.new.stopped } }
    ensures tells { (a : Attempt) (k : FixedView) (xs : List Step) → IsTouchOf resource (core_walk a k xs place.old) → LeafTells (points_at place.new) (limited resources (core_walk a k xs place.new)) result }
    ensures same { (a : Attempt) (k : FixedView) (xs : List Step) → IsTouchOf resource (core_walk a k xs place.old) → limited resources (core_walk a k xs place.new) ≡ limited resources (core_walk a k xs place.old) }
    ensures ready { (p : ProgramView) → IsReady p place.old (AccessEvent resource) → IsReady p place.new result }
{
    if (resource as usize) < resources {
        return NextEvent::Access(resource);
    }
    place.stopped = Some(Finish::Noted(NoteKind::NoValue));
    NextEvent::Note(NoteKind::NoValue)
}

/// There is no value.
fn fail(place: &mut Place) -> NextEvent
    ensures frame { place.new ≡ record place.old { stopped = place.new.stopped } }
    ensures same { (a : Attempt) (k : FixedView) (xs : List Step) → core_walk a k xs place.new ≡ no_value }
    ensures tells { (a : Attempt) (k : FixedView) (xs : List Step) (m : ℕ) → LeafTells (points_at place.new) (limited m (core_walk a k xs place.new)) result }
    ensures ready { (p : ProgramView) → IsReady p place.new result }
{
    place.stopped = Some(Finish::Noted(NoteKind::NoValue));
    NextEvent::Note(NoteKind::NoValue)
}

/// The event of a place that has come to its end.
fn stopped_event(stop: &Finish) -> NextEvent
    ensures tells { (s : StandView) (m : ℕ) → LeafTells s.progress.points (limited m (stop_walk stop.now s)) result }
    ensures ready { (p : ProgramView) (q : PlaceInMemory) → q.stopped ≡ Some stop.now → IsReady p q result }
{
    match stop {
        Finish::Ended(_) => NextEvent::Commit,
        Finish::Noted(kind) => NextEvent::Note(*kind),
    }
}

/// One instruction, which isn't at its end: the next event, or none where the place went on.
fn turn_at(
    alloc: Global,
    program: &Program<'_>,
    place: &mut Place,
    instruction: &Instruction<'_>,
    count: usize,
) -> Result<Option<NextEvent>, AllocError>
    requires within { place.old.position < count }
    requires more { 0 < place.old.left }
    requires runs { place.old.stopped ≡ None }
    requires count { length (steps_at program.now place.old) ≡ count }
    requires here { drop place.old.position (steps_at program.now place.old) ≡ step_of instruction.now ∷ drop (suc place.old.position) (steps_at program.now place.old) }
    ensures same { OnOk result (leaf_in program.now place.new ≡ leaf_in program.now place.old) }
    ensures tells { IfOk result (λ o. IfSome o (λ e. LeafTells (points_at place.new) (leaf_in program.now place.new) e)) }
    ensures ready { IfOk result (λ o. IfSome o (λ e. IsReady program.now place.new e)) }
    ensures fewer { IfOk result (λ o. IsFewer o (turns_at place.old) (turns_at place.new)) }
    ensures kept { OnOk result (Kept place.old place.new) }
{
    let frame = Frame {
        bound: program.bound,
        definitions: &program.definitions,
        elements: &program.elements,
        fixed: &place.fixed,
    };
    match access(frame, instruction, &place.stand) {
        Access::Of(r) => Ok(Some(reached(place, r, program.bound.resources.as_slice().len()))),
        Access::Nothing => Ok(Some(fail(place))),
        Access::No => {
            let flow = run(alloc, frame, instruction, &mut place.stand)?;
            moved(alloc, place, instruction, count, flow)
        }
    }
}

/// One instruction: the next event, or none where the place went on.
pub fn turn(
    alloc: Global,
    program: &Program<'_>,
    place: &mut Place,
) -> Result<Option<NextEvent>, AllocError>
    ensures same { OnOk result (leaf_in program.now place.new ≡ leaf_in program.now place.old) }
    ensures tells { IfOk result (λ o. IfSome o (λ e. LeafTells (points_at place.new) (leaf_in program.now place.new) e)) }
    ensures ready { IfOk result (λ o. IfSome o (λ e. IsReady program.now place.new e)) }
    ensures fewer { IfOk result (λ o. IsFewer o (turns_at place.old) (turns_at place.new)) }
    ensures kept { OnOk result (Kept place.old place.new) }
{
    if let Some(stop) = &place.stopped {
        return Ok(Some(stopped_event(stop)));
    }
    let Some(list) = instructions(&program.codes, place.instance, place.section) else {
        return Ok(Some(fail(place)));
    };
    if place.left == 0 {
        return Ok(Some(fail(place)));
    }
    if place.position >= list.len() {
        return Ok(Some(fail(place)));
    }
    turn_at(alloc, program, place, &list[place.position], list.len())
}

/// Runs on to the next event.
pub fn next_event(
    alloc: Global,
    program: &Program<'_>,
    place: &mut Place,
) -> Result<NextEvent, AllocError>
    ensures same { OnOk result (leaf_in program.now place.new ≡ leaf_in program.now place.old) }
    ensures tells { IfOk result (λ e. LeafTells (points_at place.new) (leaf_in program.now place.new) e) }
    ensures ready { IfOk result (λ e. IsReady program.now place.new e) }
    ensures kept { OnOk result (Kept place.old place.new) }
{
    loop {
        if let Some(event) = turn(alloc, program, place)? {
            return Ok(event);
        }
    }
}
