// The sections of a program.
ghost use Rattle.std.specs.Prelude.{◌≡◌, ◌<◌, ◌∷◌, suc, drop, length, false, map, option_map, Some, None, OnOk, IfOk};
ghost use Rattle.std.specs.Arc.{arc_value};
ghost use Rattle.pgo_base.specs.View.{data_of};
ghost use Rattle.pgo_model.specs.LogView.{component_view};
ghost use Rattle.pgo_model.specs.Machine.{nth};
ghost use Rattle.pgo_bound.specs.Sound.{index_in};
ghost use Rattle.pgo_code.specs.See.{step_of};
ghost use Rattle.pgo_meaning.specs.System.{resource_of, system_of};
ghost use Rattle.pgo_resource.specs.Nexts.{IsTouch, LeadsOn, StopsWith, Tells};
ghost use Rattle.pgo_resource.specs.declared.sections.NextEvent.TheVariants.{Access as AccessEvent};
ghost use Rattle.pgo_workers.specs.Tried.{Leads};
ghost use Rattle.pgo_workers.specs.Walk.{Stop, Goes, goes_back};
ghost use Rattle.pgo_workers.specs.Worlds.{component_of, layout_of};
ghost use Rattle.pgo_places.specs.AllNames.{AreNames, are_names_prop};
ghost use Rattle.pgo_places.specs.PlaceView.{stand_view, fixed_view, attempt_view};
ghost use Rattle.pgo_places.specs.LeafEvents.{IsLeafTouch, IsLeafEnd, LeafLeadsOn, Kept};
ghost use Rattle.pgo_places.specs.PlaceWalk.{leaf_in, walk_in, steps_at};
ghost use Rattle.pgo_places.specs.Ready.{IsAccess, IsAccessEvent};
ghost use Rattle.pgo_places.specs.Stands.{labelled};
ghost use Rattle.pgo_places.specs.Trees.{tree_in};

use crate::attempt::{Attempt, settle};
use crate::evaluated::Frame;
use crate::perform::perform;
use crate::place::{Finish, Place, instructions, moved, next_event};
use crate::stand::{Fixed, Stand};
use crate::start::{all_names, first_attempt};
use crate::variables::put_own;
use pgo_base::log::{Component, Owner, Values};
use pgo_base::scope::State;
use pgo_base::text::Text;
use pgo_base::value::Value;
use pgo_code::instruction::Instruction;
use pgo_code::program::Program;
use pgo_resource::resource::Resource;
use pgo_resource::sections::{NextEvent, Sections};
use pgo_syntax::bound;
use std::alloc::{AllocError, Global};
use std::sync::Arc;

/// What a section that has ended leaves of the own components, and what it printed.
fn end_of(
    alloc: Global,
    program: &Program<'_>,
    attempt: Attempt,
) -> Result<(State, Values), AllocError>
    requires { StopsWith (walk_in program.now attempt) }
    ensures { IfOk result (λ e. walk_in program.now attempt ≡ Stop (Goes e.0 e.1)) }
{
    let Attempt { place, .. } = attempt;
    leaf_end(alloc, program, place)
}

/// The same of a leaf.
fn leaf_end(
    alloc: Global,
    program: &Program<'_>,
    place: Place,
) -> Result<(State, Values), AllocError>
    requires { IsLeafEnd (leaf_in program.now place) }
    ensures { IfOk result (λ e. leaf_in program.now place ≡ Stop (Leads (Goes e.0 e.1))) }
{
    let mut place = place;
    next_event(alloc, program, &mut place)?;
    let Place { stopped, stand, .. } = place;
    let Some(Finish::Ended(label)) = stopped else {
        unreachable!()
    };
    left_by(alloc, label, stand)
}

/// What is left where a section ends at a written label.
fn left_by(alloc: Global, label: Text, stand: Stand) -> Result<(State, Values), AllocError>
    ensures own { IfOk result (λ e. e.0 ≡ labelled label (stand_view stand).own) }
    ensures prints { IfOk result (λ e. e.1 ≡ (stand_view stand).progress.prints) }
{
    let Stand { own, prints, .. } = stand;
    let mut own = own;
    put_own(alloc, &mut own, b"pc", &Value::Str(label))?;
    Ok((own, Values::from_vec(prints)))
}

/// An index once more, if there is one.
fn index_of(alloc: Global, resource: &bound::Resource) -> Result<Option<Value>, AllocError>
    ensures { IfOk result (λ o. option_map data_of o ≡ index_in resource.now) }
{
    match &resource.index {
        Some(v) => Ok(Some(v.copy(alloc)?)),
        None => Ok(None),
    }
}

/// The component of a resource with this number.
fn component(
    alloc: Global,
    number: u32,
    resource: &bound::Resource,
) -> Result<Component, AllocError>
    ensures { IfOk result (λ c. component_view c ≡ component_of number (Some (resource_of resource.now))) }
{
    let variable = resource.global.copy(alloc)?;
    let index = index_of(alloc, resource)?;
    Ok(Component {
        variable,
        index,
        owner: Owner::OfResource(number),
    })
}

/// The resource of an access that was told.
fn told_resource(event: NextEvent) -> u32
    requires { IsAccessEvent event }
    ensures { event ≡ AccessEvent result }
{
    match event {
        NextEvent::Access(r) => r,
        _ => unreachable!(),
    }
}

/// Does the access that comes next on a content.
fn operated<R: Resource>(
    alloc: Global,
    program: &Program<'_>,
    place: &mut Place,
    content: &mut R,
) -> Result<(), AllocError>
    requires { IsLeafTouch (leaf_in program.now place.old) }
    ensures on { OnOk result (LeafLeadsOn (leaf_in program.now place.old) (leaf_in program.now place.new) (R.shows content.old).current (R.shows content.new).current) }
    ensures kept { OnOk result (Kept place.old place.new) }
    ensures content { R.shows content.new ≡ record (R.shows content.old) { current = (R.shows content.new).current } }
{
    let event = next_event(alloc, program, place)?;
    let resource = told_resource(event);
    let Some(list) = instructions(&program.codes, place.instance, place.section) else {
        unreachable!()
    };
    operate_at(
        alloc,
        program,
        place,
        resource,
        &list[place.position],
        list.len(),
        content,
    )
}

/// Does the access of one of the instructions, of so many, which is of this resource.
fn operate_at<R: Resource>(
    alloc: Global,
    program: &Program<'_>,
    place: &mut Place,
    resource: u32,
    instruction: &Instruction<'_>,
    count: usize,
    content: &mut R,
) -> Result<(), AllocError>
    requires within { place.old.position < count }
    requires more { 0 < place.old.left }
    requires runs { place.old.stopped ≡ None }
    requires count { length (steps_at program.now place.old) ≡ count }
    requires here { drop place.old.position (steps_at program.now place.old) ≡ step_of instruction.now ∷ drop (suc place.old.position) (steps_at program.now place.old) }
    requires access { IsAccess (attempt_view program.now.bound.now (arc_value place.old.fixed)) (fixed_view (arc_value place.old.fixed)) resource (step_of instruction.now) (stand_view place.old.stand) }
    ensures on { OnOk result (LeafLeadsOn (leaf_in program.now place.old) (leaf_in program.now place.new) (R.shows content.old).current (R.shows content.new).current) }
    ensures kept { OnOk result (Kept place.old place.new) }
    ensures content { R.shows content.new ≡ record (R.shows content.old) { current = (R.shows content.new).current } }
{
    let frame = Frame {
        bound: program.bound,
        definitions: &program.definitions,
        elements: &program.elements,
        fixed: &place.fixed,
    };
    let flow = perform(
        alloc,
        frame,
        resource,
        instruction,
        &mut place.stand,
        content,
    )?;
    moved(alloc, place, instruction, count, flow)?;
    Ok(())
}

/// The identifier of an instance.
fn id_in<'x>(bound: &'x bound::Bound, instance: u32) -> &'x Value
    requires { instance < length (layout_of (system_of bound.now)).ids }
    ensures { nth (layout_of (system_of bound.entry.now)).ids instance ≡ Some (data_of result.now) }
{
    &bound.instances.as_slice()[instance as usize].id
}

/// A resource.
fn resource_in<'x>(bound: &'x bound::Bound, r: u32) -> &'x bound::Resource
    requires { r < length (layout_of (system_of bound.now)).resources }
    ensures { nth (layout_of (system_of bound.entry.now)).resources r ≡ Some (resource_of result.now) }
{
    &bound.resources.as_slice()[r as usize]
}

/// A program whose sections are run, and what the names of the attempts of each instance are.
#[derive(Drop)]
pub struct Runnable<'a> {
    pub program: Program<'a>,
    names: Vec<Arc<Fixed>>,
    ghost are_names: { AreNames program (map arc_value names.items) } by { are_names_prop program (map arc_value names.items) },
}

impl<'a> Runnable<'a> {
    /// A program, to be run.
    ///
    /// Err only where there is no memory.
    pub fn new(alloc: Global, program: Program<'a>) -> Result<Runnable<'a>, AllocError>
        ensures { IfOk result (λ r. r.program ≡ program.entry) }
    {
        let names = all_names(alloc, &program)?;
        Ok(Runnable { program, names })
    }
}

/// An attempt, at its first event.
fn begun(
    alloc: Global,
    program: &Program<'_>,
    names: &[Arc<Fixed>],
    seed: u64,
    instance: u32,
    number: u32,
    own: &State,
) -> Result<Attempt, AllocError>
    requires { AreNames program.now (map arc_value names.now) }
    ensures { IfOk result (λ q. walk_in program.now q ≡ tree_in program.now seed instance number own.now) }
{
    let mut attempt = first_attempt(alloc, program, names, seed, instance, number, own)?;
    settle(alloc, program, &mut attempt)?;
    Ok(attempt)
}

/// The next event of an attempt, which is that of its leaf: where that is blocked, no other leaf is left.
fn event_of(
    alloc: Global,
    program: &Program<'_>,
    attempt: &mut Attempt,
) -> Result<NextEvent, AllocError>
    requires { goes_back (walk_in program.now attempt.old) ≡ false }
    ensures same { OnOk result (walk_in program.now attempt.new ≡ walk_in program.now attempt.old) }
    ensures tells { IfOk result (λ n. Tells (walk_in program.now attempt.new) n) }
{
    next_event(alloc, program, &mut attempt.place)
}

/// Does the access that comes next on a content.
fn operated_on<R: Resource>(
    alloc: Global,
    program: &Program<'_>,
    attempt: &mut Attempt,
    content: &mut R,
) -> Result<(), AllocError>
    requires { IsTouch (walk_in program.now attempt.old) }
    ensures on { OnOk result (LeadsOn (walk_in program.now attempt.old) (walk_in program.now attempt.new) (R.shows content.old).current (R.shows content.new).current) }
    ensures content { R.shows content.new ≡ record (R.shows content.old) { current = (R.shows content.new).current } }
{
    operated(alloc, program, &mut attempt.place, content)
}

/// The attempt, where moving it is cheap.
fn boxed(alloc: Global, attempt: Attempt) -> Result<Box<Attempt>, AllocError>
    ensures { IfOk result (λ b. b.value ≡ attempt) }
{
    Ok(Box::new(alloc, attempt)?)
}

impl<'a> Sections for Runnable<'a> {
    /// An attempt is several hundred bytes, and a worker moves it in each turn.
    type Place = Box<Attempt>;

    ghost use Rattle.pgo_meaning.specs.System.{system_of};
    ghost use Rattle.pgo_places.specs.Inside.{tree_inside};
    ghost use Rattle.pgo_places.specs.PlaceWalk.{boxed_walk};
    ghost use Rattle.pgo_places.specs.Trees.{tree_in};

    ghost system = { λ p. system_of p.program.bound.now };

    ghost tree = { λ p. tree_in p.program };

    ghost walk = { λ p. boxed_walk p.program };

    fn begin(
        &self,
        alloc: Global,
        seed: u64,
        instance: u32,
        attempt: u32,
        own: &State,
    ) -> Result<Box<Attempt>, AllocError> {
        let begun = begun(
            alloc,
            &self.program,
            &self.names,
            seed,
            instance,
            attempt,
            own,
        )?;
        boxed(alloc, begun)
    }

    fn next(&self, alloc: Global, place: &mut Box<Attempt>) -> Result<NextEvent, AllocError> {
        event_of(alloc, &self.program, place)
    }

    fn operate<R: Resource>(
        &self,
        alloc: Global,
        place: &mut Box<Attempt>,
        content: &mut R,
    ) -> Result<(), AllocError> {
        operated_on(alloc, &self.program, place, content)
    }

    fn settle(&self, alloc: Global, place: &mut Box<Attempt>) -> Result<bool, AllocError> {
        settle(alloc, &self.program, place)
    }

    fn end(&self, alloc: Global, place: Box<Attempt>) -> Result<(State, Values), AllocError> {
        end_of(alloc, &self.program, Box::into_inner(place))
    }

    fn component(&self, alloc: Global, r: u32) -> Result<Component, AllocError> {
        component(alloc, r, resource_in(self.program.bound, r))
    }

    fn id(&self, instance: u32) -> &Value {
        id_in(self.program.bound, instance)
    }

    ghost inside = { λ p. tree_inside p.program };
}
