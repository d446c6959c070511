// Whether no instance has a step in a state.
ghost use Rattle.std.specs.Prelude.{◌≡◌, ◌<◌, ◌↔◌, ℕ, length, false, Some, IsTrue, IfOk, OnOk};
ghost use Rattle.pgo_base.specs.Data.{Data};
ghost use Rattle.pgo_base.specs.Lookup.{Vars};
ghost use Rattle.pgo_model.specs.Core.{Settings};
ghost use Rattle.pgo_model.specs.Machine.{nth};
ghost use Rattle.pgo_meaning.specs.Quiet.{Quiet};
ghost use Rattle.pgo_meaning.specs.System.{system_of};
ghost use Rattle.pgo_resource.specs.Nexts.{Tells};
ghost use Rattle.pgo_resource.specs.declared.sections.NextEvent.TheVariants as events;
ghost use Rattle.pgo_syntax.specs.declared.bound.Bound.{Bound};
ghost use Rattle.pgo_workers.specs.Walk.{Walk, ending, ending_from, goes_back};
ghost use Rattle.pgo_workers.specs.Sentences.{IsOwn};
ghost use Rattle.pgo_workers.specs.Worlds.{layout_of, world_of};
ghost use Rattle.pgo_section.specs.Programs.{IsGood, RunsSystem};
ghost use Rattle.pgo_section.specs.Quiet.{AreContentsIn, AreOwnsIn, bases, currents, is_blocked_end, stands, all_stand, some_undone, Begins, WithinFirst, Went, WentOrEnded};

use crate::own::is_done;
use pgo_base::scope::State;
use pgo_resource::resource::Resource;
use pgo_resource::sections::{NextEvent, Sections};
use pgo_syntax::records::NoteKind;
use std::alloc::{AllocError, Global};

/// Puts back what was written to the contents. It takes no memory.
fn reset<R: Resource>(contents: &mut Vec<R>)
    ensures many { length contents.new.items ≡ length contents.old.items }
    ensures bases { bases R.shows contents.new.items ≡ bases R.shows contents.old.items }
    ensures rests { currents R.shows contents.new.items ≡ bases R.shows contents.old.items }
{
    for index in 0..contents.len() {
        contents[index].abort();
    }
}

/// Makes the access of resource r that comes next. Where the section is blocked then, and choices are left, the contents are put back.
fn access<S: Sections, R: Resource>(
    alloc: Global,
    sections: &S,
    place: &mut S::Place,
    r: u32,
    contents: &mut Vec<R>,
) -> Result<(), AllocError>
    requires within { WithinFirst (length contents.old.items) (S.walk sections.now place.old) }
    requires touch { Tells (S.walk sections.now place.old) (events.Access r) }
    ensures many { length contents.new.items ≡ length contents.old.items }
    ensures bases { bases R.shows contents.new.items ≡ bases R.shows contents.old.items }
    ensures went { OnOk result (Went (length contents.old.items) (bases R.shows contents.old.items) (S.walk sections.now place.old) (currents R.shows contents.old.items) (S.walk sections.now place.new) (currents R.shows contents.new.items)) }
{
    sections.operate(alloc, place, &mut contents[r as usize])?;
    if sections.settle(alloc, place)? {
        reset(contents);
    }
    Ok(())
}

/// Whether a note says that a section was blocked.
fn is_blocked(kind: NoteKind) -> bool
    ensures { (w : Walk) → Tells w (events.Note kind) → (s f : ℕ → Data) → result ≡ is_blocked_end (ending_from s w f) }
{
    match kind {
        NoteKind::Blocked => true,
        NoteKind::NoValue => false,
        NoteKind::AssertFails => false,
        NoteKind::Many => false,
    }
}

/// The next access of an attempt; where there is none, whether the attempt was blocked.
fn turn<S: Sections, R: Resource>(
    alloc: Global,
    sections: &S,
    place: &mut S::Place,
    contents: &mut Vec<R>,
) -> Result<Option<bool>, AllocError>
    requires within { WithinFirst (length contents.old.items) (S.walk sections.now place.old) }
    requires settled { goes_back (S.walk sections.now place.old) ≡ false }
    ensures many { length contents.new.items ≡ length contents.old.items }
    ensures bases { bases R.shows contents.new.items ≡ bases R.shows contents.old.items }
    ensures went { IfOk result (WentOrEnded (length contents.old.items) (bases R.shows contents.old.items) (S.walk sections.now place.old) (currents R.shows contents.old.items) (S.walk sections.now place.new) (currents R.shows contents.new.items)) }
{
    let next = sections.next(alloc, place)?;
    match next {
        NextEvent::Access(r) => {
            access(alloc, sections, place, r, contents)?;
            Ok(None)
        }
        NextEvent::Commit => Ok(Some(false)),
        NextEvent::Note(kind) => Ok(Some(is_blocked(kind))),
    }
}

/// Whether an attempt of an instance is blocked on what the contents are. What it writes stays in them.
fn attempt<S: Sections, R: Resource>(
    alloc: Global,
    sections: &S,
    instance: u32,
    own: &State,
    contents: &mut Vec<R>,
) -> Result<bool, AllocError>
    requires begins { Begins (length contents.old.items) (S.tree sections.now 0 instance 1 own.now) }
    requires rests { currents R.shows contents.old.items ≡ bases R.shows contents.old.items }
    ensures many { length contents.new.items ≡ length contents.old.items }
    ensures bases { bases R.shows contents.new.items ≡ bases R.shows contents.old.items }
    ensures blocked { IfOk result (λ b. b ≡ is_blocked_end (ending (S.tree sections.now 0 instance 1 own.now) (bases R.shows contents.old.items))) }
{
    let mut place = sections.begin(alloc, 0, instance, 1, own)?;
    loop {
        if let Some(blocked) = turn(alloc, sections, &mut place, contents)? {
            return Ok(blocked);
        }
    }
}

/// Whether an instance is at "Done", or an attempt of it is blocked.
fn is_standing<S: Sections, R: Resource>(
    alloc: Global,
    sections: &S,
    instance: u32,
    own: &State,
    contents: &mut Vec<R>,
) -> Result<bool, AllocError>
    requires begins { Begins (length contents.old.items) (S.tree sections.now 0 instance 1 own.now) }
    requires rests { currents R.shows contents.old.items ≡ bases R.shows contents.old.items }
    ensures many { length contents.new.items ≡ length contents.old.items }
    ensures bases { bases R.shows contents.new.items ≡ bases R.shows contents.old.items }
    ensures rests { OnOk result (currents R.shows contents.new.items ≡ bases R.shows contents.new.items) }
    ensures stands { IfOk result (λ b. b ≡ stands (S.tree sections.now) (bases R.shows contents.old.items) instance own.now) }
{
    if is_done(own) {
        return Ok(true);
    }
    let blocked = attempt(alloc, sections, instance, own, contents)?;
    reset(contents);
    Ok(blocked)
}

/// Whether all instances are at "Done", or their attempts are blocked.
fn are_standing<S: Sections, R: Resource>(
    alloc: Global,
    sections: &S,
    owns: &[State],
    contents: &mut Vec<R>,
) -> Result<bool, AllocError>
    requires small { length owns.now < 4294967296 }
    requires each { (k : ℕ) (o : Vars) → nth owns.now k ≡ Some o → Begins (length contents.old.items) (S.tree sections.now 0 k 1 o) }
    requires rests { currents R.shows contents.old.items ≡ bases R.shows contents.old.items }
    ensures { IfOk result (λ b. b ≡ all_stand (S.tree sections.now) (bases R.shows contents.old.items) 0 owns.now) }
{
    for k in 0..owns.len() {
        if !is_standing(alloc, sections, k as u32, &owns[k], contents)? {
            return Ok(false);
        }
    }
    Ok(true)
}

/// Whether some instance isn't at "Done".
fn is_some_undone(owns: &[State]) -> bool
    ensures { result ≡ some_undone owns.now }
{
    for own in owns {
        if !is_done(own) {
            return true;
        }
    }
    false
}

/// Whether no instance has a step in a state of what a specification is bound to, and some instance isn't at "Done" there (`Quiet` of
/// pgo_meaning). `owns` has the own components of each instance in the state, in order, and `contents` the content of each resource,
/// whose base and value now are its component in the state.
///
/// One attempt of each instance decides it, with whatever words of choice.
///
/// Source: this project's choice.
pub fn quiet<S: Sections, R: Resource>(
    alloc: Global,
    sections: &S,
    owns: &[State],
    contents: Vec<R>,
) -> Result<bool, AllocError>
    requires runs { (settings : Settings) → RunsSystem (S.system sections.now) (S.tree sections.now) settings }
    requires owns { (k : ℕ) (o : Vars) → nth owns.now k ≡ Some o → IsOwn (world_of (layout_of (S.system sections.now))) k o }
    requires owns_as_many { length owns.now ≡ length (S.system sections.now).members }
    requires small { length owns.now < 4294967296 }
    requires as_many { length contents.items ≡ length (S.system sections.now).resources }
    requires rests { currents R.shows contents.items ≡ bases R.shows contents.items }
    ensures { (b : Bound) (s : Vars) → S.system sections.now ≡ system_of b → IsGood (system_of b) s → AreOwnsIn (layout_of (system_of b)) s owns.now → AreContentsIn R.shows (layout_of (system_of b)) s contents.items → IfOk result (λ q. IsTrue q ↔ Quiet b s) }
{
    let mut contents = contents;
    if is_some_undone(owns) {
        return are_standing(alloc, sections, owns, &mut contents);
    }
    Ok(false)
}
