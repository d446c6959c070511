// A worker: one instance at work.
ghost use Rattle.std.specs.Prelude.{◌≡◌, ◌<◌, ◌↔◌, ℕ, [], ◌∷◌, ◌++◌, length, map, true, false, None, option_map, IfOk, IsTrue};
ghost use Rattle.pgo_model.specs.Core.{is_listed, end_by};
ghost use Rattle.pgo_model.specs.Log.{Effect};
ghost use Rattle.pgo_model.specs.System.{System};
ghost use Rattle.pgo_syntax.specs.RecordView.{result_view, settings_view};
ghost use Rattle.pgo_workers.specs.View.{View};
ghost use Rattle.pgo_workers.specs.Worlds.{layout_of, own_in};
ghost use Rattle.pgo_section.specs.Programs.{RunsSystem};
ghost use Rattle.pgo_section.specs.Sight.{ended, end_at_rest, end_of, turn_of};
ghost use Rattle.pgo_section.specs.Turns.{Met, IsFresh};

use crate::own::is_done;
use pgo_base::scope::State;
use pgo_resource::sections::Sections;
use pgo_syntax::records::{AttemptResult, Down, End, NoteKind, Refusal, Settings};
use std::alloc::{AllocError, Global};

mod access;
mod commit;
mod finish;
mod turns;

/// What a turn did. Source: this project's choice.
#[derive(Clone, Copy)]
pub enum Turn {
    /// a take, an access, a pre-commit or a give
    Went,
    /// the attempt is entry n of the journal, from 1
    Committed { n: u32 },
    /// the attempt found no end, with n entries before it; of no kind Many
    Noted { kind: NoteKind, n: u32 },
    /// the attempt was refused, or it has a note of kind Many
    Refused { refusal: Refusal },
    /// the instance had ended
    Idle { end: End },
    /// memory was wanting: the attempt is dropped, and nothing is held
    NoMemory,
}

impl Turn {
    /// The turn by which this becomes of an attempt.
    fn of_result(told: AttemptResult) -> Turn
        ensures { result ≡ turn_of told }
    {
        match told {
            AttemptResult::Step { n } => Turn::Committed { n },
            AttemptResult::Noted { kind, n } => Turn::Noted { kind, n },
            AttemptResult::Refused { refusal } => Turn::Refused { refusal },
        }
    }
}

/// An instance at work. `readied` counts the taken resources that are pre-committed; where `giving`, the attempt is
/// finished and gives are left. P is what stands for a place in a section.
#[derive(Drop)]
pub struct Worker<P> {
    number: u32,
    settings: Settings,
    records: Vec<AttemptResult>,
    own: State,
    place: Option<P>,
    readied: usize,
    giving: bool,
    taken: Vec<u32>,
    dropped: bool,
    out_of_memory: bool,
}

/// One pair more.
fn push_pair(list: &mut Vec<(u32, u32)>, resource: u32, number: u32) -> Result<(), AllocError>
    requires { (r n : ℕ) → is_listed list.old.items r n ≡ true → n < 18446744073709551615 }
    ensures items { IfOk result (λ _. list.new.items ≡ list.old.items ++ (resource, number) ∷ []) }
    ensures listed { IfOk result (λ _. (r n : ℕ) → is_listed list.new.items r n ≡ true → n < 18446744073709551615) }
{
    list.push((resource, number))?;
    Ok(())
}

/// The same pairs once more.
fn copied_down(alloc: Global, down: &Down) -> Result<Down, AllocError>
    ensures same { IfOk result (λ d. d ≡ down.now) }
    ensures listed { IfOk result (λ d. (r n : ℕ) → is_listed d r n ≡ true → n < 18446744073709551615) }
{
    let pairs = down.as_slice();
    let mut list = Vec::with_capacity(alloc, pairs.len())?;
    for pair in pairs {
        push_pair(&mut list, pair.0, pair.1)?;
    }
    Ok(Down::from_vec(list))
}

/// A run's settings once more.
fn copied(alloc: Global, settings: &Settings) -> Result<Settings, AllocError>
    ensures same { IfOk result (λ s. s ≡ settings.now) }
    ensures listed { IfOk result (λ s. (r n : ℕ) → is_listed s.down r n ≡ true → n < 18446744073709551615) }
{
    let down = copied_down(alloc, &settings.down)?;
    Ok(Settings {
        seed: settings.seed,
        attempts: settings.attempts,
        steps: settings.steps,
        down,
        park: settings.park,
    })
}

impl<P: Drop> Worker<P> {
    /// The worker of an instance before its first turn, with the instance's components at the start. It takes the room for
    /// all its records, and for taking each resource once; `resources` is how many there are.
    pub fn open<S: Sections<Place = P>>(
        alloc: Global,
        sections: &S,
        own: State,
        resources: u32,
        instance: u32,
        settings: &Settings,
    ) -> Result<Worker<P>, AllocError>
        requires instance { instance < length (S.system sections.now).members }
        requires own { own ≡ own_in (layout_of (S.system sections.now)) (S.system sections.now).start instance }
        requires resources { resources ≡ length (S.system sections.now).resources }
        ensures number { IfOk result (λ w. w.number ≡ instance) }
        ensures settings { IfOk result (λ w. w.settings ≡ settings.now) }
        ensures records { IfOk result (λ w. w.records.items ≡ []) }
        ensures memory { IfOk result (λ w. w.out_of_memory ≡ false) }
        ensures dropped { IfOk result (λ w. w.dropped ≡ false) }
        ensures place { IfOk result (λ w. w.place ≡ None) }
        ensures meets { IfOk result (λ w. (b : View Effect) → RunsSystem (S.system sections.now) (S.tree sections.now) (settings_view settings.now) → IsFresh (S.system sections.now) (settings_view settings.now) instance b → Met (S.system sections.now) (S.tree sections.now) (S.walk sections.now) w b) }
    {
        let settings = copied(alloc, settings)?;
        let records = Vec::with_capacity(alloc, settings.attempts as usize)?;
        let taken = Vec::with_capacity(alloc, resources as usize)?;
        Ok(Worker {
            number: instance,
            settings,
            records,
            own,
            place: None,
            readied: 0,
            giving: false,
            taken,
            dropped: false,
            out_of_memory: false,
        })
    }

    /// The number of its instance. It takes no memory.
    pub fn number(&self) -> u32
        ensures { result ≡ self.now.number }
    {
        self.number
    }

    /// Whether no attempt is under way and no give is left. It takes no memory.
    pub fn is_resting(&self) -> bool
        ensures { IsTrue result ↔ ((self.now.giving ≡ false) × (self.now.place ≡ None)) }
    {
        !self.giving && self.place.is_none()
    }

    /// What became of its attempts, in order. It takes no memory.
    pub fn records(&self) -> &[AttemptResult]
        ensures { result.now ≡ self.now.records.items }
    {
        self.records.as_slice()
    }

    /// The end that its last record shows.
    fn last_end(&self) -> Option<End>
        ensures { result ≡ option_map ended (end_by (map result_view self.now.records.items)) }
    {
        let count = self.records.len();
        if count == 0 {
            return None;
        }
        self.records[count - 1].shown_end()
    }

    /// How the instance ended, where no attempt is under way.
    fn end_at_rest(&self) -> Option<End>
        ensures { result ≡ end_at_rest self.now }
    {
        if is_done(&self.own) {
            return Some(End::Done);
        }
        let end = self.last_end();
        if end.is_some() {
            return end;
        }
        if self.records.len() == self.settings.attempts as usize {
            Some(End::Spent)
        } else {
            None
        }
    }

    /// How the instance ended: `NoMemory` after a turn that answered so; none while an attempt is under way or a give is
    /// left; else `Done` at the label Done, `Stopped` after a note that no retry mends, `Full` after that refusal, `Spent` after
    /// all attempts, in this order; else none. It takes no memory.
    pub fn end(&self) -> Option<End>
        ensures { result ≡ end_of self.now }
    {
        if self.out_of_memory {
            return Some(End::NoMemory);
        }
        if self.giving || self.place.is_some() {
            return None;
        }
        self.end_at_rest()
    }
}
