// The core before its first turn.
ghost use Rattle.std.specs.Prelude.{◌≡◌, ◌≤◌, ◌<◌, [], ℕ, length, vec_len, Some, IfOk};
ghost use Rattle.pgo_base.specs.Lookup.{Vars};
ghost use Rattle.pgo_bound.specs.Sound.{Sound};
ghost use Rattle.pgo_bound.specs.State.{AreDifferent, variables_of};
ghost use Rattle.pgo_meaning.specs.System as meaning;
ghost use Rattle.pgo_model.specs.Machine.{nth};
ghost use Rattle.pgo_syntax.specs.RecordView.{settings_view};
ghost use Rattle.pgo_workers.specs.Worlds.{layout_of, own_in};
ghost use Rattle.pgo_resource.specs.PlainRows.{FitsStart};
ghost use Rattle.pgo_section.specs.Programs.{RunsSystem};
ghost use Rattle.pgo_core.specs.Cores.{AreOpened, MayFail};

use super::Core;
use crate::accounts::rooms_of;
use crate::exclusive_board::ExclusiveBoard;
use pgo_base::results::both;
use pgo_base::scope::State;
use pgo_resource::resource::Resource;
use pgo_resource::sections::Sections;
use pgo_section::worker::Worker;
use pgo_syntax::bound::Bound;
use pgo_syntax::records::{Down, Settings};
use std::alloc::{AllocError, Global};

/// The same settings once more.
fn copied(alloc: Global, settings: &Settings) -> Result<Settings, AllocError>
    ensures { IfOk result (λ s. s ≡ settings.now) }
{
    let list = Vec::from_slice(alloc, settings.down.as_slice())?;
    Ok(Settings {
        seed: settings.seed,
        attempts: settings.attempts,
        steps: settings.steps,
        down: Down::from_vec(list),
        park: settings.park,
    })
}

/// A worker for each of the own components, in order.
fn workers_of<S: Sections + Drop>(
    alloc: Global,
    sections: &S,
    owns: Vec<State>,
    resources: u32,
    settings: &Settings,
) -> Result<Vec<Worker<S::Place>>, AllocError>
    requires few { length owns.items ≤ length (S.system sections.now).members }
    requires small { length owns.items < 4294967296 }
    requires owns { (k : ℕ) (o : Vars) → nth owns.items k ≡ Some o → o ≡ own_in (layout_of (S.system sections.now)) (S.system sections.now).start k }
    requires resources { resources ≡ length (S.system sections.now).resources }
    ensures as_many { IfOk result (λ ws. vec_len ws ≡ length owns.items) }
    ensures opened { IfOk result (λ ws. AreOpened (S.system sections.now) (S.tree sections.now) (S.walk sections.now) (settings_view settings.now) ws.items) }
{
    let mut workers = Vec::with_capacity(alloc, owns.len())?;
    for own in owns {
        let k = workers.len() as u32;
        let worker = Worker::open(alloc, sections, own, resources, k, settings)?;
        workers.push_reserved(worker);
    }
    Ok(workers)
}

impl<S: Sections + Drop, R: Resource> Core<S, R> {
    ghost use Rattle.pgo_core.specs.Instances.{Safe, StandsAt, sections_of, settings_of};

    /// The core of what a specification is bound to, before its first turn: `owns` has the own components of each instance at the
    /// start, in order, and `contents` the content of each resource. It takes the room for the journal, the records and the
    /// accounts.
    pub fn open(
        alloc: Global,
        sections: S,
        bound: &Bound,
        owns: Vec<State>,
        contents: Vec<R>,
        settings: &Settings,
    ) -> Result<Core<S, R>, AllocError>
        requires system { S.system sections ≡ meaning.system_of bound.now }
        requires sound { Sound bound.now }
        requires names { AreDifferent (variables_of bound.now.spec) }
        requires as_many { vec_len contents ≡ length bound.now.resources }
        requires fit { FitsStart R.shows (layout_of (meaning.system_of bound.now)) contents.items }
        requires numbers { (r : ℕ) (c : R) → nth contents.items r ≡ Some c → MayFail (settings_view settings.now) r (R.shows c).number }
        requires owns_as_many { length owns.items ≡ length bound.now.instances }
        requires owns { (k : ℕ) (o : Vars) → nth owns.items k ≡ Some o → o ≡ own_in (layout_of (meaning.system_of bound.now)) (meaning.system_of bound.now).start k }
        ensures sections { IfOk result (λ c. sections_of c ≡ sections) }
        ensures settings { IfOk result (λ c. settings_of c ≡ settings_view settings.now) }
        ensures safe { IfOk result (λ c. RunsSystem (S.system sections) (S.tree sections) (settings_view settings.now) → Safe c) }
        ensures stands { IfOk result (λ c. StandsAt [] c) }
    {
        let count = owns.len();
        let resources = contents.len() as u32;
        let workers = workers_of(alloc, &sections, owns, resources, settings);
        let board = ExclusiveBoard::open(alloc, bound, contents, settings.steps, settings.attempts);
        let rooms = rooms_of(alloc, count, settings.attempts);
        let accounts = Vec::with_capacity(alloc, count);
        let ((workers, board), (rooms, (accounts, settings))) = both(
            both(workers, board),
            both(rooms, both(accounts, copied(alloc, settings))),
        )?;
        Ok(Core {
            sections,
            settings,
            workers,
            board,
            rooms,
            accounts,
            made: 0,
        })
    }
}
