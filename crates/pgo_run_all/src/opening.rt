// A job for each instance.
ghost use Rattle.std.specs.Prelude.{◌≡◌, ◌≤◌, ◌<◌, ℕ, length, Some, IfOk, slice_index_or};
ghost use Rattle.pgo_base.specs.Lookup.{Vars};
ghost use Rattle.pgo_model.specs.Machine.{nth};
ghost use Rattle.pgo_syntax.specs.RecordView.{settings_view};
ghost use Rattle.pgo_workers.specs.Worlds.{layout_of, own_in};
ghost use Rattle.pgo_section.specs.Programs.{RunsSystem};
ghost use Rattle.pgo_shared.specs.Seats.{IsFreshSeat};
ghost use Rattle.pgo_shared.specs.Tables.{terms_of};
ghost use Rattle.pgo_joined.specs.JoinedRuns.{IsNewJob};

use pgo_base::scope::State;
use pgo_resource::resource::Resource;
use pgo_resource::sections::Sections;
use pgo_section::worker::Worker;
use pgo_shared::seat_board::{BoardSeat, SeatBoard};
use pgo_shared::shared::Shared;
use pgo_syntax::records::Settings;
use pgo_threads::jobs::Job;
use std::alloc::{AllocError, Global};

/// A job for each instance, by number: a new worker over the board of its seat.
pub fn jobs_of<'a, P: Drop, S: Sections<Place = P>, R: Resource>(
    alloc: Global,
    sections: &S,
    shared: &'a Shared<R>,
    mut seats: Vec<BoardSeat<R>>,
    owns: Vec<State>,
    resources: u32,
    settings: &Settings,
) -> Result<Vec<Job<P, SeatBoard<'a, R>>>, AllocError>
    requires layout { (terms_of shared.now).layout ≡ layout_of (S.system sections.now) }
    requires steps { (terms_of shared.now).steps ≡ settings.now.steps }
    requires share { settings.now.attempts ≤ (terms_of shared.now).share }
    requires runs { RunsSystem (S.system sections.now) (S.tree sections.now) (settings_view settings.now) }
    requires few { (length owns.items ≡ length (S.system sections.now).members) × (length owns.items < 4294967296) }
    requires as_many { length seats.items ≡ length owns.items }
    requires fresh { (k : ℕ) (d : _) → k < length seats.items → IsFreshSeat shared.now k (slice_index_or seats.items k d) }
    requires owns { (k : ℕ) (o : Vars) → nth owns.items k ≡ Some o → o ≡ own_in (layout_of (S.system sections.now)) (S.system sections.now).start k }
    requires resources { resources ≡ length (S.system sections.now).resources }
    ensures as_many { IfOk result (λ v. length v.items ≡ length owns.items) }
    ensures jobs { IfOk result (λ v. (k : ℕ) (d : _) → k < length owns.items → IsNewJob (S.system sections.now) (S.tree sections.now) (S.walk sections.now) (settings_view settings.now) shared.now k (slice_index_or v.items k d)) }
{
    let mut jobs = Vec::with_capacity(alloc, owns.len())?;
    for own in owns {
        let k = jobs.len() as u32;
        let worker = Worker::open(alloc, sections, own, resources, k, settings)?;
        let seat = seats.remove(0);
        jobs.push_reserved(Job {
            worker,
            board: shared.board(seat),
            failed: false,
        });
    }
    Ok(jobs)
}
