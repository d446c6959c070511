// Workers over their own boards, all at the same time, which park where they are blocked.
ghost use Rattle.std.specs.Prelude.{◌≡◌, ◌<◌, ℕ, All, IfOk, length, slice_index_or};
ghost use Rattle.pgo_threads.specs.Drives.{FitsJob, HasWorked};

use crate::drive::drive_parked;
use crate::parking::Parking;
use pgo_resource::board::Board;
use pgo_resource::sections::Sections;
use pgo_threads::gate::Gate;
use pgo_threads::jobs::Job;
use std::alloc::{AllocError, Global};
use std::sync::Wait;
use std::thread;
use std::thread::Threads;

/// Runs a worker over its own board.
fn work<R: Wait, S: Sections, B: Board, G: Gate>(
    rt: &R,
    alloc: Global,
    sections: &S,
    gate: &G,
    parking: &Parking,
    job: Job<S::Place, B>,
) -> Job<S::Place, B>
    requires { FitsJob (S.system sections.now) (S.tree sections.now) (S.walk sections.now) B.layout B.shows job.worker job.board }
    ensures { HasWorked (S.system sections.now) (S.tree sections.now) (S.walk sections.now) B.layout B.shows B.stays job.worker job.board result.worker result.board result.failed }
{
    let Job {
        mut worker,
        mut board,
        ..
    } = job;
    let run = drive_parked(rt, alloc, sections, &mut worker, &mut board, gate, parking);
    Job {
        worker,
        board,
        failed: run.is_err(),
    }
}

/// Runs each worker over its own board in a thread of its own, and joins them, as `run_jobs` of `pgo_threads` does. An instance whose attempt
/// was blocked parks until another commits or ends, unless every other instance has ended or is parked. Whether it returns isn't said.
pub fn run_parked_jobs<
    T: Threads + Wait + Sync,
    P: Drop + Send,
    S: Sections<Place = P> + Sync,
    B: Board + Send,
    G: Gate + Sync,
>(
    rt: &T,
    alloc: Global,
    sections: &S,
    gate: &G,
    jobs: Vec<Job<P, B>>,
) -> Result<Vec<Job<P, B>>, AllocError>
where
    B::Content: Send,
    requires { All (λ j. FitsJob (S.system sections.now) (S.tree sections.now) (S.walk sections.now) B.layout B.shows j.worker j.board) jobs.items }
    ensures len { IfOk result (λ v. length v.items ≡ length jobs.items) }
    ensures each { IfOk result (λ v. (i : ℕ) (d : _) → i < length jobs.items → HasWorked (S.system sections.now) (S.tree sections.now) (S.walk sections.now) B.layout B.shows B.stays (slice_index_or jobs.items i d).worker (slice_index_or jobs.items i d).board (slice_index_or v.items i d).worker (slice_index_or v.items i d).board (slice_index_or v.items i d).failed) }
{
    let parking = Parking::new(jobs.len() as u64);
    thread::map_vec(
        rt,
        jobs,
        &|job: Job<P, B>| -> Job<P, B>
            requires { FitsJob (S.system sections.now) (S.tree sections.now) (S.walk sections.now) B.layout B.shows job.worker job.board }
            ensures { HasWorked (S.system sections.entry.now) (S.tree sections.entry.now) (S.walk sections.entry.now) B.layout B.shows B.stays job.worker job.board result.worker result.board result.failed }
        { work(rt, alloc, sections, gate, &parking, job) },
    )
}
