// Workers over their own boards, all at the same time.
ghost use Rattle.std.specs.Prelude.{◌≡◌, ◌<◌, ℕ, All, IfOk, length, slice_index_or};
ghost use Rattle.pgo_threads.specs.Drives.{FitsJob, HasWorked, HasRun};

use crate::drive::drive;
use crate::gate::Gate;
use pgo_resource::board::Board;
use pgo_resource::sections::Sections;
use pgo_section::worker::Worker;
use std::alloc::{AllocError, Global};
use std::thread;
use std::thread::Threads;

/// A worker with its own board, and, once it has run, whether memory was wanting.
#[derive(Drop)]
pub struct Job<P: Drop, B: Board> {
    pub worker: Worker<P>,
    pub board: B,
    pub failed: bool,
}

/// Runs a worker over its own board.
fn work<S: Sections, B: Board, G: Gate>(
    alloc: Global,
    sections: &S,
    gate: &G,
    job: Job<S::Place, B>,
) -> Job<S::Place, B>
    requires { FitsJob (S.system sections.now) (S.tree sections.now) (S.walk sections.now) B.layout B.shows job.worker job.board }
    ensures { HasWorked (S.system sections.now) (S.tree sections.now) (S.walk sections.now) B.layout B.shows B.stays job.worker job.board result.worker result.board result.failed }
{
    let Job {
        mut worker,
        mut board,
        ..
    } = job;
    let run = drive(alloc, sections, &mut worker, &mut board, gate);
    Job {
        worker,
        board,
        failed: run.is_err(),
    }
}

/// Runs each worker over its own board in a thread of its own, and joins them.
pub fn run_jobs<
    T: Threads + Sync,
    P: Drop + Send,
    S: Sections<Place = P> + Sync,
    B: Board + Send,
    G: Gate + Sync,
>(
    rt: &T,
    alloc: Global,
    sections: &S,
    gate: &G,
    jobs: Vec<Job<P, B>>,
) -> Result<Vec<Job<P, B>>, AllocError>
where
    B::Content: Send,
    requires { All (λ j. FitsJob (S.system sections.now) (S.tree sections.now) (S.walk sections.now) B.layout B.shows j.worker j.board) jobs.items }
    ensures len { IfOk result (λ v. length v.items ≡ length jobs.items) }
    ensures each { IfOk result (λ v. (i : ℕ) (d : _) → i < length jobs.items → HasWorked (S.system sections.now) (S.tree sections.now) (S.walk sections.now) B.layout B.shows B.stays (slice_index_or jobs.items i d).worker (slice_index_or jobs.items i d).board (slice_index_or v.items i d).worker (slice_index_or v.items i d).board (slice_index_or v.items i d).failed) }
{
    thread::map_vec(
        rt,
        jobs,
        &|job: Job<P, B>| -> Job<P, B>
            requires { FitsJob (S.system sections.now) (S.tree sections.now) (S.walk sections.now) B.layout B.shows job.worker job.board }
            ensures { HasWorked (S.system sections.entry.now) (S.tree sections.entry.now) (S.walk sections.entry.now) B.layout B.shows B.stays job.worker job.board result.worker result.board result.failed }
        { work(alloc, sections, gate, job) },
    )
}
