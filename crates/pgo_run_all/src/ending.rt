// The workers and the seats of jobs that have run.
ghost use Rattle.std.specs.Prelude.{◌≡◌, ◌<◌, ℕ, [], length, slice_index_or, IfOk};
ghost use Rattle.pgo_joined.specs.JoinedRuns.{AreEnded};
ghost use Rattle.pgo_shared.specs.SeatBoards.{shows_of};

use pgo_resource::resource::Resource;
use pgo_section::worker::Worker;
use pgo_shared::seat_board::{BoardSeat, SeatBoard};
use pgo_threads::jobs::Job;
use std::alloc::{AllocError, Global};

/// The workers and the seats, in the order of the jobs. It answers want of memory where a job did.
pub fn ended<P: Drop, R: Resource>(
    alloc: Global,
    jobs: Vec<Job<P, SeatBoard<'_, R>>>,
) -> Result<(Vec<Worker<P>>, Vec<BoardSeat<R>>), AllocError>
    requires nothing { (k : ℕ) (d : _) → k < length jobs.items → (shows_of (slice_index_or jobs.items k d).board).held ≡ [] }
    ensures { IfOk result (λ t. AreEnded jobs.entry.items t.0.items t.1.items) }
{
    let mut workers = Vec::with_capacity(alloc, jobs.len())?;
    let mut seats = Vec::with_capacity(alloc, jobs.len())?;
    for job in jobs {
        let Job {
            worker,
            board,
            failed,
        } = job;
        if failed {
            return Err(AllocError);
        }
        workers.push_reserved(worker);
        seats.push_reserved(board.end());
    }
    Ok((workers, seats))
}
