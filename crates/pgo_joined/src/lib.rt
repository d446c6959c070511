// Runs of jobs on threads over one table.
#![tactic(auto)]

ghost use Rattle.std.specs.Prelude.{◌≡◌, ◌≤◌, ℕ, List};
ghost use Rattle.pgo_model.specs.Core.{Settings};
ghost use Rattle.pgo_model.specs.Log.{Effect};
ghost use Rattle.pgo_model.specs.Machine.{Entry, Note};
ghost use Rattle.pgo_model.specs.System.{System};
ghost use Rattle.pgo_workers.specs.Walk.{Walk};
ghost use Rattle.pgo_section.specs.Programs.{Trees};
ghost use Rattle.pgo_section.specs.Turns.{IsFresh};
ghost use Rattle.pgo_closed.specs.SystemRuns.{IsClosedRun};
ghost use Rattle.pgo_table.specs.SeatViews.{TableTerms, no_history};
ghost use Rattle.pgo_table.specs.Seen.{at_rest};
ghost use Rattle.pgo_shared.specs.declared.seat_board.SeatBoard.{SeatBoard};
ghost use Rattle.pgo_threads.specs.Drives.{Differing};
ghost use Rattle.pgo_threads.specs.declared.jobs.Job.{Job};
ghost use Rattle.pgo_joined.specs.JoinedRuns.{AreEnded, HaveWorked, IsClosedBy, MayClose, boards_of, told_by, workers_of};

use pgo_resource::resource::Resource;
use pgo_section::worker::Worker;
use pgo_shared::seat_board::BoardSeat;
use pgo_shared::shared::Shared;

/// A worker may be opened on the board of a seat that has done nothing, where the table's size is that of the settings and an instance's
/// share of notes is at least its attempts.
///
/// Source: this project's choice.
pub fn new_boards_are_fresh()
    ensures { (y : System) (settings : Settings) (terms : TableTerms) (k : ℕ) → terms.steps ≡ settings.steps → settings.attempts ≤ terms.share → IsFresh y settings k (at_rest terms (no_history k)) }
{}

/// The law of runs of jobs on threads over one table, of every system, whatever trees its workers run, whatever the contents of its resources
/// are, and whatever the schedule was. The workers and the seats are those of jobs that have run, in their order.
///
/// - `may_close`: the seats are all seats of the table, so that it may be closed.
/// - `closed`: and once it is closed, the journal, the workers and their boards are a closed run.
///
/// What it asks of the jobs is what `Shared::open`, `Shared::board`, `Worker::open`, `run_jobs`, `SeatBoard::end` and `Shared::close` say.
///
/// Source: this project's choice.
pub fn joined_runs_are_closed<P: Drop, R: Resource>(
    shared: &Shared<R>,
    workers: &[Worker<P>],
    seats: &[BoardSeat<R>],
)
    ensures may_close { (y : System) (tree : Trees) (walk : P → Walk) (settings : Settings) (jobs after : List (Job P (SeatBoard R _) R)) → HaveWorked y tree walk settings shared.now jobs after → AreEnded after workers.now seats.now → MayClose shared.now seats.now }
    ensures closed { (y : System) (tree : Trees) (walk : P → Walk) (settings : Settings) (jobs after : List (Job P (SeatBoard R _) R)) (entries : List (Entry Effect)) (notes : List Note) → Differing y tree settings → HaveWorked y tree walk settings shared.now jobs after → AreEnded after workers.now seats.now → IsClosedBy shared.now seats.now entries notes → IsClosedRun y tree settings entries notes (workers_of walk workers.now) (boards_of after) (told_by seats.now) }
{}
