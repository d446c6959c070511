// A worker over a board, until it has ended.
ghost use Rattle.std.specs.Prelude.{◌≡◌, [], OnOk};
ghost use Rattle.pgo_syntax.specs.RecordView.{settings_view};
ghost use Rattle.pgo_workers.specs.Worlds.{layout_of};
ghost use Rattle.pgo_section.specs.Programs.{RunsSystem};
ghost use Rattle.pgo_section.specs.Turns.{Met, Same};
ghost use Rattle.pgo_threads.specs.Drives.{IsUnused, HasRun, ToldAsRecorded};

use crate::gate::Gate;
use crate::pauses::Pauses;
use pgo_resource::board::Board;
use pgo_resource::sections::Sections;
use pgo_section::worker::{Turn, Worker};
use std::alloc::{AllocError, Global};

/// Makes the turns of a worker over its board until it has ended, and calls the gate before each turn, from 1 on, and once more when
/// it has ended. Behind an attempt that was refused or found no end it pauses a moment. The worker has no record before.
///
/// After Ok it has ended and says how, and has dropped no attempt. Err comes where memory was wanting in a turn, or after 2^64 - 1
/// turns, which is a limit of this project; the attempt under way is dropped then. After either nothing is held, worker and board
/// meet, and the board has told as refused what the worker has recorded as refused, in order.
///
/// Source: this project's choice.
pub fn drive<S: Sections, B: Board, G: Gate>(
    alloc: Global,
    sections: &S,
    worker: &mut Worker<S::Place>,
    board: &mut B,
    gate: &G,
) -> Result<(), AllocError>
    requires layout { B.layout board.old ≡ layout_of (S.system sections.now) }
    requires runs { RunsSystem (S.system sections.now) (S.tree sections.now) (settings_view worker.old.settings) }
    requires met { Met (S.system sections.now) (S.tree sections.now) (S.walk sections.now) worker.old (B.shows board.old) }
    requires unused { IsUnused worker.old }
    ensures same { Same worker.old worker.new }
    ensures layout { B.layout board.new ≡ B.layout board.old }
    ensures stays { B.stays board.old board.new }
    ensures met { Met (S.system sections.now) (S.tree sections.now) (S.walk sections.now) worker.new (B.shows board.new) }
    ensures nothing { (B.shows board.new).held ≡ [] }
    ensures refused { ToldAsRecorded (B.shows board.old) worker.new (B.shows board.new) }
    ensures ended { OnOk result (HasRun (S.system sections.now) (S.tree sections.now) (S.walk sections.now) worker.old (B.shows board.old) worker.new (B.shows board.new)) }
{
    let mut pauses = Pauses::new();
    for turn in 0..u64::MAX {
        gate.at(worker.number(), turn + 1);
        let made = worker.turn(alloc, sections, board);
        match made {
            Turn::Idle { .. } => return Ok(()),
            Turn::NoMemory => return Err(AllocError),
            _ => {}
        }
        pauses.after_turn(made, worker.is_resting());
    }
    worker.stop(sections, board);
    Err(AllocError)
}
