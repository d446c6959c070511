// A worker over a board, until it has ended, which parks where it is blocked.
ghost use Rattle.std.specs.Prelude.{◌≡◌, [], OnOk};
ghost use Rattle.pgo_syntax.specs.RecordView.{settings_view};
ghost use Rattle.pgo_workers.specs.Worlds.{layout_of};
ghost use Rattle.pgo_section.specs.Programs.{RunsSystem};
ghost use Rattle.pgo_section.specs.Turns.{Met, Same};
ghost use Rattle.pgo_threads.specs.Drives.{IsUnused, HasRun, ToldAsRecorded};

use crate::parking::Parking;
use pgo_resource::board::Board;
use pgo_resource::sections::Sections;
use pgo_section::worker::{Turn, Worker};
use pgo_syntax::records::NoteKind;
use pgo_threads::gate::Gate;
use pgo_threads::pauses::Pauses;
use std::alloc::{AllocError, Global};
use std::sync::Wait;

/// An attempt: how often an instance had committed or ended when it began, and whether it was blocked.
#[derive(Clone, Copy)]
struct Attempt {
    changes: u64,
    blocked: bool,
}

impl Attempt {
    /// What is known before a turn of a worker, which rests or is in the attempt.
    fn before_turn<R: Wait>(self, rt: &R, parking: &Parking, rests: bool) -> Attempt {
        if rests {
            Attempt {
                changes: parking.changes(rt),
                blocked: false,
            }
        } else {
            self
        }
    }

    /// What is known after the turn; a worker that rests parks if its attempt was blocked.
    fn after_turn<R: Wait>(self, rt: &R, parking: &Parking, turn: Turn, rests: bool) -> Attempt {
        let mut attempt = self;
        match turn {
            Turn::Committed { .. } => parking.committed(rt),
            Turn::Noted { kind, .. } => attempt.blocked = matches!(kind, NoteKind::Blocked),
            _ => {}
        }
        if rests && attempt.blocked {
            parking.park(rt, attempt.changes);
        }
        attempt
    }
}

/// The turns of a worker that has begun, until it has ended.
fn make_turns<R: Wait, S: Sections, B: Board, G: Gate>(
    rt: &R,
    alloc: Global,
    sections: &S,
    worker: &mut Worker<S::Place>,
    board: &mut B,
    gate: &G,
    parking: &Parking,
) -> Result<(), AllocError>
    requires layout { B.layout board.old ≡ layout_of (S.system sections.now) }
    requires runs { RunsSystem (S.system sections.now) (S.tree sections.now) (settings_view worker.old.settings) }
    requires met { Met (S.system sections.now) (S.tree sections.now) (S.walk sections.now) worker.old (B.shows board.old) }
    requires unused { IsUnused worker.old }
    ensures same { Same worker.old worker.new }
    ensures layout { B.layout board.new ≡ B.layout board.old }
    ensures stays { B.stays board.old board.new }
    ensures met { Met (S.system sections.now) (S.tree sections.now) (S.walk sections.now) worker.new (B.shows board.new) }
    ensures nothing { (B.shows board.new).held ≡ [] }
    ensures refused { ToldAsRecorded (B.shows board.old) worker.new (B.shows board.new) }
    ensures ended { OnOk result (HasRun (S.system sections.now) (S.tree sections.now) (S.walk sections.now) worker.old (B.shows board.old) worker.new (B.shows board.new)) }
{
    let mut attempt = Attempt {
        changes: 0,
        blocked: false,
    };
    let mut pauses = Pauses::new();
    for turn in 0..u64::MAX {
        gate.at(worker.number(), turn + 1);
        attempt = attempt.before_turn(rt, parking, worker.is_resting());
        let made = worker.turn(alloc, sections, board);
        match made {
            Turn::Idle { .. } => return Ok(()),
            Turn::NoMemory => return Err(AllocError),
            _ => {}
        }
        pauses.after_turn(made, worker.is_resting());
        attempt = attempt.after_turn(rt, parking, made, worker.is_resting());
    }
    worker.stop(sections, board);
    Err(AllocError)
}

/// Makes the turns of a worker over its board until it has ended, and calls the gate, as `drive` of `pgo_threads` does. Where an attempt was
/// blocked, it parks after the attempt's gives and before the gate is called again, until another instance of the same parking commits or
/// ends, unless every other one has ended or is parked. The worker has no record before. Whether it returns isn't said.
///
/// After Ok it has ended and says how, and has dropped no attempt. Err comes where memory was wanting in a turn, or after 2^64 - 1
/// turns, which is a limit of this project; the attempt under way is dropped then. After either nothing is held, worker and board
/// meet, the board has told as refused what the worker has recorded as refused, in order, and the parking counts the instance as ended.
///
/// Source: this project's choice.
pub fn drive_parked<R: Wait, S: Sections, B: Board, G: Gate>(
    rt: &R,
    alloc: Global,
    sections: &S,
    worker: &mut Worker<S::Place>,
    board: &mut B,
    gate: &G,
    parking: &Parking,
) -> Result<(), AllocError>
    requires layout { B.layout board.old ≡ layout_of (S.system sections.now) }
    requires runs { RunsSystem (S.system sections.now) (S.tree sections.now) (settings_view worker.old.settings) }
    requires met { Met (S.system sections.now) (S.tree sections.now) (S.walk sections.now) worker.old (B.shows board.old) }
    requires unused { IsUnused worker.old }
    ensures same { Same worker.old worker.new }
    ensures layout { B.layout board.new ≡ B.layout board.old }
    ensures stays { B.stays board.old board.new }
    ensures met { Met (S.system sections.now) (S.tree sections.now) (S.walk sections.now) worker.new (B.shows board.new) }
    ensures nothing { (B.shows board.new).held ≡ [] }
    ensures refused { ToldAsRecorded (B.shows board.old) worker.new (B.shows board.new) }
    ensures ended { OnOk result (HasRun (S.system sections.now) (S.tree sections.now) (S.walk sections.now) worker.old (B.shows board.old) worker.new (B.shows board.new)) }
{
    parking.begin(rt);
    let run = make_turns(rt, alloc, sections, worker, board, gate, parking);
    parking.ended(rt);
    run
}
