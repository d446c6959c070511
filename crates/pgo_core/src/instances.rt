// The core: a worker for each instance, over one board.
ghost use Rattle.std.specs.Prelude.{◌≡◌, ◌≤◌, ◌<◌, ◌++◌, ◌∷◌, [], ℕ, suc, List, true, length, vec_len, vec_capacity, IfOk};
ghost use Rattle.pgo_model.specs.Core as model;
ghost use Rattle.pgo_model.specs.Machine.{finished_of, nth};
ghost use Rattle.pgo_syntax.specs.RecordView.{settings_view};
ghost use Rattle.pgo_workers.specs.Worlds.{layout_of};
ghost use Rattle.pgo_section.specs.Programs.{RunsSystem};
ghost use Rattle.pgo_section.specs.Turns.{Met, TurnApart};
ghost use Rattle.pgo_core.specs.Cores.{all_roomy, counted, has_turned, TurnedAt, StoppedAt};

use crate::accounts::accounts_of;
use crate::exclusive_board::ExclusiveBoard;
use pgo_base::items::Items;
use pgo_journal::finished::{Account, Finished};
use pgo_resource::board::Board;
use pgo_resource::resource::Resource;
use pgo_resource::sections::Sections;
use pgo_section::worker::{Turn, Worker};
use pgo_syntax::records::{End, Record, Settings};
use std::alloc::{AllocError, Global};

mod opening;
mod rounds;

/// A worker for each instance of a bound specification, by its number, over one board, on one thread.
///
/// `rooms` are empty lists, one for the records of each instance; they, and the room for accounts, are what the end of a run
/// needs. `made` counts the turns of instances.
#[derive(Drop)]
pub struct Core<S: Sections + Drop, R: Resource> {
    sections: S,
    settings: Settings,
    workers: Vec<Worker<S::Place>>,
    board: ExclusiveBoard<R>,
    rooms: Vec<Vec<Record>>,
    accounts: Vec<Account>,
    made: u64,
    ghost few: { vec_len workers < 4294967296 },
    ghost as_many: { vec_len rooms ≡ vec_len workers },
    ghost roomy: { all_roomy settings.attempts rooms.items ≡ true },
    ghost none_yet: { vec_len accounts ≡ 0 },
    ghost account_room: { vec_len workers ≤ vec_capacity accounts },
}

/// Whether memory wasn't wanting for the turn.
fn has_turned(turn: Turn) -> bool
    ensures { result ≡ has_turned turn }
{
    match turn {
        Turn::Went => true,
        Turn::Committed { .. } => true,
        Turn::Noted { .. } => true,
        Turn::Refused { .. } => true,
        Turn::Idle { .. } => true,
        Turn::NoMemory => false,
    }
}

/// How many turns of an instance that hadn't ended it was.
fn counted(turn: Turn) -> usize
    ensures { result ≡ counted turn }
{
    match turn {
        Turn::Went => 1,
        Turn::Committed { .. } => 1,
        Turn::Noted { .. } => 1,
        Turn::Refused { .. } => 1,
        Turn::Idle { .. } => 0,
        Turn::NoMemory => 0,
    }
}

/// One turn of worker k.
fn turn_of<S: Sections, B: Board>(
    alloc: Global,
    sections: &S,
    workers: &mut Vec<Worker<S::Place>>,
    k: usize,
    board: &mut B,
) -> Turn
    requires inside { k < vec_len workers.old }
    requires layout { B.layout board.old ≡ layout_of (S.system sections.now) }
    requires runs { (w : Worker S.Place) → nth workers.old.items k ≡ Some w → RunsSystem (S.system sections.now) (S.tree sections.now) (settings_view w.settings) }
    requires met { (w : Worker S.Place) → nth workers.old.items k ≡ Some w → Met (S.system sections.now) (S.tree sections.now) (S.walk sections.now) w (B.shows board.old) }
    ensures layout { B.layout board.new ≡ B.layout board.old }
    ensures stays { B.stays board.old board.new }
    ensures as_many { vec_len workers.new ≡ vec_len workers.old }
    ensures turned { TurnedAt (S.system sections.now) (S.tree sections.now) (S.walk sections.now) k workers.old.items workers.new.items (B.shows board.old) (B.shows board.new) result }
    ensures apart { TurnApart result (B.lent board.old) (B.lent board.new) (B.moved board.old) (B.moved board.new) }
{
    workers[k].turn(alloc, sections, board)
}

/// Stops worker k.
fn stop_of<S: Sections, B: Board>(
    sections: &S,
    workers: &mut Vec<Worker<S::Place>>,
    k: usize,
    board: &mut B,
)
    requires inside { k < vec_len workers.old }
    requires layout { B.layout board.old ≡ layout_of (S.system sections.now) }
    requires runs { (w : Worker S.Place) → nth workers.old.items k ≡ Some w → RunsSystem (S.system sections.now) (S.tree sections.now) (settings_view w.settings) }
    requires met { (w : Worker S.Place) → nth workers.old.items k ≡ Some w → Met (S.system sections.now) (S.tree sections.now) (S.walk sections.now) w (B.shows board.old) }
    ensures layout { B.layout board.new ≡ B.layout board.old }
    ensures stays { B.stays board.old board.new }
    ensures as_many { vec_len workers.new ≡ vec_len workers.old }
    ensures stopped { StoppedAt (S.system sections.now) (S.tree sections.now) (S.walk sections.now) k workers.old.items workers.new.items (B.shows board.new) }
{
    workers[k].stop(sections, board)
}

impl<S: Sections + Drop, R: Resource> Core<S, R> {
    ghost use Rattle.pgo_core.specs.Instances.{Safe, IsSame, StandsAt, Turns, IdleKeeps, Stops, StoppedBelow, IsJournalOf, AreAccountsIn, turns_left};

    /// One turn of instance k: the next event of its attempt, or of its next one; nothing where it has ended, and
    /// `Idle` with `Nobody` where no instance has the number. Where memory is wanting, its attempt is dropped, and it makes no
    /// more turns; `NoMemory` is answered too where 2^64 - 1 turns of instances were made.
    pub fn turn(&mut self, alloc: Global, k: u32) -> Turn
        requires safe { Safe self.old }
        ensures safe { Safe self.new }
        ensures turns { Turns k result self.old self.new }
        ensures idle { IdleKeeps k result self.old self.new }
        ensures left { has_turned result ≡ true → k < vec_len self.old.workers → turns_left self.new < turns_left self.old }
    {
        if k as usize >= self.workers.len() {
            return Turn::Idle { end: End::Nobody };
        }
        if self.made == 18446744073709551615 {
            return Turn::NoMemory;
        }
        self.step(alloc, k)
    }

    /// One turn of an instance.
    fn step(&mut self, alloc: Global, k: u32) -> Turn
        requires there { k < vec_len self.old.workers }
        requires made { self.old.made < 18446744073709551615 }
        requires safe { Safe self.old }
        ensures safe { Safe self.new }
        ensures turns { Turns k result self.old self.new }
        ensures idle { IdleKeeps k result self.old self.new }
        ensures left { turns_left self.new < turns_left self.old }
    {
        self.made += 1;
        self.board.set_current(k);
        turn_of(
            alloc,
            &self.sections,
            &mut self.workers,
            k as usize,
            &mut self.board,
        )
    }

    /// These turns, one after the other, up to the first that memory is wanting for.
    pub fn run(&mut self, alloc: Global, turns: &[u32]) -> Result<(), AllocError>
        requires safe { Safe self.old }
        ensures safe { Safe self.new }
        ensures same { IsSame self.old self.new }
        ensures stands { IfOk result (λ _. (before : List ℕ) → StandsAt before self.old → StandsAt (before ++ turns.now) self.new) }
    {
        for k in turns {
            let turn = self.turn(alloc, *k);
            if !has_turned(turn) {
                return Err(AllocError);
            }
        }
        Ok(())
    }

    /// Stops worker k.
    fn stop_one(&mut self, k: u32)
        requires there { k < vec_len self.old.workers }
        requires safe { Safe self.old }
        ensures safe { Safe self.new }
        ensures stopped { Stops k self.old self.new }
    {
        self.board.set_current(k);
        stop_of(
            &self.sections,
            &mut self.workers,
            k as usize,
            &mut self.board,
        );
    }

    /// Stops all workers.
    fn stop_all(&mut self)
        requires safe { Safe self.old }
        ensures safe { Safe self.new }
        ensures stopped { StoppedBelow (vec_len self.old.workers) self.old self.new }
    {
        for k in 0..self.workers.len() {
            self.stop_one(k as u32);
        }
    }

    /// What the run leaves: all workers are stopped. It takes no memory.
    pub fn finish(self) -> Finished
        requires safe { Safe self }
        ensures journal { (turns : List ℕ) → StandsAt turns self → IsJournalOf self turns result.journal }
        ensures accounts { (turns : List ℕ) → StandsAt turns self → AreAccountsIn self turns result.accounts }
    {
        let mut core = self;
        core.stop_all();
        let Core {
            settings,
            workers,
            board,
            rooms,
            mut accounts,
            ..
        } = core;
        accounts_of(workers.as_slice(), rooms, settings.attempts, &mut accounts);
        Finished {
            journal: board.into_journal(),
            accounts: Items::from_vec(accounts),
        }
    }
}
