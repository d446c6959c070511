// The turns of a worker, and how it is stopped.
ghost use Rattle.std.specs.Prelude.{◌≡◌, true, false, [], None, IsSome, OnOk, OnErr, IfOk};
ghost use Rattle.pgo_syntax.specs.RecordView.{settings_view};
ghost use Rattle.pgo_workers.specs.Worlds.{layout_of};
ghost use Rattle.pgo_section.specs.Programs.{RunsSystem};
ghost use Rattle.pgo_section.specs.Sight.{placed, end_of};
ghost use Rattle.pgo_section.specs.Turns.{Met, Drops, Same, Keeps, Wants, Ran, TurnedBy, IsApart, TurnApart, IsLast};

use super::{Turn, Worker};
use pgo_resource::board::Board;
use pgo_resource::sections::{NextEvent, Sections};
use std::alloc::{AllocError, Global};

impl<P: Drop> Worker<P> {
    /// The next event of the attempt at this place.
    fn event<S: Sections<Place = P>, B: Board>(
        &mut self,
        alloc: Global,
        sections: &S,
        board: &mut B,
        mut place: P,
    ) -> Result<Turn, AllocError>
        requires going { self.old.giving ≡ false }
        requires layout { B.layout board.old ≡ layout_of (S.system sections.now) }
        requires runs { RunsSystem (S.system sections.now) (S.tree sections.now) (settings_view self.old.settings) }
        requires met { Met (S.system sections.now) (S.tree sections.now) (S.walk sections.now) (placed self.old place) (B.shows board.old) }
        ensures keeps { OnOk result (Keeps self.old self.new) }
        ensures wants { OnErr result (Wants self.old (B.shows board.old) self.new (B.shows board.new)) }
        ensures layout { B.layout board.new ≡ B.layout board.old }
        ensures stays { B.stays board.old board.new }
        ensures apart { OnOk result (IsApart (B.lent board.old) (B.lent board.new) (B.moved board.old) (B.moved board.new)) }
        ensures turned { IfOk result (λ t. Ran (S.system sections.now) (S.tree sections.now) (S.walk sections.now) (placed self.old place) (B.shows board.old) self.new (B.shows board.new) t) }
    {
        let next = sections.next(alloc, &mut place)?;
        match next {
            NextEvent::Access(r) => self.access(alloc, sections, board, place, r),
            NextEvent::Commit => {
                if self.readied < self.taken.len() {
                    Ok(self.pre_commit(sections, board, place))
                } else {
                    self.commit(alloc, sections, board, place)
                }
            }
            NextEvent::Note(kind) => Ok(self.note(sections, board, place, kind)),
        }
    }

    /// The first event of the next attempt.
    fn begin<S: Sections<Place = P>, B: Board>(
        &mut self,
        alloc: Global,
        sections: &S,
        board: &mut B,
    ) -> Result<Turn, AllocError>
        requires going { self.old.giving ≡ false }
        requires rests { self.old.place ≡ None }
        requires on { end_of self.old ≡ None }
        requires layout { B.layout board.old ≡ layout_of (S.system sections.now) }
        requires runs { RunsSystem (S.system sections.now) (S.tree sections.now) (settings_view self.old.settings) }
        requires met { Met (S.system sections.now) (S.tree sections.now) (S.walk sections.now) self.old (B.shows board.old) }
        ensures keeps { OnOk result (Keeps self.old self.new) }
        ensures wants { OnErr result (Wants self.old (B.shows board.old) self.new (B.shows board.new)) }
        ensures layout { B.layout board.new ≡ B.layout board.old }
        ensures stays { B.stays board.old board.new }
        ensures apart { OnOk result (IsApart (B.lent board.old) (B.lent board.new) (B.moved board.old) (B.moved board.new)) }
        ensures turned { IfOk result (λ t. Ran (S.system sections.now) (S.tree sections.now) (S.walk sections.now) self.old (B.shows board.old) self.new (B.shows board.new) t) }
    {
        let attempt = self.attempt();
        let place = sections.begin(alloc, self.settings.seed, self.number, attempt, &self.own)?;
        self.readied = 0;
        self.event(alloc, sections, board, place)
    }

    /// The next event of a worker that hasn't ended.
    fn make_turn<S: Sections<Place = P>, B: Board>(
        &mut self,
        alloc: Global,
        sections: &S,
        board: &mut B,
    ) -> Result<Turn, AllocError>
        requires on { end_of self.old ≡ None }
        requires layout { B.layout board.old ≡ layout_of (S.system sections.now) }
        requires runs { RunsSystem (S.system sections.now) (S.tree sections.now) (settings_view self.old.settings) }
        requires met { Met (S.system sections.now) (S.tree sections.now) (S.walk sections.now) self.old (B.shows board.old) }
        ensures keeps { OnOk result (Keeps self.old self.new) }
        ensures wants { OnErr result (Wants self.old (B.shows board.old) self.new (B.shows board.new)) }
        ensures going { OnErr result (self.old.giving ≡ false) }
        ensures layout { B.layout board.new ≡ B.layout board.old }
        ensures stays { B.stays board.old board.new }
        ensures apart { OnOk result (IsApart (B.lent board.old) (B.lent board.new) (B.moved board.old) (B.moved board.new)) }
        ensures turned { IfOk result (λ t. Ran (S.system sections.now) (S.tree sections.now) (S.walk sections.now) self.old (B.shows board.old) self.new (B.shows board.new) t) }
    {
        if self.giving {
            self.give(sections, board);
            return Ok(Turn::Went);
        }
        match self.place.take() {
            Some(place) => self.event(alloc, sections, board, place),
            None => self.begin(alloc, sections, board),
        }
    }

    /// Drops the attempt under way, gives back what is held, and makes no more turns.
    fn run_out<S: Sections<Place = P>, B: Board>(&mut self, sections: &S, board: &mut B)
        requires layout { B.layout board.old ≡ layout_of (S.system sections.now) }
        requires runs { RunsSystem (S.system sections.now) (S.tree sections.now) (settings_view self.old.settings) }
        requires drops { Drops (S.system sections.now) (S.tree sections.now) (S.walk sections.now) self.old (B.shows board.old) }
        ensures same { Same self.old self.new }
        ensures out { self.new.out_of_memory ≡ true }
        ensures layout { B.layout board.new ≡ B.layout board.old }
        ensures stays { B.stays board.old board.new }
        ensures records { self.new.records ≡ self.old.records }
        ensures nothing { (B.shows board.new).held ≡ [] }
        ensures met { Met (S.system sections.now) (S.tree sections.now) (S.walk sections.now) self.new (B.shows board.new) }
    {
        self.drop_attempt(sections, board);
        self.give_all(sections, board);
        self.out_of_memory = true;
    }

    /// One turn of a worker that hasn't ended.
    fn step<S: Sections<Place = P>, B: Board>(
        &mut self,
        alloc: Global,
        sections: &S,
        board: &mut B,
    ) -> Turn
        requires on { end_of self.old ≡ None }
        requires layout { B.layout board.old ≡ layout_of (S.system sections.now) }
        requires runs { RunsSystem (S.system sections.now) (S.tree sections.now) (settings_view self.old.settings) }
        requires met { Met (S.system sections.now) (S.tree sections.now) (S.walk sections.now) self.old (B.shows board.old) }
        ensures same { Same self.old self.new }
        ensures layout { B.layout board.new ≡ B.layout board.old }
        ensures stays { B.stays board.old board.new }
        ensures apart { TurnApart result (B.lent board.old) (B.lent board.new) (B.moved board.old) (B.moved board.new) }
        ensures turned { TurnedBy (S.system sections.now) (S.tree sections.now) (S.walk sections.now) self.old (B.shows board.old) self.new (B.shows board.new) result }
        ensures last { IsLast result (B.shows board.new) }
        ensures met { Met (S.system sections.now) (S.tree sections.now) (S.walk sections.now) self.new (B.shows board.new) }
    {
        match self.make_turn(alloc, sections, board) {
            Ok(turn) => turn,
            Err(_) => {
                self.run_out(sections, board);
                Turn::NoMemory
            }
        }
    }

    /// One turn: the next event of the attempt, and nothing where the instance has ended. Where memory is wanting, the attempt
    /// is dropped, what is held is given back in this turn, and each later turn answers `Idle` with `NoMemory`. No commit, note
    /// or give takes memory.
    pub fn turn<S: Sections<Place = P>, B: Board>(
        &mut self,
        alloc: Global,
        sections: &S,
        board: &mut B,
    ) -> Turn
        requires layout { B.layout board.old ≡ layout_of (S.system sections.now) }
        requires runs { RunsSystem (S.system sections.now) (S.tree sections.now) (settings_view self.old.settings) }
        requires met { Met (S.system sections.now) (S.tree sections.now) (S.walk sections.now) self.old (B.shows board.old) }
        ensures same { Same self.old self.new }
        ensures layout { B.layout board.new ≡ B.layout board.old }
        ensures stays { B.stays board.old board.new }
        ensures apart { TurnApart result (B.lent board.old) (B.lent board.new) (B.moved board.old) (B.moved board.new) }
        ensures turned { TurnedBy (S.system sections.now) (S.tree sections.now) (S.walk sections.now) self.old (B.shows board.old) self.new (B.shows board.new) result }
        ensures last { IsLast result (B.shows board.new) }
        ensures met { Met (S.system sections.now) (S.tree sections.now) (S.walk sections.now) self.new (B.shows board.new) }
    {
        match self.end() {
            Some(end) => Turn::Idle { end },
            None => self.step(alloc, sections, board),
        }
    }

    /// Drops an attempt that is under way, which isn't counted, and gives back what is held. Of a finished attempt it makes the
    /// gives that are left. It takes no memory.
    pub fn stop<S: Sections<Place = P>, B: Board>(&mut self, sections: &S, board: &mut B)
        requires layout { B.layout board.old ≡ layout_of (S.system sections.now) }
        requires runs { RunsSystem (S.system sections.now) (S.tree sections.now) (settings_view self.old.settings) }
        requires met { Met (S.system sections.now) (S.tree sections.now) (S.walk sections.now) self.old (B.shows board.old) }
        ensures keeps { Keeps self.old self.new }
        ensures layout { B.layout board.new ≡ B.layout board.old }
        ensures stays { B.stays board.old board.new }
        ensures records { self.new.records ≡ self.old.records }
        ensures nothing { (B.shows board.new).held ≡ [] }
        ensures met { Met (S.system sections.now) (S.tree sections.now) (S.walk sections.now) self.new (B.shows board.new) }
    {
        if self.giving {
            self.give_all(sections, board);
        } else if self.place.is_some() {
            self.drop_attempt(sections, board);
            self.give_all(sections, board);
        }
    }
}
