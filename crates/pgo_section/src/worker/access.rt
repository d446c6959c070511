// The accesses of an attempt: takes and what is done to contents.
ghost use Rattle.std.specs.Prelude.{◌≡◌, true, false, OnOk, OnErr, IfOk};
ghost use Rattle.pgo_model.specs.Machine.{among};
ghost use Rattle.pgo_resource.specs.Nexts.{Tells};
ghost use Rattle.pgo_resource.specs.declared.sections.NextEvent.TheVariants as events;
ghost use Rattle.pgo_syntax.specs.RecordView.{settings_view};
ghost use Rattle.pgo_workers.specs.Worlds.{layout_of};
ghost use Rattle.pgo_section.specs.Programs.{RunsSystem};
ghost use Rattle.pgo_section.specs.Sight.{placed};
ghost use Rattle.pgo_section.specs.Turns.{Met, Keeps, Wants, Ran, IsApart};

use super::{Turn, Worker};
use crate::contents::{abort_all, put_back};
use pgo_resource::board::Board;
use pgo_resource::sections::Sections;
use pgo_syntax::records::AttemptResult;
use std::alloc::{AllocError, Global};

impl<P: Drop> Worker<P> {
    /// Takes r for the next access, or the attempt is refused. It takes no memory.
    fn take<S: Sections<Place = P>, B: Board>(
        &mut self,
        sections: &S,
        board: &mut B,
        place: P,
        r: u32,
    ) -> Turn
        requires going { self.old.giving ≡ false }
        requires next { Tells (S.walk sections.now place) (events.Access r) }
        requires new { among r self.old.taken.items ≡ false }
        requires layout { B.layout board.old ≡ layout_of (S.system sections.now) }
        requires runs { RunsSystem (S.system sections.now) (S.tree sections.now) (settings_view self.old.settings) }
        requires met { Met (S.system sections.now) (S.tree sections.now) (S.walk sections.now) (placed self.old place) (B.shows board.old) }
        ensures keeps { Keeps self.old self.new }
        ensures layout { B.layout board.new ≡ B.layout board.old }
        ensures stays { B.stays board.old board.new }
        ensures apart { IsApart (B.lent board.old) (B.lent board.new) (B.moved board.old) (B.moved board.new) }
        ensures turned { Ran (S.system sections.now) (S.tree sections.now) (S.walk sections.now) (placed self.old place) (B.shows board.old) self.new (B.shows board.new) result }
    {
        match board.take(r) {
            Ok(()) => {
                self.taken.push_reserved(r);
                self.readied = 0;
                self.place = Some(place);
                Turn::Went
            }
            Err(refusal) => {
                abort_all(&self.taken, board);
                self.finish(AttemptResult::Refused { refusal });
                Turn::Refused { refusal }
            }
        }
    }

    /// Makes the next access.
    fn operate<S: Sections<Place = P>, B: Board>(
        &mut self,
        alloc: Global,
        sections: &S,
        board: &mut B,
        mut place: P,
        r: u32,
    ) -> Result<Turn, AllocError>
        requires going { self.old.giving ≡ false }
        requires next { Tells (S.walk sections.now place) (events.Access r) }
        requires held { among r self.old.taken.items ≡ true }
        requires layout { B.layout board.old ≡ layout_of (S.system sections.now) }
        requires met { Met (S.system sections.now) (S.tree sections.now) (S.walk sections.now) (placed self.old place) (B.shows board.old) }
        ensures keeps { OnOk result (Keeps self.old self.new) }
        ensures wants { OnErr result (Wants self.old (B.shows board.old) self.new (B.shows board.new)) }
        ensures layout { B.layout board.new ≡ B.layout board.old }
        ensures stays { B.stays board.old board.new }
        ensures apart { OnOk result (IsApart (B.lent board.old) (B.lent board.new) (B.moved board.old) (B.moved board.new)) }
        ensures turned { IfOk result (λ t. Ran (S.system sections.now) (S.tree sections.now) (S.walk sections.now) (placed self.old place) (B.shows board.old) self.new (B.shows board.new) t) }
    {
        sections.operate(alloc, &mut place, board.content(r))?;
        let back = sections.settle(alloc, &mut place)?;
        put_back(back, &self.taken, board);
        self.readied = 0;
        self.place = Some(place);
        Ok(Turn::Went)
    }

    /// Takes r, or makes the next access where it is taken already.
    pub(super) fn access<S: Sections<Place = P>, B: Board>(
        &mut self,
        alloc: Global,
        sections: &S,
        board: &mut B,
        place: P,
        r: u32,
    ) -> Result<Turn, AllocError>
        requires going { self.old.giving ≡ false }
        requires next { Tells (S.walk sections.now place) (events.Access r) }
        requires layout { B.layout board.old ≡ layout_of (S.system sections.now) }
        requires runs { RunsSystem (S.system sections.now) (S.tree sections.now) (settings_view self.old.settings) }
        requires met { Met (S.system sections.now) (S.tree sections.now) (S.walk sections.now) (placed self.old place) (B.shows board.old) }
        ensures keeps { OnOk result (Keeps self.old self.new) }
        ensures wants { OnErr result (Wants self.old (B.shows board.old) self.new (B.shows board.new)) }
        ensures layout { B.layout board.new ≡ B.layout board.old }
        ensures stays { B.stays board.old board.new }
        ensures apart { OnOk result (IsApart (B.lent board.old) (B.lent board.new) (B.moved board.old) (B.moved board.new)) }
        ensures turned { IfOk result (λ t. Ran (S.system sections.now) (S.tree sections.now) (S.walk sections.now) (placed self.old place) (B.shows board.old) self.new (B.shows board.new) t) }
    {
        if self.holds(r) {
            self.operate(alloc, sections, board, place, r)
        } else {
            Ok(self.take(sections, board, place, r))
        }
    }
}
