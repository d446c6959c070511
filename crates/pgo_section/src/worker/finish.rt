// How an attempt is finished, and what is held is given back.
ghost use Rattle.std.specs.Prelude.{◌≡◌, ◌<◌, suc, length, true, false, [], map, vec_capacity};
ghost use Rattle.pgo_model.specs.Machine.{among};
ghost use Rattle.pgo_syntax.specs.ManyLeaves.{tells_many};
ghost use Rattle.pgo_syntax.specs.RecordView.{result_view, settings_view};
ghost use Rattle.pgo_workers.specs.Walk.{Walk};
ghost use Rattle.pgo_workers.specs.Worker.{finished};
ghost use Rattle.pgo_workers.specs.Worlds.{layout_of};
ghost use Rattle.pgo_section.specs.Programs.{RunsSystem};
ghost use Rattle.pgo_section.specs.Sight.{see};
ghost use Rattle.pgo_section.specs.Turns.{Met, Drops, Keeps, Ran, IsApart};
ghost use Rattle.pgo_section.specs.declared.worker.Turn.TheVariants as turned;

use super::Worker;
use crate::contents::abort_all;
use pgo_resource::board::Board;
use pgo_resource::sections::Sections;
use pgo_syntax::records::AttemptResult;

impl<P: Drop> Worker<P> {
    /// The number of the attempt that isn't recorded yet.
    pub(super) fn attempt(&self) -> u32
        requires { length self.now.records.items < self.now.settings.attempts }
        ensures { result ≡ suc (length (map result_view self.now.records.items)) }
    {
        let made = self.records.len();
        if made < self.settings.attempts as usize {
            made as u32 + 1
        } else {
            0
        }
    }

    /// Whether it has taken the resource.
    pub(super) fn holds(&self, r: u32) -> bool
        ensures { result ≡ among r self.now.taken.items }
    {
        for taken in self.taken.as_slice() {
            if r == *taken {
                return true;
            }
        }
        false
    }

    /// The attempt ends with this record; what is held is still to be given. It takes no memory.
    pub(super) fn finish(&mut self, told: AttemptResult)
        requires room { length self.old.records.items < vec_capacity self.old.records }
        requires many { tells_many told ≡ true }
        ensures keeps { Keeps self.old self.new }
        ensures seen { (walk : P → Walk) → see walk self.new ≡ finished (result_view told) (see walk self.old) }
    {
        self.records.push_reserved(told);
        self.place = None;
        self.readied = 0;
        self.giving = !self.taken.is_empty();
    }

    /// Gives the first resource that is still held.
    pub(super) fn give<S: Sections<Place = P>, B: Board>(&mut self, sections: &S, board: &mut B)
        requires giving { self.old.giving ≡ true }
        requires layout { B.layout board.old ≡ layout_of (S.system sections.now) }
        requires met { Met (S.system sections.now) (S.tree sections.now) (S.walk sections.now) self.old (B.shows board.old) }
        ensures keeps { Keeps self.old self.new }
        ensures layout { B.layout board.new ≡ B.layout board.old }
        ensures stays { B.stays board.old board.new }
        ensures apart { IsApart (B.lent board.old) (B.lent board.new) (B.moved board.old) (B.moved board.new) }
        ensures fewer { length self.new.taken.items < length self.old.taken.items }
        ensures records { self.new.records ≡ self.old.records }
        ensures giving { self.new.giving ≡ false → self.new.taken.items ≡ [] }
        ensures turned { Ran (S.system sections.now) (S.tree sections.now) (S.walk sections.now) self.old (B.shows board.old) self.new (B.shows board.new) turned.Went }
    {
        let r = self.taken.remove(0);
        board.give(r);
        self.giving = !self.taken.is_empty();
        self.place = None;
    }

    /// Gives all that is still held.
    pub(super) fn give_all<S: Sections<Place = P>, B: Board>(&mut self, sections: &S, board: &mut B)
        requires layout { B.layout board.old ≡ layout_of (S.system sections.now) }
        requires runs { RunsSystem (S.system sections.now) (S.tree sections.now) (settings_view self.old.settings) }
        requires giving { self.old.giving ≡ false → self.old.taken.items ≡ [] }
        requires met { Met (S.system sections.now) (S.tree sections.now) (S.walk sections.now) self.old (B.shows board.old) }
        ensures keeps { Keeps self.old self.new }
        ensures layout { B.layout board.new ≡ B.layout board.old }
        ensures stays { B.stays board.old board.new }
        ensures records { self.new.records ≡ self.old.records }
        ensures nothing { self.new.taken.items ≡ [] }
        ensures met { Met (S.system sections.now) (S.tree sections.now) (S.walk sections.now) self.new (B.shows board.new) }
    {
        while self.giving {
            self.give(sections, board);
        }
    }

    /// Puts back what an attempt that is under way has written, and forgets it. It takes no memory.
    pub(super) fn drop_attempt<S: Sections<Place = P>, B: Board>(
        &mut self,
        sections: &S,
        board: &mut B,
    )
        requires layout { B.layout board.old ≡ layout_of (S.system sections.now) }
        requires drops { Drops (S.system sections.now) (S.tree sections.now) (S.walk sections.now) self.old (B.shows board.old) }
        ensures keeps { Keeps self.old self.new }
        ensures layout { B.layout board.new ≡ B.layout board.old }
        ensures stays { B.stays board.old board.new }
        ensures records { self.new.records ≡ self.old.records }
        ensures giving { self.new.giving ≡ false → self.new.taken.items ≡ [] }
        ensures met { Met (S.system sections.now) (S.tree sections.now) (S.walk sections.now) self.new (B.shows board.new) }
    {
        abort_all(&self.taken, board);
        self.place = None;
        self.readied = 0;
        self.dropped = true;
        self.giving = !self.taken.is_empty();
    }
}
