// A seat at its table, with the contents that it holds.
ghost use Rattle.std.specs.Prelude.{◌≡◌, ◌≤◌, None, length, vec_len, vec_capacity};
ghost use Rattle.std.specs.Coded.{Coded-set};
ghost use Rattle.pgo_shared.specs.Tables.{terms_of};
ghost use Rattle.pgo_table.specs.Code.{coded_terms};

use crate::instance_seat::InstanceSeat;
use crate::shared::Shared;
use pgo_base::log::Entry;
use pgo_resource::attempts::{NotCommitted, NotNoted};
use pgo_resource::board::Board;
use pgo_resource::resource::Resource;
use pgo_syntax::records::{Note, Refusal};

/// A seat at its table. The contents stand in the order of taking.
#[derive(Drop)]
pub struct SeatBoard<'a, R: Resource> {
    shared: &'a Shared<R>,
    instance: InstanceSeat<R>,
    contents: Vec<R>,
    /// what the latest take, commit or note was refused by
    last: Option<Refusal>,
    ghost table: { instance.seat.table_id ≡ shared.now.table.shared.table_id },
    ghost terms: { instance.seat.me.0.terms ≡ terms_of shared.now } by { Coded-set coded_terms instance.seat.me.0.terms (terms_of shared.now) },
    ghost paired: { vec_len contents ≡ vec_len instance.held },
    ghost room: { length instance.seat.me.0.terms.layout.resources ≤ vec_capacity contents },
    ghost within: { length instance.seat.me.0.me.entries ≤ instance.seat.me.0.terms.steps },
}

/// A seat that holds nothing, with room for a content of every resource.
#[derive(Drop)]
pub struct BoardSeat<R: Resource> {
    pub(crate) instance: InstanceSeat<R>,
    pub(crate) contents: Vec<R>,
    ghost empty: { (length instance.seat.me.0.holds ≡ 0) × (vec_len contents ≡ 0) },
    ghost room: { length instance.seat.me.0.terms.layout.resources ≤ vec_capacity contents },
    ghost within: { length instance.seat.me.0.me.entries ≤ instance.seat.me.0.terms.steps },
}

impl<R: Resource> Shared<R> {
    ghost use Rattle.pgo_shared.specs.SeatBoards.{table_of, shows_of, steps_of};
    ghost use Rattle.pgo_shared.specs.Seats.{IsOf, history_of, word_steps_of};
    ghost use Rattle.pgo_shared.specs.Tables.{terms_of};
    ghost use Rattle.pgo_table.specs.Seen.{at_rest};

    /// The board of a seat of this table. It holds nothing, and shows what is known under the seat's number.
    pub fn board(&self, seat: BoardSeat<R>) -> SeatBoard<'_, R>
        requires seat { IsOf self.now seat }
        ensures table { table_of result ≡ self.now }
        ensures shows { shows_of result ≡ at_rest (terms_of self.now) (history_of seat) }
        ensures steps { steps_of result ≡ word_steps_of seat }
    {
        let BoardSeat { instance, contents } = seat;
        SeatBoard {
            shared: self,
            instance,
            contents,
            last: None,
        }
    }
}

impl<'a, R: Resource> SeatBoard<'a, R> {
    ghost use Rattle.pgo_shared.specs.SeatBoards.{table_of, shows_of, steps_of};
    ghost use Rattle.pgo_shared.specs.Seats.{IsOf, history_of, word_steps_of};
    ghost use Rattle.pgo_table.specs.Seen.{Seen};
    ghost use Rattle.std.specs.Prelude.{[]};

    /// The seat of a board that holds nothing, to give back to its table.
    pub fn end(self) -> BoardSeat<R>
        requires free { (shows_of self).held ≡ [] }
        ensures seat { IsOf (table_of self.entry) result }
        ensures seen { Seen (shows_of self.entry) (history_of result) }
        ensures steps { word_steps_of result ≡ steps_of self.entry }
    {
        let SeatBoard {
            shared: _,
            instance,
            contents,
            last: _,
        } = self;
        BoardSeat { instance, contents }
    }
}

impl<'a, R: Resource> Board for SeatBoard<'a, R> {
    ghost use Rattle.std.specs.Prelude.{◌≡◌, ◌<◌, ◌+◌, refl, ℕ, false, None, OnOk, IfOk, IfErr};
    ghost use Rattle.pgo_resource.specs.Answers.{RefusedTake, RefusedCommit, RefusedNote};
    ghost use Rattle.pgo_model.specs.LogView.{entry_view};
    ghost use Rattle.pgo_syntax.specs.RecordView.{note_view};
    ghost use Rattle.pgo_workers.specs.View.{Takes, Commits, Notes, Gives, MayCommit, MayNote, MayGive, hold_at};
    ghost use Rattle.pgo_workers.specs.Worlds.{world_of};
    ghost use Rattle.pgo_table.specs.SeatCalls.{TakenAt, ByBoard, OneStep, TwoSteps, RefusalSteps};
    ghost use Rattle.pgo_shared.specs.SeatBoards.{view_of, steps_of, layout_of_board, shows_of, inside_of, with_inside, stays_of, on_stays, room_of, shown_of, puts_inside};

    type Content = R;

    ghost layout = { layout_of_board };

    ghost shows = { shows_of };

    ghost content_of = { inside_of };

    ghost with_board = { with_inside };

    ghost stays = { stays_of };

    /// Takes a resource at one step of its word. It answers Ok exactly where that word is 0 at this step, and `Held` by h exactly
    /// where it is h + 1; and then h holds r.
    fn take(&mut self, r: u32) -> Result<(), Refusal>
        requires inside { r < (shows_of self.old).resources }
        requires free { hold_at (shows_of self.old).held r ≡ None }
        ensures layout { layout_of_board self.new ≡ layout_of_board self.old }
        ensures stays { stays_of self.old self.new }
        ensures ok { OnOk result (Takes (world_of (layout_of_board self.old)) r (shows_of self.old) (shows_of self.new)) }
        ensures err { IfErr result (λ x. RefusedTake (world_of (layout_of_board self.old)) r x (shows_of self.old) (shows_of self.new)) }
        ensures step { TakenAt (world_of (layout_of_board self.old)) R.shows (view_of self.old) r (steps_of self.old) (steps_of self.new) (ByBoard (shows_of self.old).instance r result) }
        ensures still { IfErr result (λ x. false ≡ false) }
    {
        match self.instance.take(self.shared, r) {
            Ok(content) => {
                self.contents.push_reserved(content);
                self.last = None;
                Ok(())
            }
            Err(holder) => {
                let refusal = Refusal::Held {
                    resource: r,
                    holder,
                };
                self.last = Some(refusal);
                Err(refusal)
            }
        }
    }

    fn content(&mut self, r: u32) -> &mut R {
        let place = self.instance.place(r);
        &mut self.contents[place]
    }

    /// Adds an entry to the journal, at the step that releases the journal's word. The word is free again after each answer but
    /// `Held`, which finds it taken.
    fn commit(&mut self, e: Entry) -> Result<u32, NotCommitted>
        requires may { MayCommit (world_of (layout_of_board self.old)) (entry_view e) (shows_of self.old) }
        ensures layout { layout_of_board self.new ≡ layout_of_board self.old }
        ensures stays { stays_of self.old self.new }
        ensures ok { IfOk result (λ n. Commits (world_of (layout_of_board self.old)) (entry_view e) n (shows_of self.old) (shows_of self.new)) }
        ensures err { IfErr result (λ x. RefusedCommit (world_of (layout_of_board self.old)) e x (shows_of self.old) (shows_of self.new)) }
        ensures steps_ok { IfOk result (λ _. TwoSteps (shows_of self.old).resources (shows_of self.old).instance (steps_of self.old) (steps_of self.new)) }
        ensures steps_err { IfErr result (λ x. RefusalSteps (shows_of self.old).resources (shows_of self.old).instance x.refusal (steps_of self.old) (steps_of self.new)) }
    {
        match self.instance.commit(self.shared, e) {
            Ok(n) => {
                self.last = None;
                Ok(n)
            }
            Err(refused) => {
                self.last = Some(refused.refusal);
                Err(refused)
            }
        }
    }

    /// Adds a note to the journal, at the step that releases the journal's word.
    fn note(&mut self, n: Note) -> Result<u32, NotNoted>
        requires may { MayNote (world_of (layout_of_board self.old)) (note_view n) (shows_of self.old) }
        ensures layout { layout_of_board self.new ≡ layout_of_board self.old }
        ensures stays { stays_of self.old self.new }
        ensures ok { IfOk result (λ p. Notes (world_of (layout_of_board self.old)) (note_view n) p (shows_of self.old) (shows_of self.new)) }
        ensures err { IfErr result (λ x. RefusedNote (world_of (layout_of_board self.old)) n x (shows_of self.old) (shows_of self.new)) }
        ensures steps_ok { IfOk result (λ _. TwoSteps (shows_of self.old).resources (shows_of self.old).instance (steps_of self.old) (steps_of self.new)) }
        ensures steps_err { IfErr result (λ x. RefusalSteps (shows_of self.old).resources (shows_of self.old).instance x.refusal (steps_of self.old) (steps_of self.new)) }
    {
        match self.instance.note(self.shared, n) {
            Ok(position) => {
                self.last = None;
                Ok(position)
            }
            Err(refused) => {
                self.last = Some(refused.refusal);
                Err(refused)
            }
        }
    }

    /// Gives a held resource back, at one step of its word.
    fn give(&mut self, r: u32)
        requires may { MayGive r (shows_of self.old) }
        ensures layout { layout_of_board self.new ≡ layout_of_board self.old }
        ensures stays { stays_of self.old self.new }
        ensures gives { Gives (world_of (layout_of_board self.old)) r (shows_of self.old) (shows_of self.new) }
        ensures step { OneStep r ((shows_of self.old).instance + 1) 0 (steps_of self.old) (steps_of self.new) }
    {
        let place = self.instance.place(r);
        let content = self.contents.remove(place);
        self.instance.give(self.shared, r, content);
    }

    ghost stays_same = { λ s. refl };

    ghost stays_on = { on_stays };

    ghost stays_with = { λ s r c h. refl };

    ghost room = { room_of };

    ghost resources = { λ s. refl };

    ghost shown = { shown_of };

    ghost keeps = { λ s r c. refl };

    ghost puts = { puts_inside };
}
