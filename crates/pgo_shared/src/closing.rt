// Closing a table.
ghost use Rattle.std.specs.Prelude.{◌≡◌, ◌≤◌, ◌<◌, ◌+◌, ℕ, [], ◌∷◌, Some, false, map, length, vec_len, vec_capacity, slice_get, IfOk, IfErr};
ghost use Rattle.std.specs.Slots.{slots_items, slots_len, IsFull};
ghost use Rattle.pgo_workers.specs.Worlds.{world_of};
ghost use Rattle.pgo_table.specs.Closing.{IsClosed, PassedUpTo, IsContent, IsJournalIn, IsContentAt, IsJournalAt, ContentAt, JournalAt, turned_round};
ghost use Rattle.pgo_table.specs.Rule.{IsJournal, Rests, component};
ghost use Rattle.pgo_shared.specs.Seats.{AllAreOf, history_of};
ghost use Rattle.pgo_shared.specs.Tables.{terms_of};

use crate::instance_seat::InstanceSeat;
use crate::seat_board::BoardSeat;
use crate::shared::Shared;
use atomic_table::{Closed, Seat};
use pgo_journal::journal::Journal;
use pgo_resource::resource::Resource;
use pgo_table::rule::Both;
use pgo_table::slots::{Stored, TableView};
use std::alloc::Global;

/// There was no memory to close a table. It comes back with its seats.
#[derive(Drop)]
pub struct NotClosed<R: Resource> {
    pub shared: Shared<R>,
    pub seats: Vec<BoardSeat<R>>,
}

/// A content that came out of its slot.
fn content_of<R: Drop>(stored: Option<Stored<R>>) -> R
    requires { IsContent stored }
    ensures { IsContentAt stored result }
{
    let Some(Stored::Content(content)) = stored else {
        unreachable!()
    };
    content
}

/// The journal that came out of its slot.
fn journal_of<R: Drop>(stored: Option<Stored<R>>) -> Journal
    requires { IsJournalIn stored }
    ensures { IsJournalAt stored result }
{
    let Some(Stored::Journal(journal)) = stored else {
        unreachable!()
    };
    journal
}

/// The contents and the journal, out of all slots.
fn emptied<R: Resource>(
    mut closed: Closed<Option<Stored<R>>, Global>,
    places: usize,
    mut contents: Vec<R>,
) -> (Journal, Vec<R>)
    requires full { (slots_len closed.slots ≡ places + 1) × IsFull closed.slots }
    requires contents { (r : ℕ) → r < places → (c : R) × ContentAt (slots_items closed.slots) r c }
    requires journal { (j : _) × JournalAt (slots_items closed.slots) places j }
    requires room { (vec_len contents ≡ 0) × (places ≤ vec_capacity contents) }
    ensures len { vec_len result.1 ≡ places }
    ensures contents { (r : ℕ) (c : R) → slice_get result.1.items r ≡ Some c → ContentAt (slots_items closed.slots) r c }
    ensures journal { JournalAt (slots_items closed.slots) places result.0 }
{
    for i in 0..places {
        contents.push_reserved(content_of(closed.take(i)));
    }
    let journal = journal_of(closed.take(places));
    closed.free();
    (journal, contents)
}

/// One seat that stands for all.
fn join_all<R: Resource>(
    shared: &Shared<R>,
    mut seats: Vec<BoardSeat<R>>,
) -> Seat<Option<Stored<R>>, TableView>
    requires all { (0 < vec_len seats) × AllAreOf shared.now seats.items }
    ensures table { result.table_id ≡ shared.now.table.shared.table_id }
    ensures live { (result.me.0.gone ≡ false) × (result.me.0.has ≡ false) × (length result.me.0.holds ≡ 0) × (length result.me.0.spare ≡ 0) }
    ensures known { result.me.0.me ∷ result.me.0.joined ≡ turned_round (map history_of seats.items) }
{
    let BoardSeat {
        instance,
        contents: _,
    } = seats.pop().unwrap();
    let InstanceSeat { mut seat, .. } = instance;
    while let Some(other) = seats.pop() {
        let BoardSeat {
            instance,
            contents: _,
        } = other;
        shared
            .table
            .shared
            .join_seat::<Both>(&mut seat, instance.seat);
    }
    seat
}

impl<R: Resource> Shared<R> {
    /// The journal, and the contents in the order of their resources, of a table that nobody uses any more. All its seats are
    /// handed in, in any order.
    ///
    /// `NotClosed` is want of memory alone, and comes before anything changed.
    pub fn close(
        self,
        alloc: Global,
        seats: Vec<BoardSeat<R>>,
    ) -> Result<(Journal, Vec<R>), NotClosed<R>>
        requires all { (vec_len seats ≡ length (terms_of self).layout.ids) × AllAreOf self seats.items }
        ensures closed { IfOk result (λ t. IsClosed (world_of (terms_of self).layout) (terms_of self) t.0.entries t.0.notes (map history_of seats.items)) }
        ensures journal { IfOk result (λ t. IsJournal (terms_of self) (length (terms_of self).layout.ids) t.0.entries t.0.notes t.0) }
        ensures as_many { IfOk result (λ t. vec_len t.1 ≡ length (terms_of self).layout.resources) }
        ensures contents { IfOk result (λ t. (r : ℕ) (c : R) → slice_get t.1.items r ≡ Some c → Rests R.shows (component (world_of (terms_of self).layout) t.0.entries) r c) }
        ensures passed { IfOk result (λ t. (r : ℕ) (c : R) → slice_get t.1.items r ≡ Some c → PassedUpTo (map history_of seats.items) r (R.shows c).count) }
        ensures unchanged { IfErr result (λ x. (x.shared ≡ self) × (x.seats ≡ seats)) }
    {
        let places = self.count;
        let Ok(contents) = Vec::with_capacity(alloc, places) else {
            return Err(NotClosed {
                shared: self,
                seats,
            });
        };
        let seat = join_all(&self, seats);
        let Shared { table, count: _ } = self;
        let closed = table.close_with(seat);
        Ok(emptied(closed, places, contents))
    }
}
