// Opening a table.
ghost use Rattle.std.specs.Prelude.{◌≡◌, ◌≤◌, ◌<◌, ◌+◌, ◌*◌, ◌/◌, ℕ, [], ◌∷◌, ◌++◌, Some, false, map, length, vec_len, vec_capacity, replicate, slice_index_or, IfOk};
ghost use Rattle.pgo_journal.specs.Journal.{opened};
ghost use Rattle.pgo_model.specs.Accounts as accounts;
ghost use Rattle.pgo_resource.specs.Layouts.{layout_view};
ghost use Rattle.pgo_resource.specs.PlainRows.{FitsStart};
ghost use Rattle.pgo_workers.specs.Worlds.{IsLayout, HasAll};
ghost use Rattle.pgo_table.specs.Openings.{slots_of, AreSpare};
ghost use Rattle.pgo_table.specs.SeatViews.{no_history, upto};
ghost use Rattle.pgo_shared.specs.Seats.{IsFreshSeat};
ghost use Rattle.pgo_shared.specs.Tables.{terms_of};

use crate::instance_seat::InstanceSeat;
use crate::seat_board::BoardSeat;
use crate::shared::Shared;
use atomic_table::{Seat, Table};
use pgo_journal::journal::Journal;
use pgo_resource::layout::BoardLayout;
use pgo_resource::resource::Resource;
use pgo_syntax::bound::Bound;
use pgo_table::rule::NewSeat;
use pgo_table::slots::{Stored, TableView, Terms};
use std::alloc::{AllocError, Global};

/// The contents in their slots, and behind them the journal.
fn filled<R: Drop>(
    alloc: Global,
    contents: Vec<R>,
    journal: Journal,
) -> Result<Vec<Option<Stored<R>>>, AllocError>
    ensures { IfOk result (λ v. v.items ≡ slots_of contents.items journal) }
{
    let mut slots = Vec::new(alloc);
    for content in contents {
        slots.push(Some(Stored::Content(content)))?;
    }
    slots.push(Some(Stored::Journal(journal)))?;
    Ok(slots)
}

/// So many words, all free.
fn zeros(alloc: Global, count: usize) -> Result<Vec<u64>, AllocError>
    ensures { IfOk result (λ v. v.items ≡ replicate count 0) }
{
    let mut words = Vec::new(alloc);
    words.resize(count, 0)?;
    Ok(words)
}

/// A seat that holds nothing, with its rooms.
fn sit<R: Resource>(
    alloc: Global,
    seat: Seat<Option<Stored<R>>, TableView>,
    number: u32,
    count: usize,
) -> Result<BoardSeat<R>, AllocError>
    requires count { length seat.me.0.terms.layout.resources ≡ count }
    requires known { (seat.me.0.gone ≡ false) × (seat.me.0.me ≡ no_history number) × (seat.me.0.has ≡ false) × (length seat.me.0.joined ≡ 0) × (length seat.me.0.spare ≡ 0) }
    requires holds { (seat.me.0.holds ≡ []) × (seat.me.1 ≡ []) }
    ensures { IfOk result (λ s. (s.instance.seat ≡ seat) × (s.instance.number ≡ number)) }
{
    let held = Vec::with_capacity(alloc, count)?;
    let contents = Vec::with_capacity(alloc, count)?;
    Ok(BoardSeat {
        instance: InstanceSeat { seat, number, held },
        contents,
    })
}

/// A seat for each instance, of the one that stands for all.
fn seat_all<R: Resource>(
    alloc: Global,
    shared: &Shared<R>,
    mut seat: Seat<Option<Stored<R>>, TableView>,
    count: u32,
) -> Result<Vec<BoardSeat<R>>, AllocError>
    requires count { 0 < count }
    requires table { (seat.table_id ≡ shared.now.table.shared.table_id) × (seat.me.0.terms ≡ terms_of shared.now) }
    requires spare { AreSpare seat.me 0 count }
    ensures { IfOk result (λ v. (vec_len v ≡ count) × ((k : ℕ) (d : _) → k < count → IsFreshSeat shared.now k (slice_index_or v.items k d))) }
{
    let places = shared.count;
    let mut seats = Vec::with_capacity(alloc, count as usize)?;
    let table = &shared.table.shared;
    for k in 0..count - 1 {
        let new = table.split_seat::<NewSeat>(&mut seat);
        seats.push_reserved(sit(alloc, new, k, places)?);
    }
    seats.push_reserved(sit(alloc, seat, count - 1, places)?);
    Ok(seats)
}

/// A table with these contents and this journal, and a seat for each instance. An instance may add as many notes as the
/// journal's room, divided among all.
pub(crate) fn open<R: Resource>(
    alloc: Global,
    layout: BoardLayout,
    contents: Vec<R>,
    journal: Journal,
    count: u32,
) -> Result<(Shared<R>, Vec<BoardSeat<R>>), AllocError>
    requires layout { IsLayout (layout_view layout) × HasAll (layout_view layout) layout.start }
    requires instances { (0 < count) × (count ≤ 64) × (length (layout_view layout).ids ≡ count) }
    requires resources { (vec_len contents ≡ length (layout_view layout).resources) × (vec_len contents ≤ accounts.journal) }
    requires contents { FitsStart R.shows (layout_view layout) contents.items }
    requires journal { journal ≡ opened layout.start journal.steps journal.room }
    ensures terms { IfOk result (λ t. ((terms_of t.0).layout ≡ layout_view layout) × ((terms_of t.0).steps ≡ journal.steps) × ((terms_of t.0).share ≡ journal.room / count)) }
    ensures seats { IfOk result (λ t. (vec_len t.1 ≡ count) × ((k : ℕ) (d : _) → k < count → IsFreshSeat t.0 k (slice_index_or t.1.items k d))) }
{
    let places = contents.len();
    let words = zeros(alloc, places + 1)?;
    let terms = Terms::new(layout, journal.steps(), journal.room() / count as u64);
    let slots = filled(alloc, contents, journal)?;
    let Ok((table, seat)) = Table::new(alloc, words.as_slice(), slots, &terms) else {
        return Err(AllocError);
    };
    let shared = Shared {
        table,
        count: places,
    };
    let seats = seat_all(alloc, &shared, seat, count)?;
    Ok((shared, seats))
}

impl<R: Resource> Shared<R> {
    ghost use Rattle.std.specs.Prelude.{◌≡◌, ◌≤◌, ◌<◌, ◌/◌, ℕ, length, vec_len, slice_index_or, IfOk};
    ghost use Rattle.pgo_bound.specs.Sound.{Sound};
    ghost use Rattle.pgo_bound.specs.State.{AreDifferent, variables_of};
    ghost use Rattle.pgo_meaning.specs.System.{system_of};
    ghost use Rattle.pgo_workers.specs.Worlds.{layout_of};

    /// A table with these contents and this journal, and a seat for each instance of a bound specification.
    pub fn open(
        alloc: Global,
        bound: &Bound,
        contents: Vec<R>,
        journal: Journal,
    ) -> Result<(Shared<R>, Vec<BoardSeat<R>>), AllocError>
        requires sound { Sound bound.now }
        requires names { AreDifferent (variables_of bound.now.spec) }
        requires instances { 0 < length bound.now.instances }
        requires as_many { vec_len contents ≡ length bound.now.resources }
        requires fit { FitsStart R.shows (layout_of (system_of bound.now)) contents.items }
        requires journal { journal ≡ opened bound.now.start journal.steps journal.room }
        ensures terms { IfOk result (λ t. ((terms_of t.0).layout ≡ layout_of (system_of bound.now)) × ((terms_of t.0).steps ≡ journal.steps) × ((terms_of t.0).share ≡ journal.room / length bound.now.instances)) }
        ensures seats { IfOk result (λ t. (vec_len t.1 ≡ length bound.now.instances) × ((k : ℕ) (d : _) → k < length bound.now.instances → IsFreshSeat t.0 k (slice_index_or t.1.items k d))) }
    {
        let layout = BoardLayout::of(alloc, bound)?;
        let count = bound.instances.as_slice().len() as u32;
        open(alloc, layout, contents, journal, count)
    }
}
