// A table that is opened, used and closed.
ghost use Rattle.std.specs.Prelude.{◌≡◌, ◌<◌, ◌/◌, ℕ, length, vec_len, slice_index_or, IfOk};
ghost use Rattle.pgo_meaning.specs.System.{system_of};
ghost use Rattle.pgo_shared.specs.Seats.{IsFreshSeat};
ghost use Rattle.pgo_shared.specs.Tables.{terms_of};
ghost use Rattle.pgo_workers.specs.Worlds.{layout_of};
ghost use Rattle.pgo_table_rows.specs.Opened.{MayOpen};

use crate::clients::Clients;
use crate::closed::{counted, told};
use crate::together::work_at_once;
use pgo_base::results::both;
use pgo_journal::journal::Journal;
use pgo_resource::layout::BoardLayout;
use pgo_shared::seat_board::BoardSeat;
use pgo_shared::shared::Shared;
use pgo_sheet::answers::push_word;
use pgo_starts::content::Content;
use pgo_starts::contents::contents;
use pgo_syntax::bound::Bound;
use std::alloc::{AllocError, Global};
use std::thread::Threads;

/// At how many entries a journal is full, and for how many notes it has room.
#[derive(Clone, Copy)]
pub struct Limits {
    pub steps: u32,
    pub notes: u32,
}

/// A table on a bound specification, over cells.
fn opened(
    alloc: Global,
    bound: &Bound,
    limits: Limits,
) -> Result<(Shared<Content>, Vec<BoardSeat<Content>>), AllocError>
    requires opens { MayOpen bound.now }
    requires some { 0 < length bound.now.instances }
    ensures layout { IfOk result (λ t. (terms_of t.0).layout ≡ layout_of (system_of bound.now)) }
    ensures share { IfOk result (λ t. (terms_of t.0).share ≡ limits.notes / length bound.now.instances) }
    ensures as_many { IfOk result (λ t. vec_len t.1 ≡ length bound.now.instances) }
    ensures seats { IfOk result (λ t. (k : ℕ) (d : _) → k < length bound.now.instances → IsFreshSeat t.0 k (slice_index_or t.1.items k d)) }
{
    let (contents, start) = both(contents(alloc, bound), bound.start.copy(alloc))?;
    let journal = Journal::open(alloc, start, limits.steps, limits.notes as u64)?;
    Shared::open(alloc, bound, contents, journal)
}

/// What the steps of a row say, and then what is left where the table can be closed.
pub fn one_by_one(
    alloc: Global,
    bound: &Bound,
    limits: Limits,
    words: &str,
) -> Result<String, AllocError>
    requires opens { MayOpen bound.now }
    requires some { 0 < length bound.now.instances }
{
    let count = bound.instances.as_slice().len() as u32;
    let layout = BoardLayout::of(alloc, bound)?;
    let (shared, seats) = opened(alloc, bound, limits)?;
    let mut clients = Clients::new(alloc, &shared, &layout, seats, limits.notes / count)?;
    let mut answer = clients.steps(alloc, words)?;
    match clients.end(alloc)? {
        None => push_word(&mut answer, "; ", "held")?,
        Some(seats) => match shared.close(alloc, seats) {
            Ok((journal, contents)) => told(alloc, &mut answer, &journal, contents.as_slice())?,
            Err(_) => return Err(AllocError),
        },
    }
    Ok(answer)
}

/// What is left where all clients of a table have made so many entries, and as many notes, at once.
pub fn at_once<T: Threads + Sync>(
    rt: &T,
    alloc: Global,
    bound: &Bound,
    limits: Limits,
    times: u32,
) -> Result<String, AllocError>
    requires opens { MayOpen bound.now }
    requires some { 0 < length bound.now.instances }
{
    let count = bound.instances.as_slice().len() as u32;
    let layout = BoardLayout::of(alloc, bound)?;
    let (shared, seats) = opened(alloc, bound, limits)?;
    let clients = Clients::new(alloc, &shared, &layout, seats, limits.notes / count)?;
    let worked = work_at_once(rt, alloc, clients, times)?;
    let ended = worked.end(alloc)?;
    match ended {
        None => String::from_str(alloc, "held"),
        Some(seats) => match shared.close(alloc, seats) {
            Ok((journal, contents)) => counted(alloc, &journal, contents.as_slice()),
            Err(_) => Err(AllocError),
        },
    }
}
