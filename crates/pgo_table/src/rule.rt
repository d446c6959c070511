// The rule of the table, and its kinds of step.
ghost use Rattle.pgo_workers.specs.Worlds.{world_of};
ghost use Rattle.pgo_table.specs.SeatViews.{opening_view, nothing_seen};
ghost use Rattle.pgo_table.specs.Rule.{Kept};
ghost use Rattle.pgo_table.specs.Steps.{takes, gives, opens, commits, notes, fills, after_split, new_seat, after_join};

use crate::slots::{Stored, TableView, Terms};
use atomic_table::{Join, Play, Split, TableRule};
use pgo_resource::resource::Resource;
use std::marker::PhantomData;

/// The rule of a table: a word and a slot for each resource, and one of each for the journal. It holds between any two atomic
/// steps of any number of seats, in whatever order they come: a table can't be made where it doesn't hold, and each step
/// has to keep it.
///
/// A word is 0 where nobody holds its resource, and k + 1 where instance k does.
///
/// Source: this project's choice.
pub struct Rule<R> {
    of: PhantomData<R>,
}

impl<R: Resource> TableRule<Option<Stored<R>>, TableView, Terms> for Rule<R> {
    ghost holds = { λ y. Kept (world_of y.layout) R.shows y };

    ghost first = { opening_view };
}

/// A take of a resource: its word becomes k + 1 where it is 0, and else another instance holds it.
pub struct Take<R> {
    of: PhantomData<R>,
}

impl<R: Resource> Play<Option<Stored<R>>, TableView> for Take<R> {
    ghost then = { takes world_of R.shows };
}

/// A give of a resource: its word becomes 0, and its content lies in its slot again.
pub struct Give<R> {
    of: PhantomData<R>,
}

impl<R: Resource> Play<Option<Stored<R>>, TableView> for Give<R> {
    ghost then = { gives world_of R.shows };
}

/// A take of the journal: its word becomes k + 1 where it is 0, and else another instance has it.
pub struct TakeJournal;

impl<R> Play<Option<Stored<R>>, TableView> for TakeJournal {
    ghost then = { opens world_of };
}

/// A release of the journal with an entry more, with all its changes.
pub struct Commit;

impl<R> Play<Option<Stored<R>>, TableView> for Commit {
    ghost then = { commits world_of };
}

/// A release of the journal with a note more.
pub struct AddNote;

impl<R> Play<Option<Stored<R>>, TableView> for AddNote {
    ghost then = { notes world_of };
}

/// A release of the journal as it was, since it is full.
pub struct ReleaseFull;

impl<R> Play<Option<Stored<R>>, TableView> for ReleaseFull {
    ghost then = { fills world_of };
}

/// A new seat, of the first number that isn't given yet.
pub struct NewSeat;

impl Split<TableView> for NewSeat {
    ghost left = { after_split };

    ghost right = { new_seat };
}

/// One seat in place of two, which has what is known under the numbers of both.
pub struct Both;

impl Join<TableView> for Both {
    ghost both = { after_join };

    ghost spent = { nothing_seen };
}
