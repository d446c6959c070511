// What lies in the slots of the table, what a seat knows of it, and what it is told once.
ghost use Rattle.std.specs.Prelude.{◌≡◌};
ghost use Rattle.pgo_resource.specs.Layouts.{layout_view};

use pgo_journal::journal::Journal;
use pgo_resource::layout::BoardLayout;
use std::marker::Model;

/// What lies in a slot: a resource's content, or the journal.
#[derive(Drop)]
pub enum Stored<R> {
    Content(R),
    Journal(Journal),
}

/// What the table knows of a seat. No value of it is made.
pub struct TableView {
    unit: (),
}

impl Model for TableView {
    ghost use Rattle.pgo_table.specs.SeatViews.{SeatView, nothing_seen};
    ghost use Rattle.pgo_table.specs.Code.{coded_seat_view};

    ghost Value = { SeatView };

    ghost coded = { coded_seat_view };

    ghost view = { λ v. nothing_seen };
}

/// What the table is told once, when it is made: the layout, at how many entries the journal is full, and how many notes
/// each instance may add.
#[derive(Drop)]
pub struct Terms {
    layout: BoardLayout,
    steps: u32,
    share: u64,
}

impl Model for Terms {
    ghost use Rattle.pgo_table.specs.SeatViews.{TableTerms};
    ghost use Rattle.pgo_table.specs.Code.{coded_terms};

    ghost Value = { TableTerms };

    ghost coded = { coded_terms };

    ghost use Rattle.pgo_resource.specs.Layouts.{layout_view};

    ghost view = { λ t. record { layout = layout_view t.layout; steps = t.steps; share = t.share } };
}

impl Terms {
    /// The terms of a table of this layout, whose journal is full at `steps` entries, and to which each instance may add `share`
    /// notes.
    pub fn new(layout: BoardLayout, steps: u32, share: u64) -> Terms
        ensures { result ≡ record { layout = layout_view layout; steps = steps; share = share } }
    {
        Terms {
            layout,
            steps,
            share,
        }
    }
}
