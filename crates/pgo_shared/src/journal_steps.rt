// A seat takes the journal, and releases it with an entry more, with a note more, or as it was.
ghost use Rattle.std.specs.Prelude.{◌≡◌, ◌<◌, ◌+◌, ℕ, ◌++◌, ◌∷◌, [], None, Some, false, length, IfOk, IfErr};
ghost use Rattle.pgo_workers.specs.View.{notes_of};
ghost use Rattle.pgo_table.specs.Steps.{Opened, reads, stepped_at};
ghost use Rattle.pgo_table.specs.SeatCalls.{world, JournalRefused};
ghost use Rattle.pgo_shared.specs.Tables.{terms_of};

use crate::shared::Shared;
use atomic_table::Seat;
use pgo_journal::journal::Journal;
use pgo_resource::resource::Resource;
use pgo_table::rule::TakeJournal;
use pgo_table::slots::{Stored, TableView};

/// Takes the journal, with what lies in its slot. Refused where another instance has it.
pub(crate) fn take_journal<R: Resource>(
    shared: &Shared<R>,
    seat: &mut Seat<Option<Stored<R>>, TableView>,
    number: u32,
) -> Result<Journal, u32>
    requires table { seat.old.table_id ≡ shared.now.table.shared.table_id }
    requires live { (seat.old.me.0.gone ≡ false) × (seat.old.me.0.has ≡ false) × (seat.old.me.0.me.number ≡ number) }
    requires terms { seat.old.me.0.terms ≡ terms_of shared.now }
    ensures table { seat.new.table_id ≡ seat.old.table_id }
    ensures taken { IfOk result (λ j. (n : ℕ) × (seat.new.me ≡ (stepped_at shared.now.count n 0 (seat.old.me.0.me.number + 1) (reads seat.old.me.0 j.entries j.notes), (shared.now.count, None) ∷ seat.old.me.1)) × Opened (world seat.old.me.0) seat.old.me.0 j) }
    ensures refused { IfErr result (λ h. (seat.new.me.1 ≡ seat.old.me.1) × JournalRefused seat.old.me.0 h seat.new.me.0) }
{
    let word = shared.count;
    let table = &shared.table.shared;
    let found = table.compare_exchange::<TakeJournal>(seat, word, 0, u64::from(number) + 1);
    if found != 0 {
        return Err((found - 1) as u32);
    }
    let stored = table.exchange(seat, word, None);
    let Some(Stored::Journal(journal)) = stored else {
        unreachable!()
    };
    Ok(journal)
}
