// The entries of a run.
ghost use Rattle.std.specs.Prelude.{◌≡◌, ◌++◌, map, IfOk};
ghost use Rattle.pgo_base.specs.View.{data_of};
ghost use Rattle.pgo_bundle.specs.Lines.{all_logged_lines};
ghost use Rattle.pgo_bundle.specs.PositionView.{place_view};
ghost use Rattle.pgo_bundle.specs.RunLog.{are_shallow, told_prints};
ghost use Rattle.pgo_model.specs.ModuleText.{flatten};
ghost use Rattle.pgo_log_write.specs.RunRows.{run_entries};
ghost use Rattle.pgo_log_write.specs.Told.{told_view};

use crate::entries::push_entry;
use pgo_base::depth::is_deeper;
use pgo_base::value::Value;
use pgo_bundle::log::LoggedNotes;
use pgo_bundle::positions::place_at;
use pgo_journal::journal::Journal;
use std::alloc::{AllocError, Global};

/// How deep a value may be nested in a text.
const MOST_DEPTH: usize = 1024;

/// Whether none of these is nested deeper.
fn are_shallow(values: &[Value]) -> bool
    ensures { result ≡ are_shallow (map data_of values.now) }
{
    for v in values {
        if is_deeper(v, MOST_DEPTH) {
            return false;
        }
    }
    true
}

/// What was printed, where none of it is nested deeper.
fn told_prints(values: &[Value]) -> Option<&[Value]>
    ensures { told_view result ≡ told_prints (map data_of values.now) }
{
    if are_shallow(values) {
        Some(values)
    } else {
        None
    }
}

/// Adds the lines of all entries of a journal, with these notes behind each.
pub fn push_run(
    bytes: &mut Vec<u8>,
    alloc: Global,
    journal: &Journal,
    places: &[LoggedNotes],
) -> Result<(), AllocError>
    ensures { IfOk result (λ _. bytes.new.items ≡ bytes.old.items ++ flatten (all_logged_lines 1 (run_entries 1 (map place_view places.now) journal.now.entries))) }
{
    for i in 0..journal.len() {
        let n = i + 1;
        let entry = journal.entry(n);
        let prints = told_prints(entry.prints.as_slice());
        push_entry(
            bytes,
            alloc,
            n as u64,
            entry,
            prints,
            place_at(places, n as usize),
        )?;
    }
    Ok(())
}
