// The values of one component.
ghost use Rattle.std.specs.Prelude.{◌≡◌, IfOk};
ghost use Rattle.pgo_bundle.specs.View.{bundle_log_view};
ghost use Rattle.pgo_show_changes.specs.Changes as spec;

use crate::components::content_of;
use crate::written::{push_entries, push_start};
use pgo_bundle::log::BundleLog;
use pgo_lines::line::Lines;
use std::alloc::{AllocError, Global};

/// The values of one component, entry by entry, with who wrote them: a line for the start, and one for each change of an entry that
/// concerns the component.
///
/// A component is written as a line of a bundle has it: `x`, or `x[index]` with the canonical text of the index. The answer is none where
/// the state before the first entry has no such component. A change concerns it where it is one of this component, of a part of it, or of
/// the whole of which it is a part; the line names the component that was changed.
///
/// An error is want of memory. Source: this project's choice.
pub fn changes(alloc: Global, word: &[u8], log: &BundleLog) -> Result<Option<Lines>, AllocError>
    ensures { IfOk result (λ o. o ≡ spec.changes_lines word.now (bundle_log_view log.now)) }
{
    let Some(value) = content_of(alloc, word, log.start.as_slice())? else {
        return Ok(None);
    };
    let mut lines = Lines::new(alloc);
    push_start(&mut lines, alloc, word, value)?;
    push_entries(&mut lines, alloc, word, log.entries.as_slice())?;
    Ok(Some(lines))
}
