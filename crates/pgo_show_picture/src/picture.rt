// The whole picture.
ghost use Rattle.std.specs.Prelude.{◌≡◌, IfOk, map};
ghost use Rattle.pgo_bundle.specs.View.{account_view, bundle_log_view, logged_entry_view};
ghost use Rattle.pgo_show_picture.specs.Picture as spec;

use crate::ends::{push_front, push_key};
use crate::lanes::{push_accounts, push_bands};
use crate::layout::{Size, band_count};
use pgo_bundle::log::{Account, BundleLog, LoggedEntry};
use pgo_lines::line::Lines;
use std::alloc::{AllocError, Global};

/// The picture of these entries and accounts.
fn drawn(
    alloc: Global,
    size: Size,
    entries: &[LoggedEntry],
    accounts: &[Account],
) -> Result<Lines, AllocError>
    ensures { IfOk result (λ ls. ls ≡ spec.drawn size (map logged_entry_view entries.now) (map account_view accounts.now)) }
{
    let mut lines = Lines::new(alloc);
    push_front(&mut lines, alloc, size)?;
    push_bands(&mut lines, alloc, size, accounts, band_count(size))?;
    push_accounts(&mut lines, alloc, entries, size, accounts)?;
    push_key(&mut lines, alloc, size)?;
    Ok(lines)
}

/// The picture of a bundle, as lines of SVG.
///
/// Time goes from left to right, in bands below one another that have a lane for each instance: up to 300 entries there are 30 in a band,
/// with labels, and else 300, without them. A lane has a mark for each attempt of its instance, in order, but for one that has the shape
/// and the number of the attempt before it: a bar for an entry; a circle where it was blocked; a cross where an expression had no value
/// or an assertion failed; a dot, and a line to the holder's lane, where something was held; a triangle where a pre-commit failed; a
/// square where the journal was full. Behind the last band stands how the instances ended. Labels alone are text of the bundle; they are
/// escaped.
///
/// An error is want of memory. Source: this project's choice.
pub fn picture(alloc: Global, log: &BundleLog) -> Result<Lines, AllocError>
    ensures { IfOk result (λ ls. ls ≡ spec.picture_lines (bundle_log_view log.now)) }
{
    let entries = log.entries.as_slice();
    let accounts = log.accounts.as_slice();
    let size = Size {
        entries: entries.len() as u64,
        lanes: accounts.len() as u64,
    };
    drawn(alloc, size, entries, accounts)
}
