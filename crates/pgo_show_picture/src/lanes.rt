// The lanes, and the accounts in them.
ghost use Rattle.std.specs.Prelude.{◌≡◌, ◌∷◌, ◌++◌, [], map, IfOk};
ghost use Rattle.pgo_bundle.specs.View.{account_view, end_view, logged_entry_view};
ghost use Rattle.pgo_show_picture.specs.Picture as spec;

use crate::drawing::{push_ending, push_lane, push_name};
use crate::layout::{Size, down, lane_in, right_end};
use crate::marks::ending_text;
use crate::noted::push_attempts;
use pgo_bundle::log::{Account, LoggedEntry};
use pgo_lines::line::Lines;
use pgo_syntax::records::End;
use std::alloc::{AllocError, Global};

/// A lane of a band.
fn push_one(
    lines: &mut Lines,
    alloc: Global,
    size: Size,
    band: u64,
    lane: u64,
) -> Result<(), AllocError>
    ensures { IfOk result (λ _. lines.new ≡ (lines.old ++ spec.name_line size band lane ∷ []) ++ spec.lane_line size band lane ∷ []) }
{
    let y = lane_in(size, band, lane);
    push_name(lines, alloc, lane, y)?;
    push_lane(lines, alloc, y, right_end(size))
}

/// The lanes of a band, one for each account.
#[tactic(auto, unfolding(crate::specs::Picture::with_lanes))]
fn push_lanes(
    lines: &mut Lines,
    alloc: Global,
    size: Size,
    band: u64,
    accounts: &[Account],
) -> Result<(), AllocError>
    ensures { IfOk result (λ _. lines.new ≡ spec.with_lanes size band 0 (map account_view accounts.now) lines.old) }
{
    for (lane, _account) in accounts.iter().enumerate() {
        push_one(lines, alloc, size, band, lane as u64)?;
    }
    Ok(())
}

/// So many bands.
pub fn push_bands(
    lines: &mut Lines,
    alloc: Global,
    size: Size,
    accounts: &[Account],
    count: u64,
) -> Result<(), AllocError>
    ensures { IfOk result (λ _. lines.new ≡ spec.with_bands size (map account_view accounts.now) 0 count lines.old) }
{
    for band in 0..count {
        push_lanes(lines, alloc, size, band, accounts)?;
    }
    Ok(())
}

/// How the instance of a lane ended.
fn push_end(
    lines: &mut Lines,
    alloc: Global,
    size: Size,
    lane: u64,
    end: Option<End>,
) -> Result<(), AllocError>
    ensures { IfOk result (λ _. lines.new ≡ lines.old ++ spec.ending_line size lane (end_view end) ∷ []) }
{
    let y = down(size, lane, size.entries);
    push_ending(lines, alloc, right_end(size), y, ending_text(end))
}

/// The account of an instance, in its lane.
#[tactic(auto, unfolding(crate::specs::Picture::with_account))]
fn push_account(
    lines: &mut Lines,
    alloc: Global,
    entries: &[LoggedEntry],
    size: Size,
    lane: u64,
    account: &Account,
) -> Result<(), AllocError>
    ensures { IfOk result (λ _. lines.new ≡ spec.with_account (map logged_entry_view entries.now) size lane (account_view account.now) lines.old) }
{
    push_end(lines, alloc, size, lane, account.end)?;
    let attempts = account.attempts.as_slice();
    push_attempts(lines, alloc, entries, size, lane, attempts)
}

/// The accounts, each in its lane.
#[tactic(auto, unfolding(crate::specs::Picture::with_accounts))]
pub fn push_accounts(
    lines: &mut Lines,
    alloc: Global,
    entries: &[LoggedEntry],
    size: Size,
    accounts: &[Account],
) -> Result<(), AllocError>
    ensures { IfOk result (λ _. lines.new ≡ spec.with_accounts (map logged_entry_view entries.now) size 0 (map account_view accounts.now) lines.old) }
{
    for (lane, account) in accounts.iter().enumerate() {
        push_account(lines, alloc, entries, size, lane as u64, account)?;
    }
    Ok(())
}
