// The states of a log that are wanted, from one walk over its entries.
ghost use Rattle.std.specs.Prelude.{◌≡◌, Some, List, map, IfOk};
ghost use Rattle.pgo_base.specs.Lookup.{Vars};
ghost use Rattle.pgo_bundle.specs.BundleLog.{checked_log};
ghost use Rattle.pgo_bundle.specs.View.{bundle_log_view, logged_entry_view};
ghost use Rattle.pgo_model.specs.Log.{Effect, StateAt};
ghost use Rattle.pgo_model.specs.Machine.{Entry};
ghost use Rattle.pgo_show_text.specs.Walks.{AreStates, IsWalk};

use crate::places::{after, last_blocked};
use pgo_base::scope::State;
use pgo_bundle::log::{Account, BundleLog, LoggedEntry};
use std::alloc::{AllocError, Global};
use std::collections::{BTreeMap, BTreeSet};

/// The most states that are kept beside the last one.
const MOST_KEPT: usize = 1000;

/// The state behind all entries, none where an entry changes what isn't there; and states before it, by how many entries stand before
/// them.
#[derive(Drop)]
pub struct States {
    pub last: Option<State>,
    pub kept: BTreeMap<u64, State>,
}

/// Behind how many entries the last attempts of instances were blocked. No clause says which: any state may be kept.
fn wanted(alloc: Global, accounts: &[Account]) -> Result<BTreeSet<u64>, AllocError> {
    let mut counts = BTreeSet::new(alloc);
    for account in accounts {
        if let Some(count) = last_blocked(account.attempts.as_slice()) {
            counts.insert(count)?;
        }
    }
    Ok(counts)
}

/// Whether a state is kept: it is wanted, and not too many are kept.
fn is_kept(wanted: &BTreeSet<u64>, count: u64, kept: &BTreeMap<u64, State>) -> bool {
    wanted.contains(&count) && kept.len() < MOST_KEPT
}

/// Puts the state behind so many entries under their number.
fn put(
    alloc: Global,
    count: u64,
    state: &State,
    kept: &mut BTreeMap<u64, State>,
) -> Result<(), AllocError>
    ensures { IfOk result (λ _. (s : Vars) (es : List (Entry Effect)) → AreStates s es kept.old → StateAt s es count ≡ Some state.now → AreStates s es kept.new) }
{
    let copy = state.copy(alloc)?;
    kept.insert(count, copy)?;
    Ok(())
}

/// The same, where it is wanted and not too many are kept.
fn keep(
    alloc: Global,
    wanted: &BTreeSet<u64>,
    count: u64,
    state: &State,
    kept: &mut BTreeMap<u64, State>,
) -> Result<(), AllocError>
    ensures { IfOk result (λ _. (s : Vars) (es : List (Entry Effect)) → AreStates s es kept.old → StateAt s es count ≡ Some state.now → AreStates s es kept.new) }
{
    if is_kept(wanted, count, kept) {
        return put(alloc, count, state, kept);
    }
    Ok(())
}

/// The state behind these entries, from a state on, and those before it that are wanted.
fn walk_over(
    alloc: Global,
    wanted: &BTreeSet<u64>,
    start: &State,
    entries: &[LoggedEntry],
) -> Result<States, AllocError>
    ensures { IfOk result (λ w. IsWalk start.now (map (λ e. e.entry) (map logged_entry_view entries.now)) w) }
{
    let mut kept = BTreeMap::new(alloc);
    let mut state = start.copy(alloc)?;
    for (count, logged) in entries.iter().enumerate() {
        keep(alloc, wanted, count as u64, &state, &mut kept)?;
        let behind = after(alloc, state, &logged.entry)?;
        match behind {
            None => return Ok(States { last: None, kept }),
            Some(next) => state = next,
        }
    }
    Ok(States {
        last: Some(state),
        kept,
    })
}

/// The state behind all entries of a log, and before it those in which the last attempts of instances were blocked: at most 1,000,
/// since each may take as much memory as the start.
pub fn walk(alloc: Global, log: &BundleLog) -> Result<States, AllocError>
    ensures { IfOk result (λ w. IsWalk log.now.start (checked_log (bundle_log_view log.now)).entries w) }
{
    let wanted = wanted(alloc, log.accounts.as_slice())?;
    walk_over(alloc, &wanted, &log.start, log.entries.as_slice())
}
