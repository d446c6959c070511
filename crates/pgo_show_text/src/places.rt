// The states of a log, where instances stand in them, and the processes and the actions of labels.
ghost use Rattle.std.specs.Prelude.{◌≡◌, ◌≤◌, length, take, Some, IfOk, map, option_and_then, option_map};
ghost use Rattle.pgo_base.specs.ActionView.{action_pair};
ghost use Rattle.pgo_base.specs.Lookup.{find};
ghost use Rattle.pgo_base.specs.View.{data_of};
ghost use Rattle.pgo_model.specs.Log.{label_in as bytes_in, After, StateAt, after_changes};
ghost use Rattle.pgo_bundle.specs.BundleLog.{checked_log};
ghost use Rattle.pgo_bundle.specs.View.{attempt_view, bundle_log_view, logged_entry_view};
ghost use Rattle.pgo_model.specs.LogView.{change_view, entry_view};
ghost use Rattle.pgo_model.specs.ModuleView.{process_view};
ghost use Rattle.pgo_model.specs.Variables.{place_of as place_in_state};
ghost use Rattle.pgo_show_text.specs.Facts as spec;
ghost use Rattle.pgo_show_text.specs.Walks.{IsWalk};

use crate::alike::is_blocked_kind;
use crate::walk::States;
use pgo_base::expr::Sub;
use pgo_base::log::{Change, Entry};
use pgo_base::module::{Action, WrittenProcess};
use pgo_base::scope::State;
use pgo_base::text::Text;
use pgo_base::value::Value;
use pgo_bundle::log::{Attempt, BundleLog, LoggedEntry};
use pgo_check::states::{are_in, changed};
use pgo_sets::lookup::value_at;
use std::alloc::{AllocError, Global};

/// The state with these changes put in one after another, where each finds its component.
fn after_changes(
    alloc: Global,
    before: State,
    changes: &[Change],
) -> Result<Option<State>, AllocError>
    ensures { IfOk result (λ o. o ≡ after_changes (map change_view changes.now) before) }
{
    let mut state = before;
    for change in changes {
        match changed(alloc, state, change)? {
            None => return Ok(None),
            Some(next) => state = next,
        }
    }
    Ok(Some(state))
}

/// The state after an entry, made in place.
pub fn after(alloc: Global, before: State, entry: &Entry) -> Result<Option<State>, AllocError>
    ensures { IfOk result (λ o. o ≡ After before (entry_view entry.now).change) }
{
    let changes = entry.changes.as_slice();
    if !are_in(changes, &before) {
        return Ok(None);
    }
    after_changes(alloc, before, changes)
}

/// The state behind these entries, from a state on; none where an entry changes what isn't there.
fn behind_all(
    alloc: Global,
    start: &State,
    entries: &[LoggedEntry],
) -> Result<Option<State>, AllocError>
    ensures { IfOk result (λ o. o ≡ spec.behind_all start.now (map (λ e. e.entry) (map logged_entry_view entries.now))) }
{
    let mut state = start.copy(alloc)?;
    for logged in entries {
        match after(alloc, state, &logged.entry)? {
            None => return Ok(None),
            Some(next) => state = next,
        }
    }
    Ok(Some(state))
}

fn copy_state(alloc: Global, state: &Option<State>) -> Result<Option<State>, AllocError>
    ensures { IfOk result (λ o. o ≡ state.now) }
{
    match state {
        Some(state) => Ok(Some(state.copy(alloc)?)),
        None => Ok(None),
    }
}

/// The first so many entries.
fn front(entries: &[LoggedEntry], count: usize) -> &[LoggedEntry]
    requires { count ≤ length entries.now }
    ensures { result.now ≡ take count entries.now }
{
    &entries[..count]
}

/// The state behind the first so many entries, made anew where it isn't kept.
fn state_before(
    alloc: Global,
    log: &BundleLog,
    states: &States,
    count: usize,
) -> Result<Option<State>, AllocError>
    requires within { count ≤ length log.now.entries }
    requires states { IsWalk log.now.start (checked_log (bundle_log_view log.now)).entries states.now }
    ensures { IfOk result (λ o. o ≡ StateAt log.now.start (checked_log (bundle_log_view log.now)).entries count) }
{
    match states.kept.get(&(count as u64)) {
        Some(state) => Ok(Some(state.copy(alloc)?)),
        None => behind_all(alloc, &log.start, front(log.entries.as_slice(), count)),
    }
}

/// The state behind the first so many entries; none where there are fewer, or one of them changes what isn't there.
fn state_behind(
    alloc: Global,
    log: &BundleLog,
    states: &States,
    count: u64,
) -> Result<Option<State>, AllocError>
    requires { IsWalk log.now.start (checked_log (bundle_log_view log.now)).entries states.now }
    ensures { IfOk result (λ o. o ≡ StateAt log.now.start (checked_log (bundle_log_view log.now)).entries count) }
{
    let entries = log.entries.as_slice();
    let all = entries.len() as u64;
    if count == all {
        return copy_state(alloc, &states.last);
    }
    if count > all {
        return Ok(None);
    }
    state_before(alloc, log, states, count as usize)
}

/// Behind how many entries an attempt was blocked; none where it wasn't.
fn blocked_behind(attempt: &Attempt) -> Option<u64>
    ensures { result ≡ spec.blocked_behind (attempt_view attempt.now) }
{
    match attempt {
        Attempt::Noted { kind, position } => {
            if is_blocked_kind(*kind) {
                Some(*position as u64)
            } else {
                None
            }
        }
        _ => None,
    }
}

/// Behind how many entries the last of these attempts was blocked; none where it wasn't.
#[tactic(auto, using(crate::proofs::Lists::last_view))]
pub fn last_blocked(attempts: &[Attempt]) -> Option<u64>
    ensures { result ≡ option_and_then spec.blocked_behind (spec.last_of (map attempt_view attempts.now)) }
{
    match attempts.split_last() {
        Some((attempt, _)) => blocked_behind(attempt),
        None => None,
    }
}

/// The state in which the last of these attempts was blocked; none where it wasn't.
pub fn blocked_in(
    alloc: Global,
    log: &BundleLog,
    states: &States,
    attempts: &[Attempt],
) -> Result<Option<State>, AllocError>
    requires { IsWalk log.now.start (checked_log (bundle_log_view log.now)).entries states.now }
    ensures { IfOk result (λ o. o ≡ spec.blocked_in (checked_log (bundle_log_view log.now)) (spec.last_of (map attempt_view attempts.now))) }
{
    match last_blocked(attempts) {
        Some(count) => state_behind(alloc, log, states, count),
        None => Ok(None),
    }
}

/// Where the instance with this identifier stands.
fn place_of<'a>(id: &Value, state: &'a State) -> Option<&'a Value>
    ensures { option_map (λ r. data_of r.now) result ≡ place_in_state (data_of id.now) state.now }
{
    let Some(places) = state.find_bytes(b"pc") else {
        return None;
    };
    match places {
        Value::Fun(f) => value_at(f, id),
        _ => None,
    }
}

/// The bytes of a label.
fn label_in(place: Option<&Value>) -> &[u8]
    ensures { result.now ≡ bytes_in (option_map (λ r. data_of r.now) place.entry) }
{
    match place {
        Some(Value::Str(text)) => text.as_bytes(),
        _ => &[],
    }
}

/// The label at which an instance stands in a state; no bytes where it stands at none.
pub fn label_at<'a>(id: &Value, state: &'a State) -> &'a [u8]
    ensures { result.now ≡ spec.label_at (data_of id.now) (Some state.now) }
{
    label_in(place_of(id, state))
}

/// The same, where there is a state.
pub fn label_in_state<'a>(id: &Value, state: &'a Option<State>) -> &'a [u8]
    ensures { result.now ≡ spec.label_at (data_of id.now) state.now }
{
    match state {
        Some(state) => label_at(id, state),
        None => &[],
    }
}

/// Whether an action has this label.
fn has_action(label: &[u8], actions: &[Action]) -> bool
    ensures { result ≡ spec.has_action label.now (map action_pair actions.now) }
{
    for action in actions {
        if action.name.is_bytes(label) {
            return true;
        }
    }
    false
}

/// The name of the first process that has a label.
pub fn process_with<'a>(label: &[u8], processes: &'a [WrittenProcess]) -> Option<&'a Text>
    ensures { option_map (λ r. r.now) result ≡ spec.process_with label.now (map process_view processes.now) }
{
    for process in processes {
        if has_action(label, process.actions.as_slice()) {
            return Some(&process.name);
        }
    }
    None
}

/// The first action of a label.
fn action_in<'a>(label: &[u8], actions: &'a [Action]) -> Option<&'a Sub>
    ensures { option_map (λ r. r.now) result ≡ find label.now (map action_pair actions.now) }
{
    for action in actions {
        if action.name.is_bytes(label) {
            return Some(&action.body);
        }
    }
    None
}

/// The first action of a label, among those of these processes.
pub fn action_at<'a>(label: &[u8], processes: &'a [WrittenProcess]) -> Option<&'a Sub>
    ensures { option_map (λ r. r.now) result ≡ spec.action_at label.now (map process_view processes.now) }
{
    for process in processes {
        match action_in(label, process.actions.as_slice()) {
            Some(body) => return Some(body),
            None => {}
        }
    }
    None
}
