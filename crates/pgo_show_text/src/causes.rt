// What refused attempts, each cause once, and how many it refused.
ghost use Rattle.std.specs.Prelude.{◌≡◌, ◌<◌, ◌^◌, false, true, map, IfOk};
ghost use Rattle.std.specs.Option.{MatchOption};
ghost use Rattle.pgo_bundle.specs.View.{attempt_view};
ghost use Rattle.pgo_show_text.specs.Facts as spec;
ghost use Rattle.pgo_show_text.specs.Causes.{AreCounted, IsOneMore, IsPlaceOf, all_counted, counted, line_of};

use crate::alike::{is_alike, is_refused};
use pgo_base::text::Text;
use pgo_base::value::Value;
use pgo_bundle::log::Attempt;
use std::alloc::{AllocError, Global};
use std::collections::BTreeMap;

/// A refusal, and how many are counted as it.
#[derive(Clone, Copy)]
pub struct Cause<'list> {
    pub attempt: &'list Attempt,
    pub count: usize,
}

/// A number that depends on one before it and on these bytes.
fn mixed(number: u64, bytes: &[u8]) -> u64 {
    let mut mixed = number;
    for byte in bytes {
        mixed = mixed
            .wrapping_mul(1_099_511_628_211)
            .wrapping_add(*byte as u64);
    }
    mixed
}

/// The same for an index: for its bytes, where it is a number or a name.
fn mixed_index(number: u64, index: &Option<Value>) -> u64 {
    match index {
        Some(Value::Int(value)) => mixed(number, &value.to_le_bytes()),
        Some(Value::Str(name)) | Some(Value::Model(name)) => mixed(number, name.as_bytes()),
        _ => number,
    }
}

/// The same for a resource.
fn mixed_resource(number: u64, variable: &Text, index: &Option<Value>) -> u64 {
    mixed_index(mixed(number, variable.as_bytes()), index)
}

/// The number under which the place of a cause is kept. Those that came to the same have one number; no clause says so, since a place
/// that is found is looked at.
fn number_of(attempt: &Attempt) -> u64 {
    match attempt {
        Attempt::Held {
            holder,
            variable,
            index,
        } => mixed_resource(*holder as u64, variable, index),
        Attempt::HeldJournal { holder } => *holder as u64,
        Attempt::Down {
            variable,
            index,
            ..
        } => mixed_resource(u64::MAX, variable, index),
        _ => u64::MAX,
    }
}

/// Whether the cause at this place came to the same.
fn is_at(attempt: &Attempt, found: &[Cause<'_>], place: usize) -> bool
    ensures { result ≡ true → IsPlaceOf (attempt_view attempt.now) found.now place }
{
    match found.get(place) {
        Some(cause) => is_alike(cause.attempt, attempt),
        None => false,
    }
}

/// The place of the first cause that came to the same.
fn first_place(attempt: &Attempt, found: &[Cause<'_>]) -> Option<usize>
    ensures { MatchOption result (spec.is_alike_one (attempt_view attempt.now) (map line_of found.now) ≡ false) (IsPlaceOf (attempt_view attempt.now) found.now) }
{
    for place in 0..found.len() {
        if is_alike(found[place].attempt, attempt) {
            return Some(place);
        }
    }
    None
}

/// The place of a cause that came to the same: this one, where it did, or else the first.
fn place_of(attempt: &Attempt, found: &[Cause<'_>], guess: Option<usize>) -> Option<usize>
    ensures { MatchOption result (spec.is_alike_one (attempt_view attempt.now) (map line_of found.now) ≡ false) (IsPlaceOf (attempt_view attempt.now) found.now) }
{
    match guess {
        Some(place) if is_at(attempt, found, place) => Some(place),
        _ => first_place(attempt, found),
    }
}

/// Counts an attempt as the cause at this place.
fn count_at(attempt: &Attempt, found: &mut Vec<Cause<'_>>, place: usize)
    requires place { IsPlaceOf (attempt_view attempt.now) found.now.items place }
    requires fits { all_counted found.now.items < 2 ^ 63 }
    ensures { IsOneMore (attempt_view attempt.now) found.old.items found.new.items }
{
    found[place].count += 1;
}

/// Counts an attempt as a cause of its own.
fn push_one<'list>(attempt: &'list Attempt, found: &mut Vec<Cause<'list>>) -> Result<(), AllocError>
    requires { spec.is_alike_one (attempt_view attempt.now) (map line_of found.now.items) ≡ false }
    ensures { IfOk result (λ _. IsOneMore (attempt_view attempt.now) found.old.items found.new.items) }
{
    found.push(Cause { attempt, count: 1 })?;
    Ok(())
}

/// Counts an attempt. The places of causes are kept under their numbers.
fn count_one<'list>(
    attempt: &'list Attempt,
    found: &mut Vec<Cause<'list>>,
    places: &mut BTreeMap<u64, usize>,
) -> Result<(), AllocError>
    requires { all_counted found.now.items < 2 ^ 63 }
    ensures { IfOk result (λ _. IsOneMore (attempt_view attempt.now) found.old.items found.new.items) }
{
    let number = number_of(attempt);
    let guess = places.get(&number).copied();
    match place_of(attempt, found.as_slice(), guess) {
        Some(place) => {
            count_at(attempt, found, place);
            Ok(())
        }
        None => {
            places.insert(number, found.len())?;
            push_one(attempt, found)
        }
    }
}

/// Each refusal that is like none before it, and how many are like it.
pub fn causes<'list>(
    alloc: Global,
    attempts: &'list [Attempt],
) -> Result<Vec<Cause<'list>>, AllocError>
    ensures { IfOk result (λ v. AreCounted (map attempt_view attempts.now) v.items) }
{
    let mut found = Vec::new(alloc);
    let mut places = BTreeMap::new(alloc);
    for attempt in attempts {
        if is_refused(attempt) {
            count_one(attempt, &mut found, &mut places)?;
        }
    }
    Ok(found)
}

/// How many attempts are counted as causes that came to the same as this one.
pub fn count_of(one: &Attempt, found: &[Cause<'_>]) -> usize
    requires { all_counted found.now < 2 ^ 64 }
    ensures { result ≡ counted (attempt_view one.now) found.now }
{
    let mut count = 0;
    for cause in found {
        if is_alike(one, cause.attempt) {
            count += cause.count;
        }
    }
    count
}
