// The lines of a bundle from `init` to `end`.
ghost use Rattle.std.specs.Prelude.{◌≡◌, [], map};
ghost use Rattle.pgo_model.specs.BundleParts as bundle_parts;
ghost use Rattle.pgo_base.specs.View.{data_of, named_data};
ghost use Rattle.pgo_bundle.specs.View.{bundle_log_view, version_view};
ghost use Rattle.pgo_log_text.specs.Lines as spec;
ghost use Rattle.pgo_log_text.specs.Parsers.{Reads, ReadsAs};

use crate::account::accounts;
use crate::cursor::Cursor;
use crate::entries::{entries, first_notes};
use crate::errors::LineStop;
use crate::field::{last_value, this_field, this_number};
use pgo_base::consts::Consts;
use pgo_base::module::Module;
use pgo_base::scope::State;
use pgo_base::text::Text;
use pgo_base::value::Value;
use pgo_bundle::log::{BundleLog, Version};
use std::alloc::Global;

/// The line `init` with the number of variables.
#[tactic(auto, unfolding(crate::specs::Lines::heading))]
fn heading(cursor: &mut Cursor<'_>, count: usize) -> Result<(), LineStop>
    ensures { Reads (spec.heading count cursor.old) result cursor.new }
{
    cursor.expect(b"init ")?;
    this_number(cursor, count)?;
    cursor.expect(b"\n")
}

/// A variable's line: `name = value`.
#[tactic(auto, unfolding(crate::specs::Lines::variable_line))]
fn variable_line(alloc: Global, cursor: &mut Cursor<'_>, name: &Text) -> Result<Value, LineStop>
    ensures { ReadsAs data_of (spec.variable_line name.now cursor.old) result cursor.new }
{
    cursor.expect(name.as_bytes())?;
    cursor.expect(b" = ")?;
    last_value(alloc, cursor)
}

/// The values of these variables at the start.
fn start(alloc: Global, cursor: &mut Cursor<'_>, names: &[Text]) -> Result<State, LineStop>
    ensures { Reads (spec.start names.now [] cursor.old) result cursor.new }
{
    let mut list = Vec::new(alloc);
    for name in names {
        let value = variable_line(alloc, cursor, name)?;
        list.push((name.copy(alloc)?, value))?;
    }
    Ok(State::from_vec(list))
}

/// Whether this is a status of a run.
fn is_run_status(status: u32) -> bool
    ensures { result ≡ bundle_parts.is_run_status status }
{
    status == 0 || status == 20 || status == 21 || status == 22 || status == 23
}

/// A status of a run.
#[tactic(auto, unfolding(crate::specs::Lines::run_status))]
fn run_status(cursor: &mut Cursor<'_>) -> Result<u32, LineStop>
    ensures { Reads (spec.run_status cursor.old) result cursor.new }
{
    let status = cursor.number()?;
    if is_run_status(status) {
        Ok(status)
    } else {
        Err(LineStop::BadLine)
    }
}

/// The status, where nothing stands behind it.
#[tactic(auto, unfolding(crate::specs::Lines::nothing_behind))]
fn nothing_behind(cursor: &mut Cursor<'_>, status: u32) -> Result<u32, LineStop>
    ensures { Reads (spec.nothing_behind status cursor.old) result cursor.new }
{
    if cursor.is_at_end() {
        Ok(status)
    } else {
        Err(LineStop::BadLine)
    }
}

/// The last line, and nothing behind it.
#[tactic(auto, unfolding(crate::specs::Lines::finish))]
fn finish(cursor: &mut Cursor<'_>, steps: usize) -> Result<u32, LineStop>
    ensures { Reads (spec.finish steps cursor.old) result cursor.new }
{
    cursor.expect(b"end ")?;
    this_field(cursor, steps)?;
    let status = run_status(cursor)?;
    cursor.expect(b"\n")?;
    nothing_behind(cursor, status)
}

/// The log of a bundle from `init` on, with these variables.
#[tactic(auto, unfolding(crate::specs::Lines::log_and_end))]
fn log_and_end(
    alloc: Global,
    cursor: &mut Cursor<'_>,
    version: Version,
    names: &[Text],
) -> Result<BundleLog, LineStop>
    ensures { ReadsAs bundle_log_view (spec.log_and_end (version_view version) names.now cursor.old) result cursor.new }
{
    heading(cursor, names.len())?;
    let start = start(alloc, cursor, names)?;
    let notes = first_notes(alloc, cursor, version)?;
    let entries = entries(alloc, cursor, version)?;
    let accounts = accounts(alloc, cursor)?;
    let status = finish(cursor, entries.as_slice().len())?;
    Ok(BundleLog {
        version,
        start,
        notes,
        entries,
        accounts,
        status,
    })
}

/// Whether these are the constants' names, in order.
pub fn are_named(consts: &[(Text, Value)], names: &[Text]) -> bool
    ensures { result ≡ spec.are_named (map named_data consts.now) names.now }
{
    if consts.len() != names.len() {
        return false;
    }
    for (i, name) in names.iter().enumerate() {
        if !consts[i].0.is(name) {
            return false;
        }
    }
    true
}

/// The log of a bundle from `init` on, with these constants, of this module.
#[tactic(auto, unfolding(crate::specs::Lines::log_of))]
pub fn log_of(
    alloc: Global,
    cursor: &mut Cursor<'_>,
    version: Version,
    consts: &Consts,
    written: &Module,
) -> Result<BundleLog, LineStop>
    ensures { ReadsAs bundle_log_view (spec.log_of (version_view version) consts.now written.now.constants written.now.variables cursor.old) result cursor.new }
{
    if are_named(consts.as_slice(), written.constants.as_slice()) {
        log_and_end(alloc, cursor, version, written.variables.as_slice())
    } else {
        Err(LineStop::BadLine)
    }
}
