// The lines of an instance.
ghost use Rattle.std.specs.Prelude.{◌≡◌, ◌<◌, ◌^◌, ◌∷◌, ◌++◌, [], map, option_map, IfOk};
ghost use Rattle.pgo_base.specs.View.{data_of};
ghost use Rattle.pgo_bundle.specs.BundleLog.{checked_log};
ghost use Rattle.pgo_bundle.specs.View.{account_view, attempt_view, bundle_log_view, version_view};
ghost use Rattle.pgo_model.specs.ModuleView.{module_view};
ghost use Rattle.pgo_show_text.specs.Causes.{all_counted, counted_line, line_in};
ghost use Rattle.pgo_show_text.specs.Facts.{causes};
ghost use Rattle.pgo_show_text.specs.Shown as spec;
ghost use Rattle.pgo_show_text.specs.Walks.{IsWalk};

use crate::causes::{Cause, causes, count_of};
use crate::counts::{Test, count};
use crate::last::push_last;
use crate::phrases::{cause_text, ending_text, label_text};
use crate::places::{blocked_in, label_at, label_in_state, process_with};
use crate::texts::value_text;
use crate::walk::States;
use pgo_base::module::Module;
use pgo_base::scope::State;
use pgo_base::text::Text;
use pgo_base::value::Value;
use pgo_bundle::log::{Account, Attempt, BundleLog, Version};
use pgo_lines::line::Piece::{Bytes, Name, Number};
use pgo_lines::line::{Line, Lines};
use std::alloc::{AllocError, Global};

/// The name of a process and ` = `, where it is known.
fn process_text(alloc: Global, process: Option<&Text>) -> Result<Line, AllocError>
    ensures { IfOk result (λ l. l ≡ spec.process_text (option_map (λ r. r.now) process.entry)) }
{
    match process {
        Some(name) => Line::of(alloc, &[Name(name), Bytes(b" = ")]),
        None => Line::of(alloc, &[]),
    }
}

/// The line with the number of an instance, the text on its process, and that of its identifier.
fn push_numbered<'texts>(
    lines: &mut Lines,
    alloc: Global,
    number: usize,
    process: &'texts Line,
    id: &'texts Text,
) -> Result<(), AllocError>
    ensures { IfOk result (λ _. lines.new ≡ lines.old ++ spec.numbered_line number process.now id.now ∷ []) }
{
    lines.push(
        alloc,
        &[
            Bytes(b"instance "),
            Number(number as u64),
            Bytes(b" ("),
            Bytes(process.as_bytes()),
            Bytes(id.as_bytes()),
            Bytes(b")"),
        ],
    )
}

/// The line with the number, the process and the identifier of an instance.
fn push_name(
    lines: &mut Lines,
    alloc: Global,
    number: usize,
    process: Option<&Text>,
    id: &Value,
) -> Result<(), AllocError>
    ensures { IfOk result (λ _. lines.new ≡ lines.old ++ spec.name_line number (option_map (λ r. r.now) process.entry) (data_of id.now) ∷ []) }
{
    let process = process_text(alloc, process)?;
    let id = value_text(alloc, id)?;
    push_numbered(lines, alloc, number, &process, &id)
}

/// The line with where it stands, and how it ended.
fn push_place(
    lines: &mut Lines,
    alloc: Global,
    label: &[u8],
    account: &Account,
) -> Result<(), AllocError>
    ensures { IfOk result (λ _. lines.new ≡ lines.old ++ spec.place_line label.now (account_view account.now) ∷ []) }
{
    lines.push(
        alloc,
        &[
            Bytes(b"  at "),
            Bytes(label_text(label)),
            Bytes(b", "),
            Bytes(ending_text(account.end)),
        ],
    )
}

/// The line with the counts of attempts.
fn push_counts(lines: &mut Lines, alloc: Global, attempts: &[Attempt]) -> Result<(), AllocError>
    ensures { IfOk result (λ _. lines.new ≡ lines.old ++ spec.counts_line (map attempt_view attempts.now) ∷ []) }
{
    lines.push(
        alloc,
        &[
            Bytes(b"  attempts "),
            Number(attempts.len() as u64),
            Bytes(b": committed "),
            Number(count(Test::Step, attempts) as u64),
            Bytes(b", blocked "),
            Number(count(Test::Blocked, attempts) as u64),
            Bytes(b", refused "),
            Number(count(Test::Refused, attempts) as u64),
        ],
    )
}

/// The line of a cause, of which so many are counted.
fn push_cause(
    lines: &mut Lines,
    alloc: Global,
    count: usize,
    cause: &Attempt,
) -> Result<(), AllocError>
    ensures { IfOk result (λ _. lines.new ≡ lines.old ++ counted_line count (attempt_view cause.now) ∷ []) }
{
    let text = cause_text(alloc, cause)?;
    lines.push(
        alloc,
        &[
            Bytes(b"  refused "),
            Number(count as u64),
            Bytes(b": "),
            Bytes(text.as_bytes()),
        ],
    )
}

/// A line for each cause.
fn push_causes(lines: &mut Lines, alloc: Global, causes: &[Cause<'_>]) -> Result<(), AllocError>
    requires { all_counted causes.now < 2 ^ 64 }
    ensures { IfOk result (λ _. lines.new ≡ lines.old ++ map (line_in causes.now) causes.now) }
{
    for cause in causes {
        push_cause(lines, alloc, count_of(cause.attempt, causes), cause.attempt)?;
    }
    Ok(())
}

/// A line for each cause of the refusals among these attempts.
fn push_refusals(lines: &mut Lines, alloc: Global, attempts: &[Attempt]) -> Result<(), AllocError>
    ensures { IfOk result (λ _. lines.new ≡ lines.old ++ map (spec.cause_line (map attempt_view attempts.now)) (causes [] (map attempt_view attempts.now))) }
{
    let causes = causes(alloc, attempts)?;
    push_causes(lines, alloc, causes.as_slice())
}

/// The lines of an account, of an instance that stands at this label, and whose last attempt was blocked in this state.
fn push_account(
    lines: &mut Lines,
    alloc: Global,
    m: &Module,
    version: Version,
    label: &[u8],
    state: &Option<State>,
    account: &Account,
) -> Result<(), AllocError>
    ensures { IfOk result (λ _. lines.new ≡ spec.with_account (module_view m.now) (version_view version) label.now state.now (account_view account.now) lines.old) }
{
    let attempts = account.attempts.as_slice();
    push_place(lines, alloc, label, account)?;
    push_counts(lines, alloc, attempts)?;
    push_refusals(lines, alloc, attempts)?;
    push_last(lines, alloc, m, version, label, attempts, state)
}

/// The lines of the instance of this number, of a log that has these states.
pub fn push_instance(
    lines: &mut Lines,
    alloc: Global,
    m: &Module,
    log: &BundleLog,
    states: &States,
    number: usize,
    account: &Account,
) -> Result<(), AllocError>
    requires { IsWalk log.now.start (checked_log (bundle_log_view log.now)).entries states.now }
    ensures { IfOk result (λ _. lines.new ≡ spec.with_instance (module_view m.now) (bundle_log_view log.now) number (account_view account.now) lines.old) }
{
    let id = &account.id;
    let process = process_with(label_at(id, &log.start), m.processes.as_slice());
    push_name(lines, alloc, number, process, id)?;
    let state = blocked_in(alloc, log, states, account.attempts.as_slice())?;
    let label = label_in_state(id, &states.last);
    push_account(lines, alloc, m, log.version, label, &state, account)
}
