// The last attempt of an instance.
ghost use Rattle.std.specs.Prelude.{◌≡◌, ◌∷◌, ◌++◌, [], map, option_map, IfOk};
ghost use Rattle.pgo_bundle.specs.View.{attempt_view, version_view};
ghost use Rattle.pgo_model.specs.ModuleView.{module_view};
ghost use Rattle.pgo_show_text.specs.Facts as facts;
ghost use Rattle.pgo_show_text.specs.Shown as spec;

use crate::action::push_action;
use crate::alike::is_step;
use crate::counts::at_end;
use crate::phrases::report_text;
use crate::places::action_at;
use crate::values::push_values;
use pgo_base::expr::Sub;
use pgo_base::module::Module;
use pgo_base::scope::State;
use pgo_bundle::log::{Attempt, Version};
use pgo_lines::line::Lines;
use pgo_lines::line::Piece::{Bytes, Number};
use std::alloc::{AllocError, Global};

/// The line of the last attempt, which is one of these.
fn push_report(
    lines: &mut Lines,
    alloc: Global,
    version: Version,
    attempts: &[Attempt],
    last: &Attempt,
) -> Result<(), AllocError>
    ensures { IfOk result (λ _. lines.new ≡ lines.old ++ spec.last_line (version_view version) (map attempt_view attempts.now) (attempt_view last.now) ∷ []) }
{
    let report = report_text(alloc, version, last)?;
    lines.push(
        alloc,
        &[
            Bytes(b"  last "),
            Number(at_end(last, attempts) as u64),
            Bytes(b": "),
            Bytes(report.as_bytes()),
        ],
    )
}

/// An action, and where a state is given, the values that the action's variables have there.
fn push_cause(
    lines: &mut Lines,
    alloc: Global,
    label: &[u8],
    action: Option<&Sub>,
    state: &Option<State>,
) -> Result<(), AllocError>
    ensures { IfOk result (λ _. lines.new ≡ spec.with_cause label.now (option_map (λ r. r.now) action.entry) state.now lines.old) }
{
    let Some(action) = action else {
        return Ok(());
    };
    push_action(lines, alloc, label, action)?;
    match state {
        Some(state) => push_values(lines, alloc, action, state.as_slice()),
        None => Ok(()),
    }
}

/// The action of the label at which the instance stands, where its last attempt is no entry; and the values of the action's variables
/// in the state in which this attempt was blocked.
fn push_stuck(
    lines: &mut Lines,
    alloc: Global,
    m: &Module,
    label: &[u8],
    last: &Attempt,
    state: &Option<State>,
) -> Result<(), AllocError>
    ensures { IfOk result (λ _. lines.new ≡ spec.with_stuck (module_view m.now) label.now (attempt_view last.now) state.now lines.old) }
{
    if is_step(last) {
        return Ok(());
    }
    let action = action_at(label, m.processes.as_slice());
    push_cause(lines, alloc, label, action, state)
}

/// What became of the last attempt, where there is one; it was blocked in this state, where one is given.
#[tactic(auto, using(crate::proofs::Lists::last_view))]
pub fn push_last(
    lines: &mut Lines,
    alloc: Global,
    m: &Module,
    version: Version,
    label: &[u8],
    attempts: &[Attempt],
    state: &Option<State>,
) -> Result<(), AllocError>
    ensures { IfOk result (λ _. lines.new ≡ spec.with_last (module_view m.now) (version_view version) label.now (map attempt_view attempts.now) (facts.last_of (map attempt_view attempts.now)) state.now lines.old) }
{
    match attempts.split_last() {
        Some((last, _)) => {
            push_report(lines, alloc, version, attempts, last)?;
            push_stuck(lines, alloc, m, label, last, state)
        }
        None => Ok(()),
    }
}
