// The whole text.
ghost use Rattle.std.specs.Prelude.{◌≡◌, ◌∷◌, ◌++◌, [], map, IfOk};
ghost use Rattle.pgo_bundle.specs.BundleLog.{checked_log};
ghost use Rattle.pgo_bundle.specs.View.{account_view, bundle_log_view};
ghost use Rattle.pgo_model.specs.ModuleView.{module_view};
ghost use Rattle.pgo_show_text.specs.Shown as spec;
ghost use Rattle.pgo_show_text.specs.Walks.{IsWalk};

use crate::counts::all_attempts;
use crate::instance::push_instance;
use crate::phrases::status_text;
use crate::walk::{States, walk};
use pgo_base::module::Module;
use pgo_bundle::log::{Account, BundleLog};
use pgo_lines::line::Lines;
use pgo_lines::line::Piece::{Bytes, Number};
use std::alloc::{AllocError, Global};

/// The line on the whole.
fn push_whole(lines: &mut Lines, alloc: Global, log: &BundleLog) -> Result<(), AllocError>
    ensures { IfOk result (λ _. lines.new ≡ lines.old ++ spec.whole_line (bundle_log_view log.now) ∷ []) }
{
    let accounts = log.accounts.as_slice();
    let status = log.status as u64;
    lines.push(
        alloc,
        &[
            Bytes(b"instances "),
            Number(accounts.len() as u64),
            Bytes(b", entries "),
            Number(log.entries.as_slice().len() as u64),
            Bytes(b", attempts "),
            Number(all_attempts(accounts)),
            Bytes(b", status "),
            Number(status),
            Bytes(b": "),
            Bytes(status_text(status)),
        ],
    )
}

/// The lines of the instances with these accounts.
#[tactic(auto, unfolding(crate::specs::Shown::with_instances))]
fn push_instances(
    lines: &mut Lines,
    alloc: Global,
    m: &Module,
    log: &BundleLog,
    states: &States,
    accounts: &[Account],
) -> Result<(), AllocError>
    requires { IsWalk log.now.start (checked_log (bundle_log_view log.now)).entries states.now }
    ensures { IfOk result (λ _. lines.new ≡ spec.with_instances (module_view m.now) (bundle_log_view log.now) 0 (map account_view accounts.now) lines.old) }
{
    for (number, account) in accounts.iter().enumerate() {
        push_instance(lines, alloc, m, log, states, number, account)?;
    }
    Ok(())
}

/// The text that explains a bundle.
///
/// - a line on the whole: how many instances, entries and attempts there are, and what the status says;
/// - of each instance its number, its process and its identifier; the label at which it stands behind all entries, and how it ended;
///   how many attempts it made, and what they came to; what refused attempts, and how many; what the last attempt came to, and how
///   many at the end came to the same; where that is no entry, the action of that label; and where it was blocked, the values that the
///   variables which this action names had then.
///
/// An error is want of memory. Source: this project's choice.
pub fn shown(alloc: Global, m: &Module, log: &BundleLog) -> Result<Lines, AllocError>
    ensures { IfOk result (λ ls. ls ≡ spec.shown_lines (module_view m.now) (bundle_log_view log.now)) }
{
    let states = walk(alloc, log)?;
    let mut lines = Lines::new(alloc);
    push_whole(&mut lines, alloc, log)?;
    push_instances(&mut lines, alloc, m, log, &states, log.accounts.as_slice())?;
    Ok(lines)
}
