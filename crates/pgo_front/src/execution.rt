// The commands `step` and `run`: a specification is run.
ghost use Rattle.std.specs.Prelude.{◌≡◌, ◌≤◌, ◌⊎◌, length, Err, IfOk, IfErr, IfSome, OnOk};
ghost use Rattle.pgo_accept.specs.Answers.{GivesExpansion};
ghost use Rattle.pgo_accept.specs.Refusals.{RefusedWith};
ghost use Rattle.pgo_execute.specs.Executes.{Executes};
ghost use Rattle.pgo_execute.specs.Gives.{IsRunStatus};
ghost use Rattle.pgo_log_text.specs.IsBundle.{AreCanonical};
ghost use Rattle.pgo_syntax.specs.RecordView.{settings_view};
ghost use Rattle.pgo_front.specs.Answers.{IsAtEnd, ReadsAll};
ghost use Rattle.pgo_front.specs.Makes.{HasLine, IsRunEnd, MakesRun, RefusesInput, StopsSpec, StopsSpecInput, mode_view};
ghost use Rattle.pgo_front.specs.Spells.{most_bytes};
ghost use Rattle.pgo_front.specs.Statuses.{number_of};

use crate::ended::Ended;
use crate::input::{MOST_BYTES, read_input};
use crate::mode::Mode;
use crate::output::{Output, Written};
use crate::status::Status;
use pgo_accept::errors::Rejection;
use pgo_base::consts::Consts;
use pgo_execute::execute::{Executed, execute, execute_on_threads};
use pgo_io::source::Source;
use pgo_syntax::records::Settings;
use pgo_threads::gate::Gate;
use pgo_verdicts::runs_are_accepted;
use std::alloc::Global;
use std::sync::Wait;
use std::thread::Threads;

/// Makes the bundle of a run of this kind, with these constants and settings, of the specification that the input spells. Texts
/// spell the constants' values.
pub fn make_execution<T: Threads + Wait + Sync, S: Source, G: Gate + Sync>(
    rt: &T,
    alloc: Global,
    mode: &Mode,
    consts: &Consts,
    settings: &Settings,
    input: &mut S,
    gate: &G,
) -> Result<Output, Ended>
    requires constants { AreCanonical consts.now }
    ensures ok { IfOk result (λ m. IfSome (S.left input.old) (λ text. (length text ≤ most_bytes) × MakesRun (mode_view mode.now) (settings_view settings.now) text consts.now m)) }
    ensures either { IfOk result (λ m. IsRunEnd m.status) }
    ensures err { IfErr result (λ e. StopsSpecInput consts.now (S.left input.old) (S.faults input.old) (S.faults input.new) e.status) }
    ensures line { IfErr result (λ e. HasLine (RefusesInput consts.now (S.left input.old)) e.status e.line) }
    ensures ended { OnOk result (IsAtEnd (S.left input.old) (S.left input.new)) }
    ensures steady { OnOk result (S.faults input.new ≡ S.faults input.old) }
    ensures failed { IfErr result (λ e. (e.status ≡ Status.ReadFault) ⊎ (S.faults input.new ≡ S.faults input.old)) }
    ensures ended_refused { IfErr result (λ e. ReadsAll e.status → IsAtEnd (S.left input.old) (S.left input.new)) }
{
    match read_input(alloc, input, MOST_BYTES) {
        Ok(text) => execute_text(rt, alloc, mode, consts, settings, text.as_slice(), gate),
        Err(status) => Err(Ended::as_status(status)),
    }
}

/// Makes the bundle of a run of the specification that the text spells.
fn execute_text<T: Threads + Wait + Sync, G: Gate + Sync>(
    rt: &T,
    alloc: Global,
    mode: &Mode,
    consts: &Consts,
    settings: &Settings,
    text: &[u8],
    gate: &G,
) -> Result<Output, Ended>
    requires constants { AreCanonical consts.now }
    ensures ok { IfOk result (MakesRun (mode_view mode.now) (settings_view settings.now) text.now consts.now) }
    ensures either { IfOk result (λ m. IsRunEnd m.status) }
    ensures err { IfErr result (λ e. StopsSpec text.now consts.now e.status) }
    ensures line { IfErr result (λ e. HasLine (RefusedWith text.now consts.now) e.status e.line) }
{
    runs_are_accepted();
    match run_text(rt, alloc, mode, consts, settings, text, gate) {
        Ok(executed) => Ok(Output {
            status: run_status(executed.status),
            written: Written::Text(executed.text),
        }),
        Err(rejection) => Err(Ended::as_rejected(alloc, &rejection)),
    }
}

/// Runs the specification that the text spells.
fn run_text<T: Threads + Wait + Sync, G: Gate + Sync>(
    rt: &T,
    alloc: Global,
    mode: &Mode,
    consts: &Consts,
    settings: &Settings,
    text: &[u8],
    gate: &G,
) -> Result<Executed, Rejection>
    requires constants { AreCanonical consts.now }
    ensures ok { IfOk result (λ r. Executes text.now consts.now (settings_view settings.now) (mode_view mode.now) r.status r.text) }
    ensures refused { IfErr result (λ e. GivesExpansion text.now consts.now (Err e)) }
{
    match mode {
        Mode::OneThread(schedule) => execute(alloc, text, consts, settings, schedule),
        Mode::Threads => execute_on_threads(rt, alloc, text, consts, settings, gate),
    }
}

/// The status of a run with this number.
fn run_status(number: u8) -> Status
    requires { IsRunStatus number }
    ensures number { number_of result ≡ number }
    ensures run { IsRunEnd result }
{
    match number {
        0 => Status::Fine,
        20 => Status::Stopped,
        21 => Status::Spent,
        22 => Status::Quiet,
        _ => Status::Full,
    }
}
