// The load: a specification made from a number, run and judged.
ghost use Rattle.std.specs.Prelude.{◌≡◌, ℕ, Err, IfOk, IfErr};
ghost use Rattle.pgo_accept.specs.Answers.{GivesExpansion};
ghost use Rattle.pgo_execute.specs.Executes.{Executes};
ghost use Rattle.pgo_execute.specs.Schedules.{Rounds};
ghost use Rattle.pgo_load.specs.Load.{Loads, load_consts, load_settings, load_text};

use crate::inputs::{consts_of, run_settings};
use crate::text::text_of;
use pgo_accept::errors::Rejection;
use pgo_base::results::both;
use pgo_check::verdict::Verdict;
use pgo_execute::execute::{Executed, execute};
use pgo_execute::schedule::Schedule;
use pgo_log_text::errors::LogStop;
use pgo_value_text::laws::canonical_text_is_value_text;
use pgo_verdicts::judge::{Judgement, judge};
use pgo_verdicts::runs_are_accepted;
use std::alloc::Global;
use std::thread::Threads;

/// How many instances the run of a load has, and how many entries.
#[derive(Clone, Copy)]
pub struct Loaded {
    pub instances: u64,
    pub steps: u64,
}

/// The bundle of the run of the load of this size.
fn run_load(alloc: Global, size: u32) -> Result<Executed, Rejection>
    ensures ok { IfOk result (λ x. Executes (load_text size) (load_consts size) load_settings Rounds x.status x.text) }
    ensures refused { IfErr result (λ e. GivesExpansion (load_text size) (load_consts size) (Err e)) }
{
    canonical_text_is_value_text();
    let settings = run_settings(alloc);
    match both(text_of(alloc, size), consts_of(alloc, size)) {
        Ok((text, consts)) => execute(
            alloc,
            text.as_slice(),
            &consts,
            &settings,
            &Schedule::Rounds,
        ),
        Err(_) => Err(Rejection::NoMemory),
    }
}

/// What a verdict that the log is a run says of a load.
fn load_of(judgement: Judgement) -> Loaded
    requires { (n : ℕ) × (judgement.verdict ≡ Verdict.Run n) }
    ensures steps { judgement.verdict ≡ Verdict.Run result.steps }
    ensures instances { result.instances ≡ judgement.instances }
{
    match judgement.verdict {
        Verdict::Run { steps } => Loaded {
            instances: judgement.instances as u64,
            steps,
        },
        Verdict::Bad { .. } => unreachable!(),
    }
}

/// Makes the specification of the load of this size, runs it in rounds on one thread with seed 0, at most 100,000 attempts of an
/// instance and at most 10,000 entries, reads its bundle back and judges it. There are so many processes that send a number 50
/// times, and as many that send it back, over mailboxes of length 1.
///
/// The error is the refusal of that specification, or that there was no memory. Source: this project's choice.
pub fn load<T: Threads + Sync>(rt: &T, alloc: Global, size: u32) -> Result<Loaded, Rejection>
    ensures ok { IfOk result (λ r. Loads size r.instances r.steps) }
    ensures refused { IfErr result (λ e. GivesExpansion (load_text size) (load_consts size) (Err e)) }
{
    runs_are_accepted();
    let executed = run_load(alloc, size)?;
    match judge(rt, alloc, executed.text.as_bytes()) {
        Ok(judgement) => Ok(load_of(judgement)),
        Err(LogStop::BadLog { .. }) => unreachable!(),
        Err(LogStop::NoMemory) => Err(Rejection::NoMemory),
    }
}
