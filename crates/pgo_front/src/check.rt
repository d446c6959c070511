// The command `check`: whether the log of a bundle is a run of its module.
ghost use Rattle.std.specs.Prelude.{◌≡◌, ◌≤◌, ◌⊎◌, length, Some, None, IfOk, IfErr, IfSome, OnOk};
ghost use Rattle.pgo_front.specs.Verdicts.{most_bundle_bytes, why_text};
ghost use Rattle.pgo_front.specs.Answers.{IsAtEnd, ReadsAll};
ghost use Rattle.pgo_front.specs.Makes.{HasBundleLine, IsLineToCheck, IsVerdictStatus, MakesJudged, MakesVerdict, StopsCheck, StopsJudging};

use crate::ended::Ended;
use crate::input::{MOST_BUNDLE_BYTES, read_input};
use crate::output::{Output, Written};
use crate::status::Status;
use pgo_check::verdict::{Verdict, Why};
use pgo_io::source::Source;
use pgo_lines::line::Lines;
use pgo_lines::line::Piece::{Bytes, Number};
use pgo_log_text::errors::LogStop;
use pgo_verdicts::judge::judge;
use std::alloc::{AllocError, Global};
use std::thread::Threads;

/// Makes the line of the verdict on the bundle that the input is.
pub fn make_check<T: Threads + Sync, S: Source>(
    rt: &T,
    alloc: Global,
    input: &mut S,
) -> Result<Output, Ended>
    ensures ok { IfOk result (λ m. IfSome (S.left input.old) (λ text. (length text ≤ most_bundle_bytes) × MakesJudged text m)) }
    ensures either { IfOk result IsVerdictStatus }
    ensures err { IfErr result (λ e. StopsCheck (S.left input.old) (S.faults input.old) (S.faults input.new) e.status) }
    ensures line { IfErr result (λ e. HasBundleLine IsLineToCheck (S.left input.old) e.status e.line) }
    ensures ended { OnOk result (IsAtEnd (S.left input.old) (S.left input.new)) }
    ensures steady { OnOk result (S.faults input.new ≡ S.faults input.old) }
    ensures failed { IfErr result (λ e. (e.status ≡ Status.ReadFault) ⊎ (S.faults input.new ≡ S.faults input.old)) }
    ensures ended_refused { IfErr result (λ e. ReadsAll e.status → IsAtEnd (S.left input.old) (S.left input.new)) }
{
    match read_input(alloc, input, MOST_BUNDLE_BYTES) {
        Ok(text) => check_text(rt, alloc, text.as_slice()),
        Err(status) => Err(Ended::as_status(status)),
    }
}

/// Makes the line of the verdict on the bundle that the text is.
fn check_text<T: Threads + Sync>(rt: &T, alloc: Global, text: &[u8]) -> Result<Output, Ended>
    ensures ok { IfOk result (MakesJudged text.now) }
    ensures either { IfOk result IsVerdictStatus }
    ensures err { IfErr result (λ e. StopsJudging text.now e.status) }
    ensures line { IfErr result (λ e. HasBundleLine IsLineToCheck (Some text.now) e.status e.line) }
{
    match judge(rt, alloc, text) {
        Ok(judgement) => make_verdict(alloc, judgement.verdict),
        Err(LogStop::BadLog { line }) => Err(Ended::as_no_bundle(alloc, line)),
        Err(LogStop::NoMemory) => Err(Ended::as_status(Status::NoMemory)),
    }
}

/// The status and the line of a verdict; without memory, the status of that.
fn make_verdict(alloc: Global, verdict: Verdict) -> Result<Output, Ended>
    ensures ok { IfOk result (MakesVerdict verdict) }
    ensures err { IfErr result (λ e. e.status ≡ Status.NoMemory) }
    ensures line { IfErr result (λ e. e.line ≡ None) }
{
    match verdict_made(alloc, verdict) {
        Ok(output) => Ok(output),
        Err(_) => Err(Ended::as_status(Status::NoMemory)),
    }
}

/// The status and the line of a verdict.
fn verdict_made(alloc: Global, verdict: Verdict) -> Result<Output, AllocError>
    ensures { IfOk result (MakesVerdict verdict) }
{
    let mut lines = Lines::new(alloc);
    match verdict {
        Verdict::Run { steps } => {
            lines.push(alloc, &[Bytes(b"run "), Number(steps)])?;
            Ok(Output {
                written: Written::Lines(lines),
                status: Status::Fine,
            })
        }
        Verdict::Bad { at, why } => {
            lines.push(
                alloc,
                &[Bytes(b"bad "), Number(at), Bytes(b" "), Bytes(reason(why))],
            )?;
            Ok(Output {
                written: Written::Lines(lines),
                status: Status::NotARun,
            })
        }
    }
}

/// The word of a reason.
fn reason(why: Why) -> &'static [u8]
    ensures { result.now ≡ why_text why }
{
    match why {
        Why::NoInit => b"NoInit",
        Why::NoStep => b"NoStep",
    }
}
